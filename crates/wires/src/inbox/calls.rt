ghost use Rattle.std.specs.Prelude.{◌≡◌, ℕ, ◌<◌, ◌≤◌, Bool, List, map, length, is_some, Some, None, slice_index_or, slice_set};
ghost use Rattle.plant.specs.Calls.{waits_elsewhere, moved, length_of};
ghost use Rattle.wires.specs.Held.{held};
ghost use Rattle.wires.specs.Wires.{spread};

use super::Inbox;
use plant::{FrameOctets, LONGEST};

impl Default for Inbox {
    ghost is_default = { λ b. held b ≡ None };

    // An inbox in which no frame waits.
    fn default() -> Inbox {
        Inbox {
            octets: [0; LONGEST],
            len: 0,
        }
    }
}

impl Inbox {
    // Whether a frame waits.
    pub(crate) fn waits(&self) -> bool
        ensures { result ≡ is_some (held self.now) }
    {
        self.len > 0
    }

    // The frame waits here, in place of what did.
    fn fill(&mut self, frame: FrameOctets)
        ensures { held self.new ≡ Some frame.entry.octets.now }
    {
        let octets = frame.octets();
        let n = octets.len();
        self.octets[0..n].copy_from_slice(octets);
        self.len = n;
    }
}

// Functions of inboxes, apart from the wire's methods, so that edits of the calls are refused at their own lines.
// Whether a frame waits in an inbox other than that of one end.
pub(crate) fn others_wait(inboxes: &[Inbox], end: usize) -> bool
    ensures { result ≡ waits_elsewhere (map held inboxes.now) end (length inboxes.now) }
{
    inboxes
        .iter()
        .enumerate()
        .any(|(k, inbox)| k != end && inbox.waits())
}

// The frame then waits in every inbox but that of one end.
pub(crate) fn fill_others(inboxes: &mut [Inbox], end: usize, frame: FrameOctets)
    ensures { map held inboxes.new ≡ spread (map held inboxes.old) (length inboxes.old) end frame.entry.octets.now }
{
    for (k, inbox) in inboxes.iter_mut().enumerate() {
        if k != end {
            inbox.fill(frame);
        }
    }
}

// Moves what waits in an inbox to the buffer's front, and answers its length.
// The room is required here and above: a loan of the front as an array would need a clause on what it leaves.
pub(crate) fn release(inbox: &mut Inbox, buffer: &mut [u8]) -> Option<usize>
    requires { 275 ≤ length buffer.old }
    ensures answer { result ≡ length_of (held inbox.old) }
    ensures buffer { buffer.new ≡ moved (held inbox.old) buffer.old }
    ensures after { held inbox.new ≡ None }
{
    let n = inbox.len;
    if n == 0 {
        return None;
    }
    buffer[..n].copy_from_slice(&inbox.octets[..n]);
    inbox.len = 0;
    Some(n)
}
