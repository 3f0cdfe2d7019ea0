// The octets of a frame, written into a buffer's front.
ghost use Rattle.std.specs.Prelude.{◌≡◌, ◌+◌, ◌≤◌, length, map, take};
ghost use Rattle.frame.specs.Kinds.{header_size};
ghost use Rattle.frame.specs.Messages.{header, entry_octets, tail_octets};
ghost use Rattle.frame.specs.Meaning.{entry_said};
ghost use Rattle.writer.specs.Places.{Wrote};

use frame::{Entry, Kind};

// A buffer, and how many octets stand in its front.
#[derive(Drop)]
pub(crate) struct FrameOctets<'a> {
    pub(crate) buf: &'a mut [u8],
    pub(crate) len: usize,
}

impl<'a> FrameOctets<'a> {
    // The octets that a frame of a kind begins with, so many standing behind its header.
    pub(crate) fn headed(kind: Kind, behind: usize, buf: &'a mut [u8]) -> FrameOctets<'a>
        requires { (header_size kind + behind ≤ 275) × (275 ≤ length buf.old) }
        ensures same_reference { result.buf.ghost_name ≡ buf.entry.ghost_name }
        ensures wrote { Wrote buf.old 0 (header kind behind) result.buf.now result.len }
    {
        let size = kind.header_size();
        let [high, low] = ((size + behind) as u16).to_be_bytes();
        let mut frame = FrameOctets { buf, len: 0 };
        frame.put(&[0x83, size as u8, 1, 0, u8::from(kind), 1, 0, 0, high, low]);
        frame
    }

    // Appends octets.
    #[inline]
    pub(crate) fn put(&mut self, more: &[u8])
        requires { self.old.len + length more.now ≤ length self.old.buf.now }
        ensures same_reference { self.new.buf.ghost_name ≡ self.old.buf.ghost_name }
        ensures wrote { Wrote self.old.buf.now self.old.len more.now self.new.buf.now self.new.len }
    {
        let at = self.len;
        let end = at + more.len();
        let buf = &mut *self.buf;
        buf[at..end].copy_from_slice(more);
        self.len = end;
    }

    // Appends an entry of a summary.
    #[inline]
    pub(crate) fn put_entry(&mut self, e: Entry)
        requires { self.old.len + 16 ≤ length self.old.buf.now }
        ensures same_reference { self.new.buf.ghost_name ≡ self.old.buf.ghost_name }
        ensures wrote { Wrote self.old.buf.now self.old.len (entry_octets (entry_said e)) self.new.buf.now self.new.len }
    {
        self.put(&e.lifetime.to_be_bytes());
        self.put(&e.id);
        self.put(&e.number.to_be_bytes());
        self.put(&[e.check.x, e.check.y]);
    }

    // Appends nothing, or one field of code 09 with the entries.
    pub(crate) fn put_tail(&mut self, entries: &[Entry])
        requires { (length entries.now ≤ 15) × (self.old.len + 242 ≤ length self.old.buf.now) }
        ensures same_reference { self.new.buf.ghost_name ≡ self.old.buf.ghost_name }
        ensures wrote { Wrote self.old.buf.now self.old.len (tail_octets (map entry_said entries.now)) self.new.buf.now self.new.len }
    {
        if entries.is_empty() {
            return;
        }
        self.put(&[9, (16 * entries.len()) as u8]);
        for e in entries {
            self.put_entry(*e);
        }
    }

    // The octets.
    pub(crate) fn as_slice(&self) -> &[u8]
        requires { self.now.len ≤ length self.now.buf.now }
        ensures { result.now ≡ take self.now.len self.now.buf.now }
    {
        let buf = &*self.buf;
        &buf[..self.len]
    }
}
