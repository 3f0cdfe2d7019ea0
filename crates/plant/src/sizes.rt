// The sizes of frames and buffers.
ghost use Rattle.std.specs.Prelude.{◌≡◌, ◌<◌, ◌≤◌, ◌⊎◌, length, MatchResult};
ghost use Rattle.fault.specs.declared.FrameFault.TheVariants.{Size};
ghost use Rattle.fault.specs.declared.CallFault.TheVariants.{Frame};

use crate::LONGEST;
use fault::{CallFault, FrameFault};

// The octets of a frame: 1 to 275 of them.
#[derive(Clone, Copy)]
pub struct FrameOctets<'a> {
    octets: &'a [u8],
    pub ghost some: { 1 ≤ length octets.now },
    pub ghost few: { length octets.now ≤ 275 },
}

impl<'a> FrameOctets<'a> {
    // Octets as a frame; the refusal is that of their size.
    pub fn new(octets: &'a [u8]) -> Result<FrameOctets<'a>, CallFault>
        ensures { MatchResult result (λ f. (1 ≤ length octets.now) × (length octets.now ≤ 275) × (f.octets.now ≡ octets.now)) (λ x. (x ≡ Frame Size) × ((length octets.now < 1) ⊎ (275 < length octets.now))) }
    {
        if octets.is_empty() || octets.len() > LONGEST {
            return Err(CallFault::Frame(FrameFault::Size));
        }
        Ok(FrameOctets { octets })
    }

    // The octets, of which there are 1 to 275.
    pub fn octets(&self) -> &'a [u8]
        ensures { (result.now ≡ self.now.octets.now) × (1 ≤ length result.now) × (length result.now ≤ 275) }
    {
        self.octets
    }
}

// Refuses a buffer that has not room for every frame.
pub fn check_room(buffer: &[u8]) -> Result<(), CallFault>
    ensures { MatchResult result (λ _. 275 ≤ length buffer.now) (λ x. (x ≡ Frame Size) × (length buffer.now < 275)) }
{
    if buffer.len() < LONGEST {
        return Err(CallFault::Frame(FrameFault::Size));
    }
    Ok(())
}
