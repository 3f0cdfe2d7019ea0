ghost use Rattle.std.specs.Prelude.{◌≡◌, ◌≤◌, length};

use plant::LONGEST;

// Where the frame for one end waits: the first `len` octets. A frame has 1 to 275, so a length of 0 means that none waits.
// For speed the octets lie in place and are not blanked: an Option of a frame would be moved whole, an ArrayVec cleared, at each take.
#[derive(Clone, Copy)]
pub(crate) struct Inbox {
    pub(crate) octets: [u8; LONGEST],
    pub(crate) len: usize,
    ghost few: { len ≤ 275 },
    ghost whole: { length octets ≡ 275 },
}

mod calls;

pub(crate) use calls::{fill_others, others_wait, release};
