ghost use Rattle.std.specs.Prelude.{◌≤◌};
ghost use Rattle.arrayvec.specs.ArrayVec.{array_vec_len};

use crate::inbox::Inbox;
use arrayvec::ArrayVec;

// A wire is one circuit, with an inbox for each end and room for at most N ends. A frame put at one end waits at all the others.
// With room for 2 ends it is point-to-point, with room for more it is broadcast: a type for the kind beside the room would say it twice.
#[derive(Drop)]
pub struct Wire<const N: usize> {
    pub(crate) inboxes: ArrayVec<Inbox, N>,
    ghost some: { 2 ≤ array_vec_len inboxes },
    ghost few: { array_vec_len inboxes ≤ 8 },
    ghost room: { array_vec_len inboxes ≤ N },
}

mod calls;
