ghost use Rattle.std.specs.Prelude.{◌≡◌};

use fault::CallFault;
use plant::Circuit;

// A pair joins two plants into one: the second's circuits are numbered on from the first's.
#[derive(Drop)]
pub struct Pair<P, Q> {
    pub(crate) first: P,
    pub(crate) second: Q,
}

// Two plants that cannot be joined, and why. No Debug, as a plant needs none: the refusal has it, and `From` gives it.
#[derive(Drop)]
pub struct Unpaired<P, Q> {
    pub refusal: CallFault,
    pub first: P,
    pub second: Q,
}

impl<P: Drop, Q: Drop> From<Unpaired<P, Q>> for CallFault {
    ghost from_gives = { λ back refusal. refusal ≡ back.refusal };

    fn from(back: Unpaired<P, Q>) -> CallFault {
        back.refusal
    }
}

// Where a circuit of a pair is: on the first plant, or on the second under a number of its own.
#[derive(Clone, Copy, PartialEq, Eq, Debug)]
pub(crate) enum Side {
    First,
    Second(Circuit),
}

mod calls;
