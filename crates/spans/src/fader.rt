// A fader stands over a plant, with a pattern of 64 bits for each circuit: where bit n modulo 64, 0 being the lowest, is set, all other ends
// miss the n-th frame that is accepted on that circuit, counted from 0. Any other frame goes to the plant below.
#[derive(Drop)]
pub struct Fader<P> {
    pub(crate) below: P,
    pub(crate) circuits: [Fade; 12],
}

// What fades on one circuit.
#[derive(Clone, Copy, PartialEq, Eq, Debug)]
pub(crate) struct Fade {
    pub(crate) pattern: u64,
    // how many frames were accepted, modulo 64
    pub(crate) accepted: u32,
}

mod calls;
