ghost use Rattle.std.specs.Prelude.{◌≡◌, ℕ, ◌+◌, ◌<◌, ◌≤◌, Bool, true, false, length, replicate};
ghost use Rattle.spans.specs.Fades.{bit_of, one_more, fades_next, next, patterns_of, accepted_of, FaderPut, FaderTake, FadesByNumber};
ghost use Rattle.spans.specs.Faded.{fader_put_means};

use super::{Fade, Fader};
use fault::CallFault;
use plant::asking::may_put;
use plant::{Circuit, End, Kind, Plant};

impl Fade {
    // Whether the next frame that is accepted fades: the bit of its number modulo 64 is set.
    fn fades(&self) -> bool
        ensures { result ≡ bit_of self.now.pattern self.now.accepted }
    {
        (self.pattern >> (self.accepted % 64)) % 2 == 1
    }

    // One frame more is accepted.
    fn count(&mut self)
        ensures { self.new ≡ record { pattern = self.old.pattern; accepted = one_more self.old.accepted } }
    {
        self.accepted = (self.accepted % 64 + 1) % 64;
    }
}

impl<P: Plant> Fader<P> {
    // A fader that has accepted nothing yet. The patterns beyond the plant's circuits are not used.
    pub fn new(below: P, patterns: [u64; 12]) -> Fader<P>
        ensures made { (result.below ≡ below) × (patterns_of result.circuits ≡ patterns) × (accepted_of result.circuits ≡ replicate 12 0) }
        ensures fades { FadesByNumber P.air P.put_over P.take_over patterns }
    {
        Fader {
            below,
            circuits: patterns.map(|pattern| Fade {
                pattern,
                accepted: 0,
            }),
        }
    }

    // The plant below, lent.
    pub fn below(&self) -> &P
        ensures { result.now ≡ self.now.below }
    {
        &self.below
    }

    // The plant below, given back.
    pub fn into_below(self) -> P
        ensures { result ≡ self.below }
    {
        let Fader { below, circuits: _ } = self;
        below
    }

    // Whether the next frame that is accepted on the circuit fades.
    fn fades(&self, circuit: Circuit) -> bool
        ensures { result ≡ fades_next (patterns_of self.now.circuits) (accepted_of self.now.circuits) circuit.0 }
    {
        // An index: the search does not follow `get` and `is_some_and`.
        circuit.0 < self.circuits.len() && self.circuits[circuit.0].fades()
    }

    // One frame more is accepted on the circuit.
    fn count(&mut self, circuit: Circuit)
        ensures below { self.new.below ≡ self.old.below }
        ensures patterns { patterns_of self.new.circuits ≡ patterns_of self.old.circuits }
        ensures accepted { accepted_of self.new.circuits ≡ next (accepted_of self.old.circuits) circuit.0 }
    {
        // An index: what `get_mut` lends back has no name that a proof may cite.
        if circuit.0 < self.circuits.len() {
            self.circuits[circuit.0].count();
        }
    }
}

impl<P: Plant> Plant for Fader<P> {
    ghost air = { λ s. P.air s.below };

    ghost put_over = { λ s t c e f missed. FaderPut P.air P.put_over s.below t.below (patterns_of s.circuits) (patterns_of t.circuits) (accepted_of s.circuits) (accepted_of t.circuits) c e f missed };

    ghost take_over = { λ s t c e got. FaderTake P.take_over s.below t.below (patterns_of s.circuits) (patterns_of t.circuits) (accepted_of s.circuits) (accepted_of t.circuits) c e got };

    ghost lawful = { λ s. P.lawful s.below };

    ghost put_means = { λ s t c e f missed h. fader_put_means P.air P.put_over P.put_means s.below t.below (patterns_of s.circuits) (patterns_of t.circuits) (accepted_of s.circuits) (accepted_of t.circuits) c e f missed h };

    ghost take_means = { λ s t c e got h. P.take_means s.below t.below c e got h.below };

    fn circuits(&self) -> usize {
        self.below.circuits()
    }

    fn kind(&self, circuit: Circuit) -> Result<Kind, CallFault> {
        self.below.kind(circuit)
    }

    fn ends(&self, circuit: Circuit) -> Result<usize, CallFault> {
        self.below.ends(circuit)
    }

    fn waits(&self, end: End) -> Result<bool, CallFault> {
        self.below.waits(end)
    }

    fn put(&mut self, end: End, frame: &[u8]) -> Result<usize, CallFault> {
        let missed = if self.fades(end.circuit) {
            may_put(&self.below, end, frame)?
        } else {
            self.below.put(end, frame)?
        };
        self.count(end.circuit);
        Ok(missed)
    }

    fn take(&mut self, end: End, buffer: &mut [u8]) -> Result<Option<usize>, CallFault> {
        self.below.take(end, buffer)
    }
}
