ghost use Rattle.std.specs.Prelude.{◌≡◌, ℕ, ◌+◌, ◌-◌, ◌<◌, ◌≤◌, ◌++◌, length, MatchResult};
ghost use Rattle.fault.specs.declared.CallFault.TheVariants.{TooMany};
ghost use Rattle.spans.specs.Pairs.{joined, Placed, PairPut, PairTake};
ghost use Rattle.spans.specs.Joined.{joined_lawful, pair_put_means, pair_take_means};

use super::{Pair, Side, Unpaired};
use fault::CallFault;
use plant::{Circuit, End, FrameOctets, Kind, Plant, check_room};

// A plant has at most so many circuits.
const MOST: usize = 12;

impl<P: Plant, Q: Plant> Pair<P, Q> {
    // Joins two plants, or hands both back where they have over 12 circuits together.
    pub fn new(first: P, second: Q) -> Result<Pair<P, Q>, Unpaired<P, Q>>
        ensures { MatchResult result
            (λ s. (length (P.air first) + length (Q.air second) ≤ 12) × (s.first ≡ first) × (s.second ≡ second) × (joined (P.air first) (Q.air second) ≡ P.air first ++ Q.air second))
            (λ x. (12 < length (P.air first) + length (Q.air second)) × (x.refusal ≡ TooMany) × (x.first ≡ first) × (x.second ≡ second)) }
    {
        if first.circuits() + second.circuits() > MOST {
            return Err(Unpaired {
                refusal: CallFault::TooMany,
                first,
                second,
            });
        }
        Ok(Pair { first, second })
    }

    // The first plant, lent.
    pub fn first(&self) -> &P
        ensures { result.now ≡ self.now.first }
    {
        &self.first
    }

    // The second plant, lent.
    pub fn second(&self) -> &Q
        ensures { result.now ≡ self.now.second }
    {
        &self.second
    }

    // Both plants, given back.
    pub fn into_parts(self) -> (P, Q)
        ensures { (result.0 ≡ self.first) × (result.1 ≡ self.second) }
    {
        let Pair { first, second } = self;
        (first, second)
    }

    // How many circuits there are.
    fn total(&self) -> usize
        ensures { result ≡ length (joined (P.air self.now.first) (Q.air self.now.second)) }
    {
        (self.first.circuits() + self.second.circuits()).min(MOST)
    }

    // Where the circuit is.
    fn side(&self, circuit: Circuit) -> Result<Side, CallFault>
        ensures { Placed (P.air self.now.first) (Q.air self.now.second) circuit.0 result }
    {
        let n = self.first.circuits();
        if circuit.0 < n {
            return Ok(Side::First);
        }
        if circuit.0 >= MOST {
            return Err(CallFault::Unknown);
        }
        Ok(Side::Second(Circuit(circuit.0 - n)))
    }
}

impl<P: Plant, Q: Plant> Plant for Pair<P, Q> {
    ghost air = { λ s. joined (P.air s.first) (Q.air s.second) };

    ghost put_over = { λ s t c e f missed. PairPut P.air P.put_over Q.put_over s.first t.first s.second t.second c e f missed };

    ghost take_over = { λ s t c e got. PairTake P.air P.take_over Q.take_over s.first t.first s.second t.second c e got };

    ghost lawful = { λ s. joined_lawful (P.air s.first) (Q.air s.second) (P.lawful s.first) (Q.lawful s.second) };

    ghost put_means = { λ s t c e f missed h. pair_put_means P.air Q.air P.put_over Q.put_over P.lawful P.put_means Q.put_means s.first t.first s.second t.second c e f missed h };

    ghost take_means = { λ s t c e got h. pair_take_means P.air Q.air P.take_over Q.take_over P.take_means Q.take_means s.first t.first s.second t.second c e got h };

    fn circuits(&self) -> usize {
        self.total()
    }

    fn kind(&self, circuit: Circuit) -> Result<Kind, CallFault> {
        match self.side(circuit)? {
            Side::First => self.first.kind(circuit),
            Side::Second(c) => self.second.kind(c),
        }
    }

    fn ends(&self, circuit: Circuit) -> Result<usize, CallFault> {
        match self.side(circuit)? {
            Side::First => self.first.ends(circuit),
            Side::Second(c) => self.second.ends(c),
        }
    }

    fn waits(&self, end: End) -> Result<bool, CallFault> {
        match self.side(end.circuit)? {
            Side::First => self.first.waits(end),
            Side::Second(c) => self.second.waits(c.end(end.number)),
        }
    }

    fn put(&mut self, end: End, frame: &[u8]) -> Result<usize, CallFault> {
        FrameOctets::new(frame)?;
        match self.side(end.circuit)? {
            Side::First => self.first.put(end, frame),
            Side::Second(c) => self.second.put(c.end(end.number), frame),
        }
    }

    fn take(&mut self, end: End, buffer: &mut [u8]) -> Result<Option<usize>, CallFault> {
        check_room(buffer)?;
        match self.side(end.circuit)? {
            Side::First => self.first.take(end, buffer),
            Side::Second(c) => self.second.take(c.end(end.number), buffer),
        }
    }
}
