ghost use Rattle.std.specs.Prelude.{◌≡◌, replicate, Some, None, MatchResult};
ghost use Rattle.plant.specs.declared.Kind.TheVariants.{Broadcast};
ghost use Rattle.wires.specs.Wires.{alone, segment_air, size_refusal};

use crate::wire::Wire;
use fault::CallFault;

// A segment is one broadcast circuit of 2 to 8 ends; a frame put at one end waits at all the others.
pub type Segment = Wire<8>;

impl Wire<8> {
    // A segment of so many ends, on which nothing waits.
    pub fn new(ends: usize) -> Result<Segment, CallFault>
        ensures { MatchResult result (λ s. (size_refusal ends ≡ None) × (segment_air s ≡ alone Broadcast (replicate ends None))) (λ x. size_refusal ends ≡ Some x) }
    {
        if ends < 2 || ends > 8 {
            return Err(CallFault::Unknown);
        }
        Ok(Wire::bare(ends))
    }
}
