// Questions about any plant, asked by its own questions alone.
ghost use Rattle.std.specs.Prelude.{◌≡◌, ℕ, ◌<◌, ◌≤◌, ◌↔◌, IsTrue, Bool, true, false, length, is_some, Some, None, MatchResult};
ghost use Rattle.plant.specs.Air.{line, ends_of, waiting, Drained, Quiet};
ghost use Rattle.plant.specs.Calls.{waits_elsewhere, put_refusal, Lost, Drains, RefusalsRight};

use crate::{Circuit, End, FrameOctets, LONGEST, Plant};
use fault::CallFault;

// How many ends a circuit has: none where there is no such circuit.
pub fn count_ends<P: Plant>(plant: &P, circuit: Circuit) -> usize
    ensures { result ≡ ends_of (P.air plant.now) circuit.0 }
{
    plant.ends(circuit).unwrap_or(0)
}

// Whether a frame waits at an end: none does where there is no such end.
pub fn is_waiting<P: Plant>(plant: &P, end: End) -> bool
    ensures { result ≡ is_some (waiting (P.air plant.now) end.circuit.0 end.number) }
{
    plant.waits(end).unwrap_or(false)
}

// Whether a frame waits at another end of the circuit.
pub fn is_blocked<P: Plant>(plant: &P, end: End) -> bool
    ensures { result ≡ waits_elsewhere (line (P.air plant.now) end.circuit.0).ends end.number (ends_of (P.air plant.now) end.circuit.0) }
{
    // Loops here and below: in a chain of the range a wrong range is refused at the proof file, not at the code.
    for k in 0..count_ends(plant, end.circuit) {
        if k != end.number && is_waiting(plant, end.circuit.end(k)) {
            return true;
        }
    }
    false
}

// The refusal that a put would answer, or else how many other ends the circuit has: so many miss a frame that none gets.
pub fn may_put<P: Plant>(plant: &P, end: End, frame: &[u8]) -> Result<usize, CallFault>
    ensures { MatchResult result (λ n. Lost (P.air plant.now) end.circuit.0 end.number frame.now n) (λ x. put_refusal (P.air plant.now) end.circuit.0 end.number frame.now ≡ Some x) }
{
    FrameOctets::new(frame)?;
    let ends = plant.ends(end.circuit)?;
    if end.number >= ends {
        return Err(CallFault::Unknown);
    }
    if is_blocked(plant, end) {
        return Err(CallFault::Waiting);
    }
    Ok(ends - 1)
}

// Whether nothing waits at any end of a circuit.
pub fn is_drained<P: Plant>(plant: &P, circuit: Circuit) -> bool
    ensures { IsTrue result ↔ Drained (P.air plant.now) circuit.0 }
{
    for k in 0..count_ends(plant, circuit) {
        if is_waiting(plant, circuit.end(k)) {
            return false;
        }
    }
    true
}

// Whether nothing waits in a plant.
pub fn is_quiet<P: Plant>(plant: &P) -> bool
    ensures { IsTrue result ↔ Quiet (P.air plant.now) }
{
    for c in 0..plant.circuits() {
        if !is_drained(plant, Circuit(c)) {
            return false;
        }
    }
    true
}

// Has every end of a circuit take, and lets go what was taken: nothing waits there then, and no other circuit changes.
// Who wants to see what was taken writes the loop: a closure for it would be no shorter.
pub fn drain<P: Plant>(plant: &mut P, circuit: Circuit)
    ensures { Drains (P.air plant.old) (P.air plant.new) circuit.0 }
{
    for k in 0..count_ends(plant, circuit) {
        let mut buffer = [0; LONGEST];
        let _ = plant.take(circuit.end(k), &mut buffer);
    }
}

// Nothing is done: what is ensured is that the refusals of put and take are each the first of their causes.
pub fn refusals_right()
    ensures { RefusalsRight }
{}
