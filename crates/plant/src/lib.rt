// A plant is what carries frames: circuits with ends, at each of which a frame may wait.
#![tactic(auto)]

ghost use Rattle.std.specs.Prelude.{◌≡◌, ℕ, Bool, length, Option, Result};
ghost use Rattle.fault.specs.declared.CallFault.{CallFault as Refusal};
ghost use Rattle.plant.specs.Air.{Air, Frame, Lawful};
ghost use Rattle.plant.specs.Calls.{Put, Take, Puts, Takes, kind_answer, ends_answer, waits_answer};

pub mod asking;
mod sizes;

use fault::CallFault;
pub use sizes::{FrameOctets, check_room};

// A frame has 1 to this many octets, and a buffer to take one into at least so many.
pub const LONGEST: usize = 275;

// A circuit's number in its plant, from 0. A router's port number is another type.
#[derive(Clone, Copy, PartialEq, Eq, Debug)]
pub struct Circuit(pub usize);

// An end of a circuit: the circuit, and the end's number on it, from 0.
#[derive(Clone, Copy, PartialEq, Eq, Debug)]
pub struct End {
    pub circuit: Circuit,
    pub number: usize,
}

impl Circuit {
    // The end of this circuit that has the number.
    pub fn end(self, number: usize) -> End
        ensures { result ≡ record { circuit = self; number = number } }
    {
        End {
            circuit: self,
            number,
        }
    }
}

// What a circuit is: point-to-point with 2 ends, or broadcast with 2 to 8.
#[derive(Clone, Copy, PartialEq, Eq, Debug)]
pub enum Kind {
    PointToPoint,
    Broadcast,
}

// Frames of 1 to 275 octets go from one end of a circuit to all its other ends, and wait there until they are taken.
pub trait Plant {
    // each circuit's kind, and the frame, or none, that waits at each of its ends
    ghost air: { Self → Air };

    // that a frame was put at an end of a circuit, and which of the other ends missed it
    ghost put_over: { Self → Self → ℕ → ℕ → Frame → (ℕ → Bool) → Type 0 };

    // that an end of a circuit was asked for its frame, and what was taken
    ghost take_over: { Self → Self → ℕ → ℕ → Option Frame → Type 0 };

    // How many circuits there are.
    fn circuits(&self) -> usize
        ensures { result ≡ length (air self.now) };

    // A circuit's kind.
    fn kind(&self, circuit: Circuit) -> Result<Kind, CallFault>
        ensures { result ≡ kind_answer (air self.now) circuit.0 };

    // How many ends a circuit has.
    fn ends(&self, circuit: Circuit) -> Result<usize, CallFault>
        ensures { result ≡ ends_answer (air self.now) circuit.0 };

    // Whether a frame waits at an end.
    fn waits(&self, end: End) -> Result<bool, CallFault>
        ensures { result ≡ waits_answer (air self.now) end.circuit.0 end.number };

    // Puts a frame at an end: at each other end of the circuit it then waits, or is missed. Answers how many missed it.
    fn put(&mut self, end: End, frame: &[u8]) -> Result<usize, CallFault>
        ensures puts { Puts air put_over self.old self.new end.circuit.0 end.number frame.now result };

    // Moves the frame that waits at an end to the buffer's front and answers its length, or says that none waits.
    // The caller's buffer is filled and a length answered, as every call that hands octets out does.
    fn take(&mut self, end: End, buffer: &mut [u8]) -> Result<Option<usize>, CallFault>
        ensures takes { Takes air take_over self.old self.new end.circuit.0 end.number buffer.old buffer.new result };

    ghost lawful: { (p : Self) → Lawful (air p) };

    ghost put_means: { (p q : Self) (c e : ℕ) (f : Frame) (missed : ℕ → Bool) → put_over p q c e f missed → Put (air p) (air q) c e f missed };

    ghost take_means: { (p q : Self) (c e : ℕ) (got : Option Frame) → take_over p q c e got → Take (air p) (air q) c e got };
}
