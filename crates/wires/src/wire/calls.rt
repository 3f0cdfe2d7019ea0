ghost use Rattle.std.specs.Prelude.{◌≡◌, ℕ, ◌<◌, ◌≤◌, map, length, replicate, is_some, Some, None, IfOk, MatchResult, slice_index_or, slice_set};
ghost use Rattle.fault.specs.declared.CallFault.TheVariants.{Unknown};
ghost use Rattle.plant.specs.Air.{ends_of};
ghost use Rattle.plant.specs.Calls.{Puts, waits_elsewhere, moved, length_of};
ghost use Rattle.wires.specs.Wires.{kind_of, spread, wire_ends, wire_air, wire_put, wire_take};
ghost use Rattle.std.proofs.Common.{rules};
ghost use Rattle.wires.specs.Alone.{wire_lawful};

use super::Wire;
use crate::inbox::{Inbox, fill_others, others_wait, release};
use arrayvec::ArrayVec;
use fault::CallFault;
use plant::{Circuit, End, FrameOctets, Kind, Plant, check_room};

impl<const N: usize> Wire<N> {
    // A wire of so many ends, on which nothing waits.
    pub(crate) fn bare(ends: usize) -> Wire<N>
        requires some { 2 ≤ ends }
        requires few { ends ≤ 8 }
        requires room { ends ≤ N }
        ensures { wire_ends result ≡ replicate ends None }
    {
        let mut inboxes = ArrayVec::new();
        for _ in 0..ends {
            inboxes.push(Inbox::default());
        }
        Wire { inboxes }
    }

    // Refuses any circuit but the wire's own.
    fn check(&self, circuit: Circuit) -> Result<(), CallFault>
        ensures { MatchResult result (λ _. circuit.0 ≡ 0) (λ x. (x ≡ Unknown) × (1 ≤ circuit.0)) }
    {
        if circuit.0 > 0 {
            return Err(CallFault::Unknown);
        }
        Ok(())
    }

    // How many ends there are.
    fn len(&self) -> usize
        ensures { result ≡ length (wire_ends self.now) }
    {
        self.inboxes.len()
    }

    // The number of an end of the wire.
    fn number(&self, end: End) -> Result<usize, CallFault>
        ensures { MatchResult result (λ k. (end.circuit.0 ≡ 0) × (k ≡ end.number) × (k < length (wire_ends self.now))) (λ x. (x ≡ Unknown) × (ends_of (wire_air self.now) end.circuit.0 ≤ end.number)) }
    {
        self.check(end.circuit)?;
        if end.number >= self.len() {
            return Err(CallFault::Unknown);
        }
        Ok(end.number)
    }

    // Whether a frame waits at an end.
    fn waits_at(&self, end: usize) -> bool
        requires { end < length (wire_ends self.now) }
        ensures { result ≡ is_some (slice_index_or (wire_ends self.now) end None) }
    {
        self.inboxes[end].waits()
    }

    // Whether a frame waits at another end.
    fn is_blocked(&self, end: usize) -> bool
        ensures { result ≡ waits_elsewhere (wire_ends self.now) end (length (wire_ends self.now)) }
    {
        others_wait(&self.inboxes, end)
    }

    // The frame then waits at all other ends.
    fn deliver(&mut self, end: usize, frame: FrameOctets)
        ensures { wire_ends self.new ≡ spread (wire_ends self.old) (length (wire_ends self.old)) end frame.entry.octets.now }
    {
        fill_others(&mut self.inboxes, end, frame);
    }

    // Moves what waits at an end to the buffer's front, and answers its length.
    fn release(&mut self, end: usize, buffer: &mut [u8]) -> Option<usize>
        requires place { end < length (wire_ends self.old) }
        requires room { 275 ≤ length buffer.old }
        ensures answer { result ≡ length_of (slice_index_or (wire_ends self.old) end None) }
        ensures buffer { buffer.new ≡ moved (slice_index_or (wire_ends self.old) end None) buffer.old }
        ensures after { wire_ends self.new ≡ slice_set (wire_ends self.old) end None }
    {
        release(&mut self.inboxes[end], buffer)
    }
}

impl<const N: usize> Plant for Wire<N> {
    ghost air = { wire_air };

    ghost put_over = { wire_put };

    ghost take_over = { wire_take };

    ghost lawful = { wire_lawful };

    ghost put_means = { Prim.search rules };

    ghost take_means = { Prim.search rules };

    fn circuits(&self) -> usize {
        1
    }

    fn kind(&self, circuit: Circuit) -> Result<Kind, CallFault> {
        self.check(circuit)?;
        if N == 2 {
            Ok(Kind::PointToPoint)
        } else {
            Ok(Kind::Broadcast)
        }
    }

    fn ends(&self, circuit: Circuit) -> Result<usize, CallFault> {
        self.check(circuit)?;
        Ok(self.len())
    }

    fn waits(&self, end: End) -> Result<bool, CallFault> {
        let number = self.number(end)?;
        Ok(self.waits_at(number))
    }

    fn put(&mut self, end: End, frame: &[u8]) -> Result<usize, CallFault>
        ensures puts { Puts wire_air wire_put self.old self.new end.circuit.0 end.number frame.now result }
        ensures whole { IfOk result (λ n. n ≡ 0) }
    {
        let frame = FrameOctets::new(frame)?;
        let number = self.number(end)?;
        if self.is_blocked(number) {
            return Err(CallFault::Waiting);
        }
        self.deliver(number, frame);
        Ok(0)
    }

    fn take(&mut self, end: End, buffer: &mut [u8]) -> Result<Option<usize>, CallFault> {
        check_room(buffer)?;
        let number = self.number(end)?;
        Ok(self.release(number, buffer))
    }
}
