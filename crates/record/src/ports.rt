// Ports and sets of ports.
ghost use Rattle.std.specs.Prelude.{◌≡◌, ℕ, ◌<◌, ◌≤◌, false, not, ◌&&◌, ◌||◌, MatchOption, ◌==◌};
ghost use Rattle.record.specs.Bits.{BitsStand};
ghost use Rattle.record.specs.Ports.{has_port, IsUnion, IsDifference};

use crate::port::{Port, Ports};
use std::ops::{BitOr, Sub};

impl Port {
    // The port of a number, unless it is over 7.
    pub fn new(n: u8) -> Option<Port>
        ensures { MatchOption result (8 ≤ n) (λ p. p.n ≡ n) }
    {
        if n < 8 { Some(Port { n }) } else { None }
    }

    // Its number.
    pub fn number(self) -> u8
        ensures is { result ≡ self.n }
        ensures few { result < 8 }
    {
        self.n
    }
}

impl Ports {
    // No port.
    #[tactic(auto, using(crate::proofs::Masks::bit_zero, crate::proofs::Masks::bits_stand))]
    pub fn none() -> Ports
        ensures is { (k : ℕ) → has_port result k ≡ false }
        ensures bits { BitsStand }
    {
        Ports { bits: 0 }
    }

    // One port.
    #[tactic(auto, using(crate::proofs::Masks::bit_shl))]
    pub fn only(port: Port) -> Ports
        ensures { (k : ℕ) → has_port result k ≡ (k == port.n) }
    {
        Ports { bits: 1 << port.n }
    }

    // These ports and one more.
    pub fn with(self, port: Port) -> Ports
        ensures { (k : ℕ) → has_port result k ≡ (has_port self k || k == port.n) }
    {
        self | Ports::only(port)
    }

    // These ports but one.
    pub fn without(self, port: Port) -> Ports
        ensures { (k : ℕ) → has_port result k ≡ (has_port self k && not (k == port.n)) }
    {
        self - Ports::only(port)
    }

    // Whether a port is one of these.
    pub fn has(self, port: Port) -> bool
        ensures { result ≡ has_port self port.n }
    {
        (self.bits >> port.n) % 2 == 1
    }
}

// The ports of both.
impl BitOr for Ports {
    type Output = Ports;

    ghost bitor_gives = { IsUnion };

    #[tactic(auto, using(crate::proofs::Masks::mask_steps))]
    fn bitor(self, more: Ports) -> Ports {
        Ports {
            bits: self.bits | more.bits,
        }
    }
}

// The ports of the first that the second has not.
impl Sub for Ports {
    type Output = Ports;

    ghost sub_gives = { IsDifference };

    #[tactic(auto, using(crate::proofs::Masks::mask_steps))]
    fn sub(self, less: Ports) -> Ports {
        Ports {
            bits: self.bits & !less.bits,
        }
    }
}
