// The check octets of a frame: two sums over its octets modulo 255, and the two octets that make both sums 0.
ghost use Rattle.std.specs.Prelude.{◌≡◌, ◌*◌, ◌%◌, ◌<◌, ◌≤◌, true, false, [], length, drop, if◌then◌else◌, Some, None, MatchOption};
ghost use Rattle.octets.specs.Checks.{sums_of, sums_then, written, made_octets, has_places, with_check, check_octets, own_check, right, ComputedRight, RightComputed};
ghost use Rattle.octets.specs.Worked.{Worked};

// The two check octets of a frame.
#[derive(Clone, Copy, PartialEq, Eq, Debug, Default)]
pub struct CheckOctets {
    pub x: u8,
    pub y: u8,
}

// The two sums over octets, modulo 255.
#[derive(Clone, Copy, PartialEq, Eq, Debug)]
pub struct Sums {
    c0: u8,
    c1: u8,
}

impl Sums {
    // The sums over no octets.
    pub fn new() -> Sums
        ensures { result ≡ sums_of [] }
    {
        Sums { c0: 0, c1: 0 }
    }

    // The sums, running on over a part.
    pub fn over(self, part: &[u8]) -> Sums
        ensures { result ≡ sums_then self part.now }
    {
        let (c0, c1) = run_on(self, part);
        Sums {
            c0: c0 as u8,
            c1: c1 as u8,
        }
    }

    // The check octets from the sums, where so many octets stand behind the first of the two.
    pub fn octets(self, behind: usize) -> CheckOctets
        ensures { result ≡ made_octets behind self.c0 self.c1 }
    {
        let c0 = u16::from(self.c0);
        let c1 = u16::from(self.c1);
        let k_c0 = times(behind, self.c0);
        let x = (k_c0 + (255 - c1)) % 255;
        let y = (c1 + (255 - (k_c0 + c0) % 255)) % 255;
        CheckOctets {
            x: nonzero(x as u8),
            y: nonzero(y as u8),
        }
    }
}

// Both sums, running on over a part and reduced at each octet. Two numbers of 16 bits, which `over` cuts once.
fn run_on(from: Sums, part: &[u8]) -> (u16, u16)
    ensures plain { result.0 ≡ (sums_then from part.now).c0 }
    ensures weighted { result.1 ≡ (sums_then from part.now).c1 }
{
    let mut c0 = u16::from(from.c0) % 255;
    let mut c1 = u16::from(from.c1) % 255;
    for b in part {
        c0 = (c0 + u16::from(*b)) % 255;
        c1 = (c1 + c0) % 255;
    }
    (c0, c1)
}

// A product modulo 255.
fn times(k: usize, c: u8) -> u16
    ensures { result ≡ k * c % 255 }
{
    (k % 255) as u16 * u16::from(c) % 255
}

// 0 is written as 255.
fn nonzero(n: u8) -> u8
    ensures { result ≡ written n }
{
    if n == 0 { 255 } else { n }
}

// The sums over a part.
pub fn sums_of(part: &[u8]) -> Sums
    ensures { result ≡ sums_of part.now }
{
    Sums::new().over(part)
}

// The check octets of a part, for its places p and p + 1, counted from 1. Its own octets there are taken as 0.
pub fn check_octets(part: &[u8], p: usize) -> Option<CheckOctets>
    ensures made { result ≡ (if has_places p part.now then Some (check_octets p part.now) else None) }
    ensures right { MatchOption result (has_places p part.now ≡ false) (λ c. right p (with_check p c part.now) ≡ true) }
    ensures worked { Worked }
{
    if p == 0 || part.len() <= p {
        return None;
    }
    Some(computed(part, p))
}

// The same, of a part that has these places. Apart, so that an edit of the public function is refused at its own line.
fn computed(part: &[u8], p: usize) -> CheckOctets
    requires { has_places p part.now ≡ true }
    ensures made { result ≡ check_octets p part.now }
    ensures right { right p (with_check p result part.now) ≡ true }
    ensures always { ComputedRight }
{
    let before = Sums::new().over(&part[0..p - 1]);
    let all = before.over(&[0, 0]).over(&part[p + 1..]);
    all.octets(part.len() - p)
}

// Whether the check octets of a part are right, at its places p and p + 1, counted from 1.
pub fn is_right(part: &[u8], p: usize) -> bool
    ensures value { result ≡ right p part.now }
    ensures own { result ≡ true → own_check p part.now ≡ check_octets p part.now }
{
    if p == 0 || part.len() <= p {
        return false;
    }
    are_right(part, p)
}

// The same, of a part that has these places. Apart, as `computed` is.
fn are_right(part: &[u8], p: usize) -> bool
    requires { has_places p part.now ≡ true }
    ensures value { result ≡ right p part.now }
    ensures own { result ≡ true → own_check p part.now ≡ check_octets p part.now }
    ensures always { RightComputed }
{
    let all = sums_of(part);
    all.c0 == 0 && all.c1 == 0 && part[p - 1] != 0 && part[p] != 0
}

// The part of a frame that its check octets cover: from octet 12 on.
pub fn covered(frame: &[u8]) -> Option<&[u8]>
    ensures { MatchOption result (length frame.now < 12) (λ x. (12 ≤ length frame.now) × (x.now ≡ drop 12 frame.now)) }
{
    frame.get(12..)
}
