// The header of a frame, whose faults all kinds share.
ghost use Rattle.std.specs.Prelude.{◌≡◌, ◌≤◌, length, IfOk};
ghost use Rattle.fault.specs.Order.{unless};
ghost use Rattle.frame.specs.Kinds.{header_size};
ghost use Rattle.frame.specs.Reading.{fixed, wrong_octet, length_off, header_answer};

use crate::cells::two_at;
use crate::kind::Kind;
use fault::FrameFault;

// The fixed octets with their places.
const FIXED: [(usize, u8); 6] = [(0, 0x83), (2, 1), (3, 0), (5, 1), (6, 0), (7, 0)];

// Refuses a frame whose fixed octets are not all right.
fn check_fixed(f: &[u8]) -> Result<(), FrameFault>
    requires { 8 ≤ length f.now }
    ensures { result ≡ unless (wrong_octet fixed f.now) tt }
{
    for (at, octet) in FIXED {
        if f[at] != octet {
            return Err(FrameFault::Fixed(at));
        }
    }
    Ok(())
}

// Whether the length is absent or wrong, the kind's header having this size. A bool: the refusal stands where it is asked.
fn length_is_off(f: &[u8], size: usize) -> bool
    ensures { result ≡ length_off size f.now }
{
    f.len() < 10 || usize::from(two_at(f, 8)) != f.len() || f.len() < size || f.len() > 275
}

// The kind of a frame, or the first fault of its header.
pub(crate) fn read_header(f: &[u8]) -> Result<Kind, FrameFault>
    ensures value { result ≡ header_answer f.now }
    ensures long { IfOk result (λ kind. header_size kind ≤ length f.now) }
{
    if f.len() < 8 {
        return Err(FrameFault::Short(f.len()));
    }
    check_fixed(f)?;
    let kind = Kind::try_from(f[4])?;
    if usize::from(f[1]) != kind.header_size() {
        return Err(FrameFault::Header);
    }
    if length_is_off(f, kind.header_size()) {
        return Err(FrameFault::Length);
    }
    Ok(kind)
}
