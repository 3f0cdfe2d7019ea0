// Numbers and identifiers at an offset of a frame. Offsets, and no cursor: the format gives each part its offset.
ghost use Rattle.std.specs.Prelude.{◌≡◌, ◌+◌, ◌≤◌, length};
ghost use Rattle.octets.specs.Octets.{part, field};
ghost use Rattle.frame.specs.Reading.{check_at};

use octets::CheckOctets;

// The N octets from an offset on.
pub(crate) fn array_at<const N: usize>(f: &[u8], at: usize) -> [u8; N]
    requires { at + N ≤ length f.now }
    ensures { result ≡ part at N f.now }
{
    let mut octets = [0; N];
    octets.copy_from_slice(&f[at..at + N]);
    octets
}

pub(crate) fn two_at(f: &[u8], at: usize) -> u16
    requires { at + 2 ≤ length f.now }
    ensures { result ≡ field at 2 f.now }
{
    u16::from_be_bytes(array_at(f, at))
}

pub(crate) fn four_at(f: &[u8], at: usize) -> u32
    requires { at + 4 ≤ length f.now }
    ensures { result ≡ field at 4 f.now }
{
    u32::from_be_bytes(array_at(f, at))
}

pub(crate) fn check_octets_at(f: &[u8], at: usize) -> CheckOctets
    requires { at + 2 ≤ length f.now }
    ensures { result ≡ check_at at f.now }
{
    let [x, y]: [u8; 2] = array_at(f, at);
    CheckOctets { x, y }
}
