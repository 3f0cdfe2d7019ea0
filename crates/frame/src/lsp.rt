// Reading an LSP whose header is right.
ghost use Rattle.std.specs.Prelude.{◌≡◌, ◌≤◌, length, Some, None, MatchResult};
ghost use Rattle.fault.specs.Order.{first_fault};
ghost use Rattle.frame.specs.Reading.{check_wrong, lsp_faults, lsp_in};
ghost use Rattle.frame.specs.Meaning.{lsp_said};

use crate::cells::two_at;
use crate::entries::read_entry;
use crate::message::{Entry, Lsp};
use fault::FrameFault;
use octets::{check_body, is_right};

// A bool, since the refusal stands where it is asked: whether a live LSP's check octets are wrong, which stand at places 13 and 14 of the part that they cover.
fn check_is_wrong(f: &[u8]) -> bool
    requires { 12 ≤ length f.now }
    ensures { result ≡ check_wrong f.now }
{
    let (_, part) = f.split_at(12);
    two_at(f, 10) > 0 && !is_right(part, 13)
}

// What the LSP says, or its first fault. Check octets are looked at only where it is live.
// It takes the whole frame, of which the definitions speak; `read_header` ensures that the header is there.
pub(crate) fn read_lsp(f: &[u8]) -> Result<Lsp<'_>, FrameFault>
    requires { 27 ≤ length f.now }
    ensures { MatchResult result (λ m. (first_fault (lsp_faults f.now) ≡ None) × (lsp_said m ≡ lsp_in f.now)) (λ e. first_fault (lsp_faults f.now) ≡ Some e) }
{
    let (_, body) = f.split_at(27);
    check_body(body, 27)?;
    let Entry {
        lifetime,
        id,
        number,
        check,
    } = read_entry(f, 10);
    if lifetime > 1200 {
        return Err(FrameFault::Lifetime(10));
    }
    if number == 0 {
        return Err(FrameFault::Number);
    }
    if check_is_wrong(f) {
        return Err(FrameFault::Check);
    }
    Ok(Lsp {
        lifetime,
        id,
        number,
        check,
        flags: f[26],
        body,
    })
}
