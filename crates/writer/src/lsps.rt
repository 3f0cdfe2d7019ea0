// Writing LSPs.
ghost use Rattle.std.specs.Prelude.{◌≡◌, ◌-◌, ◌≤◌, true, length};
ghost use Rattle.octets.specs.Checks.{check_octets, right};
ghost use Rattle.frame.specs.Messages.{lsp, covered_part, encode};
ghost use Rattle.frame.specs.Meaning.{lsp_said};
ghost use Rattle.writer.specs.Places.{Wrote};
ghost use Rattle.writer.specs.Writing.{with_check_octets, Sized, Writes};

use crate::frame_octets::FrameOctets;
use fault::FrameFault;
use frame::{Entry, FrameReader, Kind, Lsp};
use octets::{CheckOctets, Sums};

// The frame that says an LSP, in a buffer's front. Octets 10 to 25 are those of an entry.
fn lsp_octets<'a>(m: &Lsp<'_>, buf: &'a mut [u8]) -> FrameOctets<'a>
    requires { (length m.now.body.now ≤ 248) × (275 ≤ length buf.old) }
    ensures same_reference { result.buf.ghost_name ≡ buf.entry.ghost_name }
    ensures wrote { Wrote buf.old 0 (encode (lsp (lsp_said m.now))) result.buf.now result.len }
    ensures sized { Sized (lsp_said m.now) }
{
    let mut frame = FrameOctets::headed(Kind::Lsp, m.body.len(), buf);
    frame.put_entry(Entry {
        lifetime: m.lifetime,
        id: m.id,
        number: m.number,
        check: m.check,
    });
    frame.put(&[m.flags]);
    frame.put(m.body);
    frame
}

// Writes an LSP into the caller's buffer, at its front, and answers its length, as every call that hands octets out. It is refused as reading it would be: whatever the
// check octets say, the frame is made apart and read before it goes into the buffer.
pub fn write_lsp(m: &Lsp<'_>, buf: &mut [u8]) -> Result<usize, FrameFault>
    ensures { Writes (lsp (lsp_said m.now)) buf.old buf.new result }
{
    if buf.len() < 275 {
        return Err(FrameFault::Size);
    }
    if m.body.len() > 248 {
        return Err(FrameFault::Length);
    }
    let mut apart = [0; 275];
    let frame = lsp_octets(m, &mut apart);
    let whole = frame.as_slice();
    FrameReader::new(whole).message()?;
    let n = whole.len();
    buf[..n].copy_from_slice(whole);
    Ok(n)
}

// The check octets that make an LSP right, whatever it has.
pub fn computed_check(m: &Lsp<'_>) -> CheckOctets
    ensures is { result ≡ check_octets 13 (covered_part (lsp_said m.now)) }
    ensures right { right 13 (covered_part (with_check_octets result (lsp_said m.now))) ≡ true }
{
    Sums::new()
        .over(&m.id)
        .over(&m.number.to_be_bytes())
        .over(&[0, 0, m.flags])
        .over(m.body)
        .octets(behind_first(m))
}

// How many covered octets stand behind the first check octet.
fn behind_first(m: &Lsp<'_>) -> usize
    ensures { result ≡ length (covered_part (lsp_said m.now)) - 13 }
{
    m.body.len() + 2
}
