// Reading a summary whose header is right.
ghost use Rattle.std.specs.Prelude.{◌≡◌, ◌+◌, ◌*◌, ◌%◌, ◌≤◌, true, false, ◌&&◌, ◌||◌, length, drop, Some, None, Ok, Err, MatchResult, nat_lt};
ghost use Rattle.fault.specs.declared.FrameFault.TheVariants.{Tail};
ghost use Rattle.fault.specs.Order.{first_fault, unless};
ghost use Rattle.octets.specs.Octets.{value};
ghost use Rattle.frame.specs.declared.message.Message.TheVariants.{Csnp as SaysCsnp, Psnp as SaysPsnp};
ghost use Rattle.frame.specs.Meaning.{Lists, entries_in, csnp_said, psnp_said, OwnParts};
ghost use Rattle.frame.specs.Reading.{tail_right, field_lists, floor, entries_faults, csnp_faults, psnp_faults, csnp_in, psnp_in};

use crate::cells::array_at;
use crate::message::{Csnp, Entries, Psnp};
use fault::FrameFault;
use octets::{IdRange, LspId, before, read_field};

// A bool, since the refusal stands where it is asked: whether a field of this code, with this value and this rest behind it, holds 1 to 15 entries and is the last.
fn lists_entries(code: u8, value: &[u8], rest: &[u8]) -> bool
    ensures { result ≡ field_lists code value.now rest.now }
{
    let n = value.len();
    code == 9 && rest.is_empty() && n % 16 == 0 && (16..=240).contains(&n)
}

// The octets of the entries in a tail that stands at this place, none where nothing stands there.
fn read_tail(tail: &[u8], place: usize) -> Result<&[u8], FrameFault>
    ensures { MatchResult result (λ x. (tail_right tail.now ≡ true) × (x.now ≡ drop 2 tail.now)) (λ e. (tail_right tail.now ≡ false) × (e ≡ Tail place)) }
{
    if tail.is_empty() {
        return Ok(tail);
    }
    match read_field(tail, place) {
        Ok((code, value, rest)) if lists_entries(code, value, rest) => Ok(value),
        _ => Err(FrameFault::Tail(place)),
    }
}

// The entries behind a header of this size.
fn read_entries(f: &[u8], size: u16) -> Result<Entries<'_>, FrameFault>
    requires there { size ≤ length f.now }
    requires fits { size ≤ 33 }
    ensures { MatchResult result (λ x. (tail_right (drop size f.now) ≡ true) × Lists size f.now x) (λ e. (tail_right (drop size f.now) ≡ false) × (e ≡ Tail size)) }
{
    let (_, tail) = f.split_at(usize::from(size));
    let octets = read_tail(tail, usize::from(size))?;
    Ok(Entries {
        octets,
        place: size + 2,
    })
}

// Whether an identifier is not over the last one, or out of the range. A bool: its caller has the place that the refusal needs.
// A match, since what a closure that calls a function returns is not told.
fn is_out(id: LspId, range: IdRange, last: Option<LspId>) -> bool
    ensures { result ≡ (nat_lt (value id) (floor (value range.start) last) || nat_lt (value range.end) (value id)) }
{
    let rises = match last {
        Some(last) => before(last, id),
        None => !before(id, range.start),
    };
    !rises || before(range.end, id)
}

// Refuses entries of which one has a lifetime over 1,200, or an identifier that does not rise within the range.
fn check_entries(entries: Entries<'_>, range: IdRange) -> Result<(), FrameFault>
    ensures { result ≡ unless (first_fault (entries_faults entries.entry.place (value range.start) (value range.end) (entries_in entries.entry.octets.now))) tt }
{
    // The place is carried along: a refusal tells it.
    let mut place = usize::from(entries.place);
    let mut last = None;
    for entry in entries {
        if entry.lifetime > 1200 {
            return Err(FrameFault::Lifetime(place));
        }
        let id = entry.id;
        if is_out(id, range, last) {
            return Err(FrameFault::Order(place + 2));
        }
        last = Some(id);
        place += 16;
    }
    Ok(())
}

// What the CSNP says, or its first fault. It takes the whole frame, as the reader of LSPs does.
pub(crate) fn read_csnp(f: &[u8]) -> Result<Csnp<'_>, FrameFault>
    requires { 33 ≤ length f.now }
    ensures { MatchResult result (λ m. (first_fault (csnp_faults f.now) ≡ None) × (csnp_said m ≡ csnp_in f.now) × OwnParts f.now (SaysCsnp m)) (λ e. first_fault (csnp_faults f.now) ≡ Some e) }
{
    let entries = read_entries(f, 33)?;
    let start = array_at(f, 17);
    let end = array_at(f, 25);
    let range = IdRange { start, end };
    if range.is_empty() {
        return Err(FrameFault::Range);
    }
    check_entries(entries, range)?;
    Ok(Csnp {
        source: array_at(f, 10),
        range,
        entries,
    })
}

// What the PSNP says, or its first fault, of the whole frame. Its entries may be anything from eight 00 to eight FF.
pub(crate) fn read_psnp(f: &[u8]) -> Result<Psnp<'_>, FrameFault>
    requires { 17 ≤ length f.now }
    ensures { MatchResult result (λ m. (first_fault (psnp_faults f.now) ≡ None) × (psnp_said m ≡ psnp_in f.now) × OwnParts f.now (SaysPsnp m)) (λ e. first_fault (psnp_faults f.now) ≡ Some e) }
{
    let entries = read_entries(f, 17)?;
    check_entries(entries, IdRange::ALL)?;
    Ok(Psnp {
        source: array_at(f, 10),
        entries,
    })
}
