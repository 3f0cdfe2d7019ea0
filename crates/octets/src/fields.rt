// Fields: a code octet, a length octet, then that many octets.
ghost use Rattle.std.specs.Prelude.{◌≡◌, ◌≤◌, false, length, if◌then◌else◌, Ok, Err, MatchResult};
ghost use Rattle.fault.specs.declared.FrameFault.TheVariants.{Field};
ghost use Rattle.fault.specs.Order.{unless};
ghost use Rattle.octets.specs.Fields.{stands, Front, Whole, body_fault};

use fault::FrameFault;

// Refuses a part that stands at a place, unless it begins with a whole field.
pub fn check_field(part: &[u8], place: usize) -> Result<(), FrameFault>
    ensures { result ≡ (if stands part.now then Ok tt else Err (Field place)) }
{
    let [_, len, rest @ ..] = part else {
        return Err(FrameFault::Field(place));
    };
    if rest.len() < usize::from(*len) {
        return Err(FrameFault::Field(place));
    }
    Ok(())
}

// The code and the value of the field at the front of a part that stands at a place, and what remains. It is read after a check of its own: a rule of the project.
// The place is no part of what it answers: behind a field it would have to be counted on, past the end of its type.
pub fn read_field(part: &[u8], place: usize) -> Result<(u8, &[u8], &[u8]), FrameFault>
    ensures { MatchResult result (λ x. Front part.now x.0 x.1.now x.2.now) (λ e. (stands part.now ≡ false) × (e ≡ Field place)) }
{
    check_field(part, place)?;
    let [code, len, rest @ ..] = part else {
        return Err(FrameFault::Field(place));
    };
    let n = usize::from(*len);
    Ok((*code, &rest[0..n], &rest[n..]))
}

// Refuses a body whose first octet stands at a place, unless it is whole fields of at most 100 octets.
pub fn check_body(body: &[u8], at: u16) -> Result<(), FrameFault>
    ensures value { result ≡ unless (body_fault at body.now) tt }
    ensures whole { result ≡ Ok tt → Whole body.now }
    ensures fits { Whole body.now → length body.now ≤ 100 → result ≡ Ok tt }
{
    if body.len() > 100 {
        return Err(FrameFault::Body(usize::from(at)));
    }
    let mut rest = body;
    let mut place = usize::from(at);
    // A loop over what is left, and no iterator: the place is told with the refusal, and the first refusal ends it.
    while !rest.is_empty() {
        let (_, value, more) = read_field(rest, place)?;
        place += 2 + value.len();
        rest = more;
    }
    Ok(())
}
