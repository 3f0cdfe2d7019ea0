// Bodies, made and read.
ghost use Rattle.std.specs.Prelude.{◌≡◌, ◌≤◌, ◌++◌, length, drop, replicate, Some, None, MatchResult};
ghost use Rattle.octets.specs.Fields.{Whole, body_fault};
ghost use Rattle.record.specs.Bodies.{body_octets, empty_body};

use crate::body::Body;
use fault::FrameFault;
use octets::check_body;

// The body of octets that are whole fields. By hand, as a body is an array and a length.
fn whole_body(octets: &[u8]) -> Body
    requires { body_fault 0 octets.now ≡ None }
    ensures is { body_octets result ≡ octets.now }
    ensures rest { result.octets ≡ octets.now ++ drop (length octets.now) (replicate 100 0) }
    ensures len { result.len ≡ length octets.now }
{
    let mut held = [0; 100];
    held[..octets.len()].copy_from_slice(octets);
    Body {
        octets: held,
        len: octets.len(),
    }
}

impl Body {
    // The body of these octets, unless they are over 100 or no whole fields. A refusal's place counts from the first octet.
    pub fn new(octets: &[u8]) -> Result<Body, FrameFault>
        ensures { MatchResult result (λ b. (body_fault 0 octets.now ≡ None) × (body_octets b ≡ octets.now)) (λ e. body_fault 0 octets.now ≡ Some e) }
    {
        check_body(octets, 0)?;
        Ok(whole_body(octets))
    }

    // The body of no octets.
    pub fn empty() -> Body
        ensures { result ≡ empty_body }
    {
        whole_body(&[])
    }

    // Its octets: at most 100, and whole fields.
    pub fn as_slice(&self) -> &[u8]
        ensures is { result.now ≡ body_octets self.now }
        ensures whole { Whole (body_octets self.now) }
        ensures short { length (body_octets self.now) ≤ 100 }
    {
        &self.octets[..self.len]
    }
}
