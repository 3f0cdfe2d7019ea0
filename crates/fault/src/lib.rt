// The refusals of frames and calls. Each case has a number and a place, which specs/Refusals.antt gives.
#![tactic(auto)]

ghost use Rattle.std.specs.Prelude.{◌≡◌, Some};
ghost use Rattle.fault.specs.declared.CallFault.TheVariants.{Frame};
ghost use Rattle.fault.specs.Refusals.{frame_number, frame_place, call_number, call_place, refusal_text};

use std::error::Error;
use std::fmt;

// Why a frame, a body or a buffer is refused. A place is an octet's offset in the frame or body, or 0.
#[derive(Clone, Copy, PartialEq, Eq, Debug)]
pub enum FrameFault {
    // under 8 octets: so many there are
    Short(usize),
    // a fixed octet is wrong: its place
    Fixed(usize),
    // the kind is unknown
    Kind,
    // the header size is not the kind's
    Header,
    // the length is absent, not the octets present, under the header or over 275
    Length,
    // a buffer or a frame handed in has not the size that the call needs
    Size,
    // a field is broken: the place of its code
    Field(usize),
    // a body is over 100 octets: the place where it begins
    Body(usize),
    // what stands behind a summary's header is no field of 1 to 15 entries: the header's size
    Tail(usize),
    // a lifetime is over 1,200: its place
    Lifetime(usize),
    // an LSP has number 0
    Number,
    // a CSNP's start is after its end
    Range,
    // an entry's identifier does not rise, or is outside start to end: its place
    Order(usize),
    // a summary that is being made cannot take this entry or this range
    Summary,
    // the check octets of a live LSP are wrong
    Check,
}

// Why a call is refused; a frame's refusal is held whole.
#[derive(Clone, Copy, PartialEq, Eq, Debug)]
pub enum CallFault {
    Frame(FrameFault),
    // no such router, circuit, end, port, slot or segment size
    Unknown,
    // the record to store is new, and 32 are held
    Full,
    // the store or the plant to open on is not empty
    NotEmpty,
    // over 12 circuits, 8 routers or 8 ports
    TooMany,
    // the system identifier or the end is taken
    Taken,
    // the router is on the circuit already
    Attached,
    // up twice, down twice, attach in service, hear out of service
    Service,
    // withdraw of an inactive slot
    Inactive,
    // originate after number 4,294,967,295
    NoNumber,
    // tick at clock 1,000,000
    ClockEnd,
    // a frame waits
    Waiting,
}

impl From<FrameFault> for CallFault {
    ghost from_gives = { λ e r. r ≡ Frame e };

    fn from(e: FrameFault) -> CallFault {
        CallFault::Frame(e)
    }
}

// Both enums have a number and a place as methods of their own: a trait would have two impls, and no code that is generic over it.
impl FrameFault {
    // The refusal's number, 1 to 7.
    pub fn number(self) -> u8
        ensures { result ≡ frame_number self }
    {
        match self {
            FrameFault::Short(_) => 1,
            FrameFault::Fixed(_) => 2,
            FrameFault::Kind => 3,
            FrameFault::Header | FrameFault::Length | FrameFault::Size => 4,
            FrameFault::Field(_) | FrameFault::Body(_) | FrameFault::Tail(_) => 5,
            FrameFault::Lifetime(_) | FrameFault::Number | FrameFault::Range => 6,
            FrameFault::Order(_) | FrameFault::Summary => 6,
            FrameFault::Check => 7,
        }
    }

    // The refusal's place.
    pub fn place(self) -> usize
        ensures { result ≡ frame_place self }
    {
        match self {
            FrameFault::Short(n) => n,
            FrameFault::Fixed(at) | FrameFault::Field(at) | FrameFault::Body(at) => at,
            FrameFault::Tail(at) | FrameFault::Lifetime(at) | FrameFault::Order(at) => at,
            FrameFault::Kind => 4,
            FrameFault::Header => 1,
            FrameFault::Length => 8,
            FrameFault::Size | FrameFault::Summary => 0,
            FrameFault::Number => 20,
            FrameFault::Range => 17,
            FrameFault::Check => 24,
        }
    }
}

impl CallFault {
    // The refusal's number, 1 to 18.
    pub fn number(self) -> u8
        ensures { result ≡ call_number self }
    {
        match self {
            CallFault::Frame(f) => f.number(),
            CallFault::Unknown => 8,
            CallFault::Full => 9,
            CallFault::NotEmpty => 10,
            CallFault::TooMany => 11,
            CallFault::Taken => 12,
            CallFault::Attached => 13,
            CallFault::Service => 14,
            CallFault::Inactive => 15,
            CallFault::NoNumber => 16,
            CallFault::ClockEnd => 17,
            CallFault::Waiting => 18,
        }
    }

    // The refusal's place: the frame's, or 0.
    pub fn place(self) -> usize
        ensures { result ≡ call_place self }
    {
        match self {
            CallFault::Frame(f) => f.place(),
            _ => 0,
        }
    }
}

// A refusal that is to be shown, as `refused 4 at 8`.
#[derive(Clone, Copy, PartialEq, Eq, Debug)]
pub struct Refused {
    pub number: u8,
    pub place: usize,
}

impl fmt::Display for Refused {
    ghost output = { λ r. Some (refusal_text r.number r.place) };

    fn fmt<W: fmt::Write>(&self, f: &mut fmt::Formatter<W>) -> fmt::Result {
        let Refused { number, place } = *self;
        write!(f, "refused {number} at {place}")
    }
}

impl fmt::Display for FrameFault {
    ghost output = { λ e. Some (refusal_text (frame_number e) (frame_place e)) };

    fn fmt<W: fmt::Write>(&self, f: &mut fmt::Formatter<W>) -> fmt::Result {
        let number = self.number();
        let place = self.place();
        Refused { number, place }.fmt(f)
    }
}

// A frame's refusal is shown as such.
impl fmt::Display for CallFault {
    ghost output = { λ e. Some (refusal_text (call_number e) (call_place e)) };

    fn fmt<W: fmt::Write>(&self, f: &mut fmt::Formatter<W>) -> fmt::Result {
        match self {
            CallFault::Frame(fault) => fault.fmt(f),
            _ => {
                let number = self.number();
                Refused { number, place: 0 }.fmt(f)
            }
        }
    }
}

impl Error for FrameFault {}

impl Error for CallFault {}
