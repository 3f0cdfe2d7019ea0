// The reader of frames.
ghost use Rattle.std.specs.Prelude.{◌≡◌, IfOk, Err, MatchResult};
ghost use Rattle.frame.specs.Reading.{header_answer, decode};
ghost use Rattle.frame.specs.Meaning.{message_said, meant, OwnParts, content_octets};
ghost use Rattle.frame.specs.Trip.{Reads, content_place, Holds};

use crate::header::read_header;
use crate::kind::Kind;
use crate::lsp::read_lsp;
use crate::message::Message;
use crate::snp::{read_csnp, read_psnp};
use fault::FrameFault;

// A reader over the octets of a frame, whatever they are. What it hands out are parts of the caller's frame.
#[derive(Clone, Copy, PartialEq, Eq, Debug)]
pub struct FrameReader<'a> {
    frame: &'a [u8],
}

impl<'a> FrameReader<'a> {
    pub fn new(frame: &'a [u8]) -> FrameReader<'a>
        ensures { result.frame.now ≡ frame.now }
    {
        FrameReader { frame }
    }

    // The kind that the header says, or the header's first fault.
    pub fn kind(&self) -> Result<Kind, FrameFault>
        ensures { result ≡ header_answer self.now.frame.now }
    {
        read_header(self.frame)
    }

    // What the frame says, or the fault that is to be answered. What was read is written again octet for octet.
    pub fn message(&self) -> Result<Message<'a>, FrameFault>
        ensures reads { Reads self.now.frame.now (meant result) }
        ensures parts { IfOk result (λ m. OwnParts self.now.frame.now m) }
    {
        read_message(self.frame)
    }

    // An LSP's body or a summary's entries, as a part of the frame with its place.
    pub fn content(&self) -> Result<(usize, &'a [u8]), FrameFault>
        ensures { MatchResult result (λ x. Holds self.now.frame.now x.0 x.1.now) (λ e. decode self.now.frame.now ≡ Err e) }
    {
        let message = self.message()?;
        Ok(content_of(message))
    }
}

// The part that a message hands out, and where it stands in its frame. The places are the format's own: from a header's size they would be sums.
fn content_of(m: Message<'_>) -> (usize, &[u8])
    ensures { (result.0 ≡ content_place (message_said m.entry)) × (result.1.now ≡ content_octets m.entry) }
{
    match m {
        Message::Lsp(m) => (27, m.body),
        Message::Csnp(m) => (35, m.entries.octets),
        Message::Psnp(m) => (19, m.entries.octets),
    }
}

// The octets of a frame are known to be under 256 only where the frame is a parameter.
fn read_message(f: &[u8]) -> Result<Message<'_>, FrameFault>
    ensures reads { Reads f.now (meant result) }
    ensures parts { IfOk result (λ m. OwnParts f.now m) }
{
    read_by_kind(f)
}

// The header's fault, or what the kind's reader answers. Apart, since that it reads back rests on what it answers.
fn read_by_kind(f: &[u8]) -> Result<Message<'_>, FrameFault>
    ensures reads { decode f.now ≡ meant result }
    ensures parts { IfOk result (λ m. OwnParts f.now m) }
{
    let kind = read_header(f)?;
    match kind {
        Kind::Lsp => Ok(Message::Lsp(read_lsp(f)?)),
        Kind::Csnp => Ok(Message::Csnp(read_csnp(f)?)),
        Kind::Psnp => Ok(Message::Psnp(read_psnp(f)?)),
    }
}
