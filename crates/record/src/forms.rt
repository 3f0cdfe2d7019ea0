// What a record is, and what it says.
ghost use Rattle.std.specs.Prelude.{◌≡◌};
ghost use Rattle.frame.specs.Meaning.{lsp_said};
ghost use Rattle.record.specs.Bodies.{body_octets};
ghost use Rattle.record.specs.Forms.{number_of, body_of, record_said, is_live, form_of, WellFormed};
ghost use Rattle.record.specs.Saying.{WritesRecord};
ghost use Rattle.record.specs.Order.{recency, rank, Stands};

use crate::form::{Form, Recency};
use crate::record::Record;
use crate::state::State;
use fault::FrameFault;
use frame::Lsp;
use std::cmp::Ordering;
use writer::write_lsp;

impl Record {
    // Its form; whichever it is, the record has what the form asks.
    pub fn form(&self) -> Form
        ensures is { result ≡ form_of self.now }
        ensures has { WellFormed self.now }
    {
        match self.state {
            State::Live { .. } => Form::Live,
            State::Purge { .. } => Form::Purge,
            State::Placeholder { .. } => Form::Placeholder,
        }
    }

    // Whether it is live.
    #[tactic(auto, using(crate::proofs::FormLaws::live_lasts))]
    fn is_live(&self) -> bool
        ensures { result ≡ is_live self.now }
    {
        matches!(self.state, State::Live { .. })
    }

    // How a number that was heard, live or not, stands to this record.
    pub fn recency_of(&self, number: u32, live: bool) -> Recency
        ensures is { result ≡ recency number live (number_of self.now) (is_live self.now) }
        ensures ranked { Stands result (rank number live) (rank (number_of self.now) (is_live self.now)) }
    {
        match number.cmp(&self.number()) {
            Ordering::Greater => Recency::Newer,
            Ordering::Less => Recency::Older,
            Ordering::Equal if number == 0 || live == self.is_live() => Recency::Same,
            Ordering::Equal if live => Recency::Older,
            Ordering::Equal => Recency::Newer,
        }
    }

    // The octets of its body.
    fn octets(&self) -> &[u8]
        ensures { result.now ≡ body_octets (body_of self.now) }
    {
        match &self.state {
            State::Live { body, .. } => body.as_slice(),
            State::Purge { .. } | State::Placeholder { .. } => &[],
        }
    }

    // The LSP that says it.
    pub fn lsp(&self) -> Lsp<'_>
        ensures { lsp_said result ≡ record_said self.now }
    {
        Lsp {
            lifetime: self.lifetime(),
            id: self.id,
            number: self.number(),
            check: self.check(),
            flags: self.flags(),
            body: self.octets(),
        }
    }

    // Apart, so that an edit of `write` is refused at its own line.
    fn written(&self, buf: &mut [u8]) -> Result<usize, FrameFault>
        ensures { WritesRecord self.now buf.old buf.new result }
    {
        write_lsp(&self.lsp(), buf)
    }

    // Writes it as an LSP into the caller's buffer, at its front, and answers the length, as every call that hands octets out. Of any record but a placeholder only a buffer under 275 octets is refused.
    pub fn write(&self, buf: &mut [u8]) -> Result<usize, FrameFault>
        ensures { WritesRecord self.now buf.old buf.new result }
    {
        self.written(buf)
    }
}
