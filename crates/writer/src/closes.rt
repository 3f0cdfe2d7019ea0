// Writing out a closed summary.
ghost use Rattle.std.specs.Prelude.{◌≡◌, ◌≤◌, length};
ghost use Rattle.octets.specs.Octets.{value};
ghost use Rattle.writer.specs.Places.{Wrote};
ghost use Rattle.writer.specs.Writing.{Writes};
ghost use Rattle.writer.specs.Summaries.{head_octets, tail_size, summary_said};

use crate::frame_octets::FrameOctets;
use crate::scope::Scope;
use crate::summary::ClosedSummary;
use fault::FrameFault;
use frame::Kind;
use octets::SourceId;

// How many octets the entries take behind the header.
fn tail_len(count: usize) -> usize
    requires { count ≤ 15 }
    ensures { result ≡ tail_size count }
{
    if count == 0 { 0 } else { 2 + 16 * count }
}

// The header of a summary's frame, so many octets standing behind it.
fn head<'a>(source: SourceId, scope: Scope, behind: usize, buf: &'a mut [u8]) -> FrameOctets<'a>
    requires { (behind ≤ 242) × (275 ≤ length buf.old) }
    ensures same_reference { result.buf.ghost_name ≡ buf.entry.ghost_name }
    ensures wrote { Wrote buf.old 0 (head_octets scope (value source) behind) result.buf.now result.len }
{
    // A kind that is known in each case makes the header of known octets.
    match scope {
        Scope::Csnp(range) => {
            let mut frame = FrameOctets::headed(Kind::Csnp, behind, buf);
            frame.put(&source);
            frame.put(&range.start);
            frame.put(&range.end);
            frame
        }
        Scope::Psnp => {
            let mut frame = FrameOctets::headed(Kind::Psnp, behind, buf);
            frame.put(&source);
            frame
        }
    }
}

impl ClosedSummary {
    // Writes the summary into the caller's buffer, at its front, and answers its length, as every call that hands octets out.
    pub fn write(&self, buf: &mut [u8]) -> Result<usize, FrameFault>
        ensures { Writes (summary_said self.now) buf.old buf.new result }
    {
        // The first of all refusals, here as in `write_lsp`.
        if buf.len() < 275 {
            return Err(FrameFault::Size);
        }
        let entries = &self.listing.entries;
        let mut frame = head(
            self.listing.source,
            self.scope,
            tail_len(entries.len()),
            buf,
        );
        frame.put_tail(entries);
        Ok(frame.len)
    }
}
