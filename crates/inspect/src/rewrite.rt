// Frames that were read, written back.
use fault::FrameFault;
use frame::{Entries, Message};
use writer::{OpenSummary, write_lsp};

// A summary that lists these entries.
fn listing(mut summary: OpenSummary, entries: &Entries<'_>) -> Result<OpenSummary, FrameFault> {
    for e in entries.iter() {
        summary = summary.add(e)?;
    }
    Ok(summary)
}

// Writes a message into the buffer's front, and answers its length.
fn write_message(m: &Message<'_>, buf: &mut [u8]) -> Result<usize, FrameFault> {
    match m {
        Message::Lsp(m) => write_lsp(m, buf),
        Message::Csnp(m) => {
            let summary = listing(OpenSummary::begin(m.source), &m.entries)?;
            summary.close_csnp(m.range)?.write(buf)
        }
        Message::Psnp(m) => listing(OpenSummary::begin(m.source), &m.entries)?
            .close_psnp()
            .write(buf),
    }
}

// Whether the message is written as the very octets of the frame that it was read from.
pub fn is_written_back(m: &Message<'_>, frame: &[u8]) -> bool {
    let mut buf = [0; 275];
    let written = write_message(m, &mut buf);
    written.is_ok_and(|n| buf.get(..n) == Some(frame))
}
