// Reads captured frames as lines of hexadecimal on standard input, and says what is in each.
#![tactic(auto)]

use std::alloc::AllocError;
use std::io::Read;

mod describe;
mod hex;
mod rewrite;

use describe::Described;
use hex::{LineError, read_line};

// Prints what is said of one line.
fn report(rt: &HostRuntime, number: usize, line: &[u8]) -> anyhow::Result<()> {
    match read_line(rt.alloc(), line) {
        Ok(None) => {}
        Ok(Some(frame)) => rt.print(Described(frame.as_slice()))?,
        Err(LineError::NoHex) => println!(rt; "line {number} is not hexadecimal")?,
        Err(LineError::OutOfMemory) => return Err(AllocError.into()),
    }
    Ok(())
}

fn main(rt: HostRuntime) -> anyhow::Result<()> {
    let mut input = Vec::new(rt.alloc());
    rt.stdin().read_to_end(&mut input)?;
    for (before, line) in input.split(|b| *b == b'\n').enumerate() {
        report(&rt, before.saturating_add(1), line)?;
    }
    Ok(())
}
