// Lines of hexadecimal.
use std::alloc::{AllocError, AllocFailed, Global};

// Why a line gives no octets.
#[derive(Clone, Copy, PartialEq, Eq, Debug)]
pub enum LineError {
    NoHex,
    OutOfMemory,
}

impl From<AllocError> for LineError {
    fn from(_e: AllocError) -> LineError {
        LineError::OutOfMemory
    }
}

impl<T: Drop> From<AllocFailed<T>> for LineError {
    fn from(_e: AllocFailed<T>) -> LineError {
        LineError::OutOfMemory
    }
}

// The value of a hexadecimal digit, of either case.
fn digit(b: u8) -> Result<u8, LineError> {
    let d = char::from(b).to_digit(16).ok_or(LineError::NoHex)?;
    Ok((d & 15) as u8)
}

fn is_space(b: u8) -> bool {
    matches!(b, b' ' | b'\t' | b'\r')
}

// The octets that a line writes, two digits to each; none where it is blank or begins with #.
pub fn read_line(heap: Global, line: &[u8]) -> Result<Option<Vec<u8>>, LineError> {
    match line.iter().find(|b| !is_space(**b)) {
        None | Some(b'#') => Ok(None),
        Some(_) => Ok(Some(read_octets(heap, line)?)),
    }
}

fn read_octets(heap: Global, line: &[u8]) -> Result<Vec<u8>, LineError> {
    let mut octets = Vec::new(heap);
    let mut high = None;
    for b in line.iter().filter(|b| !is_space(**b)) {
        let low = digit(*b)?;
        high = match high {
            None => Some(low),
            Some(h) => {
                octets.push((h & 15) * 16 + (low & 15))?;
                None
            }
        };
    }
    if high.is_some() {
        return Err(LineError::NoHex);
    }
    Ok(octets)
}
