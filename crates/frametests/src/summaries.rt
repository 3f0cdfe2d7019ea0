// Making and writing summaries.
use crate::frames::*;
use fault::FrameFault::{self, Size, Summary};
use frame::Entry;
use octets::{CheckOctets, IdRange, LspId};
use std::alloc::Global;
use std::process::Abort;
use std::test::Fail;
use writer::{ClosedSummary, OpenSummary, SummaryRefusal};

// A summary that lists entry(1) to entry(count).
fn listed(count: u8) -> Result<OpenSummary, Fail> {
    let mut summary = OpenSummary::begin(SOURCE);
    for k in 1..=count {
        summary = summary.add(entry(k))?;
    }
    Ok(summary)
}

// Checks the answer to an entry, and hands back the summary with it or, with a refusal, as it was.
fn with(
    rt: &impl Abort,
    summary: OpenSummary,
    e: Entry,
    want: Result<(), FrameFault>,
) -> OpenSummary {
    assert_eq!(rt; numbered(rt, summary.check_entry(e)), want);
    let (summary, got) = match summary.add(e) {
        Ok(summary) => (summary, Ok(())),
        Err(SummaryRefusal { summary, fault }) => (summary, Err(fault)),
    };
    assert_eq!(rt; got, want);
    summary
}

// Closes a CSNP whose range is right.
fn csnp(summary: OpenSummary, start: LspId, end: LspId) -> Result<ClosedSummary, Fail> {
    Ok(summary.close_csnp(IdRange { start, end })?)
}

// Checks that a summary is written as this frame, that the octets behind it stay, and that a buffer of 274 is refused
// and stays.
fn check_written(rt: &impl Abort, summary: ClosedSummary, frame: &[u8]) -> Result<(), Fail> {
    let mut buf = [0xaa; 275];
    assert_eq!(rt; numbered(rt, summary.write(&mut buf[..274])), Err(Size));
    assert_eq!(rt; buf, [0xaa; 275]);
    let n = summary.write(&mut buf)?;
    assert!(rt; n <= 275);
    assert_eq!(rt; &buf[..n], frame);
    assert_eq!(rt; &buf[n..], &[0xaa; 275][n..]);
    Ok(())
}

// The same for the frame of so many entries behind a front.
fn check_listed(
    rt: &impl Abort,
    heap: Global,
    summary: ClosedSummary,
    front: &[u8],
    count: u8,
) -> Result<(), Fail> {
    let frame = summary_frame(heap, front, count)?;
    check_written(rt, summary, &frame)
}

// A summary of the two entries of CSNP and PSNP.
fn two() -> Result<OpenSummary, Fail> {
    Ok(listed(1)?.add(SECOND)?)
}

#[test]
fn writes_csnps(rt: HostRuntime) -> Result<(), Fail> {
    check_written(&rt, csnp(two()?, ONE, NINE)?, CSNP)?;
    check_written(&rt, csnp(listed(0)?, ONE, NINE)?, BARE_CSNP)
}

#[test]
fn writes_psnps(rt: HostRuntime) -> Result<(), Fail> {
    check_written(&rt, two()?.close_psnp(), PSNP)?;
    check_written(&rt, listed(0)?.close_psnp(), BARE_PSNP)
}

// Checks that a summary is written in this size and read with entry(1) to entry(count).
fn check_read(rt: &impl Abort, summary: ClosedSummary, size: usize, count: u8) -> Result<(), Fail> {
    let mut buf = [0; 275];
    let n = summary.write(&mut buf)?;
    assert!(rt; n == size && n <= 275);
    let frame = &buf[..n];
    for (k, want) in (1..=count).map(entry).enumerate() {
        assert_eq!(rt; entry_of(frame, k), Some(want));
    }
    assert_eq!(rt; entry_of(frame, usize::from(count)), None);
    Ok(())
}

// What was closed is read as it was taken.
#[test]
fn reads_what_it_closes(rt: HostRuntime) -> Result<(), Fail> {
    check_read(&rt, listed(1)?.close_psnp(), 35, 1)?;
    check_read(&rt, listed(15)?.close_psnp(), 259, 15)?;
    check_read(&rt, csnp(listed(0)?, NINE, NINE)?, 33, 0)?;
    check_read(&rt, csnp(listed(15)?, [0; 8], [255; 8])?, 275, 15)
}

// Identifiers in turn for a summary of two entries, and the answers.
static TURNS: [(LspId, Result<(), FrameFault>); 10] = [
    ([0, 0, 0, 0, 0, 2, 0, 0], Err(Summary)),
    ([0, 0, 0, 0, 0, 1, 0, 0], Err(Summary)),
    ([0, 0, 0, 0, 0, 1, 255, 255], Err(Summary)),
    ([0, 0, 0, 0, 0, 2, 0, 1], Ok(())),
    ([0, 0, 0, 0, 0, 2, 0, 1], Err(Summary)),
    ([0, 0, 0, 0, 0, 2, 0, 0], Err(Summary)),
    ([1, 0, 0, 0, 0, 2, 0, 1], Ok(())),
    ([0, 255, 255, 255, 255, 255, 255, 255], Err(Summary)),
    ([255; 8], Ok(())),
    ([255; 8], Err(Summary)),
];

// A summary of five entries has 99 octets.
#[test]
fn refuses_falling_entries(rt: HostRuntime) -> Result<(), Fail> {
    let mut summary = listed(2)?;
    for (id, want) in &TURNS {
        let e = Entry {
            lifetime: 1200,
            id: *id,
            number: 1,
            check: CheckOctets { x: 0, y: 0 },
        };
        summary = with(&rt, summary, e, *want);
    }
    let mut buf = [0; 275];
    assert_eq!(rt; summary.close_psnp().write(&mut buf), Ok(99));
    Ok(())
}

// A 16th entry is refused, and the summary stays as it was.
#[test]
fn refuses_a_16th(rt: HostRuntime) -> Result<(), Fail> {
    let full = with(&rt, listed(15)?, entry(16), Err(Summary));
    check_listed(&rt, rt.alloc(), full.close_psnp(), BARE_PSNP, 15)
}

// A lifetime of 1,201 is refused, and the summary takes one of 1,200.
#[test]
fn refuses_a_lifetime(rt: HostRuntime) -> Result<(), Fail> {
    let mut long = entry(3);
    long.lifetime = 1201;
    let two = with(&rt, listed(2)?, long, Err(Summary));
    let three = with(&rt, two, entry(3), Ok(()));
    check_listed(&rt, rt.alloc(), three.close_psnp(), BARE_PSNP, 3)
}

// So many entries, a start and an end, and the answer to a CSNP of them.
static RANGES: [(u8, LspId, LspId, Result<(), FrameFault>); 13] = [
    (0, ONE, ONE, Ok(())),
    (0, [0, 0, 0, 0, 0, 1, 0, 1], ONE, Err(Summary)),
    (0, [1, 0, 0, 0, 0, 0, 0, 0], ONE, Err(Summary)),
    (0, [0; 8], [255; 8], Ok(())),
    (0, [255; 8], [0; 8], Err(Summary)),
    (1, ONE, ONE, Ok(())),
    (9, ONE, NINE, Ok(())),
    (10, ONE, NINE, Err(Summary)),
    (9, [0, 0, 0, 0, 0, 1, 0, 1], NINE, Err(Summary)),
    (9, ONE, [0, 0, 0, 0, 0, 8, 255, 255], Err(Summary)),
    (9, NINE, ONE, Err(Summary)),
    (1, [0; 8], [0; 8], Err(Summary)),
    (1, [255; 8], [255; 8], Err(Summary)),
];

// With a refusal the summary comes back as it was.
#[test]
fn ranges(rt: HostRuntime) -> Result<(), Fail> {
    let heap = rt.alloc();
    for (count, start, end, want) in &RANGES {
        let summary = listed(*count)?;
        let range = IdRange {
            start: *start,
            end: *end,
        };
        assert_eq!(rt; numbered(&rt, summary.check_range(range)), *want);
        match summary.close_csnp(range) {
            Ok(_) => assert_eq!(rt; *want, Ok(())),
            Err(SummaryRefusal { summary, fault }) => {
                assert_eq!(rt; *want, Err(fault));
                check_listed(&rt, heap, summary.close_psnp(), BARE_PSNP, *count)?;
            }
        }
    }
    Ok(())
}
