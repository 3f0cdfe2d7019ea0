// Puts and takes a few frames on a fader over a pair of a cable and a segment, and prints what each end got.
#![tactic(auto)]

use fault::CallFault;
use plant::asking::{count_ends, is_quiet};
use plant::{Circuit, End, LONGEST, Plant};
use spans::fader::Fader;
use spans::pair::Pair;
use std::io;
use wires::cable::Cable;
use wires::segment::Segment;

// A cable as circuit 0, on which every second frame fades, and a segment of 3 ends as circuit 1, on which the first one does.
fn span() -> Result<Fader<Pair<Cable, Segment>>, CallFault> {
    let segment = Segment::new(3)?;
    let mut patterns = [0; 12];
    patterns[0] = 0xAAAA_AAAA_AAAA_AAAA;
    patterns[1] = 1;
    Ok(Fader::new(Pair::new(Cable::new(), segment)?, patterns))
}

// Prints what an end does with some octets. The runtime and the plant are passed on: a struct of borrows for a few short functions is no shorter.
fn tell(rt: &HostRuntime, end: End, word: &str, octets: &[u8]) -> io::Result<()> {
    print!(rt; "circuit {} end {} {word}", end.circuit.0, end.number)?;
    for octet in octets {
        print!(rt; " {octet:02X}")?;
    }
    Ok(())
}

// Puts a frame, and prints how many ends missed it or why it is refused.
fn put<P: Plant>(rt: &HostRuntime, plant: &mut P, end: End, frame: &[u8]) -> io::Result<()> {
    tell(rt, end, "puts", frame)?;
    // A word and a number that is printed behind it.
    let (word, number) = match plant.put(end, frame) {
        Ok(missed) => ("missed", missed),
        Err(fault) => ("refused", usize::from(fault.number())),
    };
    println!(rt; ": {word} {number}")
}

// Has an end take, and prints what it got.
fn take<P: Plant>(rt: &HostRuntime, plant: &mut P, end: End) -> io::Result<()> {
    let mut buffer = [0; LONGEST];
    match plant.take(end, &mut buffer) {
        Ok(Some(n)) => tell(rt, end, "got", &buffer[..n.min(LONGEST)])?,
        Ok(None) => tell(rt, end, "got nothing", &[])?,
        Err(_) => tell(rt, end, "is not there", &[])?,
    }
    rt.println("")
}

// Has every end of a circuit take.
fn drain<P: Plant>(rt: &HostRuntime, plant: &mut P, circuit: Circuit) -> io::Result<()> {
    for k in 0..count_ends(plant, circuit) {
        take(rt, plant, circuit.end(k))?;
    }
    Ok(())
}

// The circuits of the plant, and one that is not there.
const CABLE: Circuit = Circuit(0);

const SEGMENT: Circuit = Circuit(1);

const NOWHERE: Circuit = Circuit(2);

// What is done in turn.
#[derive(Clone, Copy)]
enum Step {
    // a frame that ends in this octet is put at an end
    Put(End, u8),
    // all ends of a circuit take
    Drain(Circuit),
}

fn steps() -> [Step; 10] {
    [
        Step::Put(CABLE.end(0), 1),
        Step::Put(CABLE.end(0), 2),
        Step::Drain(CABLE),
        Step::Put(CABLE.end(0), 3),
        Step::Put(CABLE.end(1), 4),
        Step::Drain(CABLE),
        Step::Put(SEGMENT.end(2), 5),
        Step::Put(SEGMENT.end(2), 6),
        Step::Drain(SEGMENT),
        Step::Put(NOWHERE.end(0), 7),
    ]
}

fn run<P: Plant>(rt: &HostRuntime, plant: &mut P) -> io::Result<()> {
    for step in steps() {
        match step {
            Step::Put(end, octet) => put(rt, plant, end, &[0x83, octet])?,
            Step::Drain(circuit) => drain(rt, plant, circuit)?,
        }
    }
    take(rt, plant, SEGMENT.end(3))?;
    rt.println(if is_quiet(plant) {
        "nothing waits"
    } else {
        "a frame waits"
    })
}

// What is printed in place of a plant is part of the program's text, so the refusal is not.
fn main(rt: HostRuntime) -> io::Result<()> {
    match span() {
        Ok(plant) => {
            let mut plant = plant;
            run(&rt, &mut plant)
        }
        Err(_) => rt.println("no plant"),
    }
}
