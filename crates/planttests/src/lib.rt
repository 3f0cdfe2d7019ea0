#![tactic(auto)]

// Tests of the plants, with values that were worked by hand.
#[cfg(test)]
mod tests {
    use fault::CallFault::{self, TooMany, Unknown, Waiting};
    use fault::FrameFault;
    use plant::asking::{drain, is_quiet};
    use plant::{Circuit, End, Kind, Plant};
    use spans::fader::Fader;
    use spans::pair::Pair;
    use std::process::Abort;
    use std::test::Fail;
    use wires::cable::Cable;
    use wires::segment::Segment;

    type Two = Pair<Cable, Cable>;

    type Four = Pair<Two, Two>;

    const SIZE: CallFault = CallFault::Frame(FrameFault::Size);

    // The numbers of the refusals of plants.
    fn numbers(rt: &impl Abort) {
        assert_eq!(rt; SIZE.number(), 4);
        assert_eq!(rt; Unknown.number(), 8);
        assert_eq!(rt; TooMany.number(), 11);
        assert_eq!(rt; Waiting.number(), 18);
    }

    // The circuit of a plant that has one, and the first of others.
    const FIRST: Circuit = Circuit(0);

    // Two plants joined.
    fn pair<P: Plant + Drop, Q: Plant + Drop>(
        first: P,
        second: Q,
    ) -> Result<Pair<P, Q>, CallFault> {
        Pair::new(first, second).map_err(|back| back.refusal)
    }

    fn two() -> Result<Two, CallFault> {
        pair(Cable::new(), Cable::new())
    }

    fn four() -> Result<Four, CallFault> {
        pair(two()?, two()?)
    }

    // Puts by a table: an end, octets of the frame, and the answer.
    fn puts<P: Plant>(
        rt: &impl Abort,
        plant: &mut P,
        table: &[(End, usize, Result<usize, CallFault>)],
    ) {
        let octets = [9; 276];
        for (end, length, want) in table.iter().copied() {
            assert!(rt; length <= 276);
            assert_eq!(rt; plant.put(end, &octets[..length]), want);
        }
    }

    // Takes by a table: an end, and the answer.
    fn takes<P: Plant>(
        rt: &impl Abort,
        plant: &mut P,
        table: &[(End, Result<Option<usize>, CallFault>)],
    ) {
        for (end, want) in table.iter().copied() {
            let mut buffer = [5; 275];
            assert_eq!(rt; plant.take(end, &mut buffer), want);
        }
    }

    // Checks whether a frame waits at each of the first ends of a circuit.
    fn waiting<P: Plant>(rt: &impl Abort, plant: &P, circuit: Circuit, table: &[bool]) {
        for (end, waits) in table.iter().copied().enumerate() {
            assert_eq!(rt; plant.waits(circuit.end(end)), Ok(waits));
        }
    }

    // The pattern of the first circuit; on the others nothing fades.
    fn patterns(first: u64) -> [u64; 12] {
        [first, 0, 0, 0, 0, 0, 0, 0, 0, 0, 0, 0]
    }

    // How many ends of a cable miss the frame of number n under a pattern.
    fn missed_at(pattern: u64, n: usize) -> Result<usize, CallFault> {
        let mut fader = Fader::new(Cable::new(), patterns(pattern));
        for _ in 0..n {
            let _ = fader.put(FIRST.end(0), &[7])?;
            drain(&mut fader, FIRST);
        }
        fader.put(FIRST.end(0), &[8])
    }

    // By a table of a frame's number and how many miss it.
    fn fades(rt: &impl Abort, pattern: u64, table: &[(usize, usize)]) {
        for (n, missed) in table.iter().copied() {
            assert_eq!(rt; missed_at(pattern, n), Ok(missed));
        }
    }

    #[test]
    fn frames_fade_by_their_bit(rt: HostRuntime) {
        fades(&rt, 0, &[(0, 0), (63, 0), (64, 0)]);
        fades(&rt, 1, &[(0, 1), (1, 0), (63, 0), (64, 1), (65, 0)]);
        fades(&rt, 0x8000_0000_0000_0000, &[(62, 0), (63, 1), (64, 0)]);
        fades(&rt, 0xFFFF_FFFF_FFFF_FFFF, &[(0, 1), (63, 1), (64, 1)]);
    }

    #[test]
    fn faded_frames_reach_nothing_and_refused_ones_are_not_counted(
        rt: HostRuntime,
    ) -> Result<(), Fail> {
        numbers(&rt);
        let mut fader = Fader::new(Segment::new(8)?, patterns(5));
        puts(&rt, &mut fader, &[(FIRST.end(3), 1, Ok(7))]);
        assert!(rt; is_quiet(fader.below()));
        puts(
            &rt,
            &mut fader,
            &[
                (FIRST.end(3), 0, Err(SIZE)),
                (FIRST.end(8), 1, Err(Unknown)),
                (FIRST.end(3), 1, Ok(0)),
                (FIRST.end(3), 1, Err(Waiting)),
                (FIRST.end(3), 1, Err(Waiting)),
            ],
        );
        waiting(
            &rt,
            &fader,
            FIRST,
            &[true, true, true, false, true, true, true, true],
        );
        drain(&mut fader, FIRST);
        puts(
            &rt,
            &mut fader,
            &[(FIRST.end(0), 1, Ok(7)), (FIRST.end(0), 1, Ok(0))],
        );
        Ok(())
    }

    #[test]
    fn sizes_of_frames(rt: HostRuntime) -> Result<(), Fail> {
        numbers(&rt);
        let mut plant = pair(Cable::new(), Segment::new(2)?)?;
        for c in [Circuit(0), Circuit(1)] {
            puts(
                &rt,
                &mut plant,
                &[
                    (c.end(0), 0, Err(SIZE)),
                    (c.end(0), 276, Err(SIZE)),
                    (Circuit(9).end(9), 276, Err(SIZE)),
                    (c.end(2), 1, Err(Unknown)),
                    (c.end(0), 275, Ok(0)),
                    (c.end(0), 1, Err(Waiting)),
                    (c.end(1), 1, Ok(0)),
                ],
            );
            takes(
                &rt,
                &mut plant,
                &[
                    (Circuit(9).end(1), Err(Unknown)),
                    (c.end(1), Ok(Some(275))),
                    (c.end(1), Ok(None)),
                    (c.end(0), Ok(Some(1))),
                ],
            );
        }
        Ok(())
    }

    #[test]
    fn sizes_of_buffers(rt: HostRuntime) -> Result<(), Fail> {
        numbers(&rt);
        let mut cable = Cable::new();
        let mut small = [5; 274];
        let mut buffer = [5; 275];
        let _ = cable.put(FIRST.end(0), &[1, 2])?;
        assert_eq!(rt; cable.take(Circuit(9).end(1), &mut small), Err(SIZE));
        assert_eq!(rt; cable.take(FIRST.end(1), &mut buffer), Ok(Some(2)));
        assert_eq!(rt; &buffer[..2], &[1, 2][..]);
        assert_eq!(rt; &buffer[2..], &[5; 273][..]);
        Ok(())
    }

    #[test]
    fn segments_have_2_to_8_ends(rt: HostRuntime) {
        numbers(&rt);
        for (n, want) in [
            (0, Err(Unknown)),
            (1, Err(Unknown)),
            (2, Ok(2)),
            (8, Ok(8)),
            (9, Err(Unknown)),
        ] {
            let ends = Segment::new(n).and_then(|segment| segment.ends(FIRST));
            assert_eq!(rt; ends, want);
        }
    }

    // The kind and the number of ends of each circuit, by a table, and a put on each.
    fn circuits<P: Plant>(rt: &impl Abort, plant: &mut P, table: &[(Kind, usize)]) {
        assert_eq!(rt; plant.circuits(), table.len());
        for (c, (kind, ends)) in table.iter().copied().enumerate() {
            let circuit = Circuit(c);
            assert_eq!(rt; plant.kind(circuit), Ok(kind));
            assert_eq!(rt; plant.ends(circuit), Ok(ends));
            let end = circuit.end(1);
            puts(rt, plant, &[(end, 1, Ok(0)), (end, 2, Err(Waiting))]);
            waiting(rt, plant, circuit, &[true, false]);
        }
        let absent = Circuit(table.len()).end(1);
        puts(
            rt,
            plant,
            &[(absent, 1, Err(Unknown)), (absent, 0, Err(SIZE))],
        );
    }

    #[test]
    fn pairs_of_pairs_number_on(rt: HostRuntime) -> Result<(), Fail> {
        numbers(&rt);
        let left = pair(Cable::new(), Segment::new(3)?)?;
        let right = pair(Segment::new(8)?, Cable::new())?;
        let mut plant = pair(left, right)?;
        let line = Kind::PointToPoint;
        let shared = Kind::Broadcast;
        circuits(
            &rt,
            &mut plant,
            &[(line, 2), (shared, 3), (shared, 8), (line, 2)],
        );
        takes(
            &rt,
            &mut plant,
            &[
                (Circuit(2).end(7), Ok(Some(1))),
                (Circuit(3).end(0), Ok(Some(1))),
                (Circuit(3).end(1), Ok(None)),
                (Circuit(2).end(8), Err(Unknown)),
            ],
        );
        Ok(())
    }

    // That a plant of 12 circuits cannot be joined to another, and both come back as they were.
    fn is_full<P: Plant + Drop>(rt: &impl Abort, plant: P) -> Result<(), Fail> {
        let mut twelve = plant;
        assert_eq!(rt; twelve.circuits(), 12);
        let (last, absent) = (Circuit(11), Circuit(12));
        puts(
            rt,
            &mut twelve,
            &[(last.end(0), 1, Ok(0)), (absent.end(0), 1, Err(Unknown))],
        );
        let back = Pair::new(twelve, Cable::new()).err().ok_or("13 circuits")?;
        assert_eq!(rt; back.refusal, TooMany);
        assert_eq!(rt; back.second.circuits(), 1);
        waiting(rt, &back.first, last, &[false, true]);
        Ok(())
    }

    #[test]
    fn plants_have_at_most_12_circuits(rt: HostRuntime) -> Result<(), Fail> {
        numbers(&rt);
        is_full(&rt, pair(pair(four()?, four()?)?, four()?)?)
    }
}
