// The network as definitions in specs/: its state, each call, a tick, runs of calls, and what is promised of every run.
// The functions' contracts are theorems about these definitions.
#![tactic(auto)]

ghost use Rattle.model.specs.Bench.{Benched};
ghost use Rattle.model.specs.Clean.{ZeroMissedIsClean};
ghost use Rattle.model.specs.DatabaseLaws.{DatabaseLaws};
ghost use Rattle.model.specs.Quietness.{NothingWaits};
ghost use Rattle.model.specs.RisingDatabases.{DatabasesRise};
ghost use Rattle.model.specs.SharingLaws.{PsnpsOf15};
ghost use Rattle.model.specs.WorkedCable.{CableWorked};
ghost use Rattle.model.specs.WorkedSegment.{SegmentWorked};

use plant::Plant;

// The bench cases hold of the definitions.
pub fn bench()
    ensures { Benched }
{}

// Two routers and a cable: an issue comes to the other router, and its acknowledgement back.
pub fn worked_cable()
    ensures { CableWorked }
{}

// Three routers on a segment: the designated router missed an issue, and its CSNP brings it.
pub fn worked_segment()
    ensures { SegmentWorked }
{}

// Over every plant, a tick that answers a missed sum of 0 is clean: no attached end missed a frame.
pub fn clean_ticks<P: Plant>(_plant: &P)
    ensures { ZeroMissedIsClean P.air P.put_over P.take_over }
{}

// Over every plant, in every run, no frame waits between calls.
pub fn nothing_waits<P: Plant>(_plant: &P)
    ensures { NothingWaits P.air P.put_over P.take_over }
{}

// What placing, deleting and changing a record do to a database.
pub fn database_laws()
    ensures { DatabaseLaws }
{}

// The PSNPs of a turn report the records with SSN, 15 to a frame, the last 1 to 15.
pub fn psnp_parts()
    ensures { PsnpsOf15 }
{}

// Over every plant, in every run, the identifiers of every database rise strictly.
pub fn databases_rise<P: Plant>(_plant: &P)
    ensures { DatabasesRise P.air P.put_over P.take_over }
{}
