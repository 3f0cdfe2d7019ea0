// Flooding. The theorems about it stand in the contracts of these functions, and their statements in specs/: read specs/Convergence first.
#![tactic(auto)]

ghost use Rattle.flooding.specs.AllIds.{Projects};
ghost use Rattle.flooding.specs.Consistency.{
  ActiveOwnerHolds,
  CopiesInStep,
  Issued,
  NoNumberBeyond,
  NoPurgeOfLast,
  RunsAreConsistent,
  SentIsAllowed,
  UnissuedUnheld,
};
ghost use Rattle.flooding.specs.Convergence.{Converges, ConvergesByHops};
ghost use Rattle.flooding.specs.Frames.{PartsMentionOnce, RangesMentionOnce, RisingNoLonger};
ghost use Rattle.flooding.specs.HeardCopies.{HeardByRule};
ghost use Rattle.flooding.specs.Hops.{ConvergesWhileHeld, ReachedByAll, ReachedByHops, WindowsCarry};
ghost use Rattle.flooding.specs.IssueBook.{KeepsTheBook};
ghost use Rattle.flooding.specs.Ranks.{Ranks};

// After 20 × (N + B) ticks, of which at most B missed a frame, all N routers hold what the owner holds.
pub fn converges()
    ensures { Converges }
{}

// The same by hops, and for windows of any length from 15 on.
pub fn converges_by_hops()
    ensures { ConvergesByHops }
{}

// The argument by hops, over the window's length.
pub fn reaches()
    ensures carries { WindowsCarry }
    ensures hops { ReachedByHops }
    ensures all { ReachedByAll }
    ensures twenty { ConvergesWhileHeld }
{}

// What holds in every run.
pub fn is_consistent()
    ensures always { RunsAreConsistent }
    ensures issued { Issued }
    ensures ages { CopiesInStep }
    ensures numbers { NoNumberBeyond }
    ensures purges { NoPurgeOfLast }
    ensures owner { ActiveOwnerHolds }
    ensures sent { SentIsAllowed }
    ensures unissued { UnissuedUnheld }
    ensures book { KeepsTheBook }
{}

// From the whole network to one identifier.
pub fn projects()
    ensures ticks { Projects }
    ensures ranges { RangesMentionOnce }
    ensures parts { PartsMentionOnce }
    ensures lengths { RisingNoLonger }
    ensures heard { HeardByRule }
    ensures ranks { Ranks }
{}
