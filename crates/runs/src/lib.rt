//! The algebra of runs: of any machine whose states come one after another, event by event, until
//! it ends.
//!
//! `Machine` in `specs/Machines.antt` is what a machine has to say: what comes of a state in one
//! event, which is the next state with pieces of output and entries of a log or an ending, and how
//! many events may still come, its fuel. A type whose values are the states says it by `HasRuns`,
//! and each law then holds of it by the contract of the function here. Proofs about one machine
//! cite the lemmas of `proofs/`, which are the same laws.
#![tactic(auto)]

ghost use Rattle.runs.specs.Machines.{Machine};
ghost use Rattle.runs.specs.Laws.{
  TakesFuel,
  StepsAdd,
  PartsJoin,
  EndsJoin,
  FrontsJoin,
  EndedRunsStay,
  FuelLeadsToEnds,
  RunsEnd,
  MoreFuelIsTheSame,
};

/// A type whose values, as contracts see them, are the states of a machine.
pub trait HasRuns {
    /// A piece of output.
    type Piece;
    /// An entry of the log.
    type Entry;
    /// How a run ends.
    type Ending;

    ghost machine: { Machine Self Self.Piece Self.Entry Self.Ending };
}

/// So many events and so many more are as many as both, and what they put and enter follows in
/// order.
pub fn steps_add<M: HasRuns>()
    ensures { StepsAdd M.machine }
{}

/// Parts of a run join: some events and some more, some events and an end, some events and a front
/// of what is put then.
pub fn parts_join<M: HasRuns>()
    ensures parts { PartsJoin M.machine }
    ensures ends { EndsJoin M.machine }
    ensures fronts { FrontsJoin M.machine }
{}

/// Where a run has ended, nothing changes any more.
pub fn ended_runs_stay<M: HasRuns>()
    ensures { EndedRunsStay M.machine }
{}

/// Where each event takes one unit of fuel, each run ends, in one way: as many events as it has
/// fuel lead to its end.
pub fn runs_end<M: HasRuns>()
    ensures once { FuelLeadsToEnds M.machine }
    ensures always { TakesFuel M.machine → RunsEnd M.machine }
{}

/// A run that doesn't end for want of fuel is the same with more fuel.
pub fn more_fuel_is_the_same<M: HasRuns>()
    ensures { TakesFuel M.machine → MoreFuelIsTheSame M.machine }
{}
