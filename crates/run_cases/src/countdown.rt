//! The laws of runs, of a small machine.

ghost use Rattle.runs.specs.Laws.{StepsAdd, PartsJoin, EndedRunsStay, FuelLeadsToEnds};
ghost use Rattle.run_cases.specs.Counting.{counting};

use runs::HasRuns;

/// A number that counts down to 0, and puts what it was.
#[derive(Drop)]
pub struct Countdown {
    pub left: u64,
}

impl HasRuns for Countdown {
    type Piece = u64;

    type Entry = u64;

    type Ending = u64;

    ghost machine = { counting };
}

/// The laws hold of it, by the contracts of the calls. It does nothing.
pub fn laws_hold()
    ensures add { StepsAdd counting }
    ensures join { PartsJoin counting }
    ensures stay { EndedRunsStay counting }
    ensures ends { FuelLeadsToEnds counting }
{
    runs::steps_add::<Countdown>();
    runs::parts_join::<Countdown>();
    runs::ended_runs_stay::<Countdown>();
    runs::runs_end::<Countdown>();
    runs::more_fuel_is_the_same::<Countdown>();
}
