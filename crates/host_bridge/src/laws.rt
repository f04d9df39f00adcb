//! Laws of runs of a symbol: each function's contract is one.

ghost use Rattle.host_bridge.specs.Laws.{
  FaultsNameTheirPlace,
  EventsTakeFuel,
  RunsEnd,
  RunsEndInThreeWays,
  EndedRunsStay,
  MoreFuelIsTheSame,
  InitializersComeFirst,
};

/// A fault names the address of the instruction, or the place where native code has come to.
pub fn faults_name_their_place()
    ensures { FaultsNameTheirPlace }
{}

/// Each event takes one unit of fuel.
pub fn events_take_fuel()
    ensures { EventsTakeFuel }
{}

/// Each run has ended after as many events as it has fuel.
pub fn runs_end()
    ensures { RunsEnd }
{}

/// It ends with a number, for want of fuel, or by a fault.
pub fn runs_end_in_three_ways()
    ensures { RunsEndInThreeWays }
{}

/// Where a run has ended, nothing changes any more; a fault, too, leaves memory as it was.
pub fn ended_runs_stay()
    ensures { EndedRunsStay }
{}

/// A run that doesn't end for want of fuel is the same with more fuel.
pub fn more_fuel_is_the_same()
    ensures { MoreFuelIsTheSame }
{}

/// Initializers run in order, each from fresh registers: of the first, the rest of the run sees the
/// memory and the fuel that it left, and nothing else.
pub fn initializers_come_first()
    ensures { InitializersComeFirst }
{}
