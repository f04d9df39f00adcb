//! Laws of native code. The contract of each function is the law; the call does nothing.

ghost use Rattle.native_code.specs.Laws.{
  FaultsNameTheirPlace,
  ArrivalsNameTheirPlace,
  EntriesHoldWords,
  EventsKeepOthers,
};

/// A fault names the address of the instruction, or the place of the host function.
pub fn faults_name_their_place()
    ensures { FaultsNameTheirPlace }
{}

/// Native code arrives at `pc`, and only below memory and where no host function stands.
pub fn arrivals_name_their_place()
    ensures { ArrivalsNameTheirPlace }
{}

/// In an event, blocks come and go as heap blocks alone; all others stay, but for their bytes, and
/// what is free stays free.
pub fn events_keep_others()
    ensures { EventsKeepOthers }
{}

/// At an entry each argument word that has a register is in it, `ra` is the return place, and other
/// registers are 0.
pub fn entries_hold_words()
    ensures { EntriesHoldWords }
{}
