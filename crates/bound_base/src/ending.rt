//! How a run ends, and its exit status.

ghost use Rattle.std.specs.Prelude.{◌≡◌};
ghost use Rattle.bound_base.specs.Ending.{status, status_of_number};

/// How a run ends.
#[derive(Clone, Copy, Debug, PartialEq, Eq)]
pub enum Ending {
    /// The entry method returned this number (a void one 0).
    Returned(i32),
    /// `Environment.Exit` was called with this number.
    Exited(i32),
    /// An exception left the entry method; its type's number.
    Unhandled(u32),
    /// The events of the run are as many as its fuel.
    Spent,
    /// The next step isn't allowed: the method's token, and the offset in its code.
    Bad { token: u32, at: u32 },
    /// One more frame than the limit was called.
    Deep,
    /// The output couldn't be written.
    SinkFailed,
    /// Native code that no import called faulted; its pc.
    InitFault(u64),
    /// There is no memory for the run.
    Memory,
}

/// The exit status of an ending: the number of a run that returned or exited, 200 where that lies outside 0 to
/// 199, and a status of its own for each other ending.
pub fn status_of(ending: &Ending) -> u8
    ensures { result ≡ status ending.now }
{
    match ending {
        Ending::Returned(number) => number_status(*number),
        Ending::Exited(number) => number_status(*number),
        Ending::Unhandled(_) => 207,
        Ending::Spent => 208,
        Ending::Bad { .. } => 206,
        Ending::Deep => 209,
        Ending::SinkFailed => 210,
        Ending::InitFault(_) => 213,
        Ending::Memory => 211,
    }
}

fn number_status(number: i32) -> u8
    ensures { result ≡ status_of_number number }
{
    if 0 <= number && number < 200 {
        number as u8
    } else {
        200
    }
}
