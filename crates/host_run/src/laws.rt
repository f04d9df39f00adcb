//! Laws of the line grammar, of answers and of `native`: each function's contract is one.

ghost use Rattle.host_run.specs.GrammarLaws.{CommandsKeepBounds, ProgramWordsAreFree};
ghost use Rattle.host_run.specs.AnswerLaws.{AnswersAreNoFailures, OtherAnswersAreOne, ReadingEndsAtARefusal};
ghost use Rattle.host_run.specs.RunItems.{RunLinesSayTheirItems, RunLinesAreItems};
ghost use Rattle.host_run.specs.NativeLaws.{NativeHasFiveStatuses, PrintedNumbersReadBack};

/// Whatever the words of a line are: the FILE or LIB of a command that they ask for isn't empty and doesn't begin with
/// `-`, the SYMBOL isn't empty, the numbers are at most eight, the fuel is at most 100,000,000, the words of a program are at
/// most 65,536 and of at most 16,777,216 bytes together, a drill is below 2^32.
pub fn commands_keep_bounds()
    ensures { CommandsKeepBounds }
{}

/// The words after the first `--` of `run` are the program's alone: with other words there, within the bounds, the
/// line asks for the same command.
pub fn program_words_are_free()
    ensures { ProgramWordsAreFree }
{}

/// FILE, `--lib` and `--fuel` in either spelling, `--report` and `--log` may stand in any order: the line asks for the
/// command that these items name, with the libraries in their order, and for none where FILE isn't there once, or the
/// fuel, `--report` or `--log` twice.
pub fn run_lines_say_their_items()
    ensures { RunLinesSayTheirItems }
{}

/// Each line of `run` that asks for a command is one of such items, with or without `--` and the program's words.
pub fn run_lines_are_items()
    ensures { RunLinesAreItems }
{}

/// No answer to words and files has the status of a failed read, a failed put or want of memory.
pub fn answers_are_no_failures()
    ensures { AnswersAreNoFailures }
{}

/// Words that ask for another command than `drill` have one answer to files.
pub fn other_answers_are_one()
    ensures { OtherAnswersAreOne }
{}

/// The files that a call reads end with the first that refuses it.
pub fn reading_ends_at_a_refusal()
    ensures { ReadingEndsAtARefusal }
{}

/// Whatever the bytes of a library are, the definition answers them with a number and 0, or with 205, 208, 213 or 214. Beside that
/// a put can fail, or memory be wanting.
pub fn native_has_five_statuses()
    ensures { NativeHasFiveStatuses }
{}

/// A number that `native` prints has sixteen digits, and it is read back: with `0x` before it, it is a word of a line that
/// means that number.
pub fn printed_numbers_read_back()
    ensures { PrintedNumbersReadBack }
{}
