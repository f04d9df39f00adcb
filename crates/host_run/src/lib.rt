//! The top call of plhost: words, files and streams in, output and a status out.
#![tactic(auto)]

mod assemblies;
mod closing;
mod command;
mod file_names;
mod files;
mod imports;
mod laws;
mod native;
mod numbers;
mod options;
mod refusals;
mod settled;
mod stubs;
mod texts;
mod top_call;
mod words;

pub use command::{Command, RunWords, Word, WordList, Words8};
pub use laws::{
    answers_are_no_failures, commands_keep_bounds, native_has_five_statuses, other_answers_are_one,
    printed_numbers_read_back, program_words_are_free, reading_ends_at_a_refusal,
    run_lines_are_items, run_lines_say_their_items,
};
pub use top_call::host;
pub use words::read_words;
