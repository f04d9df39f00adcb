//! The words of `run`, one after another.

ghost use Rattle.std.specs.Prelude.{◌≡◌, IfOk};
ghost use Rattle.host_run.specs.Grammar.{names_file, no_words, with_word, with_option, with_lib, with_fuel, with_file, with_report, with_log};

use crate::command::{Word, WordList};
use crate::numbers::{DECIMAL_DIGITS, after, number};
use bound_base::NoMemory;
use std::alloc::Global;

/// The greatest fuel that a line may ask for.
pub const GREATEST_FUEL: u64 = 100_000_000;

/// What the words of `run` have said so far.
#[derive(Drop)]
pub struct Options {
    pub file: Option<Word>,
    pub libs: WordList,
    pub fuel: Option<u64>,
    pub report: bool,
    pub log: bool,
    pub awaits: Awaits,
}

/// The option whose own word comes next.
#[derive(Clone, Copy, PartialEq, Eq)]
pub enum Awaits {
    Nothing,
    Lib,
    Fuel,
}

/// Before the first word.
pub fn no_words(alloc: Global) -> Options
    ensures { result ≡ no_words }
{
    Options {
        file: None,
        libs: WordList::new(alloc),
        fuel: None,
        report: false,
        log: false,
        awaits: Awaits::Nothing,
    }
}

/// What is said after one more word; None where the word can't stand there.
#[tactic(auto, unfolding(crate::specs::Grammar::with_word))]
pub fn with_word(alloc: Global, said: Options, word: &str) -> Result<Option<Options>, NoMemory>
    ensures { IfOk result (λ next. next ≡ with_word said word.now) }
{
    match said.awaits {
        Awaits::Nothing => with_option(alloc, said, word),
        Awaits::Fuel => Ok(with_fuel(said, word)),
        Awaits::Lib => {
            if names_file(word) {
                with_lib(alloc, said, word)
            } else {
                Ok(None)
            }
        }
    }
}

/// The same where no option awaits its word.
#[tactic(auto, unfolding(crate::specs::Grammar::with_option))]
fn with_option(alloc: Global, mut said: Options, word: &str) -> Result<Option<Options>, NoMemory>
    ensures { IfOk result (λ next. next ≡ with_option said word.now) }
{
    if word == "--lib" {
        said.awaits = Awaits::Lib;
        return Ok(Some(said));
    }
    if word == "--fuel" {
        said.awaits = Awaits::Fuel;
        return Ok(Some(said));
    }
    if word == "--report" {
        return Ok(with_report(said));
    }
    if word == "--log" {
        return Ok(with_log(said));
    }
    if let Some(lib) = after("--lib=", word) {
        return with_lib(alloc, said, lib);
    }
    if let Some(digits) = after("--fuel=", word) {
        return Ok(with_fuel(said, digits));
    }
    with_file(alloc, said, word)
}

#[tactic(auto, unfolding(crate::specs::Grammar::with_report))]
fn with_report(mut said: Options) -> Option<Options>
    ensures { result ≡ with_report said }
{
    if said.report {
        return None;
    }
    said.report = true;
    Some(said)
}

#[tactic(auto, unfolding(crate::specs::Grammar::with_log))]
fn with_log(mut said: Options) -> Option<Options>
    ensures { result ≡ with_log said }
{
    if said.log {
        return None;
    }
    said.log = true;
    Some(said)
}

#[tactic(auto, unfolding(crate::specs::Grammar::with_lib))]
fn with_lib(alloc: Global, mut said: Options, lib: &str) -> Result<Option<Options>, NoMemory>
    ensures { IfOk result (λ next. next ≡ with_lib said lib.now) }
{
    if lib.is_empty() {
        return Ok(None);
    }
    said.libs.push(Word::new(alloc, lib)?)?;
    said.awaits = Awaits::Nothing;
    Ok(Some(said))
}

#[tactic(auto, unfolding(crate::specs::Grammar::with_fuel))]
fn with_fuel(mut said: Options, digits: &str) -> Option<Options>
    ensures { result ≡ with_fuel said digits.now }
{
    if said.fuel.is_some() {
        return None;
    }
    let fuel = number(10, DECIMAL_DIGITS, GREATEST_FUEL, digits)?;
    said.fuel = Some(fuel);
    said.awaits = Awaits::Nothing;
    Some(said)
}

#[tactic(auto, unfolding(crate::specs::Grammar::with_file))]
fn with_file(alloc: Global, mut said: Options, file: &str) -> Result<Option<Options>, NoMemory>
    ensures { IfOk result (λ next. next ≡ with_file said file.now) }
{
    if said.file.is_some() || !names_file(file) {
        return Ok(None);
    }
    said.file = Some(Word::new(alloc, file)?);
    Ok(Some(said))
}

/// Whether a word may name a file: it isn't empty and doesn't begin with `-`.
pub fn names_file(word: &str) -> bool
    ensures { result ≡ names_file word.now }
{
    match word.as_bytes() {
        [first, ..] => *first != b'-',
        [] => false,
    }
}
