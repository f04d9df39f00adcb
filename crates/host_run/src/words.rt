//! The line grammar: from the words of a line to its command.

ghost use Rattle.std.specs.Prelude.{◌≡◌, ◌≤◌, IfOk, OnErr, true, is_some, length, drop};
ghost use Rattle.std.specs.List.{position_or_len, after_first};
ghost use Rattle.host_run.specs.WordMemory.{keeps_words, has_parts_of_call};
ghost use Rattle.host_run.specs.Grammar.{texts, command, lone_file, native, values, run, drill, is_end, no_words, said_by, said_whole, fits_program};

use crate::command::{Command, RunWords, Word, Words8};
use crate::numbers::{DECIMAL_DIGITS, number, word_value};
use crate::options::{Awaits, Options, names_file, no_words, with_word};
use bound_base::NoMemory;
use std::alloc::Global;

/// The fuel of a run that doesn't ask for any.
const DEFAULT_FUEL: u64 = 10_000_000;

/// The most words of a program, and the most bytes of these together.
const PROGRAM_WORDS: usize = 65_536;

const PROGRAM_BYTES: usize = 16_777_216;

/// The command that a line's words ask for; None exactly where they are outside the line grammar. Memory is wanted only
/// where words are kept: a line whose first word is no command, or that has too few or too many words, needs none.
#[tactic(auto, unfolding(crate::specs::WordMemory::keeps_words))]
pub fn read_words(alloc: Global, words: &[String]) -> Result<Option<Command>, NoMemory>
    ensures command { IfOk result (λ found. found ≡ command (texts words.now)) }
    ensures memory { OnErr result (keeps_words (texts words.now) ≡ true) }
{
    let Some((name, rest)) = words.split_first() else {
        return Ok(None);
    };
    let name = name.as_str();
    if name == "imports" {
        Ok(lone_file(alloc, rest)?.map(Command::Imports))
    } else if name == "stubs" {
        Ok(lone_file(alloc, rest)?.map(Command::Stubs))
    } else if name == "native" {
        native(alloc, rest)
    } else if name == "run" {
        run(alloc, rest)
    } else if name == "drill" {
        Ok(drill(rest))
    } else {
        Ok(None)
    }
}

/// The one word, where it may name a file.
fn lone_file(alloc: Global, words: &[String]) -> Result<Option<Word>, NoMemory>
    ensures file { IfOk result (λ found. found ≡ lone_file (texts words.now)) }
    ensures memory { OnErr result (is_some (lone_file (texts words.now)) ≡ true) }
{
    match words {
        [file] if names_file(file.as_str()) => Ok(Some(Word::new(alloc, file.as_str())?)),
        _ => Ok(None),
    }
}

/// The words after `native`.
fn native(alloc: Global, words: &[String]) -> Result<Option<Command>, NoMemory>
    ensures call { IfOk result (λ found. found ≡ native (texts words.now)) }
    ensures memory { OnErr result (has_parts_of_call (texts words.now) ≡ true) }
{
    let [lib, symbol, arguments @ ..] = words else {
        return Ok(None);
    };
    if !names_file(lib.as_str()) || symbol.is_empty() || arguments.len() > 8 {
        return Ok(None);
    }
    let Some(values) = values(alloc, arguments)? else {
        return Ok(None);
    };
    let lib = Word::new(alloc, lib.as_str())?;
    let symbol = Word::new(alloc, symbol.as_str())?;
    Ok(Some(Command::Native(lib, symbol, values)))
}

/// The numbers of all the words; None where one is no number.
fn values(alloc: Global, words: &[String]) -> Result<Option<Words8>, NoMemory>
    ensures { IfOk result (λ found. found ≡ values (texts words.now)) }
{
    let mut values = Words8::new(alloc);
    for word in words {
        match word_value(word.as_str()) {
            Some(value) => values.push(value)?,
            None => return Ok(None),
        }
    }
    Ok(Some(values))
}

/// The words after `run`.
fn run(alloc: Global, words: &[String]) -> Result<Option<Command>, NoMemory>
    ensures program { IfOk result (λ found. found ≡ run (texts words.now)) }
    ensures memory { OnErr result (fits_program (after_first is_end (texts words.now)) ≡ true) }
{
    let end = end_of(words);
    let before = 1 + (end + 1).min(words.len());
    if !fits_program(from_or_none(words, end + 1)) {
        return Ok(None);
    }
    match said_by(alloc, &words[..end])? {
        Some(said) => Ok(said_whole(before as u64, said)),
        None => Ok(None),
    }
}

/// How many words stand before the first `--`; all where there is none.
fn end_of(words: &[String]) -> usize
    ensures value { result ≡ position_or_len is_end (texts words.now) }
    ensures within { result ≤ length words.now }
{
    for (place, word) in words.iter().enumerate() {
        if word.as_str() == "--" {
            return place;
        }
    }
    words.len()
}

/// The words from a place on; none where it is past the end.
fn from_or_none(words: &[String], at: usize) -> &[String]
    ensures { result.now ≡ drop at words.now }
{
    if at < words.len() { &words[at..] } else { &[] }
}

/// Whether the words are not too many for a program, and not too long together.
fn fits_program(words: &[String]) -> bool
    ensures { result ≡ fits_program (texts words.now) }
{
    if words.len() > PROGRAM_WORDS {
        return false;
    }
    let mut room = PROGRAM_BYTES;
    for word in words {
        if word.len() > room {
            return false;
        }
        room -= word.len();
    }
    true
}

/// What all the words of `run` before a `--` say.
fn said_by(alloc: Global, words: &[String]) -> Result<Option<Options>, NoMemory>
    ensures { IfOk result (λ found. found ≡ said_by no_words (texts words.now)) }
{
    let mut said = no_words(alloc);
    for word in words {
        match with_word(alloc, said, word.as_str())? {
            Some(next) => said = next,
            None => return Ok(None),
        }
    }
    Ok(Some(said))
}

/// The command of what was said, where a FILE was and no option still awaits its word.
#[tactic(auto, unfolding(crate::specs::Grammar::said_whole))]
fn said_whole(before: u64, said: Options) -> Option<Command>
    ensures { result ≡ said_whole before said }
{
    if said.awaits != Awaits::Nothing {
        return None;
    }
    let file = said.file?;
    Some(Command::Run(RunWords {
        file,
        libs: said.libs,
        fuel: said.fuel.unwrap_or(DEFAULT_FUEL),
        report: said.report,
        log: said.log,
        before,
    }))
}

/// The words after `drill`.
fn drill(words: &[String]) -> Option<Command>
    ensures { result ≡ drill (texts words.now) }
{
    let [digits] = words else {
        return None;
    };
    let number = number(10, DECIMAL_DIGITS, u64::from(u32::MAX), digits.as_str())?;
    Some(Command::Drill(number as u32))
}
