//! The commands of a line, and the words that they hold.

ghost use Rattle.std.specs.Prelude.{◌≡◌, IfOk};

use bound_base::{Items, NoMemory};
use std::alloc::Global;
use std::marker::Model;

/// A word of the line. Two with the same bytes are equal in contracts.
#[derive(Debug, Drop)]
pub struct Word {
    text: String,
}

impl Model for Word {
    ghost use Rattle.std.specs.Prelude.{ℕ, List, string_bytes};

    ghost Value = { List ℕ };

    ghost view = { λ w. string_bytes w.text };
}

impl Word {
    /// A word of its own with the bytes of `text`.
    pub fn new(alloc: Global, text: &str) -> Result<Word, NoMemory>
        ensures { IfOk result (λ w. w ≡ text.now) }
    {
        Ok(Word {
            text: String::from_str(alloc, text)?,
        })
    }

    pub fn as_str(&self) -> &str
        ensures { result.now ≡ self.now }
    {
        self.text.as_str()
    }

    pub fn as_bytes(&self) -> &[u8]
        ensures { result.now ≡ self.now }
    {
        self.text.as_bytes()
    }
}

/// Words in order.
pub type WordList = Items<Word>;

/// At most eight numbers: the words that a native function is called with.
pub type Words8 = Items<u64>;

/// What the words after `run` say.
#[derive(Debug, Drop)]
pub struct RunWords {
    /// The assembly whose program is run.
    pub file: Word,
    /// The libraries, in the order in which they were named.
    pub libs: WordList,
    /// The most events of the run.
    pub fuel: u64,
    /// Whether the report is printed.
    pub report: bool,
    /// Whether the log is printed.
    pub log: bool,
    /// How many of the line's words, `run` among them, stand up to the first `--` and with it; all where there is
    /// none. The words after these are the program's.
    pub before: u64,
}

/// A command.
#[derive(Debug, Drop)]
pub enum Command {
    /// Print the imports of this file.
    Imports(Word),
    /// Print the stubs of this file's imports.
    Stubs(Word),
    /// Call a symbol of this library with these numbers.
    Native(Word, Word, Words8),
    /// Run a program.
    Run(RunWords),
    /// The drill of this number.
    Drill(u32),
}
