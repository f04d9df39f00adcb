//! Files and cells that were worked out by hand, each with what reading gives for it: a proof that
//! the definitions say so, in a function that does nothing.

ghost use Rattle.byte_view.specs.Examples.{
  CutFile,
  CompressedNumbers,
  IndexWidths,
  CodedIndexWidths,
  NoUserStringPastHeap,
  EmptyFile,
  ModuleFile,
  WrongNameFile,
};

/// A file of 62 bytes that begins with `MZ` is refused at 60, where the number is cut.
#[tactic(auto, using(crate::proofs::Worked::cut_file))]
pub fn cut_file_is_refused()
    ensures { CutFile }
{}

/// `03` is 3, `80 05` is 5, `DF FF FF FF` is 536,870,911; `E0` begins no number, and `80` alone is
/// cut.
#[tactic(auto, using(crate::proofs::Worked::compressed_numbers))]
pub fn compressed_numbers_are_read()
    ensures { CompressedNumbers }
{}

/// An index has 2 bytes for 65,535 rows, and 4 for 65,536.
#[tactic(auto, using(crate::proofs::Worked::index_widths))]
pub fn index_widens_at_65536_rows()
    ensures { IndexWidths }
{}

/// An index with two tag bits has 2 bytes for 16,383 rows, and 4 for 16,384.
#[tactic(auto, using(crate::proofs::Worked::coded_index_widths))]
pub fn coded_index_widens_at_16384_rows()
    ensures { CodedIndexWidths }
{}

/// No user string stands past the end of its heap.
#[tactic(auto, using(crate::proofs::Worked::no_user_string_past_heap))]
pub fn no_user_string_stands_past_heap()
    ensures { NoUserStringPastHeap }
{}

/// A whole file with no table.
#[tactic(auto, using(crate::proofs::Worked::empty_file_reads))]
pub fn empty_file_is_read()
    ensures { EmptyFile }
{}

/// A whole file with one row of Module, and its name.
#[tactic(auto, using(crate::proofs::Worked::module_file_reads))]
pub fn module_file_is_read()
    ensures { ModuleFile }
{}

/// The same file, whose Module has a name after the end of `#Strings`: that cell is refused.
#[tactic(auto, using(crate::proofs::Worked::wrong_name_file_is_refused))]
pub fn wrong_name_is_refused()
    ensures { WrongNameFile }
{}
