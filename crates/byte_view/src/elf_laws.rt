//! What holds of each library that is read, in the words of the format: a proof for all files, in a
//! function that does nothing.

ghost use Rattle.byte_view.specs.ElfLaws.{LoadsOfLibrariesLieApart, CutLibrariesAreRefused, OutsideIsNotRead};

/// Each load of an accepted library has its bytes in the file, is at least as large in memory, and
/// ends below 2^32 and before any later one begins.
pub fn loads_of_libraries_lie_apart()
    ensures { LoadsOfLibrariesLieApart }
{}

/// A library that is cut before the end of the bytes of one of its loads isn't accepted.
pub fn cut_libraries_are_refused()
    ensures { CutLibrariesAreRefused }
{}

/// Two files of one length with the same bytes in ELF header, program headers, dynamic section and
/// loads have one answer, whatever stands elsewhere, as sections do.
pub fn outside_is_not_read()
    ensures { OutsideIsNotRead }
{}
