//! Laws of binding. The contract of each function is the law; the call does nothing.

ghost use Rattle.elf_binder.specs.BindingLaws.{BasesAreWhole, LibrariesLieApart, RelocationsStayInside, BindingKeepsOlderBytes};

/// The bases of libraries are multiples of 65,536.
pub fn bases_are_whole()
    ensures { BasesAreWhole }
{}

/// Two loads of libraries share no byte: each that has bytes ends before those of any later library begin.
pub fn libraries_lie_apart()
    ensures { LibrariesLieApart }
{}

/// Relocating a library changes no byte outside of its own writable loads.
pub fn relocations_stay_inside()
    ensures { RelocationsStayInside }
{}

/// Binding changes no byte of what stood in memory before.
pub fn binding_keeps_older_bytes()
    ensures { BindingKeepsOlderBytes }
{}
