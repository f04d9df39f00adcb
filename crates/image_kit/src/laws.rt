//! What holds of each file that is written: a proof for all plans, in a function that does nothing.

ghost use Rattle.image_kit.specs.LibraryReads.{LibrariesReadBack};
ghost use Rattle.image_kit.specs.AssemblyReads.{AssembliesReadBack};

/// The file of each plan that fits is read as the plan's library.
pub fn libraries_read_back()
    ensures { LibrariesReadBack }
{}

/// The file of each plan that fits is read as the plan's assembly.
pub fn assemblies_read_back()
    ensures { AssembliesReadBack }
{}
