//! Laws of names. The contract of each function is the law; the call does nothing.

ghost use Rattle.elf_binder.specs.Laws.{FirstLibraryCounts, NamesStayDefined, InnerSymbolsExportNothing, HostFunctionsLieApart, OwnNamesComeFirst};

/// The first library that defines a name gives its address, whatever libraries stand after it.
pub fn first_library_counts()
    ensures { FirstLibraryCounts }
{}

/// The address of a name that a library defines doesn't depend on the libraries after it.
pub fn names_stay_defined()
    ensures { NamesStayDefined }
{}

/// A symbol that is local, internal or hidden, or has no section, gives no name: without it the library exports the same.
pub fn inner_symbols_export_nothing()
    ensures { InnerSymbolsExportNothing }
{}

/// Each host function has an address of its own, the place of its number, which lies in no block.
pub fn host_functions_lie_apart()
    ensures { HostFunctionsLieApart }
{}

/// A library of just a module's name is the module's, whatever other libraries are named.
pub fn own_names_come_first()
    ensures { OwnNamesComeFirst }
{}
