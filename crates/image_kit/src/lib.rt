//! Writes files from plans: assemblies in PE32 and libraries in ELF, as their readers take them.
#![tactic(auto)]

mod assembly_file;
mod assembly_fits;
mod assembly_plan;
mod elf_head;
mod elf_symbols;
pub mod laws;
mod library_file;
mod library_plan;
mod metadata_root;
mod pe_head;
mod places;
mod plan_tables;
mod put;
mod table_stream;

pub use assembly_file::assembly;
pub use assembly_plan::{AssemblyPlan, MethodBody, TablePlan};
pub use library_file::library;
pub use library_plan::{LibraryPlan, NamedPlace};
