//! Binds libraries: places them in memory, finds names among them, and relocates them (System V gABI, 'Program Loading and
//! Dynamic Linking'; RISC-V psABI).
#![tactic(auto)]

mod binding;
mod binding_laws;
mod bound;
mod index;
mod initializers;
mod laws;
mod library_names;
mod loading;
mod module;
mod refusal;
mod relocating;
mod relocation;
mod scope;
mod source;
mod symbol_values;
mod targets;
mod texts;

pub use binding::bind;
pub use binding_laws::{
    bases_are_whole, binding_keeps_older_bytes, libraries_lie_apart, relocations_stay_inside,
};
pub use bound::Bound;
pub use laws::{
    first_library_counts, host_functions_lie_apart, inner_symbols_export_nothing,
    names_stay_defined, own_names_come_first,
};
pub use module::{Export, Module, is_defined};
pub use refusal::BindBad;
pub use scope::address_of;
