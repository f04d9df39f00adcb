//! The types of an assembly and their members (ECMA-335 II.10, II.22): what a token names, what a type extends and holds,
//! and which methods are imports.
#![tactic(auto)]

mod bases;
mod below;
mod by_name;
mod copies;
mod core_types;
mod edges;
mod entry_point;
mod fields;
mod first_rows;
mod full_names;
mod import_rows;
mod laws;
mod loading;
mod locals;
mod members;
mod model;
mod module;
mod names;
mod part;
mod pool;
mod ref_names;
mod signatures;
mod spec_names;
mod table;
mod table_numbers;
mod type_ids;
mod ways;

pub use import_rows::ImportRow;
pub use laws::{accepted_types_close_no_circle, core_places_are_named};
pub use loading::load;
pub use members::{FieldRow, Import, Marshalled, MethodRow, TypeRow};
pub use model::Types;
