//! The metadata of an image: its heaps and the rows of its tables (ECMA-335 II.22 and II.24).
#![tactic(auto)]

mod cells;
pub mod columns;
mod fields;
mod heaps;
mod layout;
mod meta;
mod rows;
mod streams;
mod table_names;

pub use cells::{CHECKED_TABLES, is_sound};
pub use fields::text_at;
pub use heaps::{Heaps, entry_at, units};
pub use layout::{Shape, is_table, shape_rows};
pub use meta::{Meta, read_meta};
pub use table_names::{
    IMPL_MAP, IMPL_MAP_IMPORT_NAME, IMPL_MAP_IMPORT_SCOPE, MODULE_REF, MODULE_REF_NAME,
};
