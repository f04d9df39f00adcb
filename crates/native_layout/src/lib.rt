//! The shapes of values in native memory, and where the fields of a struct lie (ECMA-335 II.10.7).
#![tactic(auto)]

mod contents;
mod extent;
mod fields;
pub mod laws;
mod layouts;
mod offsets;
mod outlines;
mod overlap;
mod placing;
mod refused;
mod shapes;
mod sizes;

pub use contents::{
    MOST_NESTING, MOST_PARTS, has_pointer_cells, has_texts, is_flat, is_in_order, scalar_parts,
};
pub use extent::Extent;
pub use layouts::{can_be_laid_out, layout};
pub use outlines::Outline;
pub use placing::LARGEST_STRUCT;
pub use refused::LayoutBad;
pub use shapes::{Enc, Layout, Offsets, Shape, Shapes, StructShape};
pub use sizes::{align_of, size_of};
