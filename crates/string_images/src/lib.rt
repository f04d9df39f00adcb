//! Texts as bytes of native memory: UTF-8 and UTF-16 with their ends, texts in place, and UTF-8 read back.
#![tactic(auto)]

mod inline;
pub mod laws;
mod texts;

pub use inline::inline_text;
pub use texts::{from_utf8, to_utf8z, to_utf16z};
