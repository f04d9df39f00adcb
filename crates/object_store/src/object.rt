//! An object, as the store keeps it.

use crate::body::Body0;
use crate::hidden::Hidden;

/// An object, as the store keeps it.
#[derive(Drop)]
pub struct StoredObject {
    pub body: Body0,
    pub hidden: Hidden,
    /// Its bytes count.
    pub counts: bool,
    /// The bytes of its elements are away.
    pub away: bool,
}
