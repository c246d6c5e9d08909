//! Where the items of a list lie.

use std::sync::Arc;

/// Items in memory of their own, or in memory that several lists share.
#[derive(Drop)]
pub enum Held<T> {
    /// In memory of their own.
    Own(Vec<T>),
    /// In memory that is shared.
    Shared(Arc<Vec<T>>),
}
