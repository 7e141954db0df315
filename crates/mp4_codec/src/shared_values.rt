//! Where the values of a list lie that copies share.

use crate::items::Items;
use std::alloc::Global;
use std::sync::Arc;

/// Where they lie, by how many they are.
#[derive(Drop)]
pub(crate) enum SharedValues<T> {
    /// There are none, which takes no memory.
    Empty,
    /// One value lies beside the count of its owners, so that a reader comes to it by one pointer.
    One(Arc<T, Global>),
    /// Two or more are a list.
    Many(Arc<Items<T>, Global>),
}
