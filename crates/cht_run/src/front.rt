//! A table that is closed: its whole log.

use crate::seat::Raw;
use crate::sight::Origin;

/// What is left of a table that was closed. Contracts see what it was made with, and its whole log.
#[derive(Drop)]
pub struct Front {
    pub(crate) note: Raw,
    pub(crate) origin: Origin,
}
