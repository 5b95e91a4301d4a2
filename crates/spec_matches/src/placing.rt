//! How the items of a list stand in a list of siblings.

use crate::found::Capture;
use ts_base::List;

/// What an item asks beside its test.
#[derive(Debug, Clone, Copy, PartialEq, Eq)]
pub struct Slot {
    /// Whether an anchor stands before it.
    pub tied: bool,
    /// Whether it may take nothing.
    pub optional: bool,
    /// Whether it may take more than one round.
    pub many: bool,
    /// How many siblings a round has beside the first.
    pub more: usize,
}

/// The siblings from one place up to another.
#[derive(Debug, Clone, Copy, PartialEq, Eq)]
pub struct Run {
    pub first: usize,
    pub past: usize,
}

/// A way in which the items from some item on embed: the place of the first sibling taken, whether
/// the first of these items takes it, and all captures in the order in which they are taken.
#[derive(Debug, Drop)]
pub struct Placing {
    pub first: Option<usize>,
    pub near: bool,
    pub captures: List<Capture>,
}
