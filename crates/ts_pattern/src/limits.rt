//! The limits of a pattern.

/// How deep groups may nest.
pub(crate) const MOST_NESTED: u32 = 200;

/// The greatest count of a quantifier.
pub(crate) const MOST_COUNTED: u32 = 65_535;

/// How many positions there may be, where each set is one.
pub(crate) const MOST_POSITIONS: u32 = 8_192;
