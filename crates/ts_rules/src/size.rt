//! How many alternatives there are and how long they are, as two counts: the crates above count
//! into it, so that none has to be built.

/// The size of some alternatives, whose counts stop one past the limits of a grammar.
#[derive(Clone, Copy, Debug, PartialEq, Eq)]
pub struct Size {
    /// How many there are, or 65,536 where there are more.
    pub many: u64,
    /// The most steps of one, or 256 where there are more.
    pub longest: u64,
}
