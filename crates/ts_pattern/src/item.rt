//! The items of which sets are made.
use ts_base::List;
use unicode::sets::Set;

/// Characters that are named in one way.
#[derive(Clone, Copy, Debug)]
pub(crate) enum Base {
    /// From the first code to the last.
    Range(u32, u32),
    Digit,
    Word,
    Space,
    Property(Set),
}

/// The characters of a base, or where it is lacking all others.
#[derive(Clone, Copy, Debug)]
pub(crate) struct Item {
    pub(crate) base: Base,
    pub(crate) lacking: bool,
}

/// What may stand in a class.
#[derive(Clone, Copy, Debug)]
pub(crate) enum Mark {
    /// A character, by its code.
    Char(u32),
    /// An escape that stands for several characters.
    Class(Item),
    /// A `-` that joins two characters.
    Join,
}

/// The characters of some items, or where it is inverted all others.
#[derive(Drop)]
pub(crate) struct CharSet {
    pub(crate) inverted: bool,
    pub(crate) items: List<Item>,
}
