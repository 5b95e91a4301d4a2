//! Where a search stands, and what it searches.
ghost use Rattle.std.specs.Prelude.{◌≡◌, Some, slice_get, false, true};
ghost use Rattle.std.proofs.Props.{props};
ghost use Rattle.ts_search.specs.Next.{AreNext};
ghost use Rattle.ts_search.specs.Table.{AreSilent};

use spec_matches::{Capture, Slot};
use ts_base::List;

/// Where a search stands: an item and its number, the place up to which siblings are taken, and
/// whether the item just before took the last of them, or the list begins here.
#[derive(Debug, Clone, Copy, PartialEq, Eq)]
pub(crate) struct Stand {
    pub slot: Slot,
    pub number: usize,
    pub lo: usize,
    pub beside: bool,
}

/// A list of siblings as the items see it: for each item, place in its round, and sibling the
/// captures of each way in which the item takes it; for each sibling whether it is named; whether
/// an anchor stands after the last item; for each item whether nothing is captured by it; and for
/// each item and sibling the next sibling that it takes as the first of a round, and the next by
/// which it captures something so.
#[derive(Debug, Drop)]
pub(crate) struct Siblings {
    pub table: List<List<List<List<List<Capture>>>>>,
    pub named: List<bool>,
    pub closed: bool,
    pub silent: List<bool>,
    pub taken: List<List<usize>>,
    pub capturing: List<List<usize>>,
    ghost silence: { AreSilent table silent } by { Prim.hlevel props },
    ghost passed: { AreNext table false taken } by { Prim.hlevel props },
    ghost quiet: { AreNext table true capturing } by { Prim.hlevel props },
}

/// Which ways are asked for.
#[derive(Debug, Clone, Copy, PartialEq, Eq, Hash)]
pub(crate) enum Wanted {
    /// All.
    All,
    /// Those that take the sibling at the place where the search goes on.
    Here,
    /// The captures of all, each once, with no places.
    Captures,
}

/// Where a search goes on: an item's number, the place up to which siblings are taken, whether
/// the item just before took the last of them, or the list begins here, and which ways are asked
/// for.
#[derive(Debug, Clone, Copy, PartialEq, Eq, Hash)]
pub(crate) struct Key {
    pub number: usize,
    pub lo: usize,
    pub beside: bool,
    pub wanted: Wanted,
}
