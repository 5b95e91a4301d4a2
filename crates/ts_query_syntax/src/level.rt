//! A list of siblings that grows: items, anchors and fields that no child has go in, one after
//! another.
ghost use Rattle.std.specs.Prelude.{◌≡◌, ◌&&◌, not, OnOk};
ghost use Rattle.ts_query_tree.specs.Trees.{is_nil};
ghost use Rattle.ts_query_syntax.specs.Levels.{empty_level, tied_level, level_with, level_lacking};

use crate::read_query::Item;
use std::alloc::{AllocError, Global};
use ts_base::List;

/// What stands in a list of siblings so far.
#[derive(Drop)]
pub(crate) struct Level {
    pub(crate) items: List<Item>,
    /// Whether an anchor stands behind the last item.
    pub(crate) tied: bool,
    /// The fields that no child of the node round the list has.
    pub(crate) without: List<u16>,
}

impl Level {
    pub(crate) fn new(alloc: Global) -> Level
        ensures { result ≡ empty_level }
    {
        Level {
            items: List::new(alloc),
            tied: false,
            without: List::new(alloc),
        }
    }

    pub(crate) fn tie(&mut self)
        ensures { self.new ≡ tied_level self.old }
    {
        self.tied = true;
    }

    /// Puts an item at the end, which knows whether an anchor stands before it.
    pub(crate) fn add(&mut self, item: Item) -> Result<(), AllocError>
        ensures { OnOk result (self.new ≡ level_with self.old item) }
    {
        self.items.push(item)?;
        self.tied = false;
        Ok(())
    }

    pub(crate) fn lack(&mut self, field: u16) -> Result<(), AllocError>
        ensures { OnOk result (self.new ≡ level_lacking self.old field) }
    {
        self.without.push(field)?;
        Ok(())
    }

    /// Whether an anchor stands behind an item that is the last one.
    pub(crate) fn is_closed(&self) -> bool
        ensures { result ≡ (self.now.tied && not (is_nil self.now.items)) }
    {
        self.tied && !self.items.is_empty()
    }
}
