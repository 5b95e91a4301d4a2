//! What a shelf asks of a journal: from a turn and an item comes one more entry, and from the
//! entries what is shown.
ghost use Rattle.std.specs.Prelude.{◌≡◌, ℕ, ◌+◌, ◌<◌, List, [], ◌∷◌, ◌++◌, length, IfOk};
ghost use Rattle.ts_shelf.specs.Latest.{latest_of};
ghost use Rattle.ts_shelf.specs.declared.journal.Entry.{Entry as Added};

use std::alloc::AllocError;

/// What was added at a turn.
#[derive(Drop)]
pub struct Entry<I> {
    pub turn: u64,
    pub item: I,
}

/// A list of entries with room for some more.
pub trait Journal {
    type Item;

    type Shown;

    ghost entries: { Self → List (Added Self.Item) };

    /// How many more entries it takes.
    ghost room: { Self → ℕ };

    /// What is shown while there are no entries.
    ghost opening: { Self → Self.Shown };

    /// What is shown after an entry with this item.
    ghost shown_of: { Self.Item → Self.Shown };

    /// Which items may be added to a journal with this opening.
    ghost fits: { Self.Shown → Self.Item → Type 0 };

    /// How many entries there are.
    fn number(&self) -> u32
        ensures { result ≡ length (entries self.now) };

    /// How many more entries there is room for.
    fn room(&self) -> u32
        ensures { result ≡ room self.now };

    /// A shared copy of what the last entry's item is shown as, or of the opening.
    fn shown(&self) -> Result<Self::Shown, AllocError>
        ensures { IfOk result (λ s. s ≡ latest_of shown_of (opening self.now) (entries self.now)) };

    /// Adds an entry at the end. It takes no memory.
    fn add(&mut self, turn: u64, item: Self::Item)
        requires room { 0 < room self.old }
        requires fits { fits (opening self.old) item }
        ensures entries { entries self.new
            ≡ entries self.old ++ record { turn = turn; item = item } ∷ [] }
        ensures room { room self.new + 1 ≡ room self.old }
        ensures opening { opening self.new ≡ opening self.old };
}
