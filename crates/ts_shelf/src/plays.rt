//! What each kind of step tells, and how views are cut in two and put together: in goes the kind,
//! out comes what the seat knows after it. These types are for the proofs alone.
ghost use Rattle.ts_shelf.specs.Steps.{Loads, Tries, GivesBack, GivesUp, AsksBeforeSplit, Learns};
ghost use Rattle.ts_shelf.specs.Views.{kept_part, split_part, joined_view, spent_view};

use crate::journal::Journal;
use crate::view::View;
use atomic_table::{Join, Play, Split};

/// A load, which tells how many turns are over.
pub(crate) struct Load;

impl<J: Journal> Play<J, View<J::Shown, J::Item>> for Load {
    ghost then = { Loads };
}

/// An exchange of an even word by the next, which takes the turn.
pub(crate) struct Take;

impl<J: Journal> Play<J, View<J::Shown, J::Item>> for Take {
    ghost then = { Tries J.entries J.room J.opening J.fits };
}

/// The end of a look.
pub(crate) struct GiveBack;

impl<J: Journal> Play<J, View<J::Shown, J::Item>> for GiveBack {
    ghost then = { GivesBack J.entries 0 };
}

/// The end of an offer.
pub(crate) struct GiveOffer;

impl<J: Journal> Play<J, View<J::Shown, J::Item>> for GiveOffer {
    ghost then = { GivesBack J.entries 1 };
}

/// The end of a turn that found no memory.
pub(crate) struct GiveUp;

impl<J: Journal> Play<J, View<J::Shown, J::Item>> for GiveUp {
    ghost then = { GivesUp };
}

/// Before a split, which has no place for the number of offers.
pub(crate) struct Ask;

impl<J: Journal> Play<J, View<J::Shown, J::Item>> for Ask {
    ghost then = { AsksBeforeSplit };
}

/// A split of the first pass.
pub(crate) struct Part;

impl<S, I> Split<View<S, I>> for Part {
    ghost left = { kept_part };

    ghost right = { split_part };
}

/// A join of the first pass with another.
pub(crate) struct Meet;

impl<S, I> Join<View<S, I>> for Meet {
    ghost both = { joined_view };

    ghost spent = { spent_view };
}

/// A load after a join, which tells what the pass has learned.
pub(crate) struct Learn;

impl<J: Journal> Play<J, View<J::Shown, J::Item>> for Learn {
    ghost then = { Learns J.fits };
}
