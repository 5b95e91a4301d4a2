//! The laws that the proofs of one place and the next rest on. No value goes in or out.
ghost use Rattle.ts_places.specs.Laws.{MoveLaws, PlaceLaws};

use crate::shift_laws::{empty_places_pass, places_follow, sights_stay};
use spec_graph::{keys_follow, trees_replace};
use spec_runs::moves_have_their_place;

/// The laws of reductions that stay hold.
pub(crate) fn move_laws_hold()
    ensures { MoveLaws }
{
    moves_have_their_place();
}

/// The laws of one place and the next hold.
pub(crate) fn place_laws_hold()
    ensures { PlaceLaws }
{
    trees_replace();
    keys_follow();
    sights_stay();
    places_follow();
    empty_places_pass();
}
