//! The laws of other crates that the proofs of laid trees rest on. No value goes in or out.
ghost use Rattle.ts_reductions.specs.LayingLaws.{LayingLaws};

use spec_graph::{extras_are_passed, links_pack, runs_lay, trees_replace};
use spec_runs::bare_trees;

/// The laws of other crates hold.
pub(crate) fn laws_hold()
    ensures { LayingLaws }
{
    bare_trees();
    trees_replace();
    links_pack();
    runs_lay();
    extras_are_passed();
}
