//! What the ways to read a text came to so far: an accepted tree or a stuck place goes in, and the
//! better tree, or the greater place, is kept.
ghost use Rattle.std.specs.Prelude.{◌≡◌, ℕ, ◌≤◌, ◌⊎◌, Some, true, false};
ghost use Rattle.ts_core.specs.declared.flat.FlatGrammar.{FlatGrammar};
ghost use Rattle.spec_trees.specs.Trees.{bare};
ghost use Rattle.spec_trees.specs.Choice.{IsInForm};
ghost use Rattle.ts_places.specs.Choosing.{Withstands, KeepsBest, HasForm, IsPastStuck};

use crate::end_laws::tree_laws_hold;
use ts_node::Node;
use ts_order::better;

/// Whether a tree is kept in place of the best so far.
fn goes_before(best: &Option<Node>, node: &Node) -> bool
    requires form { (g : FlatGrammar) × HasForm g best.now × IsInForm g node.now }
    ensures yes { result ≡ true → KeepsBest best.now (Some node.now) node.now }
    ensures no { result ≡ false → Withstands best.now (bare node.now) }
{
    tree_laws_hold();
    match best {
        None => true,
        Some(old) => better(node, old),
    }
}

/// Keeps the better tree.
pub(crate) fn keep(best: &mut Option<Node>, node: Node)
    requires form { (g : FlatGrammar) × HasForm g best.old × IsInForm g node }
    ensures kept { KeepsBest best.old best.new node }
    ensures form { (g : FlatGrammar) → HasForm g best.old → IsInForm g node
        → HasForm g best.new }
{
    if goes_before(best, &node) {
        *best = Some(node);
    }
}

/// Whether a place is past the greatest so far.
fn goes_past(stuck: &Option<u32>, place: u32) -> bool
    ensures yes { result ≡ true → (q : ℕ) → IsPastStuck stuck.now q → q ≤ place }
    ensures no { result ≡ false → IsPastStuck stuck.now place }
{
    match stuck {
        None => true,
        Some(old) => *old < place,
    }
}

/// Keeps the greater place.
pub(crate) fn stick(stuck: &mut Option<u32>, place: u32)
    ensures mine { IsPastStuck stuck.new place }
    ensures others { (q : ℕ) → IsPastStuck stuck.old q → IsPastStuck stuck.new q }
    ensures from { (q : ℕ) → stuck.new ≡ Some q → (stuck.old ≡ Some q) ⊎ (q ≡ place) }
{
    if goes_past(stuck, place) {
        *stuck = Some(place);
    }
}
