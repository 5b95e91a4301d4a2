//! What the ways to read a text came to so far: an accepted tree or a stuck place goes in, and the
//! better tree, or the greater place, is kept.
ghost use Rattle.std.specs.Prelude.{◌≡◌, ℕ, ◌⊎◌, Some, true, false};
ghost use Rattle.ts_core.specs.declared.flat.FlatGrammar.{FlatGrammar};
ghost use Rattle.spec_trees.specs.Trees.{bare};
ghost use Rattle.spec_trees.specs.Choice.{IsInForm};
ghost use Rattle.spec_crossing.specs.Resting.{Withstands, IsPastStuck};
ghost use Rattle.ts_glr.specs.Steps.{KeepsBest, HasForm};

use crate::laws::laws_hold;
use ts_node::Node;
use ts_order::better;

/// Whether a tree is kept in place of the best so far.
fn goes_before(best: &Option<Node>, node: &Node) -> bool
    requires form { (g : FlatGrammar) × HasForm g best.now × IsInForm g node.now }
    ensures yes { result ≡ true → KeepsBest best.now (Some node.now) node.now }
    ensures no { result ≡ false → Withstands best.now (bare node.now) }
{
    laws_hold();
    match best {
        None => true,
        Some(old) => better(node, old),
    }
}

/// Keeps the better tree.
pub(crate) fn keep(best: &mut Option<Node>, node: Node)
    requires form { (g : FlatGrammar) × HasForm g best.old × IsInForm g node }
    ensures kept { KeepsBest best.old best.new node }
    ensures form { (g : FlatGrammar) → HasForm g best.old → IsInForm g node
        → HasForm g best.new }
{
    if goes_before(best, &node) {
        *best = Some(node);
    }
}

/// The greater of two places, or the one that there is.
pub(crate) fn further(one: Option<u32>, other: Option<u32>) -> Option<u32>
    ensures first { (q : ℕ) → IsPastStuck one q → IsPastStuck result q }
    ensures second { (q : ℕ) → IsPastStuck other q → IsPastStuck result q }
    ensures from { (q : ℕ) → result ≡ Some q → (one ≡ Some q) ⊎ (other ≡ Some q) }
{
    match one {
        None => other,
        Some(place) => match other {
            None => one,
            Some(next) => { if place < next { other } else { one } }
        },
    }
}
