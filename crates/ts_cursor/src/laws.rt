//! Laws of visible trees, for the proofs of the crates above. Each is a function that does nothing.
ghost use Rattle.std.specs.Prelude.{◌≡◌, ◌<◌, ℕ, suc, List, Option, length};
ghost use Rattle.ts_core.specs.declared.flat.FlatGrammar.{FlatGrammar};
ghost use Rattle.spec_trees.specs.declared.tree.Tree.{Tree};
ghost use Rattle.spec_trees.specs.Inside.{StandOver, StandAll};
ghost use Rattle.spec_trees.specs.Made.{leaf_of, as_extra, reduced, accepted};
ghost use Rattle.spec_trees.specs.VisibleNodes.{visible_nodes};
ghost use Rattle.spec_trees.specs.Family.{depth_at, IsParent, LieInParents};
ghost use Rattle.ts_cursor.specs.Preorder.{StartsRise};

/// The root is the first node, and at depth 0. Each other node has a parent, one less deep.
pub fn nodes_have_parents()
    ensures some { (g : FlatGrammar) (t : Tree) → 0 < length (visible_nodes g t) }
    ensures root { (g : FlatGrammar) (t : Tree) → depth_at (visible_nodes g t) 0 ≡ 0 }
    ensures parent { (g : FlatGrammar) (t : Tree) (k : ℕ) → 0 < k → k < length (visible_nodes g t)
        → (m : ℕ) × (IsParent (visible_nodes g t) k m
        × (depth_at (visible_nodes g t) k ≡ suc (depth_at (visible_nodes g t) m))) }
{}

/// Where each node of a tree stands over its children, each visible node lies in its parent.
pub fn nodes_lie_in_parents()
    ensures { (g : FlatGrammar) (t : Tree) → StandOver t → LieInParents (visible_nodes g t) }
{}

/// Where each node of a tree stands over its children, the starts of the visible nodes rise in
/// preorder.
pub fn starts_rise_in_preorder()
    ensures { (g : FlatGrammar) (t : Tree) → StandOver t → StartsRise (visible_nodes g t) }
{}

/// The nodes that a parser makes stand over their children, and so do all nodes in them.
pub fn made_nodes_stand_over()
    ensures leaf { (token pad size extent : ℕ) (state : Option ℕ)
        → StandOver (leaf_of token pad size extent state) }
    ensures extra { (t : Tree) → StandOver t → StandOver (as_extra t) }
    ensures reduced { (g : FlatGrammar) (number extent : ℕ) (state : Option ℕ)
        (children : List Tree) → StandAll children
        → StandOver (reduced g number extent state children) }
    ensures accepted { (root : Tree) (before after : List Tree) (extent : ℕ)
        → StandOver root → StandAll before → StandAll after
        → StandOver (accepted root before after extent) }
{}
