//! Laws of nodes: no value goes in or out, and what is said of definitions holds.
ghost use Rattle.std.specs.Prelude.{◌≡◌, ◌-◌, ◌<◌, ◌∷◌, [], ℕ, All, List, Option, None, Some, false, length, take};
ghost use lib.IntN.{ℤ};
ghost use Rattle.ts_base.specs.Bytes.{Bytes};
ghost use Rattle.ts_core.specs.declared.flat.FlatGrammar.{FlatGrammar};
ghost use Rattle.spec_grammar.specs.Symbols.{is_repetition, start_symbol};
ghost use Rattle.spec_trees.specs.declared.tree.Tree.{Tree};
ghost use Rattle.spec_trees.specs.declared.tree.Stretch.{Stretch};
ghost use Rattle.spec_trees.specs.Trees.{children_of, elements_of, production_of, span_of, symbol_of, tree_depth};
ghost use Rattle.spec_trees.specs.Made.{leaf_of, as_extra, element, next_element, reduced, accepted, remade, lengthened, elements_between, form_of, left_of, IsNode, FitsProduction};
ghost use Rattle.spec_trees.specs.Reducible.{IsReducible};
ghost use Rattle.spec_trees.specs.Choice.{IsInForm};
ghost use Rattle.ts_node.specs.Standing.{depth_by, CanBeReduced, CanBeRemade, CanBeLengthened, IsAcceptable, IsMadeWith, IsPartOf};
ghost use Rattle.ts_node.specs.Held.{joined_stretch, stretch};
ghost use Rattle.ts_node.specs.Leaves.{IsGapless, leaves_from, leaves_bytes};

/// What a reduction makes of children that can be reduced is a node, as `reduce` asks.
pub fn reduced_is_node()
    ensures { (g : FlatGrammar) (number extent : ℕ) (state : Option ℕ) (children : List Tree)
        → IsReducible g number extent children
        → IsNode (reduced g number extent state children) }
{}

/// The same where it is not the children that bound the depth, but the node itself: a repetition of
/// the greatest depth takes one more element.
pub fn reduced_is_node_of_its_depth()
    ensures node { (g : FlatGrammar) (number extent : ℕ) (state : Option ℕ) (children : List Tree)
        → CanBeReduced g number extent state children
        → IsNode (reduced g number extent state children) }
    ensures depth { (g : FlatGrammar) (number extent : ℕ) (state : Option ℕ) (children : List Tree)
        → tree_depth (reduced g number extent state children)
        ≡ depth_by (form_of g (left_of g number) number) children }
{}

/// The symbol, extent and state of the nodes that a parser makes. All are settled, and none is an
/// extra.
pub fn made_nodes_are_settled()
    ensures leaf { (token pad size extent : ℕ) (state : Option ℕ)
        → IsMadeWith token extent state (leaf_of token pad size extent state) }
    ensures reduced { (g : FlatGrammar) (number extent : ℕ) (state : Option ℕ)
        (children : List Tree)
        → IsMadeWith (left_of g number) extent state (reduced g number extent state children) }
    ensures accepted { (root : Tree) (before after : List Tree) (extent : ℕ)
        → IsMadeWith (symbol_of root) extent None (accepted root before after extent) }
{}

/// What acceptance makes of a root that can be accepted is a node, as `accept` asks.
pub fn accepted_is_node()
    ensures { (root : Tree) (before after : List Tree) (extent : ℕ)
        → IsAcceptable root before after extent
        → IsNode (accepted root before after extent) }
{}

/// What an edit leaves of a node that can be remade is a node, as `remake` asks.
pub fn remade_is_node()
    ensures { (t : Tree) (pad size : ℕ) (changes : List (ℕ × Tree)) (loose : List ℕ)
        → CanBeRemade t pad size changes loose → IsNode (remade t pad size changes loose) }
{}

/// Elements that are cut out of a node: the settled ones are so over their children, and they are
/// no more and no deeper than the node has them.
pub fn sections_stand()
    ensures { (t : Tree) (from to : ℕ) → IsNode t → IsPartOf t (elements_between from to t) }
{}

/// A repetition that can be lengthened by elements is a node then, as `lengthen` asks.
pub fn lengthened_is_node()
    ensures { (before : Tree) (more : Stretch) (extent : ℕ) (state : Option ℕ)
        → CanBeLengthened before more extent → IsNode (lengthened before more extent state) }
{}

/// A repetition that is lengthened by one element that was examined as a reduction says is what the
/// reduction makes, and to lengthen it by several is to lengthen it by one after another.
pub fn lengthened_in_turn()
    ensures one { (before : Tree) (alternative : ℕ) (value : ℤ) (extent : ℕ) (state : Option ℕ)
        (children : List Tree)
        → lengthened before (stretch
        (element alternative (length children) value (extent - span_of before) ∷ []) children)
        extent state
        ≡ next_element (symbol_of before) alternative value extent state (before ∷ children) }
    ensures several { (before : Tree) (first more : Stretch) (extent last : ℕ)
        (state below : Option ℕ)
        → lengthened (lengthened before first extent state) more last below
        ≡ lengthened before (joined_stretch first more) last below }
{}

/// A node of a rule that is no repetition has its production and no elements, as acceptance asks
/// of a root.
pub fn reduced_by_a_rule()
    ensures production { (g : FlatGrammar) (number extent : ℕ) (state : Option ℕ)
        (children : List Tree) → is_repetition g (left_of g number) ≡ false
        → production_of (reduced g number extent state children) ≡ Some number }
    ensures elements { (g : FlatGrammar) (number extent : ℕ) (state : Option ℕ)
        (children : List Tree) → is_repetition g (left_of g number) ≡ false
        → length (elements_of (reduced g number extent state children)) ≡ 0 }
{}

/// The nodes that a parser makes by one grammar are all in its form, so that any two of them can be
/// compared; and so are the children of each.
pub fn made_nodes_are_in_form()
    ensures leaf { (g : FlatGrammar) (token pad size extent : ℕ) (state : Option ℕ)
        → token < start_symbol g → IsInForm g (leaf_of token pad size extent state) }
    ensures extra { (g : FlatGrammar) (t : Tree) → IsInForm g t → IsInForm g (as_extra t) }
    ensures reduced { (g : FlatGrammar) (number extent : ℕ) (state : Option ℕ)
        (children : List Tree) → FitsProduction g number children → All (IsInForm g) children
        → IsInForm g (reduced g number extent state children) }
    ensures accepted { (g : FlatGrammar) (root : Tree) (before after : List Tree) (extent : ℕ)
        → length (elements_of root) ≡ 0
        → IsInForm g root → All (IsInForm g) before → All (IsInForm g) after
        → IsInForm g (accepted root before after extent) }
    ensures remade { (g : FlatGrammar) (t : Tree) (pad size : ℕ) (changes : List (ℕ × Tree))
        (loose : List ℕ) → IsInForm g t → All (λ change. IsInForm g change.1) changes
        → IsInForm g (remade t pad size changes loose) }
    ensures children { (g : FlatGrammar) (t : Tree) → IsInForm g t
        → All (IsInForm g) (children_of t) }
{}

/// In the nodes that a parser makes, each node that has children is as long as they are together.
pub fn made_nodes_are_gapless()
    ensures leaf { (token pad size extent : ℕ) (state : Option ℕ)
        → IsGapless (leaf_of token pad size extent state) }
    ensures extra { (t : Tree) → IsGapless t → IsGapless (as_extra t) }
    ensures reduced { (g : FlatGrammar) (number extent : ℕ) (state : Option ℕ)
        (children : List Tree) → All IsGapless children
        → IsGapless (reduced g number extent state children) }
    ensures accepted { (root : Tree) (before after : List Tree) (extent : ℕ)
        → IsGapless root → All IsGapless before → All IsGapless after
        → IsGapless (accepted root before after extent) }
{}

/// The leaves of a tree without gaps, with their pads, spell the text from its start on, as far as
/// the tree goes.
pub fn leaves_spell_the_text()
    ensures { (text : Bytes) (t : Tree) → IsGapless t
        → leaves_bytes text (leaves_from t 0) ≡ take (span_of t) text }
{}
