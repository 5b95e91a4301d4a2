//! Laws of the definitions, each a function without a body: what other crates may use of them.

ghost use Rattle.std.specs.Prelude.{◌≡◌, ℕ, ◌⊎◌, List, ◌∷◌, map};
ghost use Rattle.ts_base.specs.Bytes.{Bytes};
ghost use Rattle.ts_core.specs.declared.flat.FlatGrammar.{FlatGrammar};
ghost use Rattle.spec_tables.specs.Actions.{reduce};
ghost use Rattle.spec_tables.specs.Fit.{Fit};
ghost use Rattle.spec_trees.specs.declared.tree.Tree.{Tree};
ghost use Rattle.spec_trees.specs.Trees.{bare};
ghost use Rattle.spec_trees.specs.Choice.{Better};
ghost use Rattle.spec_runs.specs.Configurations.{Configuration, IsReduction};
ghost use Rattle.spec_runs.specs.Runs.{CanMove, StepsOn, Run, IsReached, ComesTooDeep, AcceptsTree, StopsAt};
ghost use Rattle.spec_runs.specs.Outcomes.{SomeIsTooDeep};
ghost use Rattle.spec_packing.specs.Laws.{RunLaws};
ghost use Rattle.spec_packing.specs.Packing.{PackedTree, PackedStack, IsPackedReduction, own_config, packed_alone, stack_alone, Packs, WasMet, GoesThrough, PackedStepsOn, PackedIsTooDeep, joined_stacks, MayJoin};
ghost use Rattle.spec_packing.specs.Serving.{ServesFor, ServesConfiguration, ComesToServe};

use spec_runs::{
    bare_trees, empty_rules_are_unused, moves_have_their_place, repetitions_repeat,
    start_is_no_repetition,
};

/// The laws of other crates hold.
fn laws_hold()
    ensures { RunLaws }
{
    bare_trees();
    empty_rules_are_unused();
    moves_have_their_place();
    repetitions_repeat();
    start_is_no_repetition();
}

/// What is not better than a tree is not better than one that is not worse.
pub fn no_better_through()
    ensures { (t u v : Tree) → (Better u t → ⊥) → (Better v u → ⊥) → Better v t → ⊥ }
{}

/// A tree stands for itself, and for what those stand for that it stands for.
pub fn trees_serve()
    ensures same { (t : Tree) → ServesFor t t }
    ensures through { (t u v : Tree) → ServesFor t u → ServesFor u v → ServesFor t v }
    ensures bare { (t u : Tree) → ServesFor t u → ServesFor (bare t) (bare u) }
{
    bare_trees();
}

/// The same of configurations; and one stands for another where its last tree does and all else is
/// the same.
pub fn configurations_serve()
    ensures same { (c : Configuration) → ServesConfiguration c c }
    ensures through { (c d e : Configuration) → ServesConfiguration c d → ServesConfiguration d e
        → ServesConfiguration c e }
    ensures last { (t u : Tree) (stack : List Tree) (place : ℕ) → ServesFor t u
        → ServesConfiguration (record { stack = t ∷ stack; place = place })
        (record { stack = u ∷ stack; place = place }) }
{}

/// How a run ends at a configuration, it ends too at one that stands for it, and with a tree that
/// is no worse.
pub fn ends_are_served()
    ensures deep { (g : FlatGrammar) → Fit g → (text : Bytes) (c d : Configuration)
        → IsReached g text c → IsReached g text d → ServesConfiguration d c
        → ComesTooDeep g text c → ComesTooDeep g text d }
    ensures stops { (g : FlatGrammar) (text : Bytes) (c d : Configuration) (place : ℕ)
        → ServesConfiguration d c → StopsAt g text c place → StopsAt g text d place }
    ensures accepts { (g : FlatGrammar) → Fit g → (text : Bytes) (c d : Configuration) (u : Tree)
        → IsReached g text c → IsReached g text d → ServesConfiguration d c
        → AcceptsTree g text c u
        → (t : Tree) × AcceptsTree g text d t × (Better u t → ⊥) }
{
    laws_hold();
}

/// Each step from a configuration is also one from a configuration that stands for it, to one that
/// stands for what it comes to, or a node would be too deep there.
pub fn configurations_step()
    ensures { (g : FlatGrammar) → Fit g → (text : Bytes) (c d m : Configuration)
        → IsReached g text c → IsReached g text d → ServesConfiguration d c → StepsOn g text c m
        → ComesTooDeep g text d
        ⊎ ((n : Configuration) × StepsOn g text d n × ServesConfiguration n m) }
{
    laws_hold();
}

/// What is reached from a configuration is served by what is reached from one that stands for it,
/// or a node would be too deep there; and so is all that is served from the configuration.
pub fn runs_are_served()
    ensures run { (g : FlatGrammar) → Fit g → (text : Bytes) (c d e : Configuration)
        → IsReached g text c → IsReached g text d → ServesConfiguration d c → Run g text c e
        → ComesToServe g text d e }
    ensures through { (g : FlatGrammar) → Fit g → (text : Bytes) (c d e : Configuration)
        → IsReached g text c → IsReached g text d → ServesConfiguration d c
        → ComesToServe g text c e → ComesToServe g text d e }
{
    laws_hold();
}

/// A reading that is reached is a stack of layers that was met, and stands for it. A step of a
/// stack that was met comes to such a one again, and where it is too deep, some run is. A run that
/// goes through what the stack stands for ends there, or goes through what it stands for after one
/// of its steps, or the stack is too deep.
pub fn packed_stacks_follow()
    ensures own { (g : FlatGrammar) → Fit g → (text : Bytes) (c : Configuration)
        → IsReached g text c → WasMet g text (stack_alone c) × Packs (stack_alone c) c }
    ensures met { (g : FlatGrammar) → Fit g → (text : Bytes) (k n : PackedStack)
        → WasMet g text k → PackedStepsOn g text k n → WasMet g text n }
    ensures deep { (g : FlatGrammar) → Fit g → (text : Bytes) (k : PackedStack) → WasMet g text k
        → PackedIsTooDeep g text k → SomeIsTooDeep g text }
    ensures on { (g : FlatGrammar) → Fit g → (text : Bytes) (k : PackedStack)
        (d : Configuration) → WasMet g text k → GoesThrough g text k d
        → Packs k d ⊎ (PackedIsTooDeep g text k
        ⊎ ((n : PackedStack) × PackedStepsOn g text k n × GoesThrough g text n d)) }
{
    laws_hold();
}

/// A reduction of layers by the production of a number makes one layer, on one stack.
pub fn one_packed_reduction()
    ensures { (g : FlatGrammar) (number : ℕ) (stack : List PackedTree) (n m : PackedTree)
        (after other : List PackedTree)
        → IsPackedReduction g number stack n after → IsPackedReduction g number stack m other
        → (n ≡ m) × (after ≡ other) }
{}

/// A reading that is reached goes on as its layers do, each as deep as its tree.
pub fn readings_stand_alone()
    ensures reduced { (g : FlatGrammar) → Fit g → (text : Bytes) (c : Configuration)
        → IsReached g text c → (number : ℕ) → CanMove g text c (reduce number)
        → (node : Tree) (after : List Tree) → IsReduction g number c.stack node after
        → IsPackedReduction g number (stack_alone c).stack (packed_alone node)
        (map packed_alone after) }
    ensures steps { (g : FlatGrammar) → Fit g → (text : Bytes) (c : Configuration)
        → IsReached g text c → (d : Configuration) → StepsOn g text c d
        → PackedStepsOn g text (stack_alone c) (stack_alone d) }
{
    laws_hold();
}

/// How a run ends at a configuration, it ends too at a stack of layers that stands for it: that is
/// too deep, or its own trees stop, or are accepted as a tree that is no worse.
pub fn packed_stacks_end()
    ensures deep { (g : FlatGrammar) → Fit g → (text : Bytes) (k : PackedStack)
        (c : Configuration) → WasMet g text k → IsReached g text c → Packs k c
        → ComesTooDeep g text c → PackedIsTooDeep g text k }
    ensures stops { (g : FlatGrammar) → Fit g → (text : Bytes) (k : PackedStack)
        (c : Configuration) (place : ℕ) → Packs k c → StopsAt g text c place
        → StopsAt g text (own_config k) place }
    ensures accepts { (g : FlatGrammar) → Fit g → (text : Bytes) (k : PackedStack)
        (c : Configuration) (u : Tree) → WasMet g text k → IsReached g text c → Packs k c
        → AcceptsTree g text c u
        → (t : Tree) × AcceptsTree g text (own_config k) t × (Better u t → ⊥) }
{
    laws_hold();
}

/// Two stacks of layers as one stand for all that either stands for, and this one was met if both
/// were.
pub fn packed_stacks_join()
    ensures stands { (k j : PackedStack) (c : Configuration) → MayJoin k j
        → Packs k c ⊎ Packs j c → Packs (joined_stacks k j) c }
    ensures leads { (g : FlatGrammar) (text : Bytes) (k j : PackedStack) (d : Configuration)
        → MayJoin k j → GoesThrough g text k d ⊎ GoesThrough g text j d
        → GoesThrough g text (joined_stacks k j) d }
    ensures met { (g : FlatGrammar) (text : Bytes) (k j : PackedStack) → WasMet g text k
        → WasMet g text j → MayJoin k j → WasMet g text (joined_stacks k j) }
{}
