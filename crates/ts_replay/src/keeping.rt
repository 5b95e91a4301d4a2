//! The visible tree that is kept from one step to the next: what is kept and the version that is
//! asked go in; the visible tree of that version comes out.
ghost use Rattle.std.specs.Prelude.{◌≡◌, IfOk, IfSome, IsTrue, Some};
ghost use Rattle.ts_core.specs.declared.flat.FlatGrammar.{FlatGrammar as AnyGrammar};
ghost use Rattle.spec_runs.specs.Outcomes.{tree_outcome, Fresh};
ghost use Rattle.ts_replay.specs.Sights.{IsSightOf, StandsFor};

use crate::sighted::Sighted;
use std::alloc::{AllocError, Global};
use ts_base::Shared;
use ts_core::FlatGrammar;
use ts_docs::Version;
use ts_match::VisibleTree;
use ts_node::Node;
use ts_script::ScriptStep;

/// Drops what is kept, unless the step asks queries or tells what a version comes to: other steps
/// may need the memory.
pub fn keep_for(kept: &mut Option<Sighted>, step: &ScriptStep)
    ensures { (g : AnyGrammar) → StandsFor g kept.old → StandsFor g kept.new }
{
    if !keeps(step) {
        *kept = None;
    }
}

/// Whether the step asks queries or tells what a version comes to.
fn keeps(step: &ScriptStep) -> bool {
    match step {
        ScriptStep::Query {
            document: _,
            queries: _,
        }
        | ScriptStep::Tree { document: _ } => true,
        ScriptStep::Edit {
            document: _,
            edit: _,
        }
        | ScriptStep::Look { document: _ }
        | ScriptStep::Await {
            document: _,
            version: _,
        } => false,
    }
}

/// A version with the visible tree of its text: what is kept, where that is of a version with the
/// same number and text; else it is dropped, and the visible tree of the root is made.
///
/// # Errors
///
/// `AllocError` where memory runs out.
pub fn sight_of<'g>(
    alloc: Global,
    grammar: &'g FlatGrammar,
    kept: Option<Sighted<'g>>,
    held: &Shared<Version>,
    root: &Node,
) -> Result<Sighted<'g>, AllocError>
    requires kept { StandsFor grammar.now kept }
    requires fresh { Fresh grammar.now held.now.text (tree_outcome root.now) }
    ensures sight { IfOk result (λ s. IsSightOf grammar.now s.version.text s.tree) }
    ensures text { IfOk result (λ s. s.version.text ≡ held.now.text) }
{
    match left_of(kept, held.get()) {
        Some(sighted) => Ok(sighted),
        None => sighted_anew(alloc, grammar, held, root),
    }
}

/// A version with the visible tree of a root, which is made.
fn sighted_anew<'g>(
    alloc: Global,
    grammar: &'g FlatGrammar,
    held: &Shared<Version>,
    root: &Node,
) -> Result<Sighted<'g>, AllocError>
    requires { Fresh grammar.now held.now.text (tree_outcome root.now) }
    ensures sight { IfOk result (λ s. IsSightOf grammar.now s.version.text s.tree) }
    ensures text { IfOk result (λ s. s.version.text ≡ held.now.text) }
{
    let version = held.try_clone()?;
    let tree = VisibleTree::new(alloc, grammar, root)?;
    Ok(Sighted { version, tree })
}

/// What is kept, where it is of a version with the same number and text. Else it is dropped.
fn left_of<'g>(kept: Option<Sighted<'g>>, held: &Version) -> Option<Sighted<'g>>
    ensures same { IfSome result (λ s. kept.entry ≡ Some s) }
    ensures text { IfSome result (λ s. s.version.text ≡ held.now.text) }
{
    let Some(sighted) = kept else {
        return None;
    };
    if is_same(sighted.version.get(), held) {
        Some(sighted)
    } else {
        None
    }
}

/// Whether the versions have the same number and the same text.
fn is_same(version: &Version, other: &Version) -> bool
    ensures { IsTrue result → version.now.text ≡ other.now.text }
{
    version.number() == other.number() && version.text() == other.text()
}
