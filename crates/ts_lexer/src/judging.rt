//! What a set of nodes says: the nodes go in, and the verdict on the characters that led to them
//! comes out.
ghost use Rattle.std.specs.Prelude.{◌≡◌, ◌<◌, ◌^◌, ◌-◌, ◌++◌, ◌∷◌, ◌↔◌, [], ℕ, suc, List, Bool, true, false, Some, None, IsTrue, slice_get, Option};
ghost use Rattle.ts_core.specs.declared.flat.FlatGrammar.{FlatGrammar as AnyGrammar};
ghost use Rattle.ts_core.specs.declared.flat.TokenDef.{TokenDef as AnyToken};
ghost use Rattle.ts_core.specs.declared.symbol.Symbol.{Symbol as AnySymbol};
ghost use Rattle.ts_automata.specs.declared.node.Node.{Node as AnyNode};
ghost use Rattle.ts_automata.specs.Reads.{IsEnd};
ghost use Rattle.ts_lexer.specs.Rules.{kind_of, IsRules, IsBetter};
ghost use Rattle.ts_lexer.specs.Views.{IsView, IsRole};
ghost use Rattle.ts_lexer.specs.Judged.{IsTokenPart, JudgesParts, JudgesNodes, EndsIn, LivesIn};

use crate::rules::{Kind, Rules, is_over};
use crate::verdict::Verdict;
use crate::view::{Role, View, both_hold, either_holds, role_of};
use ts_automata::{Automaton, Node};
use ts_core::Symbol;

/// The symbol of a token, by its part.
fn symbol_of(part: usize) -> Symbol
    ensures { part < 2 ^ 16 - 1 → result.0 ≡ suc part }
{
    Symbol(part.min(65_534) as u16 + 1)
}

/// Some kind.
fn any_kind() -> Kind {
    Kind {
        prec: 0,
        literal: false,
        immediate: false,
        keyword: false,
    }
}

/// The kind of a token. For what is no token it is any.
pub(crate) fn kind_at(rules: &Rules, symbol: Symbol) -> Kind
    ensures { (g : AnyGrammar) (part : ℕ) (token : AnyToken) → IsRules g rules.now
        → IsTokenPart g part symbol token → result ≡ kind_of token }
{
    if symbol.0 == 0 {
        return any_kind();
    }
    let part = (symbol.0 - 1) as usize;
    if part < rules.kinds.len() {
        return rules.kinds[part];
    }
    any_kind()
}

/// The one of two tokens that is taken at one length.
fn better(rules: &Rules, old: Symbol, new: Symbol) -> Symbol
    ensures { (g : AnyGrammar) (j k : ℕ) (a b : AnyToken) → IsRules g rules.now
        → IsTokenPart g j old a
        → IsTokenPart g k new b → IsBetter (kind_of a) old (kind_of b) new result }
{
    if is_over(&kind_at(rules, old), old, &kind_at(rules, new), new) {
        return old;
    }
    new
}

/// What is taken, with one token more, where it is offered.
fn picked(rules: &Rules, old: Option<Symbol>, offered: bool, part: usize) -> Option<Symbol>
    ensures out { offered ≡ false → result ≡ old }
    ensures first { offered ≡ true → old ≡ None → part < 2 ^ 16 - 1
        → (s : AnySymbol) × (result ≡ Some s) × (s.0 ≡ suc part) }
    ensures more { (g : AnyGrammar) (j : ℕ) (s t : AnySymbol) (a b : AnyToken) → offered ≡ true
        → old ≡ Some s → IsRules g rules.now → IsTokenPart g j s a → IsTokenPart g part t b
        → (u : AnySymbol) × (result ≡ Some u) × IsBetter (kind_of a) s (kind_of b) t u }
{
    if !offered {
        return old;
    }
    match old {
        Some(symbol) => Some(better(rules, symbol, symbol_of(part))),
        None => Some(symbol_of(part)),
    }
}

/// Whether a word ends at a node.
fn is_end(nodes: &[Node], node: usize) -> bool
    ensures { IsTrue result ↔ IsEnd nodes.now node }
{
    if node >= nodes.len() {
        return false;
    }
    match &nodes[node] {
        Node::Take(_, _) => false,
        Node::Split(_, _) => false,
        Node::End => true,
    }
}

/// What is known with one node's part more.
fn with_part(rules: &Rules, old: Verdict, role: &Role, part: usize, ends: bool) -> Verdict
    ensures { (g : AnyGrammar) (valid : List AnySymbol) (first : Bool) (T : List AnyNode)
        (owners seen : List ℕ) (node : ℕ)
        → IsRules g rules.now → IsRole g valid first part role.now
        → slice_get owners node ≡ Some part
        → (IsTrue ends ↔ IsEnd T node)
        → JudgesParts g valid first (EndsIn T owners seen) (LivesIn owners seen) old
        → JudgesParts g valid first (EndsIn T owners (seen ++ node ∷ []))
        (LivesIn owners (seen ++ node ∷ [])) result }
{
    let plain_ends = both_hold(role.plain, ends);
    let plain = picked(rules, old.plain, plain_ends, part);
    let keyword_ends = both_hold(role.keyword, ends);
    let keyword = picked(rules, old.keyword, keyword_ends, part);
    let word_ends = both_hold(role.word, ends);
    let word = either_holds(old.word, word_ends);
    let separator_ends = both_hold(role.separator, ends);
    let separator = either_holds(old.separator, separator_ends);
    let lives = either_holds(old.lives, role.wanted);
    Verdict {
        plain,
        keyword,
        word,
        separator,
        lives,
    }
}

/// What is known with one node more.
fn with_node(
    rules: &Rules,
    view: &View,
    first: bool,
    automaton: &Automaton,
    old: Verdict,
    node: usize,
) -> Verdict
    ensures { (g : AnyGrammar) (valid : List AnySymbol) (seen : List ℕ)
        → IsRules g rules.now → IsView g valid view.now
        → JudgesNodes g valid first automaton.now seen old
        → JudgesNodes g valid first automaton.now (seen ++ node ∷ []) result }
{
    let count = automaton.owners.len();
    if node >= count {
        return old;
    }
    let part = automaton.owners[node];
    let role = role_of(rules, view, first, part);
    let ends = is_end(automaton.nodes.as_slice(), node);
    with_part(rules, old, &role, part, ends)
}

/// What is known of a set of nodes.
pub(crate) fn judge(
    rules: &Rules,
    view: &View,
    first: bool,
    automaton: &Automaton,
    members: &[usize],
) -> Verdict
    ensures { (g : AnyGrammar) (valid : List AnySymbol)
        → IsRules g rules.now → IsView g valid view.now
        → JudgesNodes g valid first automaton.now members.now result }
{
    let mut verdict = Verdict {
        plain: None,
        keyword: None,
        word: false,
        separator: false,
        lives: false,
    };
    for node in members {
        verdict = with_node(rules, view, first, automaton, verdict, *node);
    }
    verdict
}
