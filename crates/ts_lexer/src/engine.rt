//! Lexing among lists of tokens: a grammar and the lists go in, and then a text, a place and the
//! number of a list; what stands there comes out.
ghost use Rattle.std.specs.Prelude.{◌≡◌, ◌≤◌, ◌<◌, ℕ, List, length, slice_get, Some, IfOk};
ghost use Rattle.std.specs.Str.{IsUtf8};
ghost use Rattle.ts_core.specs.declared.flat.FlatGrammar.{FlatGrammar as AnyGrammar};
ghost use Rattle.ts_core.specs.declared.symbol.Symbol.{Symbol as AnySymbol};
ghost use Rattle.ts_automata.specs.Automata.{IsAutomaton};
ghost use Rattle.ts_lexer.specs.Ahead.{contents_of, HasPair, IsReady};
ghost use Rattle.ts_lexer.specs.declared.ahead.RowPair.{RowPair as AnyPair};
ghost use Rattle.ts_lexer.specs.Answers.{IsLexedAnswer};
ghost use Rattle.ts_lexer.specs.Engines.{IsEngine};
ghost use Rattle.ts_lexer.specs.Rules.{AreFew, IsRules};
ghost use Rattle.ts_lexer.specs.Ways.{IsWayOf, IsReadyOn, HasPairOn};

use crate::ahead::{LexTables, RowPair, list_at, pairs_of};
use crate::answering::{answer_at, answer_within};
use crate::lexed::Lexed;
use crate::marking::{look, no_marks};
use crate::rules::{Rules, rules_of};
use crate::view::View;
use crate::ways::{LexNodes, Way};
use indexmap::IndexSet;
use std::alloc::{AllocError, Global};
use ts_automata::{Automaton, Machine, Reader, Walk, reader_of};
use ts_core::{FlatGrammar, Symbol};
use ts_text::Text;

/// What lexes among some lists of tokens, each with its number.
#[derive(Drop)]
pub(crate) struct Engine {
    pub way: Way,
    pub lists: IndexSet<Vec<Symbol>>,
    /// The rows of each list, where there was room for them.
    pub pairs: Vec<Option<RowPair>>,
    /// Room for the marks of a list that has no rows.
    pub view: View,
    /// Room for sets of nodes, where there are no tables.
    pub walk: Walk,
}

/// Makes all that lexing among the lists needs.
pub(crate) fn engine_of(
    alloc: Global,
    automaton: Automaton,
    flat: &FlatGrammar,
    lists: IndexSet<Vec<Symbol>>,
) -> Result<Engine, AllocError>
    requires automaton { IsAutomaton flat.now automaton }
    requires few { AreFew flat.now }
    ensures engine { IfOk result (IsEngine flat.now) }
    ensures lists { IfOk result (λ engine. engine.lists ≡ lists) }
{
    let rules = rules_of(alloc, flat)?;
    let marks = no_marks(alloc, flat.tokens.len())?;
    let view = View {
        marks,
        keyworded: false,
    };
    let reader = reader_of(alloc, automaton)?;
    match reader {
        Reader::Tables(machine) => by_tables(alloc, machine, rules, view, lists),
        Reader::Nodes(automaton) => by_nodes(alloc, automaton, rules, view, lists),
    }
}

/// Makes what lexing by tables needs.
fn by_tables(
    alloc: Global,
    machine: Machine,
    rules: Rules,
    mut view: View,
    lists: IndexSet<Vec<Symbol>>,
) -> Result<Engine, AllocError>
    ensures engine { IfOk result
        (λ engine. (g : AnyGrammar) → IsRules g rules → IsAutomaton g machine.automaton
        → length view.marks.items ≡ length g.tokens → IsEngine g engine) }
    ensures lists { IfOk result (λ engine. engine.lists ≡ lists) }
{
    let mut tables = LexTables {
        machine,
        rules,
        rows: IndexSet::new(alloc),
    };
    let pairs = pairs_of(alloc, &mut tables, &mut view, &lists)?;
    let walk = Walk::new(alloc, 0)?;
    Ok(Engine {
        way: Way::Tables(tables),
        lists,
        pairs,
        view,
        walk,
    })
}

/// Makes what lexing from node to node needs.
fn by_nodes(
    alloc: Global,
    automaton: Automaton,
    rules: Rules,
    view: View,
    lists: IndexSet<Vec<Symbol>>,
) -> Result<Engine, AllocError>
    ensures engine { IfOk result
        (λ engine. (g : AnyGrammar) → IsRules g rules → IsAutomaton g automaton
        → length view.marks.items ≡ length g.tokens → IsEngine g engine) }
    ensures lists { IfOk result (λ engine. engine.lists ≡ lists) }
{
    let walk = Walk::new(alloc, automaton.nodes.len())?;
    let pairs: Vec<Option<RowPair>> = vec![in alloc; None; lists.len()]?;
    Ok(Engine {
        way: Way::Nodes(LexNodes { automaton, rules }),
        lists,
        pairs,
        view,
        walk,
    })
}

/// Marks the tokens of a list that has no rows.
fn prepare_tables(tables: &LexTables, pair: Option<RowPair>, view: &mut View, valid: &[Symbol])
    ensures marks { length view.new.marks.items ≡ length view.old.marks.items }
    ensures ready { (g : AnyGrammar) → IsRules g tables.now.rules
        → length view.old.marks.items ≡ length g.tokens
        → ((p : AnyPair) → pair ≡ Some p → HasPair g valid.now tables.now p)
        → IsReady g valid.now tables.now view.new pair }
{
    match pair {
        Some(_) => {}
        None => look(&tables.rules, view, valid),
    }
}

/// Marks the tokens of a list where there are no rows.
fn prepare(way: &Way, pair: Option<RowPair>, view: &mut View, valid: &[Symbol])
    ensures marks { length view.new.marks.items ≡ length view.old.marks.items }
    ensures ready { (g : AnyGrammar) (room : ℕ) → IsWayOf g way.now room
        → length view.old.marks.items ≡ length g.tokens
        → ((p : AnyPair) → pair ≡ Some p → HasPairOn g valid.now way.now p)
        → IsReadyOn g valid.now way.now view.new pair }
{
    match way {
        Way::Tables(tables) => prepare_tables(tables, pair, view, valid),
        Way::Nodes(nodes) => look(&nodes.rules, view, valid),
    }
}

impl Engine {
    /// What stands at a place of a text among the tokens of a list. It takes no memory.
    pub(crate) fn lex(&mut self, text: &Text, place: u32, list: usize) -> Lexed
        requires made { (g : AnyGrammar) × IsEngine g self.old }
        requires within { place ≤ length text.now }
        requires list { list < length self.old.lists.keys }
        ensures engine { (g : AnyGrammar) → IsEngine g self.old → IsEngine g self.new }
        ensures lists { self.new.lists ≡ self.old.lists }
        ensures utf8 { IsUtf8 text.now }
        ensures answer { (g : AnyGrammar) (valid : List AnySymbol) → IsEngine g self.old
            → slice_get (contents_of self.old.lists.keys) list ≡ Some valid
            → IsLexedAnswer g valid text.now place result }
    {
        let pair = self.pairs[list];
        if let Some(lexed) = answer_within(&self.way, pair, text, place) {
            return lexed;
        }
        let valid = list_at(&self.lists, list);
        prepare(&self.way, pair, &mut self.view, valid);
        answer_at(
            &self.way,
            pair,
            &self.view,
            &mut self.walk,
            text,
            place,
            valid,
        )
    }
}
