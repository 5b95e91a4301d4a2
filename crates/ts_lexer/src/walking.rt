//! One place of a text: what is left of the text from there goes in, and what matches there comes
//! out, found in one pass over its bytes, by tables or from node to node.
ghost use Rattle.std.specs.Prelude.{◌≡◌, ◌<◌, ◌+◌, ◌^◌, ◌++◌, [], ℕ, List, length};
ghost use Rattle.ts_base.specs.Bytes.{Bytes};
ghost use Rattle.ts_core.specs.declared.flat.FlatGrammar.{FlatGrammar as AnyGrammar};
ghost use Rattle.ts_core.specs.declared.symbol.Symbol.{Symbol as AnySymbol};
ghost use Rattle.ts_automata.specs.Walks.{HasCome, walk_room};
ghost use Rattle.ts_lexer.specs.Rules.{IsRules};
ghost use Rattle.ts_lexer.specs.Views.{IsView};
ghost use Rattle.ts_lexer.specs.Scanned.{IsScanned};
ghost use Rattle.ts_lexer.specs.Runs.{IfOpen, IsRun, IsReadOn};
ghost use Rattle.ts_lexer.specs.Ways.{AreNodesOf, IsWayOf, IsReadyFor, IsSetOn, LeadsOn};

use crate::ahead::RowPair;
use crate::choosing::scanned;
use crate::judging::judge;
use crate::progress::advance;
use crate::rules::Rules;
use crate::scanned::{NOTHING, Read, Run, Scanned};
use crate::scanning::read_by_tables;
use crate::view::View;
use crate::ways::{LexNodes, Way};
use spec_lexing::{a_front_has_fronts, beginnings, every_word_is_a_front, one_character_at_a_time};
use ts_automata::Walk;
use ts_text::Rest;

/// Reads a piece on, from one set of nodes to the next.
fn read_by_walk(
    nodes: &LexNodes,
    view: &View,
    walk: &mut Walk,
    first: bool,
    run: &Run,
    piece: &str,
) -> Read
    requires size { run.now.size + length piece.now < 2 ^ 32 }
    ensures room { walk_room walk.new ≡ walk_room walk.old }
    ensures size { IfOpen result (λ r. r.size ≡ run.now.size + length piece.now) }
    ensures read { (g : AnyGrammar) (valid : List AnySymbol) (rest tail : Bytes)
        → AreNodesOf g nodes.now (walk_room walk.old) → IsView g valid view.now
        → IsRun (λ set w. HasCome nodes.now.automaton w walk.old) g valid first rest
        (piece.now ++ tail) run.now
        → IsReadOn (λ set w. HasCome nodes.now.automaton w walk.new) g valid first rest tail
        result }
{
    a_front_has_fronts();
    every_word_is_a_front();
    beginnings();
    one_character_at_a_time();
    let mut size = run.size;
    let mut progress = run.progress;
    for c in piece.chars() {
        walk.step(&nodes.automaton, c);
        let verdict = judge(&nodes.rules, view, first, &nodes.automaton, walk.members());
        if !verdict.lives {
            return Read::Ended(Run {
                state: run.state,
                size: size + c.len_utf8(),
                progress,
            });
        }
        size += c.len_utf8();
        advance(&nodes.rules, &mut progress, &verdict, size);
    }
    Read::Open(Run {
        state: run.state,
        size,
        progress,
    })
}

/// Reads a piece on at the first place that is tried or at a later one.
#[inline(always)]
fn read_piece(
    way: &Way,
    pair: Option<RowPair>,
    view: &View,
    walk: &mut Walk,
    first: bool,
    run: &Run,
    piece: &str,
) -> Read
    requires set { IsSetOn way.now run.now.state }
    requires size { run.now.size + length piece.now < 2 ^ 32 }
    requires ready { (g : AnyGrammar) × (valid : List AnySymbol)
        × IsReadyFor g valid way.now view.now pair (walk_room walk.old) }
    ensures room { walk_room walk.new ≡ walk_room walk.old }
    ensures set { IfOpen result (λ r. IsSetOn way.now r.state) }
    ensures size { IfOpen result (λ r. r.size ≡ run.now.size + length piece.now) }
    ensures read { (g : AnyGrammar) (valid : List AnySymbol) (rest tail : Bytes)
        → IsReadyFor g valid way.now view.now pair (walk_room walk.old)
        → IsRun (LeadsOn way.now walk.old) g valid first rest (piece.now ++ tail) run.now
        → IsReadOn (LeadsOn way.now walk.new) g valid first rest tail result }
{
    match way {
        Way::Tables(tables) => read_by_tables(tables, pair, view, first, run, piece),
        Way::Nodes(nodes) => read_by_walk(nodes, view, walk, first, run, piece),
    }
}

/// The set from which reading begins, where tables are read. A walk begins at its first nodes.
fn first_set(way: &Way, walk: &mut Walk) -> usize
    ensures room { walk_room walk.new ≡ walk_room walk.old }
    ensures set { IsSetOn way.now result }
    ensures leads { (g : AnyGrammar) → IsWayOf g way.now (walk_room walk.old)
        → LeadsOn way.now walk.new result [] }
{
    match way {
        Way::Tables(tables) => tables.machine.first(),
        Way::Nodes(nodes) => {
            walk.begin(&nodes.automaton);
            0
        }
    }
}

/// What its grammar says of tokens.
fn rules_on(way: &Way) -> &Rules
    ensures { (g : AnyGrammar) (room : ℕ) → IsWayOf g way.now room → IsRules g result.now }
{
    match way {
        Way::Tables(tables) => &tables.rules,
        Way::Nodes(nodes) => &nodes.rules,
    }
}

/// Reads on behind a piece, up to where nothing more can match.
#[cold]
#[inline(never)]
fn read_on(
    way: &Way,
    pair: Option<RowPair>,
    view: &View,
    walk: &mut Walk,
    first: bool,
    from: &Run,
    left: &Rest<'_>,
) -> Scanned
    requires set { IsSetOn way.now from.now.state }
    requires size { from.now.size + length left.now < 2 ^ 32 }
    requires ready { (g : AnyGrammar) × (valid : List AnySymbol)
        × IsReadyFor g valid way.now view.now pair (walk_room walk.old) }
    ensures room { walk_room walk.new ≡ walk_room walk.old }
    ensures scanned { (g : AnyGrammar) (valid : List AnySymbol) (rest : Bytes)
        → IsReadyFor g valid way.now view.now pair (walk_room walk.old)
        → IsRun (LeadsOn way.now walk.old) g valid first rest left.now from.now
        → IsScanned g valid first rest result }
{
    a_front_has_fronts();
    every_word_is_a_front();
    beginnings();
    one_character_at_a_time();
    let mut run = *from;
    let mut rest = left.copied();
    'pieces: while !rest.is_empty() {
        let (piece, later) = rest.split();
        let read = read_piece(way, pair, view, walk, first, &run, piece);
        match read {
            Read::Ended(all) => return scanned(rules_on(way), &all.progress, all.size),
            Read::Open(more) => run = more,
        }
        rest = later;
    }
    scanned(rules_on(way), &run.progress, run.size + 1)
}

/// What stands at the beginning of what is left of a text, which is the first place that is tried
/// or a later one. Most tokens end in the piece in which they begin.
pub(crate) fn scan(
    way: &Way,
    pair: Option<RowPair>,
    view: &View,
    walk: &mut Walk,
    first: bool,
    rest: &Rest<'_>,
) -> Scanned
    requires size { length rest.now < 2 ^ 32 }
    requires ready { (g : AnyGrammar) × (valid : List AnySymbol)
        × IsReadyFor g valid way.now view.now pair (walk_room walk.old) }
    ensures room { walk_room walk.new ≡ walk_room walk.old }
    ensures scanned { (g : AnyGrammar) (valid : List AnySymbol)
        → IsReadyFor g valid way.now view.now pair (walk_room walk.old)
        → IsScanned g valid first rest.now result }
{
    a_front_has_fronts();
    every_word_is_a_front();
    beginnings();
    one_character_at_a_time();
    let state = first_set(way, walk);
    let run = Run {
        state,
        size: 0,
        progress: NOTHING,
    };
    let rest = rest.copied();
    let (piece, later) = rest.split();
    let read = read_piece(way, pair, view, walk, first, &run, piece);
    match read {
        Read::Ended(all) => scanned(rules_on(way), &all.progress, all.size),
        Read::Open(more) => read_on(way, pair, view, walk, first, &more, &later),
    }
}
