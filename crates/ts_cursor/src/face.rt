//! How a node shows: a grammar, the node's symbol and the step that it fills go in, and whether it
//! shows, its name and its kind come out.
ghost use Rattle.std.specs.Prelude.{◌≡◌, not};
ghost use Rattle.std.proofs.Common.{is_some};
ghost use Rattle.spec_grammar.specs.Symbols.{node_name, node_kind, is_hidden_kind, is_named_kind};
ghost use Rattle.spec_trees.specs.VisibleNodes.{is_shown, shown_name, shown_named};
ghost use Rattle.ts_cursor.specs.Marked.{step_marks};

use ts_core::{FlatGrammar, Kind, Step, Symbol};

/// The name of the end of the text.
const END: &str = "end";

/// The name of a symbol's nodes, and of the end.
pub(crate) fn symbol_name<'g>(grammar: &'g FlatGrammar, symbol: Symbol) -> &'g str
    ensures { result.now ≡ node_name grammar.now symbol.0 }
{
    let tokens = grammar.tokens.len();
    let number = symbol.0 as usize;
    if number == 0 {
        END
    } else if number <= tokens {
        grammar.tokens.get(number - 1).name.text()
    } else if number - 1 - tokens < grammar.rules.len() {
        grammar.rules.get(number - 1 - tokens).name.text()
    } else {
        ""
    }
}

/// The kind of a symbol's nodes.
fn symbol_kind(grammar: &FlatGrammar, symbol: Symbol) -> Kind
    ensures { result ≡ node_kind grammar.now symbol.0 }
{
    let tokens = grammar.tokens.len();
    let number = symbol.0 as usize;
    if number == 0 {
        Kind::Hidden
    } else if number <= tokens {
        grammar.tokens.get(number - 1).kind
    } else if number - 1 - tokens < grammar.rules.len() {
        grammar.rules.get(number - 1 - tokens).kind
    } else {
        Kind::Hidden
    }
}

/// Whether a node shows.
pub(crate) fn shows(grammar: &FlatGrammar, symbol: Symbol, step: Option<&Step>) -> bool
    ensures { result ≡ is_shown grammar.now symbol.0 (step_marks step.entry).alias }
{
    is_aliased(step) || is_symbol_shown(grammar, symbol)
}

/// Whether a symbol's nodes show by themselves.
fn is_symbol_shown(grammar: &FlatGrammar, symbol: Symbol) -> bool
    ensures { result ≡ not (is_hidden_kind (node_kind grammar.now symbol.0)) }
{
    match symbol_kind(grammar, symbol) {
        Kind::Named | Kind::Anonymous => true,
        Kind::Hidden => false,
    }
}

/// Whether a step has an alias.
fn is_aliased(step: Option<&Step>) -> bool
    ensures { result ≡ is_some (step_marks step.entry).alias }
{
    match step {
        Some(step) => step.alias.is_some(),
        None => false,
    }
}

/// The name under which a node shows.
pub(crate) fn name<'g>(grammar: &'g FlatGrammar, symbol: Symbol, step: Option<&'g Step>) -> &'g str
    ensures { result.now ≡ shown_name grammar.now symbol.0 (step_marks step.entry).alias }
{
    match step {
        Some(step) => match &step.alias {
            Some(alias) => alias.name.text(),
            None => symbol_name(grammar, symbol),
        },
        None => symbol_name(grammar, symbol),
    }
}

/// Whether a node shows as named.
pub(crate) fn is_named(grammar: &FlatGrammar, symbol: Symbol, step: Option<&Step>) -> bool
    ensures { result ≡ shown_named grammar.now symbol.0 (step_marks step.entry).alias }
{
    match step {
        Some(step) => match &step.alias {
            Some(alias) => alias.named,
            None => is_symbol_named(grammar, symbol),
        },
        None => is_symbol_named(grammar, symbol),
    }
}

/// Whether a symbol's nodes show under a rule's name.
fn is_symbol_named(grammar: &FlatGrammar, symbol: Symbol) -> bool
    ensures { result ≡ is_named_kind (node_kind grammar.now symbol.0) }
{
    match symbol_kind(grammar, symbol) {
        Kind::Named => true,
        Kind::Anonymous | Kind::Hidden => false,
    }
}
