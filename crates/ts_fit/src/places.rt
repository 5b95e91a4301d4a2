//! Rules by their symbols and places: what comes in is a grammar with a symbol or a place, counted
//! from 0, and what goes out is the other one.

ghost use Rattle.std.specs.Prelude.{◌≡◌, ◌<◌, ◌≤◌, length};
ghost use Rattle.spec_tables.specs.Fit as fit;
ghost use Rattle.ts_fit.specs.Searches.{IsRuleAt};

use ts_core::{FlatGrammar, Symbol};

/// The place of the rule with this symbol, counted from 0.
pub(crate) fn rule_place(grammar: &FlatGrammar, symbol: Symbol) -> Option<usize>
    ensures { IsRuleAt grammar.now symbol result }
{
    let number = usize::from(symbol.0);
    let tokens = grammar.tokens.len();
    if number <= tokens {
        return None;
    }
    let place = number - tokens - 1;
    if place < grammar.rules.len() {
        Some(place)
    } else {
        None
    }
}

/// The symbol of the rule at a place.
pub(crate) fn rule_at(grammar: &FlatGrammar, place: usize) -> Symbol
    requires few_symbols { fit.symbols_of grammar.now ≤ fit.most_symbols }
    requires there { place < length grammar.now.rules }
    ensures { result ≡ fit.rule_symbol grammar.now place }
{
    Symbol((grammar.tokens.len() + place + 1) as u16)
}
