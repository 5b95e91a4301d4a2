//! A grammar and a symbol in; the symbol's name, or the rule in which it stands, out.
ghost use Rattle.std.specs.Prelude.{◌≡◌};
ghost use Rattle.spec_grammar.specs.Symbols.{node_name};
ghost use Rattle.spec_tables.specs.Conflicts.{owner_of};

use ts_core::{FlatGrammar, Symbol};

/// The name of the end of the text.
const END: &str = "end";

/// The name of a symbol, or of the end.
pub(crate) fn symbol_name<'g>(grammar: &'g FlatGrammar, symbol: Symbol) -> &'g str
    ensures { result.now ≡ node_name grammar.now symbol.0 }
{
    let tokens = grammar.tokens.len();
    let number = symbol.0 as usize;
    if number == 0 {
        END
    } else if number <= tokens {
        grammar.tokens.get(number - 1).name.text()
    } else if number - 1 - tokens < grammar.rules.len() {
        grammar.rules.get(number - 1 - tokens).name.text()
    } else {
        ""
    }
}

/// The rule in which a repetition stands; any other symbol stands for itself.
pub(crate) fn owner(grammar: &FlatGrammar, symbol: Symbol) -> Symbol
    ensures { result.0 ≡ owner_of grammar.now symbol.0 }
{
    let tokens = grammar.tokens.len();
    let number = symbol.0 as usize;
    if number <= tokens {
        symbol
    } else if number - 1 - tokens < grammar.rules.len() {
        grammar.rules.get(number - 1 - tokens).owner
    } else {
        symbol
    }
}
