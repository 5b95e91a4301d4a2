//! Whether the tokens of a grammar have too many positions: what comes in is the grammar, and what
//! goes out is the answer.

ghost use Rattle.std.specs.Prelude.{◌≡◌, ◌+◌, ◌≤◌, ◌↔◌, IsTrue, All, map, min, sum};
ghost use Rattle.ts_core.specs.declared.flat.TokenDef.{TokenDef as Token};
ghost use Rattle.ts_fit.specs.Bounds.{many_positions};
ghost use Rattle.ts_fit.specs.Misfits.{HasFewPositions};
ghost use Rattle.spec_tables.specs.Fit as fit;

use crate::expanse::{plus, positions, positions_of_all};
use ts_core::{FlatGrammar, TokenDef};

/// The most positions of one token.
const MOST_POSITIONS: u64 = 8_192;

/// The most positions of all tokens and separators together.
const MOST_POSITIONS_IN_ALL: u64 = 65_536;

fn are_few(tokens: &[TokenDef]) -> bool
    ensures { IsTrue result
        ↔ All (λ (d : Token). fit.positions d.re ≤ fit.most_positions) tokens.now }
{
    tokens
        .iter()
        .all(|token| positions(&token.re) <= MOST_POSITIONS)
}

/// The positions of all tokens, or one more than the most where there are more.
fn positions_of_tokens(tokens: &[TokenDef]) -> u64
    ensures counted { result
        ≡ min many_positions (sum (map (λ (d : Token). fit.positions d.re) tokens.now)) }
    ensures few { result ≤ many_positions }
{
    let mut all = 0;
    for token in tokens {
        all = plus(all, positions(&token.re));
    }
    all
}

fn positions_in_all(grammar: &FlatGrammar) -> u64
    ensures { result ≡ min many_positions (fit.all_positions grammar.now) }
{
    plus(
        positions_of_tokens(grammar.tokens.as_slice()),
        positions_of_all(grammar.separators.as_slice()),
    )
}

/// Whether no token has more than 8,192 positions, and all tokens and separators together have no
/// more than 65,536.
pub fn has_few_positions(grammar: &FlatGrammar) -> bool
    ensures { IsTrue result ↔ HasFewPositions grammar.now }
{
    are_few(grammar.tokens.as_slice()) && positions_in_all(grammar) <= MOST_POSITIONS_IN_ALL
}
