//! The ranks of symbols: a grammar goes in, and for each symbol how many productions of one step
//! lead up from it, one after another, comes out.
ghost use Rattle.std.specs.Prelude.{◌≡◌, ◌≤◌, ◌<◌, ◌^◌, ℕ, suc, length, take, slice_get, Some, IfOk};
ghost use Rattle.spec_grammar.specs.Symbols.{all_productions, symbol_count, start_symbol, count_productions};
ghost use Rattle.ts_reductions.specs.Ranking.{AreLedUp, AreRanksOf, Raises, rank_in};

use std::alloc::{AllocError, Global};
use ts_core::{FlatGrammar, List, Production};

/// The ranks of all symbols, by their numbers. It takes time by the number of productions and by
/// the greatest rank.
///
/// # Errors
///
/// `AllocError` where memory runs out.
pub(crate) fn ranks_of(alloc: Global, flat: &FlatGrammar) -> Result<List<u32>, AllocError>
    requires symbols { symbol_count flat.now ≤ 2 ^ 16 }
    ensures { IfOk result (AreRanksOf flat.now) }
{
    let count = flat.tokens.len() + 1 + flat.rules.len();
    let mut ranks = vec![in alloc; 0u32; count]?;
    for _ in 0..count {
        let raised = raised(alloc, flat, ranks.as_slice())?;
        if raised == ranks {
            return Ok(List::from_vec(ranks));
        }
        ranks = raised;
    }
    Ok(List::from_vec(ranks))
}

/// The ranks by one production more, from those so far.
fn raised(alloc: Global, flat: &FlatGrammar, ranks: &[u32]) -> Result<Vec<u32>, AllocError>
    requires many { length ranks.now ≡ symbol_count flat.now }
    requires small { (symbol : ℕ) → rank_in ranks.now symbol < 2 ^ 16 }
    ensures { IfOk result (λ all. AreLedUp flat.now (rank_in ranks.now)
        (length (all_productions flat.now)) all.items) }
{
    let mut all = vec![in alloc; 0u32; ranks.len()]?;
    for r in 0..flat.rules.len() {
        raise_rule(flat, r, ranks, &mut all);
    }
    Ok(all)
}

/// Raises the ranks of the symbols that productions of rule `r` are alone.
fn raise_rule(flat: &FlatGrammar, r: usize, ranks: &[u32], all: &mut [u32])
    requires many { length ranks.now ≡ symbol_count flat.now }
    requires small { (symbol : ℕ) → rank_in ranks.now symbol < 2 ^ 16 }
    requires rule { r < length flat.now.rules }
    requires before { AreLedUp flat.now (rank_in ranks.now)
        (count_productions (take r flat.now.rules)) all.old }
    ensures { AreLedUp flat.now (rank_in ranks.now)
        (count_productions (take (suc r) flat.now.rules)) all.new }
{
    let rule = flat.rules.get(r);
    let rank = rank_of(ranks, flat.tokens.len() + 1 + r) + 1;
    for i in 0..rule.productions.len() {
        raise(all, rule.productions.get(i), rank);
    }
}

/// The rank of a symbol.
fn rank_of(ranks: &[u32], symbol: usize) -> u32
    requires { symbol < length ranks.now }
    ensures { result ≡ rank_in ranks.now symbol }
{
    ranks[symbol]
}

/// Raises the rank of the symbol that a production is alone, where it is one, to this.
fn raise(all: &mut [u32], production: &Production, rank: u32)
    ensures { Raises production.now.steps rank all.old all.new }
{
    if production.steps.len() != 1 {
        return;
    }
    let symbol = usize::from(production.steps.get(0).symbol.0);
    if symbol >= all.len() {
        return;
    }
    if all[symbol] < rank {
        all[symbol] = rank;
    }
}
