//! Laws of grammars and tables, which other crates call: they take nothing and give their clauses.

ghost use Rattle.ts_core.specs.declared.flat.FlatGrammar.{FlatGrammar as Flat};
ghost use Rattle.spec_grammar.specs.Symbols.{symbol_count};
ghost use Rattle.spec_tables.specs.Fit.{Fit};
ghost use Rattle.ts_table.specs.Ranks.{unit_rank, AreUnitRanks};

/// The symbols of a grammar have ranks below their number, by which reductions of one step end.
pub fn unit_ranks()
    ensures { (g : Flat) → Fit g → AreUnitRanks g (unit_rank g) (symbol_count g) }
{}
