//! The supertypes of a grammar: what comes in are their names, and what goes out are their symbols,
//! rising.

ghost use Rattle.std.specs.Prelude.{◌≡◌, ◌↔◌, IfOk};
ghost use Rattle.std.specs.List.{Contains};
ghost use Rattle.std.specs.List.Sorted.{IsStrictlySortedBy};
ghost use Rattle.std.specs.Ordering.{nat_cmp};
ghost use Rattle.ts_core.specs.declared.symbol.Symbol.{Symbol as AnySymbol};
ghost use Rattle.ts_numbering.specs.Numberings.{numbers_of};
ghost use Rattle.ts_numbering.specs.Surveys.{IsSurvey};
ghost use Rattle.ts_rules.specs.Normal.{IsSupertype, Rising};
ghost use Rattle.ts_entries.specs.Supertypes.{AreSupertypes};

use std::alloc::{AllocError, Global};
use std::collections::BTreeSet;
use ts_core::{Grammar, List, Symbol};
use ts_numbering::{Numbering, rule_number};

/// The numbers of the supertypes.
fn supertype_numbers(
    alloc: Global,
    grammar: &Grammar,
    numbering: &Numbering,
) -> Result<BTreeSet<u16>, AllocError>
    requires survey { IsSurvey grammar.now numbering.now.survey }
    ensures { IfOk result (AreSupertypes grammar.now (numbers_of numbering.now)
        grammar.now.supertypes) }
{
    let mut numbers = BTreeSet::new(alloc);
    for name in grammar.supertypes.as_slice() {
        if numbering.survey.is_inlined(name) {
            continue;
        }
        numbers.insert(rule_number(numbering, name))?;
    }
    Ok(numbers)
}

/// Numbers as a list, rising.
fn listed(alloc: Global, numbers: BTreeSet<u16>) -> Result<Vec<u16>, AllocError>
    ensures numbers { IfOk result (λ found. found.items ≡ numbers.keys) }
    ensures rising { IfOk result (λ found. IsStrictlySortedBy nat_cmp found.items) }
{
    let found: Vec<u16> = numbers.into_iter().collect(alloc)?;
    Ok(found)
}

/// The symbols of the supertypes that are not inlined, rising and each once.
///
/// # Errors
///
/// `AllocError` where memory runs out.
pub fn supertype_symbols(
    alloc: Global,
    grammar: &Grammar,
    numbering: &Numbering,
) -> Result<List<Symbol>, AllocError>
    requires survey { IsSurvey grammar.now numbering.now.survey }
    ensures all { IfOk result (λ found. (s : AnySymbol)
        → Contains found s ↔ IsSupertype grammar.now (numbers_of numbering.now) s) }
    ensures rise { IfOk result Rising }
{
    let numbers = supertype_numbers(alloc, grammar, numbering)?;
    let numbers = listed(alloc, numbers)?;
    let mut symbols = List::with_capacity(alloc, numbers.len())?;
    for number in numbers.as_slice() {
        symbols.push(Symbol(*number))?;
    }
    Ok(symbols)
}
