//! The least of the conflicts that a grammar does not declare: conflicts go in one by one, and the
//! one of the least token, and then of the least rules, is kept.
ghost use Rattle.std.specs.Prelude.{IsTrue, ◌↔◌};
ghost use Rattle.spec_tables.specs.Conflicts.{NotAfter};
ghost use Rattle.ts_table.specs.Rules.{ComesFirst, IsLesser};

use ts_core::Symbol;

/// A conflict that the grammar does not declare: its token, and its rules, rising.
#[derive(Debug, Drop)]
pub(crate) struct Refusal {
    pub token: u16,
    pub rules: Vec<Symbol>,
}

/// Whether the first list comes after the second, compared symbol by symbol.
fn is_after(a: &[Symbol], b: &[Symbol]) -> bool
    ensures { IsTrue result ↔ (NotAfter a.now b.now → ⊥) }
{
    for at in 0..a.len() {
        if at >= b.len() {
            return true;
        }
        let x = a[at];
        let y = b[at];
        if x.0 != y.0 {
            return y.0 < x.0;
        }
    }
    false
}

/// Whether a conflict is lower than a refusal.
fn is_lower(token: u16, rules: &[Symbol], old: &Refusal) -> bool
    ensures { IsTrue result
        ↔ (ComesFirst old.now.token old.now.rules.items token rules.now → ⊥) }
{
    if token != old.token {
        return token < old.token;
    }
    is_after(old.rules.as_slice(), rules)
}

/// The lesser of a refusal, if there is one, and a conflict.
pub(crate) fn least(old: Option<Refusal>, token: u16, rules: Vec<Symbol>) -> Refusal
    ensures { IsLesser old token rules.items result }
{
    match old {
        None => Refusal { token, rules },
        Some(old) => {
            if is_lower(token, rules.as_slice(), &old) {
                Refusal { token, rules }
            } else {
                old
            }
        }
    }
}
