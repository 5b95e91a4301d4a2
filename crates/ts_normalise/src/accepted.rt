//! Whether a grammar in normal form can be used: what comes in is the grammar, and what goes out is
//! nothing, or the first cause why it can't be used, with the name that it tells.

ghost use Rattle.std.specs.Prelude.{◌≡◌, ◌≤◌, IfOk, IfErr};
ghost use Rattle.ts_core.specs.declared.flat.FlatRule.{FlatRule as AnyRule};
ghost use Rattle.spec_tables.specs.Fit.{HasRule, most_symbols, symbols_of};
ghost use Rattle.ts_normalise.specs.Forms.{HasOwners, TellsCycle, TellsEmptyRule, TellsEmptyToken, TellsInForm};
ghost use Rattle.ts_normalise.specs.Refusals.{HasCause, Nothing};

use crate::fault::NFault;
use crate::names::copy_of;
use std::alloc::Global;
use ts_core::{FlatGrammar, FlatRule};
use ts_fit::{first_cyclic, first_empty_rule, first_empty_token};

/// Refuses a token that matches the empty text.
fn check_tokens(alloc: Global, form: &FlatGrammar) -> Result<(), NFault>
    ensures none { IfOk result (λ _. Nothing (TellsEmptyToken form.now)) }
    ensures refused { IfErr result (HasCause (TellsEmptyToken form.now)) }
{
    match first_empty_token(form) {
        None => Ok(()),
        Some(place) => Err(NFault::EmptyToken(copy_of(alloc, &form.tokens.get(place).name)?)),
    }
}

/// Refuses a rule that is empty where it must not be.
fn check_rules(alloc: Global, form: &FlatGrammar) -> Result<(), NFault>
    requires few_symbols { symbols_of form.now ≤ most_symbols }
    ensures none { IfOk result (λ _. Nothing (TellsEmptyRule form.now)) }
    ensures refused { IfErr result (HasCause (TellsEmptyRule form.now)) }
{
    match first_empty_rule(form) {
        None => Ok(()),
        Some(place) => Err(NFault::EmptyRule(copy_of(alloc, &form.rules.get(place).name)?)),
    }
}

/// The rule to which a rule belongs.
fn owner_of<'a>(form: &'a FlatGrammar, rule: &FlatRule) -> &'a FlatRule
    requires owned { (owner : AnyRule) × HasRule form.now rule.now.owner owner }
    ensures { HasRule form.now rule.now.owner result.now }
{
    let place = usize::from(rule.owner.0) - form.tokens.len() - 1;
    form.rules.get(place)
}

/// Refuses a rule that derives itself alone.
fn check_cycles(alloc: Global, form: &FlatGrammar) -> Result<(), NFault>
    requires owners { HasOwners form.now }
    ensures none { IfOk result (λ _. Nothing (TellsCycle form.now)) }
    ensures refused { IfErr result (HasCause (TellsCycle form.now)) }
{
    match first_cyclic(alloc, form)? {
        None => Ok(()),
        Some(place) => {
            let owner = owner_of(form, form.rules.get(place));
            Err(NFault::Cyclic(copy_of(alloc, &owner.name)?))
        },
    }
}

/// Refuses a grammar in normal form that can't be used.
///
/// # Errors
///
/// The first of these: a token that matches the empty text, a rule that is empty where it must not
/// be, a rule that derives itself alone. `Memory` may come at any time.
pub(crate) fn check_form(alloc: Global, form: &FlatGrammar) -> Result<(), NFault>
    requires few_symbols { symbols_of form.now ≤ most_symbols }
    requires owners { HasOwners form.now }
    ensures none { IfOk result (λ _. Nothing (TellsInForm form.now)) }
    ensures refused { IfErr result (HasCause (TellsInForm form.now)) }
{
    check_tokens(alloc, form)?;
    check_rules(alloc, form)?;
    check_cycles(alloc, form)?;
    Ok(())
}
