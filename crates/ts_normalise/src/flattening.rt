//! The public call: a grammar file comes in, and its normal form goes out, or the first cause why
//! it has none that can be used.

ghost use Rattle.std.specs.Prelude.{Ok, Err, IfOk, IfErr};
ghost use Rattle.ts_core.specs.declared.flat.FlatGrammar.{FlatGrammar as AnyForm};
ghost use Rattle.spec_tables.specs.Fit.{Fit};
ghost use Rattle.ts_normalise.specs.declared.fault.NFault.{NFault as AnyFault};
ghost use Rattle.ts_normalise.specs.Refusals.{Flattens, HasCause, IsDueAnswer, IsRefused};
ghost use Rattle.ts_rules.specs.FileGrammar.{IsFileGrammar};

use crate::accepted::check_form;
use crate::fault::NFault;
use crate::fit_laws::normal_forms_are_fit;
use crate::formed::form_of;
use crate::laws::{one_normal_form, one_refusal, refused_is_not_flattened};
use crate::trees::trees_of;
use std::alloc::Global;
use ts_core::{FlatGrammar, Grammar};
use ts_tokens::read_patterns;

/// The normal form of a grammar, or the first cause why it has none.
fn checked_form(alloc: Global, grammar: &Grammar) -> Result<FlatGrammar, NFault>
    requires file { IsFileGrammar grammar.now }
    ensures normal { IfOk result (Flattens grammar.now) }
    ensures fit { IfOk result Fit }
    ensures refused { IfErr result (HasCause (IsRefused grammar.now)) }
{
    one_normal_form();
    normal_forms_are_fit();
    let trees = trees_of(alloc, grammar)?;
    let patterns = read_patterns(alloc, grammar)?;
    let form = form_of(alloc, grammar, trees, &patterns)?;
    check_form(alloc, &form)?;
    Ok(form)
}

/// The normal form of a grammar file: a flat grammar with numbered symbols and productions, after
/// inlining.
///
/// # Errors
///
/// The first of these that stands. In the rule trees: a name that no rule has, a SYMBOL inside a
/// token, an inlined rule that can't be inlined, a word or an extra that is no token. A pattern
/// that can't be read. A limit on symbols, names, productions, steps or positions that is passed.
/// In the normal form: a token that matches the empty text, a rule that is empty where it must not
/// be, a rule that derives itself alone. `Memory` may come at any time.
pub fn flatten(alloc: Global, grammar: &Grammar) -> Result<FlatGrammar, NFault>
    requires file { IsFileGrammar grammar.now }
    ensures normal { IfOk result (Flattens grammar.now) }
    ensures fit { IfOk result Fit }
    ensures refused { IfErr result (HasCause (IsRefused grammar.now)) }
    ensures refuses { (e : AnyFault) → IsRefused grammar.now e → IsDueAnswer (Err e) result }
    ensures gives { (f : AnyForm) → Flattens grammar.now f → IsDueAnswer (Ok f) result }
{
    one_normal_form();
    one_refusal();
    refused_is_not_flattened();
    checked_form(alloc, grammar)
}
