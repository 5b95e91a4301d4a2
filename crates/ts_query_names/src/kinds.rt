//! The kinds that nodes of a grammar can have: a grammar in normal form goes in, and a set of kinds
//! comes out.
ghost use Rattle.std.specs.Prelude.{◌≡◌, IfOk, OnOk};
ghost use Rattle.std.specs.List.{flat_map, list_any};
ghost use Rattle.indexmap.specs.IndexSet.{insert_key};
ghost use Rattle.ts_query_names.specs.Kinds.{kind_eq, with_new, first_sights, own_kind, alias_kind, production_kinds, rule_kinds, token_kind, root_kind, grammar_kinds};
ghost use Rattle.ts_query_names.specs.LentNames.{kinds_told};

use indexmap::IndexSet;
use std::alloc::{AllocError, Global};
use ts_core::{Alias, FlatGrammar, FlatRule, Kind, Production, Str, TokenDef};

/// Puts a kind at the end, unless it is there.
pub(crate) fn add_kind<'a>(
    found: &mut IndexSet<(&'a Str, bool)>,
    name: &'a Str,
    named: bool,
) -> Result<(), AllocError>
    ensures { OnOk result (kinds_told found.new.keys
        ≡ insert_key kind_eq (kinds_told found.old.keys) (name.now, named)) }
{
    found.insert((name, named))?;
    Ok(())
}

fn add_own<'a>(
    found: &mut IndexSet<(&'a Str, bool)>,
    name: &'a Str,
    kind: Kind,
) -> Result<(), AllocError>
    ensures { OnOk result (kinds_told found.new.keys
        ≡ with_new kind_eq (kinds_told found.old.keys) (own_kind name.now kind)) }
{
    match kind {
        Kind::Named => add_kind(found, name, true),
        Kind::Anonymous => add_kind(found, name, false),
        Kind::Hidden => Ok(()),
    }
}

fn add_alias<'a>(
    found: &mut IndexSet<(&'a Str, bool)>,
    alias: &'a Option<Alias>,
) -> Result<(), AllocError>
    ensures { OnOk result (kinds_told found.new.keys
        ≡ with_new kind_eq (kinds_told found.old.keys) (alias_kind alias.now)) }
{
    match alias {
        Some(alias) => add_kind(found, &alias.name, alias.named),
        None => Ok(()),
    }
}

fn add_production<'a>(
    found: &mut IndexSet<(&'a Str, bool)>,
    production: &'a Production,
) -> Result<(), AllocError>
    ensures { OnOk result (kinds_told found.new.keys
        ≡ with_new kind_eq (kinds_told found.old.keys) (production_kinds production.now)) }
{
    for step in production.steps.as_slice() {
        add_alias(found, &step.alias)?;
    }
    Ok(())
}

fn add_productions<'a>(
    found: &mut IndexSet<(&'a Str, bool)>,
    productions: &'a [Production],
) -> Result<(), AllocError>
    ensures { OnOk result (kinds_told found.new.keys
        ≡ with_new kind_eq (kinds_told found.old.keys)
        (flat_map production_kinds productions.now)) }
{
    for production in productions {
        add_production(found, production)?;
    }
    Ok(())
}

fn add_rule<'a>(found: &mut IndexSet<(&'a Str, bool)>, rule: &'a FlatRule) -> Result<(), AllocError>
    ensures { OnOk result (kinds_told found.new.keys
        ≡ with_new kind_eq (kinds_told found.old.keys) (rule_kinds rule.now)) }
{
    add_own(found, &rule.name, rule.kind)?;
    add_productions(found, rule.productions.as_slice())?;
    Ok(())
}

fn add_rules<'a>(
    found: &mut IndexSet<(&'a Str, bool)>,
    rules: &'a [FlatRule],
) -> Result<(), AllocError>
    ensures { OnOk result (kinds_told found.new.keys
        ≡ with_new kind_eq (kinds_told found.old.keys) (flat_map rule_kinds rules.now)) }
{
    for rule in rules {
        add_rule(found, rule)?;
    }
    Ok(())
}

fn add_tokens<'a>(
    found: &mut IndexSet<(&'a Str, bool)>,
    tokens: &'a [TokenDef],
) -> Result<(), AllocError>
    ensures { OnOk result (kinds_told found.new.keys
        ≡ with_new kind_eq (kinds_told found.old.keys) (flat_map token_kind tokens.now)) }
{
    for token in tokens {
        add_own(found, &token.name, token.kind)?;
    }
    Ok(())
}

/// Puts the root's kind at the end, which is named also where its rule is hidden.
fn add_root<'a>(
    found: &mut IndexSet<(&'a Str, bool)>,
    rules: &'a [FlatRule],
) -> Result<(), AllocError>
    ensures { OnOk result (kinds_told found.new.keys
        ≡ with_new kind_eq (kinds_told found.old.keys) (root_kind rules.now)) }
{
    if rules.is_empty() {
        return Ok(());
    }
    add_kind(found, &rules[0].name, true)
}

/// The kinds that nodes of a grammar can have, each a name and whether it is named.
pub(crate) fn kinds_of<'a>(
    alloc: Global,
    flat: &'a FlatGrammar,
) -> Result<IndexSet<(&'a Str, bool)>, AllocError>
    ensures { IfOk result (λ found.
        kinds_told found.keys ≡ first_sights kind_eq (grammar_kinds flat.now)) }
{
    let mut found = IndexSet::new(alloc);
    add_tokens(&mut found, flat.tokens.as_slice())?;
    add_root(&mut found, flat.rules.as_slice())?;
    add_rules(&mut found, flat.rules.as_slice())?;
    Ok(found)
}

/// Whether there is such a kind.
pub(crate) fn has_kind(kinds: &IndexSet<(&Str, bool)>, name: &Str, named: bool) -> bool
    ensures { result ≡ list_any (kind_eq (name.now, named)) (kinds_told kinds.now.keys) }
{
    kinds.contains(&(name, named))
}
