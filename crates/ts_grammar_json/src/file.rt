//! The whole file: from a JSON value to the grammar that it stands for.
ghost use Rattle.std.specs.Prelude.{◌≡◌, ◌≢◌, ◌⊎◌, Some, IfOk, IfErr, IsErrAnd};
ghost use Rattle.ts_ojson.specs.Json.{json_of, array as array_json, object as object_json};
ghost use Rattle.ts_core.specs.declared.rule.Grammar.{Grammar as AnyGrammar};
ghost use Rattle.ts_grammar_json.specs.declared.fault.GFault.{GFault as AnyFault};
ghost use Rattle.ts_grammar_json.specs.Pointer.{step};
ghost use Rattle.ts_grammar_json.specs.Members.{items_json, members_json};
ghost use Rattle.ts_grammar_json.specs.Faults.{must, may, under};
ghost use Rattle.ts_grammar_json.specs.Rules.{array_faults, array_rules, rule_faults, rule_of};
ghost use Rattle.ts_grammar_json.specs.File.{rules_faults, rules_in, external_faults, reserved_faults, extras_in, member_faults, members_grammar, are_named as named_all, have_names as have_names_in, named_rules, each_rule, file_faults, grammar_of, IsGrammar, IsFault};
ghost use Rattle.ts_grammar_json.specs.Found.{Gives, json_at, file_of, emptiness};

use crate::fault::GFault;
use crate::found::FileFound;
use crate::kinds;
use crate::lists::{conflicts, names, precedences};
use crate::member::{self, in_member};
use crate::pointer::wrong;
use crate::rule::{rule, rules};
use std::alloc::Global;
use ts_core::{Grammar, Limited, List, Rule, Str};
use ts_ojson::{OJson, OText};

/// The most rules that a grammar file has.
const MOST_RULES: usize = 4_096;

/// Reads a grammar file in the form of Tree-sitter's grammar.json from its JSON value. Members are
/// judged in the order `name`, `rules`, `word`, `extras`, `conflicts`, `precedences`, `externals`,
/// `reserved`, `inline`, `supertypes`, each with all that is inside it, and of a rule its own
/// members come before the rules inside it.
///
/// # Errors
///
/// The first fault, with the pointer to it. `Memory` may come at any time.
pub fn grammar(alloc: Global, json: &OJson) -> Result<Grammar, GFault>
    ensures ok { IfOk result (λ g. IsGrammar (json_of json.now) g) }
    ensures refused { IfErr result (λ e. IsFault e (json_of json.now)) }
    ensures complete { IfErr result
        (λ e. e ≢ GFault.Memory → (g : AnyGrammar) → IsGrammar (json_of json.now) g → ⊥) }
    ensures exact { (f : AnyFault) → f ≢ GFault.Memory → IsFault f (json_of json.now)
        → IsErrAnd result (λ e. (e ≡ f) ⊎ (e ≡ GFault.Memory)) }
{
    file(alloc, json)
}

fn file(alloc: Global, json: &OJson) -> Result<Grammar, GFault>
    ensures { Gives (file_faults (json_of json.now)) (grammar_of (json_of json.now)) result }
{
    match kinds::object(json) {
        Some(members) => read(alloc, &FileFound::of(members)),
        None => Err(wrong(alloc)),
    }
}

/// The grammar of the file with these members.
fn read(alloc: Global, found: &FileFound<'_>) -> Result<Grammar, GFault>
    ensures { Gives (member_faults (file_of found.now)) (members_grammar (file_of found.now))
        result }
{
    let name = member::text(alloc, "name", found.name)?;
    let rules = rules_member(alloc, "rules", found.rules)?;
    let word = member::word(alloc, "word", found.word)?;
    let extras = extras(alloc, "extras", found.extras)?;
    let conflicts = conflicts(alloc, "conflicts", found.conflicts)?;
    let precedences = precedences(alloc, "precedences", found.precedences)?;
    no_externals(alloc, "externals", found.externals)?;
    no_reserved(alloc, "reserved", found.reserved)?;
    let inline = names(alloc, "inline", found.inline)?;
    let supertypes = names(alloc, "supertypes", found.supertypes)?;
    Ok(Grammar {
        name,
        rules,
        word,
        extras,
        conflicts,
        precedences,
        inline,
        supertypes,
    })
}

/// The rules at a member that has to be there.
fn rules_member(
    alloc: Global,
    name: &str,
    value: Option<&OJson>,
) -> Result<List<(Str, Rule)>, GFault>
    ensures { Gives (must name.now rules_faults (json_at value.entry))
        (rules_in (json_at value.entry)) result }
{
    let value = member::there(alloc, name, value)?;
    in_member(alloc, name, rules_object(alloc, value))
}

fn rules_object(alloc: Global, value: &OJson) -> Result<List<(Str, Rule)>, GFault>
    ensures { Gives (rules_faults (json_of value.now)) (rules_in (Some (json_of value.now)))
        result }
{
    match kinds::object(value) {
        Some(members) => counted_rules(alloc, members),
        None => Err(wrong(alloc)),
    }
}

/// The rules of an object, whose form and number are judged before them.
fn counted_rules(alloc: Global, members: &[(OText, OJson)]) -> Result<List<(Str, Rule)>, GFault>
    ensures { Gives (rules_faults (object_json (members_json members.now)))
        (named_rules (members_json members.now)) result }
{
    if !are_named(members) {
        return Err(wrong(alloc));
    }
    if members.len() > MOST_RULES {
        return Err(GFault::Limit(Limited::Rules));
    }
    named(alloc, members)
}

/// Whether there is a rule, and none has an empty name.
fn are_named(members: &[(OText, OJson)]) -> bool
    ensures { result ≡ named_all (members_json members.now) }
{
    !members.is_empty() && have_names(members)
}

fn have_names(members: &[(OText, OJson)]) -> bool
    ensures { result ≡ have_names_in (members_json members.now) }
{
    for member in members {
        if member.0.is_empty() {
            return false;
        }
    }
    true
}

/// Each rule with its name, in file order.
fn named(alloc: Global, members: &[(OText, OJson)]) -> Result<List<(Str, Rule)>, GFault>
    ensures { Gives (each_rule (members_json members.now))
        (named_rules (members_json members.now)) result }
{
    let mut rules = List::new(alloc);
    for member in members {
        rules.push(named_rule(alloc, &member.0, &member.1)?)?;
    }
    Ok(rules)
}

fn named_rule(alloc: Global, name: &Str, value: &OJson) -> Result<(Str, Rule), GFault>
    ensures { Gives (under (step name.now) (rule_faults (json_of value.now)))
        (name.now, rule_of (json_of value.now)) result }
{
    let tree = in_member(alloc, name.text(), rule(alloc, value))?;
    Ok((Str::from_text(alloc, name.text())?, tree))
}

/// The rules at a member that may be absent.
fn extras(alloc: Global, name: &str, value: Option<&OJson>) -> Result<List<Rule>, GFault>
    ensures { Gives (may name.now array_faults (json_at value.entry))
        (extras_in (json_at value.entry)) result }
{
    match value {
        Some(value) => in_member(alloc, name, rule_array(alloc, value)),
        None => Ok(List::new(alloc)),
    }
}

fn rule_array(alloc: Global, value: &OJson) -> Result<List<Rule>, GFault>
    ensures { Gives (array_faults (json_of value.now)) (array_rules (json_of value.now)) result }
{
    match kinds::array(value) {
        Some(items) => rules(alloc, items),
        None => Err(wrong(alloc)),
    }
}

fn no_externals(alloc: Global, name: &str, value: Option<&OJson>) -> Result<(), GFault>
    ensures { Gives (may name.now external_faults (json_at value.entry)) tt result }
{
    match value {
        Some(value) => in_member(alloc, name, external(alloc, value)),
        None => Ok(()),
    }
}

fn external(alloc: Global, value: &OJson) -> Result<(), GFault>
    ensures { Gives (external_faults (json_of value.now)) tt result }
{
    match kinds::array(value) {
        Some(items) => no_items(items),
        None => Err(wrong(alloc)),
    }
}

fn no_items(items: &[OJson]) -> Result<(), GFault>
    ensures { Gives (external_faults (array_json (items_json items.now))) tt result }
{
    if items.is_empty() {
        Ok(())
    } else {
        Err(GFault::External)
    }
}

fn no_reserved(alloc: Global, name: &str, value: Option<&OJson>) -> Result<(), GFault>
    ensures { Gives (may name.now reserved_faults (json_at value.entry)) tt result }
{
    match value {
        Some(value) => in_member(alloc, name, reserved(alloc, value)),
        None => Ok(()),
    }
}

fn reserved(alloc: Global, value: &OJson) -> Result<(), GFault>
    ensures { Gives (reserved_faults (json_of value.now)) tt result }
{
    match is_empty(value) {
        Some(true) => Ok(()),
        Some(false) => Err(GFault::Reserved),
        None => Err(wrong(alloc)),
    }
}

/// Whether an array or an object has nothing in it.
fn is_empty(value: &OJson) -> Option<bool>
    ensures { result ≡ emptiness (json_of value.now) }
{
    if let Some(items) = kinds::array(value) {
        return Some(items.is_empty());
    }
    let members = kinds::object(value)?;
    Some(members.is_empty())
}
