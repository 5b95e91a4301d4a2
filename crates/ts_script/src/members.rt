//! The members of a JSON object in the order of their names in; the values of those that are
//! expected out, one after another.
ghost use Rattle.std.specs.Prelude.{◌≡◌, ◌↔◌, ℕ, MatchOption, IsTrue, false};
ghost use Rattle.serde_json.specs.Data.{Data, Items as AnyItems, Members as AnyMembers, no_members, member, string, array};
ghost use Rattle.serde_json.specs.View.{view, members_view, items_view};
ghost use Rattle.ts_base.specs.Bytes.{Bytes};
ghost use Rattle.ts_script.specs.Said.{whole, IsNumber, with_op};

use serde_json::Value;
use std::alloc::Global;
use std::collections::btree_map::IntoIter;
use ts_core::Str;

/// The members that are left, each with its value.
pub(crate) type Members = IntoIter<String, Value, Global>;

/// The value of the next member, if it has this name.
pub(crate) fn value(members: &mut Members, name: &str) -> Option<Value>
    ensures { MatchOption result
        ((d : Data) (rest : AnyMembers) → members_view members.old ≡ member name.now d rest → ⊥)
        (λ v. members_view members.old ≡ member name.now (view v) (members_view members.new)) }
{
    let (key, value) = members.next()?;
    if key.as_str() == name {
        Some(value)
    } else {
        None
    }
}

/// The number of the next member, if it has this name.
pub(crate) fn number(members: &mut Members, name: &str) -> Option<u32>
    ensures { MatchOption result
        ((n : ℕ) (rest : AnyMembers) → IsNumber n
        → members_view members.old ≡ member name.now (whole n) rest → ⊥)
        (λ n. IsNumber n
        × (members_view members.old ≡ member name.now (whole n) (members_view members.new))) }
{
    let found = value(members, name)?;
    small(&found)
}

/// A number that fits a u32.
pub(crate) fn small(value: &Value) -> Option<u32>
    ensures { MatchOption result ((n : ℕ) → IsNumber n → view value.now ≡ whole n → ⊥)
        (λ n. IsNumber n × (view value.now ≡ whole n)) }
{
    match value.as_u64() {
        Some(number) if number <= u64::from(u32::MAX) => Some(number as u32),
        Some(_) | None => None,
    }
}

/// The text of the next member, if it has this name.
pub(crate) fn text(members: &mut Members, name: &str) -> Option<Str>
    ensures { MatchOption result
        ((s : Bytes) (rest : AnyMembers)
        → members_view members.old ≡ member name.now (string s) rest → ⊥)
        (λ s. members_view members.old ≡ member name.now (string s) (members_view members.new)) }
{
    match value(members, name)? {
        Value::String(text) => Some(Str::from_string(text)),
        _ => None,
    }
}

/// The items of the next member, if it has this name.
pub(crate) fn items(members: &mut Members, name: &str) -> Option<Vec<Value>>
    ensures { MatchOption result
        ((list : AnyItems) (rest : AnyMembers)
        → members_view members.old ≡ member name.now (array list) rest → ⊥)
        (λ v. members_view members.old
        ≡ member name.now (array (items_view v.items)) (members_view members.new)) }
{
    match value(members, name)? {
        Value::Array(items) => Some(items),
        _ => None,
    }
}

/// Whether the next member is `op` with this word.
pub(crate) fn has_op(members: &mut Members, word: &str) -> bool
    ensures has { IsTrue result
        → members_view members.old ≡ with_op word.now (members_view members.new) }
    ensures lacks { result ≡ false
        → (rest : AnyMembers) → members_view members.old ≡ with_op word.now rest → ⊥ }
{
    match value(members, "op") {
        Some(Value::String(found)) => found.as_str() == word,
        Some(_) | None => false,
    }
}

/// Whether no member is left.
pub(crate) fn is_end(members: &mut Members) -> bool
    ensures { IsTrue result ↔ (members_view members.old ≡ no_members) }
{
    members.next().is_none()
}
