//! The members of an object that is read, with their names in order to look them up. A name is
//! claimed when it is read, before its value: one search says whether it is new and puts it among
//! the names.

ghost use Rattle.std.specs.Prelude.{◌≡◌, ◌++◌, ◌∷◌, [], true, false, get_or, IfOk, MatchOption};
ghost use Rattle.ts_ojson.specs.Gathered.{has_name, leading};

use std::alloc::{AllocError, Global};
use std::collections::BTreeSet;
use std::marker::Model;
use ts_base::{List, Str};

/// The first bytes of a name as a number, and the name. Where the numbers differ, a comparison of
/// two keys reads neither name.
type Key = (u64, Str);

/// The members of an object that were read so far.
#[derive(Drop)]
pub(crate) struct Gathered<V> {
    members: List<(Str, V)>,
    names: BTreeSet<Key>,
}

impl<V> Model for Gathered<V> {
    ghost use Rattle.std.specs.Prelude.{◌≡◌, ℕ, List as Values};
    ghost use Rattle.std.specs.Coded.{coded_list, coded×, coded_ℕ};
    ghost use Rattle.ts_ojson.specs.Gathered.{has_key, has_name as named};

    ghost Value = { Values (Values ℕ × V) };

    ghost coded = { coded_list (coded× (coded_list coded_ℕ) V.code) };

    ghost view = { λ g. g.members };

    ghost invariant = { λ g. (n : Values ℕ) → has_key n g.names ≡ named n g.members };
}

/// The members that were read so far, and the name of the one whose value comes next.
#[derive(Drop)]
pub(crate) struct Claimed<V> {
    members: List<(Str, V)>,
    names: BTreeSet<Key>,
    name: Str,
}

impl<V> Model for Claimed<V> {
    ghost use Rattle.std.specs.Prelude.{◌≡◌, ℕ, List as Values};
    ghost use Rattle.std.specs.Coded.{coded_list, coded×, coded_ℕ};
    ghost use Rattle.ts_ojson.specs.Gathered.{has_key, has_either};

    ghost Value = { Values (Values ℕ × V) × Values ℕ };

    ghost coded = { coded× (coded_list (coded× (coded_list coded_ℕ) V.code)) (coded_list coded_ℕ) };

    ghost view = { λ c. (c.members, c.name) };

    ghost invariant = { λ c. (n : Values ℕ)
        → has_key n c.names ≡ has_either n c.name c.members };
}

impl<V> Gathered<V> {
    pub(crate) fn new(alloc: Global) -> Gathered<V>
        ensures { result ≡ [] }
    {
        Gathered {
            members: List::new(alloc),
            names: BTreeSet::new(alloc),
        }
    }

    pub(crate) fn into_list(self) -> List<(Str, V)>
        ensures { result ≡ self }
    {
        self.members
    }
}

impl<V: Drop> Gathered<V> {
    /// Claims a name for the next member. `None` where a member has it.
    ///
    /// # Errors
    ///
    /// `AllocError` where memory runs out; the members are then dropped.
    pub(crate) fn claim(self, alloc: Global, name: Str) -> Result<Option<Claimed<V>>, AllocError>
        ensures { IfOk result (λ claimed. MatchOption claimed (has_name name self ≡ true)
            (λ c. (has_name name self ≡ false) × (c ≡ (self, name)))) }
    {
        let Gathered { members, mut names } = self;
        if names.insert(key_of(alloc, &name)?)? {
            return Ok(Some(Claimed {
                members,
                names,
                name,
            }));
        }
        Ok(None)
    }
}

impl<V: Drop> Claimed<V> {
    /// The members with the one whose name was claimed at the end.
    ///
    /// # Errors
    ///
    /// `AllocError` where memory runs out; the members are then dropped.
    pub(crate) fn with(self, value: V) -> Result<Gathered<V>, AllocError>
        ensures { IfOk result (λ g. g ≡ self.0 ++ (self.1, value) ∷ []) }
    {
        let Claimed {
            mut members,
            names,
            name,
        } = self;
        members.push((name, value))?;
        Ok(Gathered { members, names })
    }
}

fn key_of(alloc: Global, name: &Str) -> Result<Key, AllocError>
    ensures { IfOk result (λ key. key ≡ (leading name.now, name.now)) }
{
    let text = name.text();
    Ok((leading_bytes(text.as_bytes()), Str::from_text(alloc, text)?))
}

/// The first eight bytes as a number, the first one its highest, with 0 for those that there are
/// not.
fn leading_bytes(bytes: &[u8]) -> u64
    ensures { result ≡ leading bytes.now }
{
    u64::from_be_bytes([
        byte_or_zero(bytes, 0),
        byte_or_zero(bytes, 1),
        byte_or_zero(bytes, 2),
        byte_or_zero(bytes, 3),
        byte_or_zero(bytes, 4),
        byte_or_zero(bytes, 5),
        byte_or_zero(bytes, 6),
        byte_or_zero(bytes, 7),
    ])
}

fn byte_or_zero(bytes: &[u8], at: usize) -> u8
    ensures { result ≡ get_or bytes.now at 0 }
{
    if at < bytes.len() { bytes[at] } else { 0 }
}
