//! What is kept while a search goes on: a key and some ways go in, and for a key the ways that are
//! kept for it are lent.
ghost use Rattle.std.specs.Prelude.{◌≡◌, OnOk, Some, IsTrue};
ghost use Rattle.std.specs.HashMap.{get, Updates};
ghost use Rattle.ts_search.specs.Memory.{IsThere, key_eq};

use crate::stand::Key;
use spec_matches::Placing;
use std::alloc::AllocError;
use std::collections::HashMap;
use ts_base::List;

/// Whether ways are kept for a key.
pub(crate) fn is_kept(memo: &HashMap<Key, List<Placing>>, key: Key) -> bool
    ensures { IsTrue result → IsThere (get key_eq memo.now) key }
{
    memo.get(&key).is_some()
}

/// The ways that are kept for a key.
pub(crate) fn kept(memo: &HashMap<Key, List<Placing>>, key: Key) -> &[Placing]
    requires { IsThere (get key_eq memo.now) key }
    ensures { get key_eq memo.now key ≡ Some result.now }
{
    let Some(found) = memo.get(&key) else {
        unreachable!()
    };
    found.as_slice()
}

/// Keeps some ways for a key.
pub(crate) fn remember(
    memo: &mut HashMap<Key, List<Placing>>,
    key: Key,
    found: Vec<Placing>,
) -> Result<(), AllocError>
    ensures { OnOk result (Updates key_eq memo.old memo.new key (Some found.items)) }
{
    memo.insert(key, List::from_vec(found))?;
    Ok(())
}
