//! A word in; the clients that it names, in its order, out.
ghost use Rattle.std.specs.Prelude.{◌≡◌, ℕ, List, [], IfOk, MatchOption};
ghost use Rattle.ts_turns.specs.Turns.{Spells};

use crate::number::client;
use std::alloc::{AllocError, Global};

/// The clients that a word names: numbers below 16 in decimal, joined by commas, or the empty word
/// for none. A word of another form names none, and the answer is then `None`.
///
/// # Errors
///
/// `AllocError` where memory runs out.
pub fn turns(alloc: Global, word: &str) -> Result<Option<Vec<u32>>, AllocError>
    ensures spells { IfOk result (λ found. MatchOption found
        ((order : List ℕ) → Spells word.now order → ⊥)
        (λ order. Spells word.now order.items)) }
{
    if word.is_empty() {
        Ok(Some(Vec::new(alloc)))
    } else {
        parts(alloc, word)
    }
}

/// The clients that the parts between commas name.
fn parts(alloc: Global, word: &str) -> Result<Option<Vec<u32>>, AllocError>
    requires { word.now ≡ [] → ⊥ }
    ensures spells { IfOk result (λ found. MatchOption found
        ((order : List ℕ) → Spells word.now order → ⊥)
        (λ order. Spells word.now order.items)) }
{
    let mut order = Vec::new(alloc);
    for part in word.split(',') {
        match client(part) {
            Some(number) => order.push(number)?,
            None => return Ok(None),
        }
    }
    Ok(Some(order))
}
