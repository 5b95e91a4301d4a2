//! A part of a word in; the number of a client out.
ghost use Rattle.std.specs.Prelude.{◌≡◌, ◌<◌, ℕ, IfSome, IfNone};
ghost use Rattle.std.specs.Fmt.{decimal};
ghost use Rattle.ts_turns.specs.Turns.{most_clients};

/// The number of a client, in decimal without a sign or a needless zero.
pub(crate) fn client(part: &str) -> Option<u32>
    ensures some { IfSome result (λ n. (n < most_clients) × (part.now ≡ decimal n)) }
    ensures none { IfNone result ((n : ℕ) → n < most_clients → part.now ≡ decimal n → ⊥) }
{
    let bytes = part.as_bytes();
    if bytes.len() == 1 && bytes[0] >= b'0' && bytes[0] <= b'9' {
        Some(u32::from(bytes[0] - b'0'))
    } else if bytes.len() == 2 && bytes[0] == b'1' && bytes[1] >= b'0' && bytes[1] <= b'5' {
        Some(10 + u32::from(bytes[1] - b'0'))
    } else {
        None
    }
}
