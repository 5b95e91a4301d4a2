//! Whether the empty text is a word of a regular expression: what comes in is the expression, and
//! what goes out is the answer.

ghost use Rattle.std.specs.Prelude.{◌≡◌, ◌≤◌, ◌↔◌, IsTrue, [], map};
ghost use Rattle.spec_lexing.specs.Words.{Word, regular_of, all_of, any_of, AtMost};

use ts_core::Re;

/// Whether the empty text is a word of the expression.
#[cycle(nothing)]
pub fn matches_nothing(re: &Re) -> bool
    ensures { IsTrue result ↔ Word (regular_of re.now) [] }
{
    match re {
        Re::Empty => true,
        Re::Set(_) => false,
        Re::Cat(parts) => all_match_nothing(parts.as_slice()),
        Re::Alt(parts) => any_matches_nothing(parts.as_slice()),
        Re::Repeat(inner, least, most) => {
            let inner = matches_nothing(inner.get());
            is_open(*least, *most) && (*least == 0 || inner)
        },
    }
}

/// Whether some number is neither below the least nor above the most.
fn is_open(least: u32, most: Option<u32>) -> bool
    ensures { IsTrue result ↔ AtMost least most }
{
    match most {
        None => true,
        Some(most) => least <= most,
    }
}

#[cycle(nothing)]
fn all_match_nothing(parts: &[Re]) -> bool
    ensures { IsTrue result ↔ Word (all_of (map regular_of parts.now)) [] }
{
    for part in parts {
        if !matches_nothing(part) {
            return false;
        }
    }
    true
}

#[cycle(nothing)]
fn any_matches_nothing(parts: &[Re]) -> bool
    ensures { IsTrue result ↔ Word (any_of (map regular_of parts.now)) [] }
{
    for part in parts {
        if matches_nothing(part) {
            return true;
        }
    }
    false
}
