//! The three words that are values.

ghost use Rattle.std.specs.Prelude.{◌≡◌, ℕ, ◌+◌, ◌<◌, ◌≤◌, length, IfOk, IfErr};
ghost use Rattle.ts_ojson.specs.Machine.{Frames, word_bytes, word_value};
ghost use Rattle.ts_ojson.specs.States.{word as in_word};
ghost use Rattle.ts_ojson.specs.Places.{Reaches, Ends, Refused};

use crate::byte::byte_in;
use crate::stop::Stop;
use crate::value::OJson;

/// One of the three words that are values.
#[derive(Clone, Copy, PartialEq, Eq, Debug)]
pub(crate) enum Word {
    Null,
    True,
    False,
}

impl Word {
    fn bytes(self) -> &'static [u8]
        ensures { result.now ≡ word_bytes self }
    {
        match self {
            Word::Null => b"null",
            Word::True => b"true",
            Word::False => b"false",
        }
    }

    fn value(self) -> OJson
        ensures { result ≡ word_value self }
    {
        match self {
            Word::Null => OJson::Null,
            Word::True => OJson::Bool(true),
            Word::False => OJson::Bool(false),
        }
    }

    /// The value of the word whose first letter stands at `from`, and the place behind it.
    pub(crate) fn read(self, text: &str, from: usize) -> Result<(OJson, usize), Stop>
        requires { from < length text.now }
        ensures later { IfOk result (λ r. (from < r.1) × (r.1 ≤ length text.now)) }
        ensures ok { IfOk result (λ r. (k : Frames) → Reaches text.now (from + 1) (in_word self 1) k
            → Ends text.now r.1 r.0 k) }
        ensures err { IfErr result (λ e. (k : Frames)
            → Reaches text.now (from + 1) (in_word self 1) k → Refused e text.now) }
    {
        let letters = self.bytes();
        let mut read = 1;
        while read < letters.len() {
            if byte_in(text, from + read) != Some(letters[read]) {
                return Err(Stop::Syntax(from + read));
            }
            read += 1;
        }
        Ok((self.value(), from + read))
    }
}
