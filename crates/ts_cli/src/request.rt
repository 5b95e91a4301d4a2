//! What the words ask for: they come in, and a request comes out.
ghost use Rattle.std.specs.Prelude.{◌≡◌, ◌↔◌, ◌∷◌, [], map, codes, string_bytes, IsTrue};

/// What the words ask of the program.
#[derive(Clone, Copy, Debug, PartialEq, Eq)]
pub(crate) enum Request {
    Help,
    Version,
    /// Whatever else they are, also none.
    Command,
}

/// `--help` and `--version` count as the only word alone.
pub(crate) fn request_of(words: &[String]) -> Request
    ensures help { result ≡ Request.Help ↔
        (map string_bytes words.now ≡ codes "--help" ∷ []) }
    ensures version { result ≡ Request.Version ↔
        (map string_bytes words.now ≡ codes "--version" ∷ []) }
{
    if is_only(words, "--help") {
        Request::Help
    } else if is_only(words, "--version") {
        Request::Version
    } else {
        Request::Command
    }
}

/// Whether this is the only word.
fn is_only(words: &[String], word: &str) -> bool
    ensures { IsTrue result ↔ (map string_bytes words.now ≡ word.now ∷ []) }
{
    words.len() == 1 && words[0].as_str() == word
}
