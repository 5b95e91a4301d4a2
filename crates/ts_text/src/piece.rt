//! Pieces of texts, which several texts share.
ghost use Rattle.std.specs.Prelude.{◌≡◌, ◌+◌, ◌<◌, ◌^◌, length};

use ts_base::{Shared, Str};

/// The most bytes of a piece that is made anew, but for the end of a character. No contract has
/// it: below it the owners of pieces cost more, above it the copies of those that an edit changes.
pub(crate) const PIECE: usize = 8_192;

/// A piece of a text, with the place where it begins.
#[derive(Drop)]
pub(crate) struct Piece {
    /// Where it begins in the text.
    pub(crate) start: u32,

    /// Its characters, which other texts may have too.
    pub(crate) content: Shared<Str>,
}

impl Piece {
    /// Its characters.
    pub(crate) fn text(&self) -> &str
        ensures { result.now ≡ self.now.content }
    {
        self.content.get().text()
    }

    /// Where it ends in the text.
    pub(crate) fn end(&self) -> u32
        requires { self.now.start + length self.now.content < 2 ^ 32 }
        ensures { result ≡ self.now.start + length self.now.content }
    {
        self.start + self.text().len() as u32
    }
}
