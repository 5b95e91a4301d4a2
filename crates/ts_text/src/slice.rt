//! Parts of texts: lent where they stand in one stretch of memory, and else copied.
ghost use Rattle.std.specs.Prelude.{◌≡◌, string_bytes};

use crate::sliced::Sliced;
use std::marker::Model;

/// A part of a text, which contracts see as its bytes. It lends them where they stand in one stretch
/// of memory.
#[derive(Drop)]
pub struct Slice<'t> {
    content: Sliced<'t>,
}

impl<'t> Model for Slice<'t> {
    ghost use Rattle.ts_base.specs.Bytes.{Bytes};
    ghost use Rattle.ts_text.specs.Slices.{bytes_sliced};

    ghost Value = { Bytes };

    ghost view = { λ slice. bytes_sliced slice.content };
}

impl<'t> Slice<'t> {
    /// Bytes that stand in one stretch.
    pub(crate) fn lent(text: &'t str) -> Slice<'t>
        ensures { result ≡ text.now }
    {
        Slice {
            content: Sliced::Lent(text),
        }
    }

    /// Bytes that were copied.
    pub(crate) fn made(text: String) -> Slice<'t>
        ensures { result ≡ string_bytes text }
    {
        Slice {
            content: Sliced::Made(text),
        }
    }

    /// The part itself.
    pub fn text(&self) -> &str
        ensures { result.now ≡ self.now }
    {
        match &self.content {
            Sliced::Lent(text) => text,
            Sliced::Made(text) => text.as_str(),
        }
    }
}
