//! What a parser asks of texts and of lexers.
ghost use Rattle.std.specs.Prelude.{◌≡◌, ◌≤◌, ◌<◌, ◌+◌, ◌-◌, ◌^◌, ◌↔◌, ℕ, min, drop, length, IfOk, IsErrOf, IsOkUnless};
ghost use Rattle.ts_base.specs.Bytes.{Bytes};
ghost use Rattle.spec_lexing.specs.Lexing.{Found};
ghost use Rattle.spec_lexing.specs.Seen.{Agree};
ghost use Rattle.ts_table.specs.declared.view.ParseTable.{ParseTable};
ghost use Rattle.ts_text.specs.Edit.{InRange, Fits, IsOver, apply_of};
ghost use Rattle.ts_text.specs.Text.{IsText};
ghost use Rattle.ts_lexer.specs.Answers.{IsLexedAt, LexesIn, SaysFound, extent_of};

use crate::lexed::Lexed;
use std::alloc::Global;
use ts_text::{Edit, EditFault, Text};

/// A text, of which contracts see the bytes.
pub trait Content {
    ghost bytes: { Self → Bytes };

    /// How many bytes the text has.
    fn len(&self) -> u32
        ensures { result ≡ length (bytes self.now) };

    /// The bytes are those of a text. A call of it only tells this.
    fn stands(&self)
        ensures { IsText (bytes self.now) };
}

/// What lexes texts for the states of a parse table.
pub trait Tokens {
    type Text: Content;

    /// Whether it was made for the table.
    ghost made_for: { Self → ParseTable → Type 0 };

    /// How many bytes it has examined. It stands still at the last value of `u64`.
    ghost examined: { Self → ℕ };

    /// What stands at a place of a text among the tokens that are valid in a state: those on which
    /// it acts, and all extras. It takes no memory.
    ///
    /// The place may be inside a character: nothing matches there.
    fn lex(&mut self, text: &Self::Text, place: u32, state: u16) -> Lexed
        requires made { (t : ParseTable) × made_for self.old t × (state < length t.rows) }
        requires within { place ≤ length (Self.Text.bytes text.now) }
        ensures made { (t : ParseTable) → made_for self.old t → made_for self.new t }
        ensures answer { (t : ParseTable) → made_for self.old t → state < length t.rows
            → IsLexedAt t state (Self.Text.bytes text.now) place result }
        ensures settled { (t : ParseTable) (other : Bytes) (at : ℕ) (found : Found)
            → made_for self.old t → state < length t.rows → SaysFound place result found
            → Agree (extent_of result) (drop place (Self.Text.bytes text.now)) (drop at other)
            → LexesIn t state (drop at other) found }
        ensures examined { examined self.new ≡ min (examined self.old + extent_of result)
            (2 ^ 64 - 1) };

    /// The text after an edit, all its parts replaced at once.
    fn apply(&self, alloc: Global, text: &Self::Text, edit: &Edit) -> Result<Self::Text, EditFault>
        ensures ok { IfOk result
            (λ after. Self.Text.bytes after ≡ apply_of (Self.Text.bytes text.now) edit.now) }
        ensures range { IsErrOf result EditFault.Range
            ↔ ¬ (InRange (Self.Text.bytes text.now) edit.now) }
        ensures size { (n : ℕ) → IsErrOf result (EditFault.Size n)
            ↔ IsOver (Self.Text.bytes text.now) edit.now n }
        ensures accepts { IsOkUnless result EditFault.Memory
            ↔ InRange (Self.Text.bytes text.now) edit.now
            × Fits (Self.Text.bytes text.now) edit.now };
}

impl Content for Text {
    ghost bytes = { λ text. text };

    fn len(&self) -> u32 {
        Text::len(self)
    }

    fn stands(&self) {
        let _ = Text::len(self);
    }
}
