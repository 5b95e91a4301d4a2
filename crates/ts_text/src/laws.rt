//! Laws of texts and edits, for the proofs of the crates above.
//! Each is a function that does nothing.
ghost use Rattle.std.specs.Prelude.{◌≡◌, ℕ};
ghost use Rattle.ts_base.specs.Bytes.{Bytes};
ghost use Rattle.ts_text.specs.Edit.{InRange, apply_of, Fits, HasTexts};
ghost use Rattle.ts_text.specs.Text.{IsText, BreaksAt};
ghost use Rattle.ts_text.specs.declared.edit.Edit.{Edit as AnyEdit};

/// Bytes stop being UTF-8 at one place at most, and those of a text nowhere.
pub fn breaks_once()
    ensures place { (bytes : Bytes) (m n : ℕ) → BreaksAt bytes m → BreaksAt bytes n → m ≡ n }
    ensures text { (bytes : Bytes) (n : ℕ) → IsText bytes → BreaksAt bytes n → ⊥ }
{}

/// What an edit in range leaves is a text, where it fits.
pub fn edited_is_text()
    ensures { (text : Bytes) (edit : AnyEdit) → IsText text → HasTexts edit
        → InRange text edit → Fits text edit → IsText (apply_of text edit) }
{}
