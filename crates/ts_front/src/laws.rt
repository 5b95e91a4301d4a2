//! Laws of the definitions: what a grammar file of fewer than 2^32 bytes gives is what the normal
//! form asks for; a file stands for one grammar, or is refused for one cause; and what is compiled
//! is compiled to itself.
ghost use Rattle.std.specs.Prelude.{◌≡◌, ◌↔◌, ◌<◌, ◌^◌, length};
ghost use Rattle.spec_tables.specs.Fit.{Fit};
ghost use Rattle.ts_base.specs.Bytes.{Bytes};
ghost use Rattle.ts_core.specs.declared.rule.Grammar.{Grammar as AnyGrammar};
ghost use Rattle.ts_ojson.specs.Json.{json_of};
ghost use Rattle.ts_ojson.specs.Reads.{Reads};
ghost use Rattle.ts_ojson.specs.declared.value.OJson.{OJson as AnyJson};
ghost use Rattle.ts_grammar_json.specs.File.{IsGrammar};
ghost use Rattle.ts_rules.specs.FileGrammar.{IsFileGrammar};
ghost use Rattle.ts_core.specs.declared.flat.FlatGrammar.{FlatGrammar as AnyForm};
ghost use Rattle.ts_langfile.specs.Spelling.{spelling};
ghost use Rattle.ts_front.specs.Compiled.{IsCompiled, IsRefusalLine};
ghost use Rattle.ts_front.specs.Grammars.{IsFormOf, IsLanguageFile, IsNewLanguageFile, IsRefusedFile};
ghost use Rattle.ts_front.specs.Nesting.{AreShallow};
ghost use Rattle.ts_front.specs.Parts.{PartLaws};
ghost use Rattle.ts_front.specs.Tables.{HasNoTable, HasTable};
ghost use Rattle.ts_front.specs.declared.fault.GrammarFault.{GrammarFault as AnyFault};
ghost use Rattle.ts_front.specs.declared.table_fault.NoTable.{NoTable as AnyNoTable};

/// A grammar that a file of fewer than 2^32 bytes stands for has at least one rule and not too
/// many, no two of one name, no CHOICE without a branch, and short texts and lists.
pub fn read_grammars_are_file_grammars()
    ensures { (w : Bytes) (v : AnyJson) (g : AnyGrammar) → length w < 2 ^ 32 → Reads v w
        → IsGrammar (json_of v) g → IsFileGrammar g }
{
    ts_grammar_json::grammars_are_well_formed();
    ts_grammar_json::grammars_have_parts_within();
}

/// What is known of the parts of a file.
fn parts()
    ensures { PartLaws }
{
    ts_ojson::one_value();
    ts_ojson::refused_is_not_read();
    ts_ojson::one_fault();
    ts_grammar_json::one_grammar();
    ts_grammar_json::refused_is_no_grammar();
    ts_grammar_json::one_fault();
    ts_normalise::one_normal_form();
    ts_normalise::one_refusal();
    ts_normalise::refused_is_not_flattened();
    ts_langfile::one_grammar();
    ts_langfile::refused_is_not_read();
    ts_langfile::one_fault();
}

/// A file stands for one grammar in normal form at most, or it is refused for one cause.
pub fn one_answer()
    ensures form { (w : Bytes) (f h : AnyForm) → IsFormOf w f → IsFormOf w h → f ≡ h }
    ensures fault { (w : Bytes) (e d : AnyFault) → IsRefusedFile w e → IsRefusedFile w d → e ≡ d }
    ensures either { (w : Bytes) (e : AnyFault) (f : AnyForm) → IsRefusedFile w e → IsFormOf w f
        → ⊥ }
{
    parts();
}

/// A grammar has no parse table for one cause at most, and none where it has one.
pub fn one_table_fault()
    ensures fault { (f : AnyForm) (e d : AnyNoTable) → HasNoTable f e → HasNoTable f d → e ≡ d }
    ensures either { (f : AnyForm) (e : AnyNoTable) → HasNoTable f e → HasTable f → ⊥ }
{}

/// A file is compiled to one language file, or it is refused with one line.
pub fn one_compilation()
    ensures bytes { (w a b : Bytes) → IsCompiled w a → IsCompiled w b → a ≡ b }
    ensures line { (w a b : Bytes) → IsRefusalLine w a → IsRefusalLine w b → a ≡ b }
    ensures either { (w a b : Bytes) → IsRefusalLine w a → IsCompiled w b → ⊥ }
{
    one_answer();
    one_table_fault();
}

/// The grammar for which a file stands is fit for use.
pub fn forms_are_fit()
    ensures { (w : Bytes) (f : AnyForm) → IsFormOf w f → Fit f }
{
    read_grammars_are_file_grammars();
    ts_grammar_json::grammars_have_parts_within();
    ts_normalise::normal_forms_are_fit();
}

/// What is written of the grammar for which a file stands is a language file of that grammar
/// exactly where no expression of it nests deeper than those of a language file. None of a language
/// file does.
pub fn written_forms_are_read()
    ensures again { (w : Bytes) (f : AnyForm) → IsFormOf w f
        → AreShallow f ↔ IsFormOf (spelling f) f }
    ensures language_file { (w : Bytes) (f : AnyForm) → IsLanguageFile w → IsFormOf w f
        → AreShallow f }
{
    read_grammars_are_file_grammars();
    ts_grammar_json::grammars_have_parts_within();
    ts_normalise::normal_forms_are_fit();
    ts_langfile::written_is_read();
}

/// What a file is compiled to is compiled to the same bytes, unless an expression nests deeper than
/// those of a language file. A language file of the version that is written is such bytes itself.
pub fn compiled_again()
    ensures grammar_file { (w b : Bytes) (f : AnyForm) → IsFormOf w f → AreShallow f
        → IsCompiled w b → IsCompiled b b }
    ensures language_file { (w b : Bytes) → IsLanguageFile w → IsCompiled w b → IsCompiled b b }
    ensures new_version { (w b : Bytes) → IsNewLanguageFile w → IsCompiled w b → b ≡ w }
{
    one_answer();
    written_forms_are_read();
}
