//! Laws of the definitions, for crates above.
ghost use Rattle.std.specs.Prelude.{◌≡◌, ◌≢◌, length};
ghost use Rattle.ts_core.specs.declared.rule.Grammar.{Grammar as AnyGrammar};
ghost use Rattle.ts_base.specs.Bytes.{Bytes};
ghost use Rattle.ts_ojson.specs.Json.{Json, HasDistinctNames, json_of};
ghost use Rattle.ts_ojson.specs.Reads.{Reads};
ghost use Rattle.ts_ojson.specs.declared.value.OJson.{OJson as AnyJson};
ghost use Rattle.ts_grammar_json.specs.declared.fault.GFault.{GFault as AnyFault};
ghost use Rattle.ts_grammar_json.specs.File.{IsGrammar, IsFault};
ghost use Rattle.ts_grammar_json.specs.ShortParts.{HasPartsWithin};
ghost use Rattle.ts_grammar_json.specs.WellFormed.{IsWellFormed};

use crate::fault::GFault;

/// A value stands for one grammar at most.
pub fn one_grammar()
    ensures { (g h : AnyGrammar) (value : Json) → IsGrammar value g → IsGrammar value h → g ≡ h }
{}

/// A value has one first fault at most.
pub fn one_fault()
    ensures { (e f : AnyFault) (value : Json) → e ≢ GFault.Memory → f ≢ GFault.Memory
        → IsFault e value → IsFault f value → e ≡ f }
{}

/// What is refused stands for no grammar, unless memory ran out.
pub fn refused_is_no_grammar()
    ensures { (e : AnyFault) (g : AnyGrammar) (value : Json) → e ≢ GFault.Memory → IsFault e value
        → IsGrammar value g → ⊥ }
{}

/// A grammar that a file stands for, whose objects have no two members of one name, has a rule and
/// not too many, none without a name, no two of one name, and no CHOICE without members.
pub fn grammars_are_well_formed()
    ensures { (g : AnyGrammar) (value : Json) → HasDistinctNames value
        → IsGrammar value g → IsWellFormed g }
{}

/// No text and no list of a grammar is longer than the file that it was read from.

pub fn grammars_have_parts_within()
    ensures { (w : Bytes) (v : AnyJson) (g : AnyGrammar) → Reads v w → IsGrammar (json_of v) g
        → HasPartsWithin (length w) g }
{}
