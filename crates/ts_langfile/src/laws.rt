//! Laws of language files, which other crates call: they take nothing and give their clauses.

ghost use Rattle.std.specs.Prelude.{◌≡◌, ◌≢◌, ◌⊎◌, []};
ghost use Rattle.spec_tables.specs.Fit.{Fit};
ghost use Rattle.ts_base.specs.Bytes.{Bytes};
ghost use Rattle.ts_core.specs.declared.flat.FlatGrammar.{FlatGrammar as AnyGrammar};
ghost use Rattle.ts_langfile.specs.declared.fault.LangFault.{LangFault as AnyFault};
ghost use Rattle.ts_langfile.specs.Faults.{IsFault};
ghost use Rattle.ts_langfile.specs.Right.{Right, Reads};
ghost use Rattle.ts_langfile.specs.Spelling.{spelling, file, old_version, new_version};

use crate::fault::LangFault;

/// The same bytes are the file of one grammar at most.
pub fn one_grammar()
    ensures { (f g : AnyGrammar) (w : Bytes) → Reads f w → Reads g w → f ≡ g }
{}

/// What is written of a grammar whose fields are right is its file.
#[tactic(auto, using(crate::proofs::VerdictLemmas::read_again))]
pub fn written_is_read()
    ensures { (f : AnyGrammar) → Right new_version f → Reads f (spelling f) }
{}

/// A file that is read is the one that is written of its grammar, or one of the old version, whose
/// grammar has no supertypes.
#[tactic(auto, using(crate::proofs::VerdictLemmas::two_spellings))]
pub fn read_is_written()
    ensures { (f : AnyGrammar) (w : Bytes) → Reads f w
        → (w ≡ spelling f) ⊎ ((w ≡ file old_version f) × (f.supertypes ≡ [])) }
{}

/// What is refused is the file of no fit grammar, unless memory ran out.
pub fn refused_is_not_read()
    ensures { (e : AnyFault) (f : AnyGrammar) (w : Bytes) → e ≢ LangFault.Memory → IsFault e w
        → Reads f w → Fit f → ⊥ }
{}

/// Each refusal has a cause that no other has, and one place.
pub fn one_fault()
    ensures { (e d : AnyFault) (w : Bytes) → e ≢ LangFault.Memory → d ≢ LangFault.Memory
        → IsFault e w → IsFault d w → e ≡ d }
{}
