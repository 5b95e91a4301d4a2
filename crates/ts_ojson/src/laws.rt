//! Laws of what is read, which other crates call: they take nothing and give their clauses.

ghost use Rattle.std.specs.Prelude.{◌≡◌, ◌≢◌, List, ℕ, map};
ghost use Rattle.ts_base.specs.Bytes.{Bytes};
ghost use Rattle.ts_ojson.specs.declared.value.OJson.{OJson as AnyOJson};
ghost use Rattle.ts_ojson.specs.declared.fault.OFault.{OFault as AnyFault};
ghost use Rattle.ts_ojson.specs.Json.{Json, array, object, items_of, members_of, json_of};
ghost use Rattle.ts_ojson.specs.Text.{IsJsonText};
ghost use Rattle.ts_ojson.specs.Reads.{Reads, IsFault};

use crate::fault::OFault;
use crate::value::OJson;

/// The same bytes are a text of one value at most, and so are read as one.
pub fn one_value()
    ensures text { (j i : Json) (w : Bytes) → IsJsonText j w → IsJsonText i w → j ≡ i }
    ensures read { (v u : AnyOJson) (w : Bytes) → Reads v w → Reads u w → v ≡ u }
{}

/// What is refused is read as no value, unless memory ran out.
pub fn refused_is_not_read()
    ensures { (e : AnyFault) (v : AnyOJson) (w : Bytes) → e ≢ OFault.Memory → IsFault e w
        → Reads v w → ⊥ }
{}

/// Each refusal has a cause that no other has, and one place.
pub fn one_fault()
    ensures { (e f : AnyFault) (w : Bytes) → e ≢ OFault.Memory → f ≢ OFault.Memory → IsFault e w
        → IsFault f w → e ≡ f }
{}

/// The plain data of an array and of an object is made of that of their parts.
pub fn json_of_parts()
    ensures array { (js : List AnyOJson) → json_of (OJson.Array js)
        ≡ array (items_of (map json_of js)) }
    ensures object { (ms : List (Bytes × AnyOJson)) → json_of (OJson.Object ms)
        ≡ object (members_of (map (λ m. (m.0, json_of m.1)) ms)) }
{}
