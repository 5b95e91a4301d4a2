//! How rules show: the name of a rule comes in, with the supertypes, and its kind goes out.

ghost use Rattle.std.specs.Prelude.{◌↔◌, IsTrue};
ghost use Rattle.ts_rules.specs.Names.{told};
ghost use Rattle.ts_rules.specs.Tokens.{BeginsLow};
ghost use Rattle.ts_tokens.specs.Definitions.{IsRuleKind};

use indexmap::IndexSet;
use ts_core::{Kind, Str};
use ts_rules::is_among;

/// Whether a name begins with `_`.
fn begins_low(name: &Str) -> bool
    ensures { IsTrue result ↔ BeginsLow name.now }
{
    let bytes = name.text().as_bytes();
    !bytes.is_empty() && bytes[0] == b'_'
}

/// The kind of a rule: hidden where its name begins with `_` or it is a supertype, and else named.
pub fn kind_of(supertypes: &IndexSet<&Str>, name: &Str) -> Kind
    ensures { IsRuleKind (told supertypes.now.keys) name.now result }
{
    if begins_low(name) {
        return Kind::Hidden;
    }
    if is_among(supertypes, name) {
        return Kind::Hidden;
    }
    Kind::Named
}
