//! The values that reading gives: lists in the order of the file, numbers as they are spelled.

use ts_base::{List, Str};

/// A text, or the spelling of a number.
pub type OText = Str;

/// The items of an array, in order.
pub type OItems = List<OJson>;

/// The members of an object in the order of the file, each a name and a value.
pub type OMembers = List<(OText, OJson)>;

/// A JSON value (RFC 8259, section 3). A number keeps its spelling, a text has its escapes read.
#[derive(Debug, PartialEq, Eq, Drop)]
pub enum OJson {
    Null,
    Bool(bool),
    Num(OText),
    Text(OText),
    Array(OItems),
    Object(OMembers),
}
