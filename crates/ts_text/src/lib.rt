//! Texts of at most 1 MiB of UTF-8, edits of them, and the rows and columns of their places.
//!
//! A place is a count of bytes from the text's start, and lies between two bytes or at an end.
#![tactic(auto)]

mod edit;
mod laws;
mod piece;
mod point;
mod rest;
mod slice;
mod sliced;
#[cfg(test)]
mod tests;
mod text;
mod writer;
mod writing;

pub use edit::{Edit, EditFault, Part, apply};
pub use laws::{breaks_once, edited_is_text};
pub use point::PointWalk;
pub use rest::Rest;
pub use slice::Slice;
pub use text::{MOST_BYTES, Text, TextFault};
