//! What a text comes to.

use ts_node::Node;

/// What a text comes to, over all ways to read it.
#[derive(Drop)]
pub enum Outcome {
    /// The best of the trees that are accepted.
    Accepted(Node),
    /// No tree is accepted, and this is the greatest place at which no token was found, in bytes.
    Stuck(u32),
    /// Some way to read the text comes to a node that is deeper than 1,000.
    Deep,
}
