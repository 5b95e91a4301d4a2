//! The nodes of an automaton: expressions are compiled to them, and sets of them are made of them.

use ts_base::List;

/// A node of an automaton. Each names the nodes that follow it by their places.
#[derive(Debug, PartialEq, Eq, Drop)]
pub enum Node {
    /// Takes one character of these ranges, ends included, and goes on.
    Take(List<(u32, u32)>, usize),
    /// Goes on either way, and takes nothing.
    Split(usize, usize),
    /// A word ends here.
    End,
}
