//! Rule trees with numbers in place of names, and the alternatives that come of them.

use ts_core::{Assoc, Boxed, List, Prec};

/// A rule tree by numbers. A step is a token, a rule or a repetition; a REPEAT or REPEAT1 is a
/// choice of its repetition and nothing.
#[derive(Debug, PartialEq, Eq, Drop)]
pub enum Tree {
    Blank,
    Step(u16),
    Seq(List<Tree>),
    Choice(List<Tree>),
    /// By the field's place in the list of field names.
    Field(u16, Boxed<Tree>),
    /// By the alias's place in the list of aliases.
    Alias(usize, Boxed<Tree>),
    /// A PREC has no associativity, a PREC_LEFT and a PREC_RIGHT has one.
    Group(Prec, Assoc, Boxed<Tree>),
    Dynamic(i32, Boxed<Tree>),
}

/// What stands round a place in a rule tree, the innermost of each kind.
#[derive(Clone, Copy, Debug, PartialEq, Eq)]
pub struct Around {
    pub prec: Prec,
    pub assoc: Assoc,
    pub alias: Option<usize>,
    pub field: Option<u16>,
    /// The dynamic value of greatest magnitude round the place, the outermost on a tie.
    pub dynamic: i32,
    /// Whether the place is at its production's end.
    pub at_end: bool,
}

/// One step with its marks, by numbers.
#[derive(Clone, Copy, Debug, PartialEq, Eq)]
pub struct NumberedStep {
    pub symbol: u16,
    pub prec: Prec,
    pub assoc: Assoc,
    pub alias: Option<usize>,
    pub field: Option<u16>,
}

/// One step list of a rule tree, with its dynamic value.
#[derive(Debug, PartialEq, Eq, Drop)]
pub struct Alternative {
    pub dynamic: i32,
    pub steps: List<NumberedStep>,
}
