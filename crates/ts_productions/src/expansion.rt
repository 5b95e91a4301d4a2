//! Alternatives of inlined rules whose own inlined steps are replaced.

use ts_core::List;
use ts_rules::NumberedStep;

/// An alternative without inlined steps.
#[derive(Debug, Drop)]
pub(crate) struct Expansion {
    pub(crate) dynamic: i32,
    pub(crate) steps: List<NumberedStep>,
    /// The step after these, where it comes of the alternative's last step. It takes the precedence
    /// and associativity of what the alternative replaces.
    pub(crate) last: Option<NumberedStep>,
}
