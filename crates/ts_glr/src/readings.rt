//! What is known while each way to read a text is followed by itself. Nothing goes in; what is
//! known before the first step comes out, and the outcome once all ways are followed.
ghost use Rattle.std.specs.Prelude.{◌≡◌, [], ◌∷◌, None, IfOk};
ghost use Rattle.ts_glr.specs.Outcomes.{EndsAs};

use crate::outcome::Outcome;
use std::alloc::{AllocError, Global};
use ts_gss::Graph;
use ts_node::Node;
use ts_steps::StackHead;

/// The ways to read a text, as far as they were followed.
#[derive(Drop)]
pub(crate) struct Readings {
    pub graph: Graph,
    /// The heads that are still to be followed.
    pub live: Vec<StackHead>,
    /// The best of the trees that were accepted.
    pub best: Option<Node>,
    /// The greatest place at which no token was found.
    pub stuck: Option<u32>,
}

/// The beginning: the empty stack alone.
pub(crate) fn readings_of(alloc: Global) -> Result<Readings, AllocError>
    ensures graph { IfOk result (λ r. r.graph ≡ [] ∷ []) }
    ensures live { IfOk result (λ r. r.live.items ≡ record { top = 0; place = 0 } ∷ []) }
    ensures best { IfOk result (λ r. r.best ≡ None) }
    ensures stuck { IfOk result (λ r. r.stuck ≡ None) }
{
    let mut live = Vec::new(alloc);
    live.push(StackHead { top: 0, place: 0 })?;
    Ok(Readings {
        graph: Graph::new(alloc),
        live,
        best: None,
        stuck: None,
    })
}

/// The outcome that the best tree and the greatest stuck place come to.
pub(crate) fn outcome(readings: &mut Readings) -> Outcome
    requires { readings.old.best ≡ None → readings.old.stuck ≡ None → ⊥ }
    ensures { EndsAs readings.old.best readings.old.stuck result }
{
    match readings.best.take() {
        Some(node) => Outcome::Accepted(node),
        None => match readings.stuck {
            Some(place) => Outcome::Stuck(place),
            None => unreachable!(),
        },
    }
}
