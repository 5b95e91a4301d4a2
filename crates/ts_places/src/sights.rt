//! What is seen at the heads of a place.
ghost use Rattle.std.specs.Prelude.{ℕ, []};
ghost use Rattle.ts_base.specs.Bytes.{Bytes};
ghost use Rattle.ts_graph.specs.declared.view.GraphView.{GraphView};
ghost use Rattle.ts_table.specs.declared.view.ParseTable.{ParseTable};
ghost use Rattle.ts_places.specs.Looking.{AreSights};

use std::alloc::Global;
use ts_reductions::Top;

/// How many bytes a token has: its pad, and its own.
#[derive(Clone, Copy, Debug, PartialEq, Eq)]
pub struct Span {
    pub pad: u32,
    pub size: u32,
}

/// What heads at one place see.
#[derive(Drop)]
pub struct Sights {
    /// The heads that see a token, each with it.
    pub tops: Vec<Top>,
    /// The bytes of the tokens, in the same order.
    pub spans: Vec<Span>,
    /// The greatest place at which a head stops that sees no token.
    pub stop: Option<u32>,
}

impl Sights {
    /// Takes out all that was seen. The memory stays.
    pub fn clear(&mut self)
        ensures { (t : ParseTable) (text : Bytes) (g : GraphView) (look : ℕ)
            → AreSights t text g look [] self.new }
    {
        self.tops.clear();
        self.spans.clear();
        self.stop = None;
    }

    /// What no head sees. It takes no memory.
    pub fn new(alloc: Global) -> Sights
        ensures { (t : ParseTable) (text : Bytes) (g : GraphView) (look : ℕ)
            → AreSights t text g look [] result }
    {
        let tops = Vec::new(alloc);
        let spans = Vec::new(alloc);
        Sights {
            tops,
            spans,
            stop: None,
        }
    }
}
