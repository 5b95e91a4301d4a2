//! The ways to read a text on the graph of stacks: the stack from which they go on goes in, and the
//! graph is followed over one place after another, with what ends there.
ghost use Rattle.std.specs.Prelude.{List, length, IfOk, OnOk};
ghost use Rattle.ts_base.specs.Bytes.{Bytes};
ghost use Rattle.ts_table.specs.declared.view.ParseTable.{ParseTable};
ghost use Rattle.ts_gss.specs.declared.layer.Layer.{Layer};
ghost use Rattle.ts_gss.specs.Stacks.{IsOneStack};
ghost use Rattle.ts_steps.specs.declared.head.StackHead.{StackHead as AnyHead};
ghost use Rattle.ts_steps.specs.Heads.{IsOwnHead};
ghost use Rattle.ts_reductions.specs.declared.setting.Setting.{Setting as AnySetting};
ghost use Rattle.ts_reductions.specs.Lines.{IsSetting};
ghost use Rattle.ts_crossing.specs.Entering.{CanEnter};
ghost use Rattle.ts_glr.specs.Spreading.{IsOfSomeFrom, IsSpread, PassesTo};

use crate::laws::left_laws_hold;
use std::alloc::{AllocError, Global};
use ts_crossing::enter;
use ts_graph::Graph;
use ts_gss::Graph as Stacks;
use ts_lexer::Tokens;
use ts_places::{Ends, Frontier, Next, Sights, ends_begin, ends_stay, follow_place, see_ends};
use ts_reductions::Setting;
use ts_steps::StackHead;
use ts_table::{Table, unit_ranks};

/// All ways to read a text from a stack on, as far as they were followed.
#[derive(Drop)]
pub(crate) struct Spread {
    pub graph: Graph,
    /// The heads that are still to be followed.
    pub frontier: Frontier,
    pub ends: Ends,
    /// What is seen at the last place.
    pub sights: Sights,
    /// The links of a way down that was asked for.
    pub numbers: Vec<usize>,
    /// All that is asked for before this place was done.
    pub place: u32,
}

/// What following them over a place came to.
#[derive(Clone, Copy)]
pub(crate) enum Passed {
    On,
    Over,
    /// A node would be too deep.
    Deep,
}

impl Spread {
    /// Nothing to read. It takes no memory.
    pub(crate) fn new(alloc: Global) -> Spread {
        Spread {
            graph: Graph::new(alloc),
            frontier: Frontier::new(alloc),
            ends: Ends::new(alloc),
            sights: Sights::new(alloc),
            numbers: Vec::new(alloc),
            place: 0,
        }
    }

    /// Begins anew: with the stack of the head alone.
    pub(crate) fn begin(&mut self, stacks: Stacks, start: StackHead) -> Result<(), AllocError>
        requires can { (t : ParseTable) × (text : Bytes) × CanEnter t text stacks start }
        requires one { IsOneStack stacks start.top }
        ensures { OnOk result ((t : ParseTable) (text : Bytes) (s : AnySetting)
            → CanEnter t text stacks start → IsOwnHead t (length text) stacks start
            → IsOfSomeFrom t text stacks start → IsSetting t (length text) s
            → IsSpread t text s stacks start self.new) }
    {
        left_laws_hold();
        unit_ranks();
        ends_begin();
        self.place = enter(stacks, start, &mut self.graph);
        self.frontier.begin(&self.graph)?;
        self.ends.accepting.clear();
        self.ends.stuck = None;
        Ok(())
    }

    /// Follows all ways over one place.
    pub(crate) fn pass<L: Tokens>(
        &mut self,
        alloc: Global,
        table: &Table,
        setting: &Setting,
        lexer: &mut L,
        text: &L::Text,
    ) -> Result<Passed, AllocError>
        requires made { L.made_for lexer.old table.now }
        requires ready { (first : List (List Layer)) × (h : AnyHead)
            × IsSpread table.now (L.Text.bytes text.now) setting.now first h self.old }
        ensures made { L.made_for lexer.new table.now }
        ensures passes { IfOk result (λ passed. (first : List (List Layer)) (h : AnyHead)
            → IsSpread table.now (L.Text.bytes text.now) setting.now first h self.old
            → PassesTo table.now (L.Text.bytes text.now) setting.now first h self.old self.new
            passed) }
    {
        ends_stay();
        let next = follow_place(
            alloc,
            table,
            setting,
            lexer,
            text,
            &mut self.graph,
            &mut self.frontier,
            self.place,
            &mut self.sights,
        )?;
        match next {
            Next::TooDeep => Ok(Passed::Deep),
            Next::Nowhere => {
                see_ends(table, &self.graph, &self.sights, &mut self.ends)?;
                Ok(Passed::Over)
            }
            Next::Place(place) => {
                see_ends(table, &self.graph, &self.sights, &mut self.ends)?;
                self.place = place;
                Ok(Passed::On)
            }
        }
    }
}
