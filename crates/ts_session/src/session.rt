//! A session: a script whose grammar has a parse table, whose queries were read, and whose
//! documents have their first texts.
ghost use Rattle.std.specs.Prelude.{◌≡◌, ◌<◌, ◌^◌, All, length};
ghost use Rattle.ts_query_syntax.specs.declared.read_query.ReadQuery.{ReadQuery as AnyQuery};
ghost use Rattle.ts_session.specs.Sessions.{IsSomeScript};

use ts_base::List;
use ts_query_syntax::ReadQuery;
use ts_script::Plan;
use ts_table::Table;
use ts_text::Text;

/// A script that can be run.
#[derive(Drop)]
pub struct Session {
    /// The parse table of the grammar.
    pub table: Table,
    /// What the script asks for.
    pub plan: Plan,
    /// The queries of the script, in their order.
    pub queries: List<ReadQuery>,
    /// The first text of each document, in their order.
    pub texts: Vec<Text>,
    ghost script: { IsSomeScript plan },
    ghost few: { All (λ (query : AnyQuery). length query.patterns < 2 ^ 32) queries },
    ghost count: { length queries ≡ length plan.queries },
    ghost opened: { length texts.items ≡ length plan.documents },
}

impl Session {
    ghost use Rattle.ts_replay.specs.Replays.{MayReplay};

    /// What is known of a session. A call of it only tells this.
    #[tactic(auto, using(crate::proofs::ScriptLemmas::may_replay))]
    pub fn stands(&self)
        ensures may { MayReplay self.now.plan }
        ensures few { All (λ (query : AnyQuery). length query.patterns < 2 ^ 32)
            self.now.queries }
        ensures count { length self.now.queries ≡ length self.now.plan.queries }
        ensures opened { length self.now.texts.items ≡ length self.now.plan.documents }
    {
        ts_replay::scripts_may_be_replayed();
        let _ = &self.plan;
    }
}
