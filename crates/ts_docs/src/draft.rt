//! A version that an edit made and that was not published yet.
ghost use Rattle.std.specs.Prelude.{◌≡◌};
ghost use Rattle.ts_docs.specs.Versions.{IsFreshVersion};

use crate::version::VersionOf;
use std::marker::Model;
use ts_base::Shared;
use ts_lexer::Content;
use ts_text::Text;

/// A version that an edit made, with the client and the step that asked for it. `prepare` alone
/// makes one. Contracts see it as a `Drafted`.
#[derive(Drop)]
pub struct DraftOf<W: Content> {
    pub(crate) client: u32,
    pub(crate) step: u32,
    pub(crate) version: Shared<VersionOf<W>>,
}

/// A draft of a text in memory.
pub type Draft = DraftOf<Text>;

impl<W: Content> Model for DraftOf<W> {
    ghost use Rattle.ts_docs.specs.declared.parsed.Drafted.{Drafted};
    ghost use Rattle.ts_docs.specs.contracts.parsed.Drafted as contract;
    ghost use Rattle.std.specs.Coded.{codes};

    ghost Value = { Drafted };

    ghost coded = { Prim.hlevel (codes, contract.the_row.coded) };

    ghost use Rattle.ts_docs.specs.Versions.{drafted};

    ghost view = { λ d. drafted d.client d.step d.version };
}

impl<W: Content> DraftOf<W> {
    /// The version.
    pub fn version(&self) -> &Shared<VersionOf<W>>
        ensures { result.now ≡ self.now.version }
    {
        &self.version
    }
}
