//! One version of a document: a text and what it comes to.
ghost use Rattle.std.specs.Prelude.{◌≡◌, Some, option_copied};
ghost use Rattle.spec_trees.specs.declared.tree.Tree.{Tree};
ghost use Rattle.ts_docs.specs.Reuse.{IsReusable};
ghost use Rattle.ts_docs.specs.Versions.{IsFreshVersion};

use crate::reuse::Reuse;
use std::marker::Model;
use std::snapshot::Snapshot;
use ts_base::Shared;
use ts_glr::Outcome;
use ts_lexer::Content;
use ts_node::Node;
use ts_table::Table;
use ts_text::Text;

/// A version of a document, which contracts see as a `ParsedText`. Its outcome is what parsing its
/// whole text from the start comes to.
#[derive(Drop)]
pub struct VersionOf<W: Content> {
    /// Counted from 0, which is the text that the document was opened with.
    pub number: u32,
    pub text: Shared<W>,
    pub outcome: Outcome,
    pub(crate) kept: Reuse,
    /// The table by which it was parsed. It has no bytes.
    pub table: Snapshot<Table>,
}

/// A version of a text in memory.
pub type Version = VersionOf<Text>;

impl<W: Content> Model for VersionOf<W> {
    ghost use Rattle.ts_docs.specs.declared.parsed.ParsedText.{ParsedText};
    ghost use Rattle.ts_docs.specs.contracts.parsed.ParsedText as contract;
    ghost use Rattle.std.specs.Coded.{codes};

    ghost Value = { ParsedText };

    ghost coded = { Prim.hlevel (codes, contract.the_row.coded) };

    ghost use Rattle.ts_docs.specs.Versions.{parsed_text, IsFreshVersion};
    ghost use Rattle.ts_docs.specs.Reuse.{IsReusableIfAny};

    ghost view = { λ v. parsed_text v.number (W.bytes v.text) v.outcome v.table.value };

    ghost invariant = { λ v. IsFreshVersion (parsed_text v.number (W.bytes v.text) v.outcome
        v.table.value) × IsReusableIfAny v.table.value (W.bytes v.text) v.kept.marked };
}

impl<W: Content> VersionOf<W> {
    /// Its outcome is the fresh one. A call of it only tells this.
    pub fn stands(&self)
        ensures { IsFreshVersion self.now }
    {
        let _ = &self.number;
    }

    /// The number, counted from 0.
    pub fn number(&self) -> u32
        ensures { result ≡ self.now.number }
    {
        self.number
    }

    /// The text.
    pub fn text(&self) -> &W
        ensures { W.bytes result.now ≡ self.now.text }
    {
        self.text.get()
    }

    /// What the text comes to.
    pub fn outcome(&self) -> &Outcome
        ensures { result.now ≡ self.now.outcome }
    {
        &self.outcome
    }

    /// A tree whose nodes may be taken over into that of the next version: that of the outcome,
    /// or, where that is none, an older one of the document with all edits since marked in it. None
    /// where there is none, or where too much was taken out of it since.
    pub fn marked(&self) -> Option<&Node>
        ensures { (tree : Tree) → option_copied result ≡ Some tree
            → IsReusable self.now.table self.now.text tree }
    {
        self.kept.marked.as_ref()
    }

    /// What it keeps for the next version.
    pub(crate) fn kept(&self) -> &Reuse {
        &self.kept
    }
}
