//! The journal of a document: the version that it was opened with, and each edit that was accepted.
ghost use Rattle.std.specs.Prelude.{◌≡◌, [], map, IfOk};
ghost use Rattle.ts_docs.specs.Versions.{IsFreshVersion};

use crate::draft::Draft;
use crate::version::Version;
use std::alloc::{AllocError, Global};
use std::marker::Model;
use ts_base::Shared;
use ts_shelf::Journal;

/// An edit that was accepted, and the version that it made.
#[derive(Drop)]
pub struct Accepted {
    pub turn: u64,
    pub client: u32,
    /// Counted from 0 among the client's own steps.
    pub step: u32,
    pub version: Shared<Version>,
}

/// The journal of a document, which contracts see as `Pages`.
#[derive(Drop)]
pub struct Book {
    opening: Shared<Version>,
    accepted: Vec<Accepted>,
    room: u32,
}

impl Model for Book {
    ghost use Rattle.std.specs.Prelude.{◌+◌, ◌<◌, ◌≤◌, ◌^◌, map, vec_len, vec_capacity};
    ghost use Rattle.std.specs.Coded.{codes};
    ghost use Rattle.ts_docs.specs.declared.parsed.Pages.{Pages};
    ghost use Rattle.ts_docs.specs.contracts.parsed.Pages as contract;

    ghost Value = { Pages };

    ghost coded = { Prim.hlevel (codes, contract.the_row.coded) };

    ghost use Rattle.ts_docs.specs.Books.{pages, as_entry, AreVersions};

    ghost view = { λ b. pages b.opening (map as_entry b.accepted.items) b.room };

    ghost invariant = { λ b. (vec_len b.accepted + b.room ≤ vec_capacity b.accepted)
        × (vec_len b.accepted + b.room < 2 ^ 32)
        × AreVersions (pages b.opening (map as_entry b.accepted.items) b.room) };
}

impl Book {
    ghost use Rattle.ts_docs.specs.Books.{pages, as_entry, AreVersions};

    /// A journal without entries, with room for so many.
    ///
    /// # Errors
    ///
    /// `AllocError` where there is no memory for that room.
    pub fn new(alloc: Global, opening: Version, room: u32) -> Result<Book, AllocError>
        ensures { IfOk result (λ book. book ≡ pages opening [] room) }
    {
        opening.stands();
        Ok(Book {
            opening: Shared::new(alloc, opening)?,
            accepted: Vec::with_capacity(alloc, room as usize)?,
            room,
        })
    }

    /// What holds of its versions. A call of it only tells this.
    pub fn stands(&self)
        ensures { AreVersions self.now }
    {
        let _ = &self.room;
    }

    /// The version that the document was opened with.
    pub fn opening(&self) -> &Shared<Version>
        ensures { result.now ≡ self.now.opening }
    {
        &self.opening
    }

    /// The edits that were accepted, in their order.
    pub fn entries(&self) -> &[Accepted]
        ensures { map as_entry result.now ≡ self.now.entries }
    {
        self.accepted.as_slice()
    }
}

impl Journal for Book {
    ghost use Rattle.ts_docs.specs.Versions.{IsOfTable};

    type Item = Draft;

    type Shown = Shared<Version>;

    ghost entries = { λ book. book.entries };

    ghost room = { λ book. book.room };

    ghost opening = { λ book. book.opening };

    ghost shown_of = { λ draft. draft.version };

    ghost fits = { IsOfTable };

    fn number(&self) -> u32 {
        self.accepted.len() as u32
    }

    fn room(&self) -> u32 {
        self.room
    }

    fn shown(&self) -> Result<Shared<Version>, AllocError> {
        match self.accepted.as_slice().last() {
            Some(last) => last.version.try_clone(),
            None => self.opening.try_clone(),
        }
    }

    fn add(&mut self, turn: u64, item: Draft) {
        let Draft {
            client,
            step,
            version,
        } = item;
        version.get().stands();
        let accepted = Accepted {
            turn,
            client,
            step,
            version,
        };
        self.room -= 1;
        if self.accepted.push(accepted).is_err() {
            unreachable!();
        }
    }
}
