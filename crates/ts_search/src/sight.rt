//! The visible tree as a search sees it: its nodes by their numbers, and the kinds of a query.
ghost use Rattle.std.specs.Prelude.{◌≡◌, ◌↔◌, ◌<◌, IsTrue, IfOk, None, Some, MatchOption, [], length, slice_get};
ghost use Rattle.spec_matches.specs.Siblings.{AreChildren, named_at, nameds};
ghost use Rattle.spec_matches.specs.Taking.{IsField, IsOfKind};
ghost use Rattle.ts_cursor.specs.Linked.{IsPast};
ghost use Rattle.ts_search.specs.Rows.{HaveParents, scene_of, seen_row};

use crate::row::Row;
use std::alloc::{AllocError, Global};
use std::marker::Model;
use ts_base::List;
use ts_cursor::Cursor;
use ts_query_syntax::QueryKind;

/// For how many children room is made at first.
const FEW: u32 = 16;

/// The kinds that a query names, and a visible tree.
#[derive(Drop)]
pub struct Sight<'q, 't, 'g> {
    kinds: &'q [QueryKind],
    tree: &'t Cursor<'g>,
}

impl<'q, 't, 'g> Model for Sight<'q, 't, 'g> {
    ghost use Rattle.spec_matches.specs.declared.scene.Scene.{Scene};
    ghost use Rattle.spec_matches.specs.contracts.scene.Scene as scene;
    ghost use Rattle.std.specs.Coded.{codes};

    ghost Value = { Scene };

    ghost coded = { Prim.hlevel (codes, scene.the_row.coded) };

    ghost use Rattle.ts_search.specs.Rows.{HaveParents, scene_of};

    ghost view = { λ a. scene_of a.kinds.now a.tree.now.nodes };

    ghost invariant = { λ a. HaveParents a.tree.now.nodes };
}

impl<'q, 't, 'g> Sight<'q, 't, 'g> {
    /// A visible tree, whatever node its cursor is on.
    pub fn new(kinds: &'q [QueryKind], tree: &'t Cursor<'g>) -> Sight<'q, 't, 'g>
        requires { HaveParents tree.now.nodes }
        ensures { result ≡ scene_of kinds.now tree.now.nodes }
    {
        Sight { kinds, tree }
    }

    /// How many nodes the tree has.
    pub(crate) fn count(&self) -> u32
        ensures count { result ≡ length self.now.nodes }
        ensures some { 0 < length self.now.nodes }
        ensures parents { HaveParents self.now.nodes }
    {
        self.tree.count()
    }

    /// The node of a number.
    pub(crate) fn row(&self, n: u32) -> Option<Row<'t>>
        ensures { MatchOption result (slice_get self.now.nodes n ≡ None)
            (λ row. slice_get self.now.nodes n ≡ Some (seen_row row)) }
    {
        if n < self.tree.count() {
            Some(row(self.tree, n))
        } else {
            None
        }
    }

    /// Whether a node is of the kind of this number.
    pub(crate) fn is_of_kind(&self, kind: u32, row: Row) -> bool
        ensures { IsTrue result ↔ IsOfKind self.now.kinds kind (seen_row row.entry) }
    {
        let kind = kind as usize;
        if kind >= self.kinds.len() {
            return false;
        }
        is_like(&self.kinds[kind], row)
    }

    /// The number after a node's descendants.
    pub(crate) fn past(&self, n: u32) -> u32
        requires { n < length self.now.nodes }
        ensures { IsPast self.now.nodes n result }
    {
        self.tree.past_at(n)
    }

    /// The numbers of a node's children.
    pub(crate) fn children(&self, alloc: Global, n: u32) -> Result<Vec<u32>, AllocError>
        requires { n < length self.now.nodes }
        ensures { IfOk result (λ children. AreChildren self.now.nodes n children.items) }
    {
        let past = self.past(n);
        let mut children = with_room(alloc, past - n - 1)?;
        let mut m = n + 1;
        while m < past {
            children.push(m)?;
            m = self.past(m);
        }
        Ok(children)
    }

    /// For each of some nodes whether it is named.
    pub(crate) fn nameds(&self, alloc: Global, siblings: &[u32]) -> Result<List<bool>, AllocError>
        ensures { IfOk result (λ all. all ≡ nameds self.now.nodes siblings.now) }
    {
        let mut all = Vec::with_capacity(alloc, siblings.len())?;
        for n in siblings {
            all.push(self.is_named(*n))?;
        }
        Ok(List::from_vec(all))
    }

    /// Whether the node of a number is named.
    pub(crate) fn is_named(&self, n: u32) -> bool
        ensures { result ≡ named_at self.now.nodes n }
    {
        match self.row(n) {
            Some(row) => row.named,
            None => false,
        }
    }
}

/// An empty list with room for the first children of a node that has so many descendants.
fn with_room(alloc: Global, descendants: u32) -> Result<Vec<u32>, AllocError>
    ensures { IfOk result (λ list. list.items ≡ []) }
{
    let list = Vec::with_capacity(alloc, descendants.min(FEW) as usize)?;
    Ok(list)
}

/// The node of a number of a visible tree.
fn row<'t, 'g>(tree: &'t Cursor<'g>, n: u32) -> Row<'t>
    requires { n < length tree.now.nodes }
    ensures { slice_get tree.now.nodes n ≡ Some (seen_row result) }
{
    Row {
        depth: tree.depth_at(n),
        name: tree.name_at(n),
        named: tree.named_at(n),
        fields: tree.fields_at(n),
        start: tree.start_at(n),
        end: tree.end_at(n),
    }
}

/// Whether a node is of a kind.
fn is_like(kind: &QueryKind, row: Row) -> bool
    ensures { IsTrue result
        ↔ (row.entry.name.now ≡ kind.now.name) × (row.entry.named ≡ kind.now.named) }
{
    row.named == kind.named && row.name == kind.name.text()
}

/// Whether a node has a field, where one is asked.
pub(crate) fn has_field(field: Option<u16>, row: Row) -> bool
    ensures { IsTrue result ↔ IsField field (seen_row row.entry) }
{
    match field {
        None => true,
        Some(field) => row.fields.contains(&field),
    }
}
