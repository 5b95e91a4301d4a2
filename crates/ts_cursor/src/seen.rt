//! The visible nodes in preorder: a node goes in at the end, and what each says of itself comes out
//! by its number.
ghost use Rattle.std.specs.Prelude.{◌≡◌, ◌∷◌, ◌++◌, ◌<◌, ◌≤◌, ◌^◌, ◌+◌, [], Some, length, take, drop, slice_get, option_map, IfOk, OnOk};
ghost use Rattle.std.specs.Option.{option_to_list};
ghost use Rattle.ts_cursor.specs.Pooled.{seen_with};

use std::alloc::{AllocError, Global};
use std::marker::Model;

/// A node that shows. Its fields stand in a pool, so many from a place on.
#[derive(Clone, Copy)]
pub(crate) struct Face<'g> {
    pub name: &'g str,
    pub first: usize,
    pub start: u32,
    pub end: u32,
    pub depth: u32,
    pub count: u16,
    pub named: bool,
}

/// The visible nodes in preorder, with the pool of their fields. Contracts see the list of them.
#[derive(Drop)]
pub(crate) struct Seen<'g> {
    faces: Vec<Face<'g>>,
    pool: Vec<u16>,
}

impl<'g> Model for Seen<'g> {
    ghost use Rattle.std.specs.Prelude.{List};
    ghost use Rattle.spec_trees.specs.declared.visible.VisibleNode.{VisibleNode};
    ghost use Rattle.spec_trees.specs.contracts.visible.VisibleNode as contract;
    ghost use Rattle.std.specs.Coded.{codes};

    ghost Value = { List VisibleNode };

    ghost coded = { Prim.hlevel (codes, contract.the_row.coded) };

    ghost use Rattle.std.specs.Prelude.{length};
    ghost use Rattle.ts_cursor.specs.Pooled.{seen_nodes, AreWithin};

    ghost view = { λ a. seen_nodes a.pool.items a.faces.items };

    ghost invariant = { λ a. AreWithin (length a.pool.items) a.faces.items };
}

impl<'g> Seen<'g> {
    /// No nodes, with room for so many.
    ///
    /// # Errors
    ///
    /// `AllocError` where memory runs out.
    pub(crate) fn with_room(alloc: Global, room: usize) -> Result<Seen<'g>, AllocError>
        ensures { IfOk result (λ nodes. nodes ≡ []) }
    {
        Ok(Seen {
            faces: Vec::with_capacity(alloc, room)?,
            pool: Vec::new(alloc),
        })
    }

    /// Puts a node at the end, with these fields, and one more where there is one.
    ///
    /// # Errors
    ///
    /// `AllocError` where memory runs out.
    pub(crate) fn add(
        &mut self,
        face: Face<'g>,
        fields: &[u16],
        more: Option<u16>,
    ) -> Result<(), AllocError>
        requires { length fields.now + 1 < 2 ^ 16 }
        ensures { OnOk result (self.new ≡ self.old
            ++ seen_with (fields.now ++ option_to_list more) face.entry ∷ []) }
    {
        let first = self.pool.len();
        let count = put_fields(&mut self.pool, fields, more)?;
        self.faces.push(Face {
            name: face.name,
            first,
            start: face.start,
            end: face.end,
            depth: face.depth,
            count,
            named: face.named,
        })?;
        Ok(())
    }

    /// How many nodes there are.
    pub(crate) fn len(&self) -> usize
        ensures { result ≡ length self.now }
    {
        self.faces.len()
    }

    /// How many nodes a node stands in.
    pub(crate) fn depth(&self, k: usize) -> u32
        requires { k < length self.now }
        ensures { option_map (λ node. node.depth) (slice_get self.now k) ≡ Some result }
    {
        self.faces[k].depth
    }

    /// The name under which a node shows.
    pub(crate) fn name(&self, k: usize) -> &str
        requires { k < length self.now }
        ensures { option_map (λ node. node.name) (slice_get self.now k) ≡ Some result.now }
    {
        self.faces[k].name
    }

    /// Whether a node shows as named.
    pub(crate) fn named(&self, k: usize) -> bool
        requires { k < length self.now }
        ensures { option_map (λ node. node.named) (slice_get self.now k) ≡ Some result }
    {
        self.faces[k].named
    }

    /// The fields of a node, by the fields' numbers.
    pub(crate) fn fields(&self, k: usize) -> &[u16]
        requires { k < length self.now }
        ensures { option_map (λ node. node.fields) (slice_get self.now k) ≡ Some result.now }
    {
        let face = &self.faces[k];
        stretch(self.pool.as_slice(), face.first, face.count)
    }

    /// The place of a node's first byte.
    pub(crate) fn start(&self, k: usize) -> u32
        requires { k < length self.now }
        ensures { option_map (λ node. node.start) (slice_get self.now k) ≡ Some result }
    {
        self.faces[k].start
    }

    /// The place after a node's last byte.
    pub(crate) fn end(&self, k: usize) -> u32
        requires { k < length self.now }
        ensures { option_map (λ node. node.end) (slice_get self.now k) ≡ Some result }
    {
        self.faces[k].end
    }
}

/// So many fields of a pool from a place on.
fn stretch(pool: &[u16], first: usize, count: u16) -> &[u16]
    requires { first + count ≤ length pool.now }
    ensures { result.now ≡ take count (drop first pool.now) }
{
    let (_, rest) = pool.split_at(first);
    let (own, _) = rest.split_at(count as usize);
    own
}

/// Puts fields at the end of a pool, and one more where there is one. The answer is how many.
fn put_fields(pool: &mut Vec<u16>, fields: &[u16], more: Option<u16>) -> Result<u16, AllocError>
    requires { length fields.now + 1 < 2 ^ 16 }
    ensures pool { OnOk result (pool.new.items
        ≡ pool.old.items ++ (fields.now ++ option_to_list more)) }
    ensures count { IfOk result (λ count.
        count ≡ length (fields.now ++ option_to_list more)) }
    ensures grows { length pool.old.items ≤ length pool.new.items }
{
    if !fields.is_empty() {
        pool.extend_from_slice(fields)?;
    }
    match more {
        Some(field) => {
            pool.push(field)?;
            Ok(fields.len() as u16 + 1)
        }
        None => Ok(fields.len() as u16),
    }
}
