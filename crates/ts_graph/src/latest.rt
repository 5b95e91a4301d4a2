//! The latest end of the ways down from a head: a head, a count and a place go in, and out comes
//! the latest place, no later than that one, at which a way with so many trees ends. No way is
//! listed.
ghost use Rattle.std.specs.Prelude.{◌≡◌, ℕ, ◌<◌, ◌≤◌, ◌↔◌, length, IfOk, OnOk, IsTrue, MatchOption};
ghost use Rattle.ts_graph.specs.Ways.{EndsBy, IsLatestEnd};
ghost use Rattle.ts_graph.specs.Latest.{spot_past, past, CanGoDown, GoesDown, IsMet, Leaves, Meets};

use crate::graph::Graph;
use std::alloc::{AllocError, Global};

/// A head on a way down, and how many trees that are no extras the way still wants there.
#[derive(Clone, Copy, Drop)]
pub(crate) struct Spot {
    pub head: usize,
    pub wanting: usize,
}

/// Whether a place is later than the best one so far.
fn is_later(place: u32, best: Option<u32>) -> bool
    ensures { IsTrue result ↔ (past best ≤ place) }
{
    match best {
        Some(other) => other < place,
        None => true,
    }
}

/// A place that is `most` or earlier.
fn at_most(place: u32, most: u32) -> Option<u32>
    ensures { MatchOption result (most < place) (λ p. (p ≡ place) × (place ≤ most)) }
{
    if place > most { None } else { Some(place) }
}

impl Graph {
    /// The latest place, `most` or earlier, at which one of the ways down from a head ends, of
    /// those that `ways` lists, and none where there is none. It takes memory only where there are
    /// several ways: for heads on them.
    ///
    /// # Errors
    ///
    /// `AllocError` where memory runs out.
    pub fn latest_end(
        &self,
        alloc: Global,
        head: usize,
        count: usize,
        most: u32,
    ) -> Result<Option<u32>, AllocError>
        requires { head < length self.now.heads }
        ensures { IfOk result (λ found. MatchOption found
            ((place : ℕ) → EndsBy self.now.heads self.now.links head count most place → ⊥)
            (λ place. IsLatestEnd self.now.heads self.now.links head count most place)) }
    {
        match self.only_end(head, count) {
            Some(below) => Ok(at_most(self.head(below).place, most)),
            None => {
                let best = self.latest_of_all(alloc, head, count, most)?;
                Ok(best)
            }
        }
    }

    /// The same where there are several ways. It goes on from no head that stands no later than the
    /// best place so far.
    fn latest_of_all(
        &self,
        alloc: Global,
        head: usize,
        count: usize,
        most: u32,
    ) -> Result<Option<u32>, AllocError>
        requires { head < length self.now.heads }
        ensures { IfOk result (λ found. MatchOption found
            ((place : ℕ) → EndsBy self.now.heads self.now.links head count most place → ⊥)
            (λ place. IsLatestEnd self.now.heads self.now.links head count most place)) }
    {
        let mut spots = Vec::new(alloc);
        let first = Spot {
            head,
            wanting: count,
        };
        let mut best = self.meet(most, None, first, &mut spots)?;
        while let Some(spot) = spots.pop() {
            best = self.go_down(most, best, spot, &mut spots)?;
        }
        Ok(best)
    }

    /// Goes down over each link from the spot that was taken off. The answer is the best place.
    fn go_down(
        &self,
        most: u32,
        before: Option<u32>,
        spot: Spot,
        spots: &mut Vec<Spot>,
    ) -> Result<Option<u32>, AllocError>
        requires { CanGoDown self.now.heads spot }
        ensures best { IfOk result (λ best. Leaves self.now.heads self.now.links most
            spots.old.items spot before spots.new.items best) }
        ensures spots { OnOk result
            (GoesDown self.now.heads self.now.links spots.old.items spot spots.new.items) }
    {
        let _ = &self.rows;
        if !is_later(self.head(spot.head).place, before) {
            return Ok(before);
        }
        let mut best = before;
        let mut next = self.first_down(spot.head);
        while let Some(link) = next {
            if self.all_past(most, spot.wanting, link) {
                return Ok(best);
            }
            best = self.pass(most, best, spot.wanting, link, spots)?;
            next = self.next_down(link);
        }
        Ok(best)
    }

    /// Goes down over one link, where so many trees were wanting before it.
    fn pass(
        &self,
        most: u32,
        before: Option<u32>,
        wanting: usize,
        link: usize,
        spots: &mut Vec<Spot>,
    ) -> Result<Option<u32>, AllocError>
        requires there { link < length self.now.links }
        requires some { 0 < wanting }
        ensures best { IfOk result (λ best. Meets self.now.heads self.now.links most
            spots.old.items (spot_past self.now.links wanting link) before spots.new.items best) }
        ensures spots { OnOk result
            (IsMet spots.old.items (spot_past self.now.links wanting link) spots.new.items) }
    {
        let _ = &self.rows;
        let head = self.link(link).below;
        if !is_later(self.head(head).place, before) {
            return Ok(before);
        }
        let wanting = self.still_wanting(wanting, link);
        let best = self.meet(most, before, Spot { head, wanting }, spots)?;
        Ok(best)
    }

    /// Takes a spot into account: as an end where it wants no more, and to go on from it else.
    fn meet(
        &self,
        most: u32,
        before: Option<u32>,
        spot: Spot,
        spots: &mut Vec<Spot>,
    ) -> Result<Option<u32>, AllocError>
        requires { spot.head < length self.now.heads }
        ensures best { IfOk result (λ best. Meets self.now.heads self.now.links most
            spots.old.items spot before spots.new.items best) }
        ensures spots { OnOk result (IsMet spots.old.items spot spots.new.items) }
    {
        let _ = &self.rows;
        let place = self.head(spot.head).place;
        if !is_later(place, before) {
            return Ok(before);
        }
        if spot.wanting > 0 {
            spots.push(spot)?;
            return Ok(before);
        }
        if place > most {
            return Ok(before);
        }
        Ok(Some(place))
    }
}
