//! Ways down from a head: a head and a count go in, and out come all ways down from it with so many
//! trees that are no extras, the lowest tree being one of them, or those that end at a place alone.
ghost use Rattle.std.specs.Prelude.{◌≡◌, ℕ, ◌<◌, ◌++◌, [], List as AnyList, All, length, false, IfSome, IfOk, OnOk, IsTrue};
ghost use Rattle.ts_graph.specs.Ways.{IsOnlyWay, ListsWays, ListsWaysTo};
ghost use Rattle.ts_graph.specs.Bounds.{NoneLeads};
ghost use Rattle.ts_graph.specs.Parts.{way_of, part_of, below_at, wanting_past, next_of, nexts_of, all_nexts, done_of, undone_of, done_to, undone_to, all_done, all_undone, leads, CanGoOn, ListsWaysIn};

use crate::graph::Graph;
use std::alloc::{AllocError, Global};
use ts_base::List;

/// A way down: the numbers of its links, the topmost first, and the head where it ends.
#[derive(Drop)]
pub struct Way {
    pub links: List<usize>,
    pub below: usize,
}

/// A way, and how many trees that are no extras it still wants.
#[derive(Drop)]
pub(crate) struct Part {
    pub way: Way,
    pub wanting: usize,
}

/// Puts a way with those that are done, where it wants no more, and with the others else.
fn sort_out(part: Part, undone: &mut Vec<Part>, done: &mut Vec<Way>) -> Result<(), AllocError>
    ensures undone { OnOk result (undone.new.items ≡ undone.old.items ++ undone_of part) }
    ensures done { OnOk result (done.new.items ≡ done.old.items ++ done_of part) }
{
    let Part { way, wanting } = part;
    if wanting == 0 {
        done.push(way)?;
    } else {
        undone.push(Part { way, wanting })?;
    }
    Ok(())
}

/// The way of no link, which ends where it begins.
fn no_way(alloc: Global, head: usize, wanting: usize) -> Part
    ensures { result ≡ part_of (way_of [] head) wanting }
{
    Part {
        way: Way {
            links: List::new(alloc),
            below: head,
        },
        wanting,
    }
}

impl Graph {
    /// The head where the only way down ends that has so many trees which are no extras, the lowest
    /// being one, and the numbers of its links, the topmost first. None where several links lead
    /// down from a head on the way, or none does.
    ///
    /// # Errors
    ///
    /// `AllocError` where memory runs out.
    pub fn only_way(
        &self,
        head: usize,
        count: usize,
        numbers: &mut Vec<usize>,
    ) -> Result<Option<usize>, AllocError>
        requires { head < length self.now.heads }
        ensures only { IfOk result (λ found. IfSome found (λ below.
            IsOnlyWay self.now.links head count numbers.new.items below)) }
        ensures there { IfOk result
            (λ found. IfSome found (λ below. below < length self.now.heads)) }
    {
        let _ = &self.rows;
        numbers.clear();
        let mut at = head;
        let mut wanting = count;
        while wanting > 0 {
            let Some(link) = self.only_down(at) else {
                return Ok(None);
            };
            numbers.push(link)?;
            wanting = self.still_wanting(wanting, link);
            at = self.link(link).below;
        }
        Ok(Some(at))
    }

    /// The head where that way ends.
    pub(crate) fn only_end(&self, head: usize, count: usize) -> Option<usize>
        requires { head < length self.now.heads }
        ensures only { IfSome result (λ below. (numbers : AnyList ℕ)
            × IsOnlyWay self.now.links head count numbers below) }
        ensures there { IfSome result (λ below. below < length self.now.heads) }
    {
        let _ = &self.rows;
        let mut at = head;
        let mut wanting = count;
        while wanting > 0 {
            let Some(link) = self.only_down(at) else {
                return None;
            };
            wanting = self.still_wanting(wanting, link);
            at = self.link(link).below;
        }
        Some(at)
    }

    /// All ways down from a head with so many trees that are no extras, of which the lowest is one.
    /// Extras before and between them are links of the way too. Each way is listed once.
    ///
    /// # Errors
    ///
    /// `AllocError` where memory runs out.
    pub fn ways(&self, alloc: Global, head: usize, count: usize) -> Result<Vec<Way>, AllocError>
        requires { head < length self.now.heads }
        ensures { IfOk result (λ ways. ListsWays self.now.links head count ways.items) }
    {
        let ways = self.ways_in(alloc, head, count, None)?;
        Ok(ways)
    }

    /// Those of the same ways that end at a head of a place. A way that cannot lead there takes no
    /// memory.
    ///
    /// # Errors
    ///
    /// `AllocError` where memory runs out.
    pub fn ways_to(
        &self,
        alloc: Global,
        head: usize,
        count: usize,
        place: u32,
    ) -> Result<Vec<Way>, AllocError>
        requires { head < length self.now.heads }
        ensures { IfOk result
            (λ ways. ListsWaysTo self.now.heads self.now.links head count place ways.items) }
    {
        let ways = self.ways_in(alloc, head, count, Some(place))?;
        Ok(ways)
    }

    /// The ways down to a place, or all of them where none is given.
    fn ways_in(
        &self,
        alloc: Global,
        head: usize,
        count: usize,
        place: Option<u32>,
    ) -> Result<Vec<Way>, AllocError>
        requires { head < length self.now.heads }
        ensures { IfOk result
            (λ ways. ListsWaysIn self.now.heads self.now.links head count place ways.items) }
    {
        let _ = &self.rows;
        let mut done = Vec::new(alloc);
        let mut undone = Vec::new(alloc);
        self.take_in(place, no_way(alloc, head, count), &mut undone, &mut done)?;
        while !undone.is_empty() {
            undone = self.lengthened(alloc, place, undone.as_slice(), &mut done)?;
        }
        Ok(done)
    }

    /// All ways that are one link longer than these and may lead to the place. Those that are done
    /// are put with the others.
    fn lengthened(
        &self,
        alloc: Global,
        place: Option<u32>,
        parts: &[Part],
        done: &mut Vec<Way>,
    ) -> Result<Vec<Part>, AllocError>
        requires { All (CanGoOn self.now.heads) parts.now }
        ensures undone { IfOk result (λ new. new.items
            ≡ all_undone self.now.heads place (all_nexts self.now.links parts.now)) }
        ensures done { OnOk result (done.new.items ≡ done.old.items
            ++ all_done self.now.heads place (all_nexts self.now.links parts.now)) }
    {
        let mut undone = Vec::new(alloc);
        for part in parts {
            self.lengthen(alloc, place, part, &mut undone, done)?;
        }
        Ok(undone)
    }

    /// The same for one of them.
    fn lengthen(
        &self,
        alloc: Global,
        place: Option<u32>,
        part: &Part,
        undone: &mut Vec<Part>,
        done: &mut Vec<Way>,
    ) -> Result<(), AllocError>
        requires { CanGoOn self.now.heads part.now }
        ensures undone { OnOk result (undone.new.items ≡ undone.old.items
            ++ all_undone self.now.heads place (nexts_of self.now.links part.now)) }
        ensures done { OnOk result (done.new.items ≡ done.old.items
            ++ all_done self.now.heads place (nexts_of self.now.links part.now)) }
    {
        let mut next = self.first_down(part.way.below);
        while let Some(link) = next {
            if self.none_leads(place, part.wanting, link) {
                return Ok(());
            }
            self.take_on(alloc, place, part, link, undone, done)?;
            next = self.next_down(link);
        }
        Ok(())
    }

    /// Whether no link from this one on, down from the same head, leads to the place.
    fn none_leads(&self, place: Option<u32>, wanting: usize, link: usize) -> bool
        requires { link < length self.now.links }
        ensures { IsTrue result → NoneLeads self.now.heads self.now.links place wanting link }
    {
        match place {
            Some(end) => self.all_past(end, wanting, link),
            None => false,
        }
    }

    /// The same with one link at its end. The way is made longer only where it may lead to the
    /// place.
    fn take_on(
        &self,
        alloc: Global,
        place: Option<u32>,
        part: &Part,
        link: usize,
        undone: &mut Vec<Part>,
        done: &mut Vec<Way>,
    ) -> Result<(), AllocError>
        requires there { link < length self.now.links }
        requires some { 0 < part.now.wanting }
        ensures undone { OnOk result (undone.new.items ≡ undone.old.items
            ++ undone_to self.now.heads place (next_of self.now.links part.now link)) }
        ensures done { OnOk result (done.new.items ≡ done.old.items
            ++ done_to self.now.heads place (next_of self.now.links part.now link)) }
    {
        if self.leads_over(place, part.wanting, link) {
            let longer = self.longer(alloc, part, link)?;
            sort_out(longer, undone, done)?;
        }
        Ok(())
    }

    /// Sorts out a way where it may lead to the place.
    fn take_in(
        &self,
        place: Option<u32>,
        part: Part,
        undone: &mut Vec<Part>,
        done: &mut Vec<Way>,
    ) -> Result<(), AllocError>
        requires { part.way.below < length self.now.heads }
        ensures undone { OnOk result
            (undone.new.items ≡ undone.old.items ++ undone_to self.now.heads place part) }
        ensures done { OnOk result
            (done.new.items ≡ done.old.items ++ done_to self.now.heads place part) }
    {
        if self.may_lead(place, part.way.below, part.wanting) {
            sort_out(part, undone, done)?;
        }
        Ok(())
    }

    /// Whether a way that wants so many trees may lead to the place from a head: it ends there, or
    /// goes down from above it.
    fn may_lead(&self, place: Option<u32>, head: usize, wanting: usize) -> bool
        requires { head < length self.now.heads }
        ensures { result ≡ leads self.now.heads place head wanting }
    {
        let Some(end) = place else {
            return true;
        };
        let at = self.head(head).place;
        if wanting == 0 { at == end } else { end < at }
    }

    /// The same behind a link, where so many were wanting before it. A link that leads below the
    /// place is passed over by its head alone.
    fn leads_over(&self, place: Option<u32>, wanting: usize, link: usize) -> bool
        requires there { link < length self.now.links }
        requires some { 0 < wanting }
        ensures { result ≡ leads self.now.heads place (below_at self.now.links link)
            (wanting_past self.now.links wanting link) }
    {
        let _ = &self.rows;
        let below = self.link(link).below;
        if self.stands_below(place, below) {
            return false;
        }
        self.may_lead(place, below, self.still_wanting(wanting, link))
    }

    /// Whether a head stands below the place.
    fn stands_below(&self, place: Option<u32>, head: usize) -> bool
        requires { head < length self.now.heads }
        ensures { IsTrue result
            → (wanting : ℕ) → leads self.now.heads place head wanting ≡ false }
    {
        match place {
            Some(end) => self.head(head).place < end,
            None => false,
        }
    }

    /// A way with one more link at its end.
    fn longer(&self, alloc: Global, part: &Part, link: usize) -> Result<Part, AllocError>
        requires there { link < length self.now.links }
        requires some { 0 < part.now.wanting }
        ensures { IfOk result (λ new. new ≡ next_of self.now.links part.now link) }
    {
        let before = part.way.links.as_slice();
        let mut links = Vec::with_capacity(alloc, before.len() + 1)?;
        links.extend_from_slice(before)?;
        links.push(link)?;
        let way = Way {
            links: List::from_vec(links),
            below: self.link(link).below,
        };
        let wanting = self.still_wanting(part.wanting, link);
        Ok(Part { way, wanting })
    }

    /// How many trees that are no extras are wanting after a link.
    pub(crate) fn still_wanting(&self, wanting: usize, link: usize) -> usize
        requires there { link < length self.now.links }
        requires some { 0 < wanting }
        ensures { result ≡ wanting_past self.now.links wanting link }
    {
        if self.node(link).extra() {
            wanting
        } else {
            wanting - 1
        }
    }
}
