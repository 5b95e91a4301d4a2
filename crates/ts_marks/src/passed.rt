//! How far the parts of an edit have been gone through: places that do not fall go in, and where
//! they go and what is met there come out.
ghost use Rattle.std.specs.Prelude.{◌≡◌, ◌↔◌, ◌≤◌, IsTrue};
ghost use Rattle.std.proofs.Props.{props};
ghost use Rattle.spec_trees.specs.Made.{most_span};
ghost use Rattle.spec_reuse.specs.Changes.{is_met, moved};
ghost use Rattle.ts_marks.specs.Parts.{AreOrdered, AreOrdered-prop, IsPassed};

use ts_text::Edit;

/// An edit whose first parts have been passed.
#[derive(Clone, Copy)]
pub(crate) struct Passed<'e> {
    pub edit: &'e Edit,
    /// The number of the first part that is left.
    pub next: usize,
    /// Where the last part that was passed ends in the old text.
    pub from: u32,
    /// Where that is in the new text.
    pub to: u32,
    ghost passed: { IsPassed edit.now next from to } by { Prim.hlevel (props, AreOrdered-prop) },
}

impl<'e> Passed<'e> {
    ghost use Rattle.ts_marks.specs.Passing.{HasNext, IsNextOf, BeginsBy, EndsBy, left_of, next_start_of};

    /// No part is passed.
    pub(crate) fn start(edit: &'e Edit) -> Passed<'e>
        requires { AreOrdered 0 edit.now.parts }
        ensures edit { result.edit.now ≡ edit.now }
        ensures from { result.from ≡ 0 }
    {
        Passed {
            edit,
            next: 0,
            from: 0,
            to: 0,
        }
    }

    /// Whether a part is left that begins at a place or before it.
    fn begins_by(&self, place: u32) -> bool
        ensures { IsTrue result ↔ BeginsBy (left_of self.now) place }
    {
        let parts = self.edit.parts.as_slice();
        self.next < parts.len() && parts[self.next].start <= place
    }

    /// Whether a part is left, and the first one ends at a place or before it.
    fn ends_by(&self, place: u32) -> bool
        ensures { IsTrue result ↔ EndsBy (left_of self.now) place }
    {
        let parts = self.edit.parts.as_slice();
        self.next < parts.len() && parts[self.next].end <= place
    }

    /// One part more is passed.
    fn with_next(self) -> Passed<'e>
        requires { HasNext self }
        ensures { IsNextOf self.entry result }
    {
        let part = &self.edit.parts.as_slice()[self.next];
        Passed {
            edit: self.edit,
            next: self.next + 1,
            from: part.end,
            to: self.to + ((part.start - self.from) + part.new.len()),
        }
    }

    /// Passes all parts that end at a place or before it.
    #[tactic(auto, using(crate::proofs::PassedLemmas::fewer_left))]
    pub(crate) fn up_to(self, place: u32) -> Passed<'e>
        requires from { self.from ≤ place }
        requires short { moved self.edit.now place ≤ most_span }
        ensures edit { result.edit.now ≡ self.entry.edit.now }
        ensures from { result.from ≤ place }
        ensures behind { EndsBy (left_of result) place → ⊥ }
    {
        let mut passed = self;
        while passed.ends_by(place) {
            passed = passed.with_next();
        }
        passed
    }

    /// Where a place of the old text is in the new one.
    #[tactic(auto, using(crate::proofs::PassedLemmas::towards_end, crate::proofs::PassedLemmas::towards, crate::proofs::PassedLemmas::fewer_left))]
    pub(crate) fn moved(self, place: u32) -> u32
        requires from { self.from ≤ place }
        requires short { moved self.edit.now place ≤ most_span }
        ensures { result ≡ moved self.entry.edit.now place }
    {
        let mut passed = self;
        while passed.begins_by(place) {
            passed = passed.with_next();
        }
        passed.to + place.saturating_sub(passed.from)
    }

    /// Where the first part that is left begins, so that no part meets what ends there or before
    /// it. The greatest number where none is left.
    #[tactic(auto, using(crate::proofs::PassedLemmas::next_start_is, crate::proofs::PassedLemmas::no_next_start))]
    pub(crate) fn next_start(&self) -> u32
        ensures { result ≡ next_start_of (left_of self.now) }
    {
        let parts = self.edit.parts.as_slice();
        if self.next < parts.len() {
            parts[self.next].start
        } else {
            u32::MAX
        }
    }

    /// Whether a part of the edit meets so many bytes from a place on, where the first part that is
    /// left ends behind that place.
    pub(crate) fn meets(self, place: u32, extent: u32) -> bool
        requires from { self.from ≤ place }
        requires behind { EndsBy (left_of self) place → ⊥ }
        ensures { result ≡ is_met self.entry.edit.now.parts place extent }
    {
        let parts = self.edit.parts.as_slice();
        self.next < parts.len() && (parts[self.next].start as u64) < place as u64 + extent as u64
    }
}
