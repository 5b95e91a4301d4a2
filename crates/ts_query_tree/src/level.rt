//! Brackets that are open: what is in one so far and what comes next go in; what is in it then
//! comes out, or that this may not follow there.
ghost use Rattle.std.specs.Prelude.{◌≡◌, ◌&&◌, ◌++◌, ◌∷◌, [], Bool, true, false, IfOk};
ghost use Rattle.ts_query_tree.specs.Words.{is_wild};
ghost use Rattle.ts_query_tree.specs.Machine.{no_content, is_begun, flushed, content_with, content_and, marked, captured, awaiting, sealed, any_last, bare_wild, new_frame, entered, lone_wild, regrouped, frame_with, frame_and, named, wild_is_field, colon_in, with_content, takes_unit, holds_groups, holds_predicates, frame_marked, frame_captured, holds_anchors};
ghost use Rattle.ts_query_tree.specs.Trees.{is_group};

use crate::tree::{Head, Mark, Operand, Part, Written};
use std::alloc::{AllocError, Global};
use ts_base::{List, Str};

/// The brackets that hold what is written.
#[derive(Drop)]
pub(crate) enum Bracket {
    /// No bracket: the whole query.
    Top,
    /// `(`, with nothing in it yet.
    Opened,
    Inside(Head),
}

/// An item to which a quantifier or captures may come.
#[derive(Drop)]
pub(crate) struct Unit {
    pub(crate) field: Option<Written>,
    pub(crate) head: Head,
    pub(crate) parts: List<Part>,
    pub(crate) mark: Option<Mark>,
    pub(crate) captures: List<Written>,
}

/// What is in a bracket so far.
#[derive(Drop)]
pub(crate) struct Content {
    /// The parts, but for the last one if that is an item.
    pub(crate) parts: List<Part>,
    pub(crate) last: Option<Unit>,
    /// Whether the last part is an anchor.
    pub(crate) tied: bool,
    /// Whether there is an item.
    pub(crate) filled: bool,
    /// Whether there is neither an anchor nor a group.
    pub(crate) plain: bool,
    /// Whether a quantifier may come to the last part.
    pub(crate) repeatable: bool,
}

/// A bracket that is open.
#[derive(Drop)]
pub(crate) struct Frame {
    pub(crate) bracket: Bracket,
    /// Whether a group may stand where this bracket does.
    pub(crate) may_group: bool,
    /// Whether a predicate may stand where this bracket does.
    pub(crate) may_ask: bool,
    pub(crate) content: Content,
}

/// What is begun behind the last part, and needs something to follow.
#[derive(Drop)]
pub(crate) enum Pending {
    Nothing,
    /// A name, which needs its colon.
    Name(Written),
    /// A name and its colon.
    Field(Written),
    /// A predicate that is open, and its operands.
    Predicate(Written, List<Operand>),
}

/// A bracket that is open, and what is begun in it.
#[derive(Drop)]
pub(crate) struct Level {
    pub(crate) frame: Frame,
    pub(crate) pending: Pending,
}

/// Whether a name is the `_` of any node.
pub(crate) fn is_wild(name: &Written) -> bool
    ensures { result ≡ is_wild name.now.text }
{
    let text = name.text.text().as_bytes();
    text.len() == 1 && text[0] == b'_'
}

fn is_group(head: &Head) -> bool
    ensures { result ≡ is_group head.now }
{
    match head {
        Head::Group => true,
        Head::Any(_) | Head::Text(_) | Head::Node(_) | Head::Choice => false,
    }
}

/// The place of an item that is a `_` without a field.
fn any_last(last: &Option<Unit>) -> Option<u32>
    ensures { result ≡ any_last last.now }
{
    match last {
        Some(unit) if unit.field.is_none() => match &unit.head {
            Head::Any(at) => Some(*at),
            Head::Text(_) | Head::Node(_) | Head::Group | Head::Choice => None,
        },
        Some(_) | None => None,
    }
}

/// The parts with the last item.
fn flushed(mut parts: List<Part>, last: Option<Unit>) -> Result<List<Part>, AllocError>
    ensures { IfOk result (λ r. r ≡ flushed parts last) }
{
    match last {
        None => Ok(parts),
        Some(unit) => {
            let Unit {
                field,
                head,
                parts: inner,
                mark,
                captures,
            } = unit;
            parts.push(Part::Item {
                field,
                head,
                parts: inner,
                mark,
                captures,
            })?;
            Ok(parts)
        }
    }
}

impl Content {
    pub(crate) fn new(alloc: Global) -> Content
        ensures { result ≡ no_content }
    {
        Content {
            parts: List::new(alloc),
            last: None,
            tied: false,
            filled: false,
            plain: true,
            repeatable: false,
        }
    }

    /// With these parts, where an item must follow.
    fn awaiting(parts: List<Part>, plain: bool) -> Content
        ensures { result ≡ awaiting parts plain }
    {
        Content {
            parts,
            last: None,
            tied: false,
            filled: false,
            plain,
            repeatable: false,
        }
    }

    fn is_begun(&self) -> bool
        ensures { result ≡ is_begun self.now }
    {
        !self.parts.is_empty() || self.last.is_some()
    }

    /// All parts.
    pub(crate) fn into_parts(self) -> Result<List<Part>, AllocError>
        ensures { IfOk result (λ r. r ≡ flushed self.parts self.last) }
    {
        let Content {
            parts,
            last,
            tied: _,
            filled: _,
            plain: _,
            repeatable: _,
        } = self;
        flushed(parts, last)
    }

    /// With all its parts, where an item must follow.
    pub(crate) fn sealed(self) -> Result<Content, AllocError>
        ensures { IfOk result (λ r. r ≡ sealed self) }
    {
        let plain = self.plain;
        Ok(Content::awaiting(self.into_parts()?, plain))
    }

    /// The place of its last part, if that is a `_` with neither a field nor anything behind it.
    fn bare_wild(&self) -> Option<u32>
        ensures { result ≡ bare_wild self.now }
    {
        if self.repeatable {
            any_last(&self.last)
        } else {
            None
        }
    }

    /// With one more item.
    fn with_unit(self, unit: Unit, repeatable: bool) -> Result<Content, AllocError>
        ensures { IfOk result (λ r. r ≡ content_with self unit repeatable) }
    {
        let Content {
            parts,
            last,
            tied: _,
            filled: _,
            plain,
            repeatable: _,
        } = self;
        let plain = plain && !is_group(&unit.head);
        Ok(Content {
            parts: flushed(parts, last)?,
            last: Some(unit),
            tied: false,
            filled: true,
            plain,
            repeatable,
        })
    }

    /// With one more part that is no item.
    fn with_part(self, part: Part, tied: bool) -> Result<Content, AllocError>
        ensures { IfOk result (λ r. r ≡ content_and self part tied) }
    {
        let Content {
            parts,
            last,
            tied: _,
            filled,
            plain,
            repeatable: _,
        } = self;
        let mut parts = flushed(parts, last)?;
        parts.push(part)?;
        Ok(Content {
            parts,
            last: None,
            tied,
            filled,
            plain: plain && !tied,
            repeatable: false,
        })
    }

    /// With a quantifier on its last part, where it can have one.
    fn marked(self, mark: Mark) -> Option<Content>
        ensures { result ≡ marked self mark }
    {
        let Content {
            parts,
            last,
            tied,
            filled,
            plain,
            repeatable,
        } = self;
        if !repeatable {
            return None;
        }
        let Some(
            Unit {
                field,
                head,
                parts: inner,
                mark: _,
                captures,
            },
        ) = last
        else {
            return None;
        };
        Some(Content {
            parts,
            last: Some(Unit {
                field,
                head,
                parts: inner,
                mark: Some(mark),
                captures,
            }),
            tied,
            filled,
            plain,
            repeatable: false,
        })
    }

    /// With one more capture on its last part, where it can have one.
    fn captured(self, capture: Written) -> Result<Option<Content>, AllocError>
        ensures { IfOk result (λ r. r ≡ captured self capture) }
    {
        let Content {
            parts,
            last,
            tied,
            filled,
            plain,
            repeatable: _,
        } = self;
        let Some(
            Unit {
                field,
                head,
                parts: inner,
                mark,
                mut captures,
            },
        ) = last
        else {
            return Ok(None);
        };
        if is_group(&head) {
            return Ok(None);
        }
        captures.push(capture)?;
        Ok(Some(Content {
            parts,
            last: Some(Unit {
                field,
                head,
                parts: inner,
                mark,
                captures,
            }),
            tied,
            filled,
            plain,
            repeatable: false,
        }))
    }
}

impl Frame {
    pub(crate) fn new(alloc: Global, bracket: Bracket, may_group: bool, may_ask: bool) -> Frame
        ensures { result ≡ new_frame bracket may_group may_ask }
    {
        Frame {
            bracket,
            may_group,
            may_ask,
            content: Content::new(alloc),
        }
    }

    /// A round bracket with nothing in it goes on as a group, where it may be one.
    pub(crate) fn entered(self) -> Frame
        ensures { result ≡ entered self }
    {
        let Frame {
            bracket,
            may_group,
            may_ask,
            content,
        } = self;
        match bracket {
            Bracket::Opened if may_group => Frame {
                bracket: Bracket::Inside(Head::Group),
                may_group,
                may_ask,
                content,
            },
            Bracket::Top | Bracket::Opened | Bracket::Inside(_) => Frame {
                bracket,
                may_group,
                may_ask,
                content,
            },
        }
    }

    /// With one more item.
    pub(crate) fn with_unit(
        self,
        alloc: Global,
        field: Option<Written>,
        head: Head,
        parts: List<Part>,
        repeatable: bool,
    ) -> Result<Frame, AllocError>
        ensures { IfOk result (λ r. r ≡ frame_with self field head parts repeatable) }
    {
        let Frame {
            bracket,
            may_group,
            may_ask,
            content,
        } = self;
        let unit = Unit {
            field,
            head,
            parts,
            mark: None,
            captures: List::new(alloc),
        };
        Ok(Frame {
            bracket,
            may_group,
            may_ask,
            content: content.with_unit(unit, repeatable)?,
        })
    }

    /// With one more part that is no item.
    pub(crate) fn with_part(self, part: Part, tied: bool) -> Result<Frame, AllocError>
        ensures { IfOk result (λ r. r ≡ frame_and self part tied) }
    {
        let Frame {
            bracket,
            may_group,
            may_ask,
            content,
        } = self;
        Ok(Frame {
            bracket,
            may_group,
            may_ask,
            content: content.with_part(part, tied)?,
        })
    }

    /// The place of the `_` in `(_` with nothing behind it, where that may begin a group.
    fn lone_wild(&self) -> Option<u32>
        ensures { result ≡ lone_wild self.now }
    {
        if !self.may_group || self.content.is_begun() {
            return None;
        }
        match &self.bracket {
            Bracket::Inside(Head::Node(name)) => {
                if is_wild(name) { Some(name.at) } else { None }
            }
            Bracket::Top
            | Bracket::Opened
            | Bracket::Inside(Head::Any(_) | Head::Text(_) | Head::Group | Head::Choice) => None,
        }
    }

    /// With a lone `_` as the first item of a group.
    pub(crate) fn regrouped(self, alloc: Global) -> Result<Frame, AllocError>
        ensures { IfOk result (λ r. r ≡ regrouped self) }
    {
        let Some(at) = self.lone_wild() else {
            return Ok(self);
        };
        let Frame {
            bracket: _,
            may_group,
            may_ask,
            content,
        } = self;
        let frame = Frame {
            bracket: Bracket::Inside(Head::Group),
            may_group,
            may_ask,
            content,
        };
        frame.with_unit(alloc, None, Head::Any(at), List::new(alloc), true)
    }

    /// With a quantifier on its last part, where it can have one.
    pub(crate) fn marked(self, mark: Mark) -> Option<Frame>
        ensures { result ≡ frame_marked self mark }
    {
        let Frame {
            bracket,
            may_group,
            may_ask,
            content,
        } = self;
        if matches!(bracket, Bracket::Inside(Head::Choice)) {
            return None;
        }
        match content.marked(mark) {
            Some(content) => Some(Frame {
                bracket,
                may_group,
                may_ask,
                content,
            }),
            None => None,
        }
    }

    /// With one more capture on its last part, where it can have one.
    pub(crate) fn captured(self, capture: Written) -> Result<Option<Frame>, AllocError>
        ensures { IfOk result (λ r. r ≡ frame_captured self capture) }
    {
        let Frame {
            bracket,
            may_group,
            may_ask,
            content,
        } = self;
        match content.captured(capture)? {
            Some(content) => Ok(Some(Frame {
                bracket,
                may_group,
                may_ask,
                content,
            })),
            None => Ok(None),
        }
    }

    /// With a name, where no field stands before it.
    pub(crate) fn named(self, alloc: Global, name: Written) -> Result<Level, AllocError>
        ensures { IfOk result (λ r. r ≡ named self name) }
    {
        let Frame {
            bracket,
            may_group,
            may_ask,
            content,
        } = self;
        match bracket {
            Bracket::Opened => Ok(Level {
                frame: Frame {
                    bracket: Bracket::Inside(Head::Node(name)),
                    may_group,
                    may_ask,
                    content,
                },
                pending: Pending::Nothing,
            }),
            Bracket::Top | Bracket::Inside(_) => {
                let frame = Frame {
                    bracket,
                    may_group,
                    may_ask,
                    content,
                };
                if is_wild(&name) {
                    let parts = List::new(alloc);
                    Ok(Level {
                        frame: frame.with_unit(alloc, None, Head::Any(name.at), parts, true)?,
                        pending: Pending::Nothing,
                    })
                } else {
                    Ok(Level {
                        frame,
                        pending: Pending::Name(name),
                    })
                }
            }
        }
    }

    /// With a colon behind its last part, if that is a `_`, which is a field's name then.
    fn wild_is_field(self, alloc: Global) -> Result<Option<Level>, AllocError>
        ensures { IfOk result (λ r. r ≡ wild_is_field self (bare_wild self.content)) }
    {
        let Some(at) = self.content.bare_wild() else {
            return Ok(None);
        };
        let Frame {
            bracket,
            may_group,
            may_ask,
            content,
        } = self;
        let Content {
            parts,
            last: _,
            tied: _,
            filled: _,
            plain,
            repeatable: _,
        } = content;
        let name = Written {
            at,
            text: Str::from_text(alloc, "_")?,
        };
        Ok(Some(Level {
            frame: Frame {
                bracket,
                may_group,
                may_ask,
                content: Content::awaiting(parts, plain),
            },
            pending: Pending::Field(name),
        }))
    }

    /// With a colon behind what is written: what seemed a node is a group whose first item has a
    /// field, or the last `_` is a field's name.
    pub(crate) fn colon(self, alloc: Global) -> Result<Option<Level>, AllocError>
        ensures { IfOk result (λ r. r ≡ colon_in self) }
    {
        if !self.may_group || self.content.is_begun() {
            return self.wild_is_field(alloc);
        }
        let Frame {
            bracket,
            may_group,
            may_ask,
            content,
        } = self;
        match bracket {
            Bracket::Inside(Head::Node(name)) => Ok(Some(Level {
                frame: Frame {
                    bracket: Bracket::Inside(Head::Group),
                    may_group,
                    may_ask,
                    content,
                },
                pending: Pending::Field(name),
            })),
            Bracket::Top
            | Bracket::Opened
            | Bracket::Inside(Head::Any(_) | Head::Text(_) | Head::Group | Head::Choice) => {
                let frame = Frame {
                    bracket,
                    may_group,
                    may_ask,
                    content,
                };
                frame.wild_is_field(alloc)
            }
        }
    }

    /// With all its parts, where an item must follow.
    pub(crate) fn sealed(self) -> Result<Frame, AllocError>
        ensures { IfOk result (λ r. r ≡ with_content self (sealed self.content)) }
    {
        let Frame {
            bracket,
            may_group,
            may_ask,
            content,
        } = self;
        Ok(Frame {
            bracket,
            may_group,
            may_ask,
            content: content.sealed()?,
        })
    }

    /// Whether a group may stand next.
    pub(crate) fn holds_groups(&self) -> bool
        ensures { result ≡ holds_groups self.now.bracket }
    {
        match &self.bracket {
            Bracket::Top
            | Bracket::Inside(Head::Node(_) | Head::Group | Head::Any(_) | Head::Text(_)) => true,
            Bracket::Opened | Bracket::Inside(Head::Choice) => false,
        }
    }

    /// Whether a predicate may stand next.
    pub(crate) fn holds_predicates(&self) -> bool
        ensures { result ≡ holds_predicates self.now }
    {
        match &self.bracket {
            Bracket::Inside(Head::Node(_)) => true,
            Bracket::Inside(Head::Group) => self.content.is_begun(),
            Bracket::Top
            | Bracket::Opened
            | Bracket::Inside(Head::Any(_) | Head::Text(_) | Head::Choice) => false,
        }
    }

    /// Whether an anchor may stand next, behind something other than an anchor.
    pub(crate) fn holds_anchors(&self) -> bool
        ensures { result ≡ holds_anchors self.now }
    {
        match &self.bracket {
            Bracket::Inside(Head::Node(_) | Head::Group) => !self.content.tied,
            Bracket::Top
            | Bracket::Opened
            | Bracket::Inside(Head::Any(_) | Head::Text(_) | Head::Choice) => false,
        }
    }
}
