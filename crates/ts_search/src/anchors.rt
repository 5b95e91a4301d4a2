//! What anchors allow: siblings of a visible tree go in, and the places come out between which an
//! item may take one of them.
ghost use Rattle.std.specs.Prelude.{◌≤◌, length};
ghost use Rattle.ts_search.specs.Lone.{IsClosedStart, IsTiedEnd};

use crate::sight::Sight;

/// The end of the places where an item may take a sibling: all, or, where an anchor stands before
/// it, those up to the first named sibling.
pub(crate) fn tied_end(sight: &Sight, siblings: &[u32], tied: bool) -> usize
    ensures inside { result ≤ length siblings.now }
    ensures places { IsTiedEnd sight.now.nodes siblings.now tied result }
{
    if !tied {
        return siblings.len();
    }
    for place in 0..siblings.len() {
        if sight.is_named(siblings[place]) {
            return place + 1;
        }
    }
    siblings.len()
}

/// The first of the places where an item may take a sibling: all, or, where an anchor stands after
/// it, those from the last named sibling on.
pub(crate) fn closed_start(sight: &Sight, siblings: &[u32], closed: bool) -> usize
    ensures { IsClosedStart sight.now.nodes siblings.now closed result }
{
    if !closed {
        return 0;
    }
    let count = siblings.len();
    for after in 0..count {
        let place = count - 1 - after;
        if sight.is_named(siblings[place]) {
            return place;
        }
    }
    0
}
