//! How far a list of ways may grow: the limit and how many there are go in; whether the list grows
//! no more comes out.
ghost use Rattle.std.specs.Prelude.{◌≡◌, ◌<◌, IsTrue, true, false};

/// How many ways there are in a list when it grows no more, and whether ways were left out of some
/// list for that.
#[derive(Debug, Clone, Copy, PartialEq, Eq)]
pub(crate) struct Limit {
    pub most: usize,
    pub cut: bool,
}

/// Whether a list of so many ways grows no more. If so, ways are left out.
pub(crate) fn stops(limit: &mut Limit, count: usize) -> bool
    ensures stops { IsTrue result → limit.new.cut ≡ true }
    ensures some { IsTrue result → 0 < count }
    ensures goes_on { result ≡ false → limit.new.cut ≡ limit.old.cut }
{
    if count <= limit.most {
        return false;
    }
    limit.cut = true;
    true
}
