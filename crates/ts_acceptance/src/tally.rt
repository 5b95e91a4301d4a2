//! Answers that agree or differ in; how many of each there were out.

/// How many rows were tried, and how many of their answers differed from the one wanted.
#[derive(Clone, Copy, Default)]
pub(crate) struct Tally {
    pub rows: u64,
    pub differing: u64,
}

impl Tally {
    /// One row more.
    pub(crate) fn add(&mut self, agrees: bool) {
        self.rows = self.rows.saturating_add(1);
        self.differing = self.differing.saturating_add(u64::from(!agrees));
    }
}
