//! What the rows have shown.

/// How many rows were played, how many calls answered want of memory, and what wasn't as it is said.
#[derive(Clone, Copy, Debug)]
pub struct Tally {
    pub rows: u32,
    pub refused: u32,
    pub wrong: u32,
    pub first_wrong: Option<&'static str>,
}

impl Tally {
    /// One that has counted nothing.
    pub fn new() -> Tally {
        Tally {
            rows: 0,
            refused: 0,
            wrong: 0,
            first_wrong: None,
        }
    }

    /// Counts a row, and whether it is as it is said.
    pub fn expect(&mut self, row: &'static str, holds: bool) {
        self.rows = self.rows.saturating_add(1);
        if !holds {
            self.wrong = self.wrong.saturating_add(1);
            self.first_wrong = self.first_wrong.or(Some(row));
        }
    }

    /// Counts a call that answered want of memory.
    pub fn refuse(&mut self) {
        self.refused = self.refused.saturating_add(1);
    }
}
