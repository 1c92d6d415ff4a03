//! What the rows mean, tested value by value.

use mark_book::Mark;

/// The greatest clock value.
pub(crate) const LAST: u64 = 4_294_967_295;

// Row and value as a time book takes them.

/// A set of clock values for each row.
pub(crate) trait Plain {
    /// Whether the value is in the row's set.
    fn contains(&self, row: usize, value: u64) -> bool;
}

/// The set of clock values of one row.
pub(crate) trait PlainRow {
    /// Whether the value is in the set.
    fn contains(&self, value: u64) -> bool;
}

/// Low and high.
impl PlainRow for [u32; 2] {
    fn contains(&self, value: u64) -> bool {
        let [low, high] = *self;
        low as u64 <= value && value <= high as u64
    }
}

/// Period, first and width.
impl PlainRow for [u32; 3] {
    fn contains(&self, value: u64) -> bool {
        let [period, first, width] = *self;
        if period == 0 {
            return false;
        }
        let rest = value % period as u64;
        first as u64 <= rest && rest < first as u64 + width as u64
    }
}

/// Rows of one kind.
#[derive(Clone, Copy)]
pub(crate) struct PlainRows<'a, R> {
    pub rows: &'a [R],
}

impl<'a, R: PlainRow> Plain for PlainRows<'a, R> {
    fn contains(&self, row: usize, value: u64) -> bool {
        self.rows
            .get(row)
            .is_some_and(|found| found.contains(value))
    }
}

/// Every value that is at most `by` away from one of the rows below, found by trying each.
#[derive(Drop)]
pub(crate) struct PlainNear<P> {
    pub below: P,
    pub by: u32,
}

impl<P: Plain> Plain for PlainNear<P> {
    fn contains(&self, row: usize, value: u64) -> bool {
        let by = self.by as u64;
        let end = value.saturating_add(by).min(LAST);
        (value.saturating_sub(by)..end + 1).any(|near| self.below.contains(row, near))
    }
}

/// The marks of each row under two margins of any width: each mark becomes the values from the lowest to the highest that both reach.
#[derive(Drop)]
pub(crate) struct PlainReach<'a> {
    pub rows: usize,
    pub marks: &'a [Mark],
    pub inner: u32,
    pub outer: u32,
}

impl<'a> PlainReach<'a> {
    /// Whether the value is one of those that this mark becomes.
    fn reaches(&self, mark: &Mark, value: u64) -> bool {
        let at = mark.value as u64;
        let low = at
            .saturating_sub(self.inner as u64)
            .saturating_sub(self.outer as u64);
        let high = (at + self.inner as u64).min(LAST) + self.outer as u64;
        low <= value && value <= high.min(LAST)
    }
}

impl<'a> Plain for PlainReach<'a> {
    fn contains(&self, row: usize, value: u64) -> bool {
        row < self.rows
            && self.marks.iter().any(|mark| mark.row as usize == row && self.reaches(mark, value))
    }
}
