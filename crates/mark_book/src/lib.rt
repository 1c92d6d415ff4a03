//! Another firm's book: marks, each of which puts one value into one row.
#![tactic(auto)]

ghost use Rattle.std.specs.Prelude.{◌≡◌, ℕ, ◌<◌, ◌≤◌, min, length};
ghost use Rattle.books.specs.Margins.{Near};
ghost use Rattle.books.specs.Nexts.{Next};
ghost use Rattle.books.specs.Sets.{InRow};
ghost use Rattle.books.specs.Tables.{past};
ghost use Rattle.mark_book.specs.Marked.{Marked};

use books::margin::Margin;
use books::time_book::TimeBook;

/// A value of a row.
#[derive(Clone, Copy)]
pub struct Mark {
    pub row: u8,
    pub value: u32,
}

/// A book of sixteen marks. A row's set is the values that its marks give.
#[derive(Drop)]
pub struct Marks {
    // How many rows the book has: no length of the marks, which are always sixteen.
    rows: usize,
    marks: [Mark; 16],
    ghost few: { rows ≤ 64 },
}

impl Marks {
    /// The book with these marks and so many rows, at most 64.
    pub fn new(rows: usize, marks: [Mark; 16]) -> Marks
        ensures { (result.rows ≡ min rows 64) × (result.marks ≡ marks) }
    {
        Marks {
            rows: rows.min(64),
            marks,
        }
    }

    /// The least value at or above this one under two margins over this book.
    pub fn next_under_margins(self, inner: u32, outer: u32, row: u8, value: u32) -> Option<u32>
        ensures { Next (Near (Near (InRow self.rows row (Marked self.marks (length self.marks) row)) inner) outer) value result }
    {
        Margin::over(Margin::over(self, inner), outer).next(row, value)
    }
}

impl TimeBook for Marks {
    ghost count = { λ b. b.rows };

    ghost admits = { λ b row. InRow b.rows row (Marked b.marks (length b.marks) row) };

    ghost bounded = { record { few = λ b. b.few; beyond = λ b row v h p. past b.rows row p.0 h; ranged = λ b row v p. p.1.0 } };

    fn rows(&self) -> usize {
        self.rows
    }

    #[tactic(auto, using(books::proofs::Agreeing::holds_from_next))]
    fn holds(&self, row: u8, value: u32) -> bool {
        self.next(row, value).is_some_and(|first| first == value)
    }

    fn next(&self, row: u8, value: u32) -> Option<u32> {
        if (row as usize) < self.rows {
            first_from(&self.marks, row, value)
        } else {
            None
        }
    }
}

/// The least value at or above this one that a mark puts into the row.
fn first_from(marks: &[Mark], row: u8, value: u32) -> Option<u32>
    ensures { Next (Marked marks.now (length marks.now) row) value result }
{
    marks
        .iter()
        .filter(|mark| mark.row == row && value <= mark.value)
        .map(|mark| mark.value)
        .min()
}
