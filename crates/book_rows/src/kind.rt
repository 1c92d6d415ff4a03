//! What a kind of row is.

ghost use Rattle.std.specs.Prelude.{◌≡◌, ℕ, ◌^◌, ◌<◌, Bool, List, length, is_some, IfSome, Decides};
ghost use Rattle.book_rows.specs.Nexts.{Next};
ghost use Rattle.book_rows.specs.Sets.{Holds, Same};

/// A kind of row: how many bytes it has, which of them are legal, and the set of clock values of a row.
pub trait RowKind: Copy + Default {
    /// How many bytes a row has: at least one.
    ghost SIZE: { ℕ };

    ghost sized: { 0 < SIZE };

    /// The rule of the kind, of a row's bytes.
    ghost legal: { List ℕ → Type 0 };

    /// The same as a test.
    ghost rule: { List ℕ → Bool };

    ghost decided: { (row : List ℕ) → Decides (rule row) (legal row) };

    /// The set that a row's bytes mean.
    ghost meant: { List ℕ → ℕ → Type 0 };

    /// That the value is in the row's set.
    ghost within: { Self → ℕ → Type 0 };

    /// A value in a row's set has 32 bits.
    ghost ranged: { (row : Self) (v : ℕ) → within row v → v < 2 ^ 32 };

    /// That the row has the numbers of these bytes.
    ghost reads: { List ℕ → Self → Type 0 };

    /// A row that has the numbers of these bytes has the set that they mean.
    ghost same: { (bytes : List ℕ) (row : Self) → reads bytes row → (v : ℕ) → Same (within row v) (meant bytes v) };

    /// How many bytes a row has.
    const SIZE: usize;

    /// The row in these bytes, where they keep the rule.
    fn decode(bytes: &[u8]) -> Option<Self>
        ensures { (length bytes.now ≡ SIZE → is_some result ≡ rule bytes.now) × IfSome result (reads bytes.now) };

    /// Whether the value is in the row's set.
    fn holds(self, value: u32) -> bool
        ensures { Holds (within self) value result };

    /// The least value of the row's set at or above this one, or none where the set has no such value.
    fn next(self, value: u32) -> Option<u32>
        ensures { Next (within self) value result };
}
