//! A script in its parts.

/// The kind of book in a script.
// A book of each kind has a type of its own, so the kind is read as a case, and not as a book.
#[derive(Clone, Copy)]
pub(crate) enum BookKind {
    Windows,
    Slots,
}

/// The margins that are laid over the book, innermost first.
// A list of at most two would be matched by its length in the same three arms, since each margin makes another type.
#[derive(Clone, Copy)]
pub(crate) enum Margins {
    None,
    One(u32),
    Two(u32, u32),
}

/// The parts of a script, lent from its bytes. The calls are whole, and there are `count` of them.
// The count is of calls, which have two lengths: the bytes' length does not say it.
#[derive(Clone, Copy)]
pub(crate) struct Script<'a> {
    pub(crate) sheet: &'a [u8],
    pub(crate) kind: BookKind,
    pub(crate) book: &'a [u8],
    pub(crate) margins: Margins,
    pub(crate) tick: u32,
    pub(crate) depth: u8,
    pub(crate) calls: &'a [u8],
    pub(crate) count: usize,
}
