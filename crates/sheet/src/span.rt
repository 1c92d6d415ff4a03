//! Where a piece of a sheet lies.

/// Where a piece of a sheet lies: the offset of its first byte, and how many bytes it has.
#[derive(Clone, Copy, PartialEq, Eq, Debug)]
pub struct Span {
    pub offset: usize,
    pub size: usize,
}
