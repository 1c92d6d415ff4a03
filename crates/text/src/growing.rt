//! A text that grows.

ghost use Rattle.std.specs.Prelude.{◌≡◌, [], IfSome};
ghost use Rattle.text.specs.Growing.{said, Adds};

use std::alloc::{AllocError, Global};
use std::fmt::Display;

/// A text that grows: its bytes so far, and where it gets memory.
#[derive(Drop)]
pub struct Text {
    bytes: Vec<u8>,
    heap: Global,
}

impl Text {
    /// The empty text.
    pub fn new(heap: Global) -> Text
        ensures { said result ≡ [] }
    {
        Text {
            bytes: Vec::new(heap),
            heap,
        }
    }

    /// Puts bytes at the end, such as a name from a sheet.
    pub fn put(&mut self, bytes: &[u8]) -> Result<(), AllocError>
        ensures { Adds self.old self.new result bytes.now }
    {
        self.bytes.extend_from_slice(bytes)
    }

    /// Puts what a value shows at the end. `write!` and `writeln!` call it.
    pub fn write_fmt<D: Display + Drop>(&mut self, value: D) -> Result<(), AllocError>
        ensures { IfSome (D.output value) (Adds self.old self.new result) }
    {
        let shown = String::format(self.heap, value)?;
        self.put(shown.as_bytes())
    }

    /// The bytes of the text.
    pub fn into_bytes(self) -> Vec<u8>
        ensures { result.items ≡ said self }
    {
        let Text { bytes, heap: _ } = self;
        bytes
    }
}
