//! The standard input of the programs that read one.

use std::alloc::{AllocError, Global};
use std::io;
use std::io::{Read, Write};

/// Reads standard input to its end and prints what `answer` makes of it. Of an input of more than `most` bytes it reads
/// one byte more than those, which shows that there are too many.
pub fn answer_input<F: FnOnce(Global, &[u8]) -> Result<Vec<u8>, AllocError>>(
    rt: &HostRuntime,
    most: usize,
    answer: F,
) -> io::Result<()>
    requires { F.IsAlwaysCallable answer }
{
    let mut input = Vec::new(rt.alloc());
    rt.stdin()
        .take((most as u64).saturating_add(1))
        .read_to_end(&mut input)?;
    let text = answer(rt.alloc(), input.as_slice())?;
    rt.stdout().write_all(text.as_slice())
}
