//! What the arguments ask of a program.

use std::{env, io};

/// Does the work of a program that has no argument; prints its help for `--help`. Any other argument is unknown: the
/// help goes to standard error, and the program ends with a failure.
pub fn run<F: FnOnce(&HostRuntime) -> io::Result<()>>(
    rt: &HostRuntime,
    help: &str,
    work: F,
) -> io::Result<()>
    requires { F.IsAlwaysCallable work }
{
    let mut args = env::args(rt)?.skip(1);
    match args.next() {
        None => work(rt),
        Some(word) if word.as_str() == "--help" => rt.print(help),
        Some(_) => {
            rt.eprint(help)?;
            Err(io::Error::from(io::ErrorKind::InvalidInput))
        }
    }
}
