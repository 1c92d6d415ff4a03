//! The one function that other programs call.

ghost use Rattle.std.specs.Prelude.{◌≡◌, ◌≤◌, length, drop};
ghost use Rattle.replay.specs.Written.{Kept};

use crate::answer::stop_bytes;
use crate::output::put;
use crate::run::run;
use crate::split::split;
use stops::stop::Stop;

/// The bytes of a stop before the calls.
const STOP: usize = 19;

/// Replays a script and writes its answers; the result is how many bytes they are.
///
/// A script that is malformed, or whose answers the output has no room for, answers 0 and writes nothing. Bytes of the
/// output past the answers stay as they were.
///
/// Promised are the bounds alone: how a script is taken apart and its answers are laid out is tested.
#[unsafe(no_mangle)]
pub extern "C" fn rekdeuy_replay(input: &[u8], output: &mut [u8]) -> usize
    ensures fits { result ≤ length output.old }
    ensures rest { drop result output.new ≡ drop result output.old }
{
    let Some(script) = split(input) else {
        return 0;
    };
    // A `match`: in `unwrap_or_else` the closure would change the output, and need a contract that says what it keeps.
    match run(script, output) {
        Ok(written) => written,
        Err(stop) => put_stop(output, stop),
    }
}

fn put_stop(output: &mut [u8], stop: Stop) -> usize
    ensures { Kept result output.old output.new }
{
    if output.len() < STOP {
        return 0;
    }
    put(output, 0, &stop_bytes(stop));
    STOP
}
