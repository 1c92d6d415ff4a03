//! The calls of a script.

ghost use Rattle.std.specs.Prelude.{◌<◌, length, IfSome};
ghost use Rattle.std.specs.Iterator.{at_most};

use events::call::Call;
use events::event::Event;

/// The calls that the bytes begin with, one by one, up to bytes that begin no whole call.
#[derive(Drop)]
pub(crate) struct Calls<'a> {
    left: &'a [u8],
}

impl<'a> Calls<'a> {
    /// Goes over the calls in these bytes.
    pub(crate) fn new(bytes: &'a [u8]) -> Calls<'a> {
        Calls { left: bytes }
    }
}

impl<'a> Iterator for Calls<'a> {
    type Item = Call;

    ghost next_gives = { λ s r t. IfSome r (λ _. length t.left.now < length s.left.now) };

    ghost remaining = { λ s. at_most (length s.left.now) };

    fn next(&mut self) -> Option<Call> {
        let (call, rest) = call(self.left)?;
        self.left = rest;
        Some(call)
    }
}

/// The call that the bytes begin with, and the bytes after it; none where they begin with no whole call.
fn call(bytes: &[u8]) -> Option<(Call, &[u8])>
    ensures { IfSome result (λ p. length p.1.now < length bytes.now) }
{
    match bytes {
        [0, role, direction, partner, label, a, b, c, d, rest @ ..] => {
            let event = Event {
                role: *role,
                direction: *direction,
                partner: *partner,
                label: *label,
                tick: u32::from_be_bytes([*a, *b, *c, *d]),
            };
            Some((Call::Judge { event }, rest))
        }
        [1, role, rest @ ..] => Some((Call::Forecast { role: *role }, rest)),
        _ => None,
    }
}

/// How many calls the bytes are; none where they are not whole calls alone.
pub(crate) fn count(bytes: &[u8]) -> Option<usize> {
    let mut calls = Calls::new(bytes);
    let count = calls.by_ref().count();
    calls.left.is_empty().then_some(count)
}
