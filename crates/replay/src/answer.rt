//! The bytes of an answer, as the C interface lays them out: arrays of a fixed length.

ghost use Rattle.std.specs.Prelude.{◌≡◌, length};

use events::call::Reply;
use events::closing::Early;
use events::fault::SessionFault;
use sheet::counts::Counts;
use stops::stop::Stop;

/// The bytes of a stop that ends a script before its calls. Its layer is numbered as the layers are declared.
pub(crate) fn stop_bytes(stop: Stop) -> [u8; 19]
    ensures { length result ≡ 19 }
{
    let mut bytes = [0; 19];
    bytes[..3].copy_from_slice(&[1, stop.number, stop.layer as u8]);
    bytes[3..11].copy_from_slice(&(stop.first as u64).to_be_bytes());
    bytes[11..].copy_from_slice(&(stop.second as u64).to_be_bytes());
    bytes
}

/// The bytes that stand before the answers: the script was opened, and the sheet's counts.
pub(crate) fn opened_bytes(counts: Counts) -> [u8; 5]
    ensures { length result ≡ 5 }
{
    [0, counts.roles, counts.labels, counts.states, counts.rows]
}

/// The bytes of an answer to a call.
pub(crate) fn answer_bytes(answer: Result<Reply, SessionFault>) -> [u8; 8] {
    match answer {
        Ok(Reply::Passed { answer }) => plain(0, answer),
        Ok(Reply::Next { tick: Some(tick) }) => plain(2, tick),
        Ok(Reply::Next { tick: None }) => plain(3, 0),
        Err(fault) => stopped(1, Stop::from(fault)),
    }
}

/// The bytes of what closing answers.
pub(crate) fn closing_bytes(closing: Result<(), Early>) -> [u8; 8]
    ensures { length result ≡ 8 }
{
    match closing {
        Ok(()) => plain(4, 0),
        Err(early) => stopped(4, Stop::from(early)),
    }
}

fn plain(tag: u8, value: u32) -> [u8; 8]
    ensures { length result ≡ 8 }
{
    let [a, b, c, d] = value.to_be_bytes();
    [tag, 0, 0, 0, a, b, c, d]
}

// Its places fit in a byte each: those of events, forecasts and closing do.
fn stopped(tag: u8, stop: Stop) -> [u8; 8]
    ensures { length result ≡ 8 }
{
    let [first, second] = [stop.first, stop.second].map(|place| u8::try_from(place).unwrap_or(255));
    [tag, stop.number, first, second, 0, 0, 0, 0]
}
