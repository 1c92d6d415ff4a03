//! A stop: what the product answers when it refuses.

ghost use Rattle.std.specs.Prelude.{◌≡◌};
ghost use Rattle.stops.specs.Stops.{layer_of_number, stop_of};

/// The part of the product that refuses.
#[derive(Clone, Copy, PartialEq, Eq, Debug)]
pub enum Layer {
    Reading,
    Books,
    Parting,
    Session,
    Program,
}

/// A refusal: its layer, its number in the table of stops, and two places that say where it was met.
/// A place that a stop does not use is 0.
#[derive(Clone, Copy, PartialEq, Eq, Debug)]
pub struct Stop {
    pub layer: Layer,
    pub number: u8,
    pub first: usize,
    pub second: usize,
}

/// The layer that refuses with this number.
// Any byte is asked for, as 71 to 79, which have a layer and no word: an enum of the numbers would say each of them once more,
// and a byte would have to be turned into it first.
pub fn layer_of(number: u8) -> Layer
    ensures { result ≡ layer_of_number number }
{
    match number {
        1..=7 => Layer::Reading,
        11..=12 => Layer::Books,
        21..=25 | 71..=79 => Layer::Parting,
        61 => Layer::Program,
        _ => Layer::Session,
    }
}

impl Stop {
    /// The stop of this number at these places; its layer follows from the number.
    pub fn new(number: u8, first: usize, second: usize) -> Stop
        ensures { result ≡ stop_of number first second }
    {
        Stop {
            layer: layer_of(number),
            number,
            first,
            second,
        }
    }
}
