//! The table of stops: the one place where a number and its word stand together.

ghost use Rattle.std.specs.Prelude.{◌≡◌, map, length};
ghost use Rattle.std.specs.Option.{option_map};
ghost use Rattle.stops.specs.Words.{words, word_of, Rising, Named};

/// A stop's number and the word that the programs print for it.
// The number as `Stop` has it; `layer_of` says why it is no enum.
#[derive(Clone, Copy, PartialEq, Eq, Debug)]
pub struct Entry {
    pub number: u8,
    pub word: &'static [u8],
}

/// Every stop, by rising number.
pub static TABLE: [Entry; 25] = [
    Entry {
        number: 1,
        word: b"SHORT",
    },
    Entry {
        number: 2,
        word: b"EDITION",
    },
    Entry {
        number: 3,
        word: b"COUNT",
    },
    Entry {
        number: 4,
        word: b"PAIR",
    },
    Entry {
        number: 5,
        word: b"BYTE",
    },
    Entry {
        number: 6,
        word: b"TWICE",
    },
    Entry {
        number: 7,
        word: b"STATE",
    },
    Entry {
        number: 11,
        word: b"ROWS",
    },
    Entry {
        number: 12,
        word: b"ROW",
    },
    Entry {
        number: 21,
        word: b"CROSSED",
    },
    Entry {
        number: 22,
        word: b"OFFER",
    },
    Entry {
        number: 23,
        word: b"CLASH",
    },
    Entry {
        number: 24,
        word: b"UNTOLD",
    },
    Entry {
        number: 25,
        word: b"SETS",
    },
    Entry {
        number: 31,
        word: b"BOOK",
    },
    Entry {
        number: 32,
        word: b"DEPTH",
    },
    Entry {
        number: 41,
        word: b"WHO",
    },
    Entry {
        number: 42,
        word: b"WHAT",
    },
    Entry {
        number: 43,
        word: b"BACK",
    },
    Entry {
        number: 44,
        word: b"TURN",
    },
    Entry {
        number: 45,
        word: b"LINE",
    },
    Entry {
        number: 46,
        word: b"FULL",
    },
    Entry {
        number: 47,
        word: b"TIME",
    },
    Entry {
        number: 51,
        word: b"EARLY",
    },
    Entry {
        number: 61,
        word: b"CUT",
    },
];

/// The word of a stop's number, or none where the table has no such number.
pub fn word(number: u8) -> Option<&'static [u8]>
    ensures { option_map (λ x. x.now) result ≡ word_of number words }
{
    find(&TABLE, number)
}

/// Law of the table: its numbers rise strictly, so each row's word is the one found for its number,
/// and a number of no row has no word. Answers how many rows there are.
pub fn rows_in_order() -> usize
    ensures value { result ≡ length words }
    ensures rising { Rising words }
    ensures named { Named words }
{
    TABLE.len()
}

fn find(entries: &[Entry], number: u8) -> Option<&'static [u8]>
    ensures { option_map (λ x. x.now) result ≡ word_of number (map (λ e. (e.number, e.word.now)) entries.now) }
{
    entries
        .iter()
        .find(|entry| entry.number == number)
        .map(|entry| entry.word)
}
