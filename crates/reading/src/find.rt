//! Finding a label by its name.

ghost use Rattle.std.specs.Prelude.{◌<◌};
ghost use Rattle.sheet.specs.Decode.{piece_count_in};
ghost use Rattle.reading.specs.Finding.{Finds, FindsExactly};
ghost use Rattle.reading.specs.Reads.{sheet_of};

use crate::names::same_name;
use crate::piece::Kind;
use crate::read_sheet::ReadSheet;

impl ReadSheet {
    /// The number of the label with that name, or none where no label has it. Any bytes may be asked for.
    pub fn find_label(&self, name: &[u8]) -> Option<usize>
        ensures found { Finds (sheet_of self.now) name.now result }
        ensures exact { FindsExactly (sheet_of self.now) name.now result }
    {
        let tiled = self.tiled();
        let first = Kind::Label.first(self.counts());
        let called = |pair: usize| -> bool
            requires { pair < piece_count_in tiled.paired.counts }
        { same_name(tiled.piece(pair).bytes, name) };
        (first..first + self.count(Kind::Label)).position(called)
    }
}
