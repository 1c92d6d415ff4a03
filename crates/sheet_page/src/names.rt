//! The lines that tell the names of a sheet.

ghost use Rattle.sheet_page.specs.Lines.{name_line};
ghost use Rattle.sheet_page.specs.Page.{numbered};
ghost use Rattle.sheet_page.specs.Pieces.{pieces_of};
ghost use Rattle.sheet_page.specs.Telling.{told, Tells};
ghost use Rattle.reading.specs.Handing.{piece_of};

use crate::page::Page;
use reading::piece::Kind;
use std::alloc::AllocError;

impl Page<'_> {
    #[tactic(auto, unfolding(crate::specs::Lines::name_line))]
    fn put_name(&mut self, kind: Kind, heading: &str, number: usize) -> Result<(), AllocError>
        ensures { Tells self.old self.new result (name_line heading.now number (piece_of (told self.old) kind number)) }
    {
        write!(self.text, "{heading} {number} ")?;
        self.put_piece(kind, number)?;
        writeln!(self.text)
    }

    // Every name of a kind, with its number.
    // A sheet hands its pieces out by number, and the number is told: an iterator of them would count it a second time.
    pub(crate) fn put_names(&mut self, kind: Kind, heading: &str) -> Result<(), AllocError>
        ensures { Tells self.old self.new result (numbered (name_line heading.now) 0 (pieces_of (told self.old) kind)) }
    {
        for number in 0..self.sheet.count(kind) {
            self.put_name(kind, heading, number)?;
        }
        Ok(())
    }
}
