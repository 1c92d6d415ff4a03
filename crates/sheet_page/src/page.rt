//! The page that tells a sheet.

ghost use Rattle.reading.specs.Handing.{counts_of, piece_of};
ghost use Rattle.reading.specs.Reads.{sheet_of};
ghost use Rattle.sheet_page.specs.Lines.{counts_line};
ghost use Rattle.sheet_page.specs.Page.{page as page_of};
ghost use Rattle.sheet_page.specs.Telling.{told, Tells};
ghost use Rattle.text.specs.Growing.{Adds};

use crate::parts::part;
use reading::piece::Kind;
use reading::read_sheet::ReadSheet;
use sheet::counts::Counts;
use std::alloc::AllocError;
use text::growing::Text;

/// A page that is being written: the text that it stands in, and the sheet that it tells.
#[derive(Drop)]
pub struct Page<'a> {
    pub text: &'a mut Text,
    pub sheet: &'a ReadSheet,
}

// Kind and number as `ReadSheet::piece` takes them: a struct of the two would be made for each call and opened there.
impl Page<'_> {
    /// Puts the bytes of the piece of that kind and number.
    pub fn put_piece(&mut self, kind: Kind, number: usize) -> Result<(), AllocError>
        ensures { Tells self.old self.new result (piece_of (told self.old) kind number) }
    {
        self.text.put(part(self.sheet, kind, number))
    }

    fn put_counts(&mut self) -> Result<(), AllocError>
        ensures { Tells self.old self.new result (counts_line (counts_of (told self.old))) }
    {
        let Counts {
            roles,
            labels,
            states,
            rows,
        } = self.sheet.counts();
        writeln!(
            self.text,
            "SHEET {roles} modules, {labels} labels, {states} states, {rows} time rows"
        )
    }

    // The counts, the names with their numbers, the states with their branches.
    #[tactic(auto, unfolding(crate::specs::Page::page))]
    fn put_sheet(&mut self) -> Result<(), AllocError>
        ensures { Tells self.old self.new result (page_of (told self.old)) }
    {
        self.put_counts()?;
        self.put_names(Kind::Role, "MODULE")?;
        self.put_names(Kind::Label, "LABEL")?;
        self.put_states()
    }
}

/// Puts the page of a sheet: its counts, its names with their numbers, its states with their branches.
pub fn put_page(text: &mut Text, sheet: &ReadSheet) -> Result<(), AllocError>
    ensures { Adds text.old text.new result (page_of (sheet_of sheet.now)) }
{
    let mut page = Page { text, sheet };
    page.put_sheet()
}
