//! The lines that tell the modules' parts.

ghost use Rattle.reading.specs.Reads.{sheet_of};
ghost use Rattle.sheet_page.specs.Page.{numbered};
ghost use Rattle.sheet_page.specs.Telling.{told, Tells};
ghost use Rattle.part_page.specs.Parts.{part_line, part_text, part_lines};
ghost use Rattle.text.specs.Growing.{Adds};

use crate::sets::put_sets;
use parting::accepted::Accepted;
use parting::local::Part;
use reading::piece::Kind;
use reading::read_sheet::ReadSheet;
use sheet_page::page::Page;
use std::alloc::AllocError;
use text::growing::Text;

fn put_module(page: &mut Page<'_>, role: usize) -> Result<(), AllocError>
    ensures { Tells page.old page.new result (part_line (told page.old) role) }
{
    page.text.put(b"PART ")?;
    page.put_piece(Kind::Role, role)?;
    writeln!(page.text)
}

#[tactic(auto, unfolding(crate::specs::Parts::part_text))]
fn put_part(page: &mut Page<'_>, role: usize, part: &Part) -> Result<(), AllocError>
    ensures { Tells page.old page.new result (part_text (told page.old) role part.now) }
{
    put_module(page, role)?;
    put_sets(page, part.found())
}

#[tactic(auto, unfolding(crate::specs::Parts::part_lines))]
fn put_all(page: &mut Page<'_>, accepted: &Accepted) -> Result<(), AllocError>
    ensures { Tells page.old page.new result (part_lines (told page.old) accepted.now) }
{
    for (role, part) in accepted.parts().iter().enumerate() {
        put_part(page, role, part)?;
    }
    Ok(())
}

/// Puts the parts of all modules: each module's name, and its sets with how it goes on from each.
pub fn put_parts(text: &mut Text, sheet: &ReadSheet, accepted: &Accepted) -> Result<(), AllocError>
    ensures { Adds text.old text.new result (part_lines (sheet_of sheet.now) accepted.now) }
{
    let mut page = Page { text, sheet };
    put_all(&mut page, accepted)
}
