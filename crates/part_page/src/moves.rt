//! The lines that tell how a module goes on from a set.

ghost use Rattle.std.specs.Prelude.{◌≡◌};
ghost use Rattle.sheet_page.specs.Page.{numbered};
ghost use Rattle.sheet_page.specs.Telling.{told, Tells};
ghost use Rattle.part_page.specs.Parts.{clock_of, move_line, move_lines};

use parting::local::Move;
use reading::piece::Kind;
use sheet_page::page::Page;
use sheet_page::times::Time;
use std::alloc::AllocError;

// What becomes of the module's own clock: two words, for which a type that shows them would be longer.
fn clock(reset: bool) -> &'static str
    ensures { result.now ≡ clock_of reset }
{
    if reset { "resets" } else { "keeps" }
}

fn put_move(page: &mut Page<'_>, label: usize, step: Move) -> Result<(), AllocError>
    ensures { Tells page.old page.new result (move_line (told page.old) label step) }
{
    let time = Time { row: step.row };
    let clock = clock(step.reset);
    let next = step.next;
    page.text.put(b"    ")?;
    page.put_piece(Kind::Label, label)?;
    writeln!(page.text, " {time}, {clock} its clock, then set {next}")
}

// Every label with which the module goes on.
pub(crate) fn put_moves(page: &mut Page<'_>, moves: &[Option<Move>]) -> Result<(), AllocError>
    ensures { Tells page.old page.new result (numbered (move_lines (told page.old)) 0 moves.now) }
{
    for (label, step) in moves.iter().enumerate() {
        if let Some(step) = step {
            put_move(page, label, *step)?;
        }
    }
    Ok(())
}
