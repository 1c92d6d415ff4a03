//! The lines that tell a module's sets.

ghost use Rattle.std.specs.Prelude.{[], ◌∷◌};
ghost use Rattle.text.specs.Lines.{line};
ghost use Rattle.sheet_page.specs.Lines.{role_name};
ghost use Rattle.sheet_page.specs.Page.{numbered};
ghost use Rattle.sheet_page.specs.Telling.{told, Tells};
ghost use Rattle.text.specs.Growing.{Adds};
ghost use Rattle.part_page.specs.Parts.{states_from, kind_of, set_head, set_lines};

use crate::moves::put_moves;
use parting::local::{LocalKind, LocalSet};
use reading::piece::Kind;
use sheet_page::page::Page;
use std::alloc::AllocError;
use text::growing::Text;

fn put_head(text: &mut Text, number: usize) -> Result<(), AllocError>
    ensures { Adds text.old text.new result (set_head number) }
{
    write!(text, "  set {number}, states")
}

// The states of a set, each after a space: a state is a number that the set is asked for, and the number is told.
fn put_members(text: &mut Text, set: &LocalSet) -> Result<(), AllocError>
    ensures { Adds text.old text.new result (states_from set.now.states 0 64) }
{
    for state in 0..64u8 {
        if set.contains(state) {
            write!(text, " {state}")?;
        }
    }
    Ok(())
}

fn put_kind(page: &mut Page<'_>, kind: LocalKind) -> Result<(), AllocError>
    ensures { Tells page.old page.new result (kind_of (told page.old) kind) }
{
    match kind {
        LocalKind::Finished => writeln!(page.text, ": finished"),
        LocalKind::Sending { partner } => put_partner(page, ": sends to ", partner),
        LocalKind::Receiving { partner } => put_partner(page, ": takes from ", partner),
    }
}

// With whom a module exchanges.
fn put_partner(page: &mut Page<'_>, way: &str, partner: u8) -> Result<(), AllocError>
    ensures { Tells page.old page.new result (line (way.now ∷ role_name (told page.old) partner ∷ [])) }
{
    write!(page.text, "{way}")?;
    page.put_piece(Kind::Role, partner as usize)?;
    writeln!(page.text)
}

#[tactic(auto, unfolding(crate::specs::Parts::set_lines))]
fn put_set(page: &mut Page<'_>, number: usize, set: &LocalSet) -> Result<(), AllocError>
    ensures { Tells page.old page.new result (set_lines (told page.old) number set.now) }
{
    put_head(page.text, number)?;
    put_members(page.text, set)?;
    put_kind(page, set.kind)?;
    put_moves(page, &set.moves)
}

// Every set, with its number.
// The loops of sets, moves and parts are three lines each: one loop for all would need a trait with a law, or a closure with
// what its calls add, and an impl or a closure for each.
pub(crate) fn put_sets(page: &mut Page<'_>, sets: &[LocalSet]) -> Result<(), AllocError>
    ensures { Tells page.old page.new result (numbered (set_lines (told page.old)) 0 sets.now) }
{
    for (number, set) in sets.iter().enumerate() {
        put_set(page, number, set)?;
    }
    Ok(())
}
