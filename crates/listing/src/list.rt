//! What is printed for an input.

ghost use Rattle.std.specs.Prelude.{◌≡◌, ◌++◌, IfOk};
ghost use Rattle.sheet.specs.Decode.{model};
ghost use Rattle.sheet.specs.Law.{Encodes};
ghost use Rattle.sheet.specs.Model.{Sheet};
ghost use Rattle.reading.specs.Faults.{fault_of};
ghost use Rattle.reading.specs.Reads.{bytes_of, sheet_of};
ghost use Rattle.parting.specs.Whole.{PartsOf};
ghost use Rattle.listing.specs.Listed.{input_fault, parted_fault, parting_text, Listed};
ghost use Rattle.sheet_page.specs.Page.{page as page_of};
ghost use Rattle.part_page.specs.Parts.{PartingTold};
ghost use Rattle.text.specs.Growing.{Adds};

use crate::fault::ListFault;
use part_page::parted::put_parts;
use parting::accepted::Accepted;
use parting::part::part;
use reading::read::read;
use reading::read_sheet::ReadSheet;
use sheet_page::page::put_page;
use std::alloc::{AllocError, Global};
use stops::stop::Stop;
use text::growing::Text;
use text::stop_line::put_stop;

/// The most bytes that an input may have: as many as a sheet's offsets of 16 bits can name.
pub const MOST_INPUT: usize = 65_535;

// The sheet of an input, or why there is none.
#[tactic(auto, unfolding(crate::specs::Listed::input_fault))]
fn examine(input: &[u8]) -> Result<ReadSheet, ListFault>
    ensures judged { fault_of result ≡ input_fault input.now }
    ensures value { IfOk result (λ sheet. bytes_of sheet ≡ input.now) }
{
    if input.len() > MOST_INPUT {
        return Err(ListFault::Cut);
    }
    Ok(read(input)?)
}

// The accepted sheet of an input, or why there is none.
#[tactic(auto, unfolding(crate::specs::Listed::parted_fault))]
fn parted(input: &[u8]) -> Result<Accepted, ListFault>
    ensures judged { fault_of result ≡ parted_fault input.now }
    ensures value { IfOk result (λ a. PartsOf (model input.now) a) }
{
    // A `match`: by `?` the accepted sheet would be moved once more.
    match part(examine(input)?) {
        Ok(accepted) => Ok(accepted),
        Err(refused) => Err(ListFault::from(refused)),
    }
}

// What follows the page: the parts, or the stop.
fn put_parting(
    text: &mut Text,
    sheet: &ReadSheet,
    parted: Result<Accepted, ListFault>,
) -> Result<(), AllocError>
    ensures { Adds text.old text.new result (parting_text (sheet_of sheet.now) parted) }
{
    match parted {
        Ok(accepted) => put_parts(text, sheet, &accepted),
        Err(fault) => put_stop(text, Stop::from(fault)),
    }
}

// The page, and what follows it.
fn put_sheet(
    text: &mut Text,
    sheet: &ReadSheet,
    parted: Result<Accepted, ListFault>,
) -> Result<(), AllocError>
    ensures { Adds text.old text.new result (page_of (sheet_of sheet.now) ++ parting_text (sheet_of sheet.now) parted) }
{
    put_page(text, sheet)?;
    put_parting(text, sheet, parted)
}

/// What is printed for an input: the page of the sheet that it encodes, followed by the parts of its
/// modules or by the stop that parting gives; or, for no sheet, its stop alone.
/// An error says that memory failed.
pub fn list(heap: Global, input: &[u8]) -> Result<Vec<u8>, AllocError>
    ensures value { IfOk result (λ text. Listed input.now text.items) }
    ensures told { (sh : Sheet) → Encodes input.now sh → IfOk result (λ text. PartingTold sh text.items) }
{
    let mut text = Text::new(heap);
    match examine(input) {
        // Parting uses a sheet up, and the names are still needed: the input is read once more.
        Ok(sheet) => put_sheet(&mut text, &sheet, parted(input))?,
        Err(fault) => put_stop(&mut text, Stop::from(fault))?,
    }
    Ok(text.into_bytes())
}
