//! The lines that tell the states of a sheet.

ghost use Rattle.sheet.specs.Decode.{state_of};
ghost use Rattle.sheet_page.specs.Lines.{end_line, exchange_line};
ghost use Rattle.sheet_page.specs.Page.{numbered, state_lines};
ghost use Rattle.sheet_page.specs.Telling.{told, Tells};

use crate::page::Page;
use crate::parts::part;
use reading::piece::Kind;
use reading::states::split_state;
use std::alloc::AllocError;

impl Page<'_> {
    fn put_end(&mut self, number: usize) -> Result<(), AllocError>
        ensures { Tells self.old self.new result (end_line number) }
    {
        writeln!(self.text, "STATE {number} end")
    }

    // Who sends to whom.
    #[tactic(auto, unfolding(crate::specs::Lines::exchange_line))]
    fn put_exchange(&mut self, number: usize, sender: u8, receiver: u8) -> Result<(), AllocError>
        ensures { Tells self.old self.new result (exchange_line (told self.old) number sender receiver) }
    {
        write!(self.text, "STATE {number} ")?;
        self.put_piece(Kind::Role, sender as usize)?;
        self.text.put(b" to ")?;
        self.put_piece(Kind::Role, receiver as usize)?;
        writeln!(self.text)
    }

    // A state by its bytes.
    #[tactic(auto, unfolding(crate::specs::Page::state_lines))]
    fn put_state(&mut self, number: usize, body: &[u8]) -> Result<(), AllocError>
        ensures { Tells self.old self.new result (state_lines (told self.old) number (state_of body.now)) }
    {
        let Some(exchange) = split_state(body) else {
            return self.put_end(number);
        };
        self.put_exchange(number, exchange.sender, exchange.receiver)?;
        self.put_branches(exchange.branches)
    }

    // Every state, with its number: a loop over numbers, as over those of the names.
    pub(crate) fn put_states(&mut self) -> Result<(), AllocError>
        ensures { Tells self.old self.new result (numbered (state_lines (told self.old)) 0 (told self.old).states) }
    {
        for number in 0..self.sheet.count(Kind::State) {
            self.put_state(number, part(self.sheet, Kind::State, number))?;
        }
        Ok(())
    }
}
