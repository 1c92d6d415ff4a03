//! The lines that tell a state's branches.

ghost use Rattle.std.specs.List.{flat_map};
ghost use Rattle.sheet.specs.Decode.{branches as branches_in};
ghost use Rattle.sheet_page.specs.Lines.{branch_line};
ghost use Rattle.sheet_page.specs.Telling.{told, Tells};

use crate::page::Page;
use crate::times::{Time, clocks};
use reading::piece::Kind;
use reading::states::Branches;
use sheet::branch::Branch;
use std::alloc::AllocError;

impl Page<'_> {
    fn put_branch(&mut self, branch: Branch) -> Result<(), AllocError>
        ensures { Tells self.old self.new result (branch_line (told self.old) branch) }
    {
        let next = branch.next;
        let send = Time { row: branch.send };
        let take = Time {
            row: branch.receive,
        };
        let clocks = clocks(branch.resets);
        self.text.put(b"  ")?;
        self.put_piece(Kind::Label, branch.label as usize)?;
        writeln!(
            self.text,
            ", then state {next}: send {send}, take {take}, resets {clocks}"
        )
    }

    // The branches in a state's branch bytes.
    pub(crate) fn put_branches(&mut self, bytes: &[u8]) -> Result<(), AllocError>
        ensures { Tells self.old self.new result (flat_map (branch_line (told self.old)) (branches_in bytes.now)) }
    {
        for branch in Branches::new(bytes) {
            self.put_branch(branch)?;
        }
        Ok(())
    }
}
