// Enabling, disabling and moving overlay pages.
ghost use Rattle.std.specs.Prelude.{◌≡◌, ◌<◌, ◌≤◌, ◌+◌, length};
ghost use Rattle.synic_regs.specs.Regs.{after_write};
ghost use Rattle.synic_board.specs.State.{processors, regs_of, with_regs};
ghost use Rattle.synic_board.specs.inside.Moves.{looked_up, with_owners};
ghost use Rattle.synic_board.specs.Restoring.{overlay_register};

use crate::machine::Machine;
use crate::summary::{Entry, Summary};
use board_terms::{Kind, Vp};
use gpa_space::Space;
use synic_regs::Register;

/// The register of an overlay.
fn overlay_register(kind: Kind) -> Register
    ensures { result ≡ overlay_register kind }
{
    match kind {
        Kind::Sim => Register::Sim,
        Kind::Sief => Register::Sief,
    }
}

impl Machine {
    /// Writes SIMP or SIEFP. Only the page that the overlay left and the page that it reached can
    /// get another owner.
    #[inline(always)]
    pub(crate) fn write_overlay(&mut self, vp: Vp, kind: Kind, value: u64)
        requires { vp < processors self.old.state }
        ensures state { self.new.state
            ≡ with_regs self.old.state vp (after_write (regs_of self.old.state vp) (overlay_register kind) value) }
        ensures writes_monotone { self.old.writes ≤ self.new.writes }
        ensures bound { self.new.writes ≤ self.old.writes + 2 }
    {
        let regs = &mut self.regs[vp.number() as usize];
        let before = regs.read(overlay_register(kind));
        let _ = regs.write(overlay_register(kind), value);
        self.space.set_overlay(vp, kind, value);
        look_up(
            &self.space,
            self.page_count,
            &mut self.summary,
            before / 4096,
        );
        look_up(
            &self.space,
            self.page_count,
            &mut self.summary,
            value / 4096,
        );
    }
}

/// Updates the owner of a page in the summary, if there is such a page and its owner has changed.
fn look_up(space: &Space, pages: u8, summary: &mut Summary, page: u64)
    requires pages { pages ≡ length space.now.pages }
    requires owners { length summary.old.values.owners ≡ length space.now.pages }
    ensures values { summary.new.values
        ≡ with_owners summary.old.values (looked_up space.now summary.old.values.owners page) }
    ensures writes_monotone { summary.old.writes ≤ summary.new.writes }
    ensures bound { summary.new.writes ≤ summary.old.writes + 1 }
{
    if page >= pages as u64 {
        return;
    }
    let owner = space.owner(page);
    if summary.owner(page) != owner {
        summary.write(Entry::Owns(page as u8, owner));
    }
}
