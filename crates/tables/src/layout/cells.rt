// The cells: roots, then the hazard cells thread by thread, then the lock and its two flags.
ghost use Rattle.std.specs.Prelude.{◌≡◌, ◌<◌, if◌then◌else◌, Some, None};
ghost use Rattle.tables.specs.Layout.{flag_cell, settings_of};
ghost use Rattle.protocol.specs.Questions.{hazard_at};
ghost use Rattle.protocol.specs.Settings.{in_range, hazard_cells, hazard_cell, lock_cell};

use crate::layout::Layout;
use protocol::settings::Settings;

// The two flags of the lock: the owner's, which is flag 0, and flag 1, which the other threads share.
#[derive(Clone, Copy, PartialEq, Eq, Debug)]
pub(crate) enum Flag {
    Owner,
    Others,
}

fn in_range(settings: &Settings) -> bool
    ensures { result ≡ in_range settings.now }
{
    (2..=8).contains(&settings.threads)
        && (1..=4).contains(&settings.hazards)
        && (1..=8).contains(&settings.roots)
        && (1..=64).contains(&settings.nodes)
        && settings.threads * settings.hazards < settings.places
        && settings.places <= 48
}

impl Layout {
    // None where a setting is out of range.
    pub fn new(settings: Settings) -> Option<Layout>
        ensures { settings_of result ≡ (if in_range settings then Some settings else None) }
    {
        if !in_range(&settings) {
            return None;
        }
        Some(Layout { settings })
    }

    // All hazard cells of the machine.
    pub(crate) fn hazard_cells(&self) -> usize
        ensures { result ≡ hazard_cells self.now.settings }
    {
        self.settings.threads * self.settings.hazards
    }

    pub(crate) fn hazard_cell(&self, thread: usize, hazard: usize) -> usize
        requires { (thread < 8) × (hazard < 4) }
        ensures { result ≡ hazard_cell self.now.settings thread hazard }
    {
        self.settings.roots + (self.settings.hazards * thread + hazard)
    }

    // The thread and the index of a hazard cell, none for another cell.
    pub(crate) fn hazard_at(&self, cell: usize) -> Option<(usize, usize)>
        ensures { result ≡ hazard_at self.now.settings cell }
    {
        if !(self.settings.roots..self.lock_cell()).contains(&cell) {
            return None;
        }
        let place = cell - self.settings.roots;
        Some((place / self.settings.hazards, place % self.settings.hazards))
    }

    pub(crate) fn lock_cell(&self) -> usize
        ensures { result ≡ lock_cell self.now.settings }
    {
        self.settings.roots + self.hazard_cells()
    }

    pub(crate) fn flag_cell(&self, flag: Flag) -> usize
        ensures { result ≡ flag_cell self.now.settings flag }
    {
        match flag {
            Flag::Owner => self.lock_cell() + 1,
            Flag::Others => self.lock_cell() + 2,
        }
    }
}
