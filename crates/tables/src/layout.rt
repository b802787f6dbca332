// Settings in range, and which cell is which under them.
pub mod cells;

ghost use Rattle.std.specs.Prelude.{◌≡◌, ◌*◌, ◌≤◌, true};
ghost use Rattle.protocol.specs.Settings.{in_range};

use protocol::settings::Settings;

#[derive(Clone, Copy)]
pub struct Layout {
    pub(crate) settings: Settings,
    ghost lawful: { in_range settings ≡ true },
    ghost threads_high: { settings.threads ≤ 8 },
    ghost hazards_high: { settings.hazards ≤ 4 },
    ghost cells_high: { settings.threads * settings.hazards ≤ 32 },
    ghost roots_high: { settings.roots ≤ 8 },
    ghost nodes_high: { settings.nodes ≤ 64 },
    ghost places_high: { settings.places ≤ 48 },
}
