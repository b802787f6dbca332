// What all threads of a memory share.
mod calls;

ghost use Rattle.std.specs.Prelude.{◌≡◌, ◌≤◌, length};

// The clock, the bound and the cells.
#[derive(Clone, Copy)]
pub struct SharedCells {
    clock: u32,
    bound: u32,
    cells: [u64; 64],
    ghost places: { length cells ≡ 64 },
    ghost clock_end: { clock ≤ 1000000 },
    ghost bound_low: { 1 ≤ bound },
    ghost bound_high: { bound ≤ 1000 },
}
