// The quiescing layer over any memory: before a tick that some write would wait too long for, all writes land.
#![tactic(auto)]

pub mod calls;
mod drain;

ghost use Rattle.std.specs.Prelude.{◌≡◌, ◌≤◌};

use memory::refusal::Refusal;

#[derive(Drop)]
pub struct Quiescing<M> {
    below: M,
    limit: u32,
    ghost limit_low: { 1 ≤ limit },
    ghost limit_high: { limit ≤ 1000 },
}

// A making that was refused, with the memory that was handed in.
#[derive(Drop)]
pub struct Unmade<M> {
    pub refusal: Refusal,
    pub below: M,
}

impl<M: Drop> From<Unmade<M>> for Refusal {
    ghost from_gives = { λ unmade refusal. refusal ≡ unmade.refusal };

    fn from(unmade: Unmade<M>) -> Refusal {
        unmade.refusal
    }
}
