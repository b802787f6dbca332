// Whether a write has waited as long as a bound allows.
ghost use Rattle.std.specs.Prelude.{◌≡◌, ◌+◌, false, nat_le};
ghost use Rattle.std.specs.Option.{option_map_or};
ghost use Rattle.memory.specs.Meaning.{with_bound, due};

use crate::memory::Memory;

// Whether a write of this date has; no date, no write.
pub fn date_due(date: Option<u32>, bound: u32, clock: u32) -> bool
    ensures { result ≡ option_map_or (λ d. nat_le (d + bound) clock) date false }
{
    date.is_some_and(|date| u64::from(date) + u64::from(bound) <= u64::from(clock))
}

// Whether some write has. Dates never fall along a thread's writes, so its oldest decides.
pub fn some_due<M: Memory>(memory: &M, bound: u32) -> bool
    ensures { result ≡ due (with_bound (M.meaning memory.now) bound) }
{
    let clock = memory.clock();
    (0..8).any(|thread| date_due(memory.oldest_date(thread), bound, clock))
}
