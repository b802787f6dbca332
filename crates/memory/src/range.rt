// What threads and cells there are, and what bounds and limits.
ghost use Rattle.std.specs.Prelude.{◌≡◌, ◌<◌, ◌≤◌, false, MatchResult};
ghost use Rattle.memory.specs.Checks.{thread_in_range, in_range, limit_in_range};
ghost use Rattle.memory.specs.declared.refusal.Refusal.TheVariants.{OutOfRange, NotMade};

use crate::refusal::Refusal;

// Refuses a thread that there is not.
pub fn check_thread(thread: usize) -> Result<(), Refusal>
    ensures { MatchResult result (λ _. thread < 8) (λ e. (thread_in_range thread ≡ false) × (e ≡ OutOfRange)) }
{
    if thread >= 8 {
        return Err(Refusal::OutOfRange);
    }
    Ok(())
}

// Refuses a thread or a cell that there is not.
pub fn check_range(thread: usize, cell: usize) -> Result<(), Refusal>
    ensures { MatchResult result (λ _. (thread < 8) × (cell < 64)) (λ e. (in_range thread cell ≡ false) × (e ≡ OutOfRange)) }
{
    check_thread(thread)?;
    if cell >= 64 {
        return Err(Refusal::OutOfRange);
    }
    Ok(())
}

// Refuses a bound or a limit that is not 1 to 1,000.
pub fn check_limit(limit: u32) -> Result<(), Refusal>
    ensures { MatchResult result (λ _. (1 ≤ limit) × (limit ≤ 1000)) (λ e. (limit_in_range limit ≡ false) × (e ≡ NotMade)) }
{
    if !(1..=1000).contains(&limit) {
        return Err(Refusal::NotMade);
    }
    Ok(())
}
