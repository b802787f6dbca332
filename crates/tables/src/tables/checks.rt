// The checks that the calls have in common.
ghost use Rattle.std.specs.Prelude.{◌≡◌, ◌<◌, ◌≤◌, if◌then◌else◌, Ok, Err, slice_get, slice_index_or, take, MatchResult};
ghost use Rattle.std.specs.Option.{option_map};
ghost use Rattle.protocol.specs.declared.answer.Refusal.TheVariants.{CallsUsedUp, NoSuchThread};
ghost use Rattle.tables.specs.declared.thread.Thread.{Thread};

use crate::tables::Tables;
use crate::thread::Thread;
use protocol::answer::Refusal;

// Refuses where the check fails.
pub(crate) fn check(passes: bool, refusal: Refusal) -> Result<(), Refusal>
    ensures { result ≡ (if passes then Ok tt else Err refusal) }
{
    if passes { Ok(()) } else { Err(refusal) }
}

impl Tables {
    pub(crate) fn calls_left(&self) -> Result<(), Refusal>
        ensures { MatchResult result (λ _. self.now.accepted < 8000) (λ e. (8000 ≤ self.now.accepted) × (e ≡ CallsUsedUp)) }
    {
        check(self.accepted < 8000, Refusal::CallsUsedUp)
    }

    // The rows of the machine's threads.
    pub(crate) fn rows(&self) -> &[Thread]
        ensures { result.now ≡ take self.now.layout.settings.threads self.now.threads }
    {
        &self.threads[..self.layout.settings.threads]
    }

    // The row of a thread of the machine.
    pub(crate) fn row(&self, thread: usize) -> Option<&Thread>
        ensures { option_map (λ r. r.now) result ≡ slice_get (take self.now.layout.settings.threads self.now.threads) thread }
    {
        self.rows().get(thread)
    }

    // The same, for a call that is refused where there is no such thread.
    pub(crate) fn known(&self, thread: usize) -> Result<&Thread, Refusal>
        ensures { MatchResult result (λ r. (thread < self.now.layout.settings.threads) × ((d : Thread) → slice_index_or self.now.threads thread d ≡ r.now)) (λ e. (self.now.layout.settings.threads ≤ thread) × (e ≡ NoSuchThread)) }
    {
        self.row(thread).ok_or(Refusal::NoSuchThread)
    }
}
