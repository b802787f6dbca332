// The calls of a fixed row, by its entries.
ghost use Rattle.std.specs.Prelude.{◌≡◌, ℕ, ◌≤◌, [], length, min, replicate, slice_set, filter, OnOk};
ghost use Rattle.std.specs.List.Sorted.{IsNonDecreasingBy};
ghost use Rattle.std.specs.List.{AllByRecursion};
ghost use Rattle.dated.specs.FixedRow.{entries_of, Pushes, TakesFirst};

use crate::entry::{Dated, Rule};
use crate::fixed_row::{FixedRow, Full};
use crate::row::{append, keep, take_first};

impl<T: Copy, const N: usize> FixedRow<T, N> {
    // No entries; every place holds the filler, which does not count.
    pub fn empty(filler: T) -> Self
        ensures { entries_of result ≡ [] }
    {
        FixedRow {
            places: [filler; N],
            len: 0,
        }
    }

    // The same entry `len` times, or as often as there are places.
    pub fn repeat(entry: T, len: usize) -> Self
        ensures { entries_of result ≡ replicate (min len N) entry }
    {
        FixedRow {
            places: [entry; N],
            len: len.min(N),
        }
    }

    // The entries, oldest first.
    pub fn as_slice(&self) -> &[T]
        ensures entries { result.now ≡ entries_of self.now }
        ensures fits { length result.now ≤ N }
    {
        &self.places[..self.len]
    }

    // Puts an entry in the place of another; nothing changes from the row's end on.
    pub fn set(&mut self, index: usize, entry: T)
        ensures { entries_of self.new ≡ slice_set (entries_of self.old) index entry }
    {
        if index < self.len {
            self.places[index] = entry;
        }
    }

    // Puts an entry behind the others; refused, and nothing changes, where every place is taken.
    pub fn push(&mut self, entry: T) -> Result<(), Full>
        ensures { Pushes N entry (entries_of self.old) (entries_of self.new) result }
    {
        if self.len == N {
            return Err(Full);
        }
        self.places[self.len] = entry;
        self.len += 1;
        Ok(())
    }
}

impl<T: Dated + Copy, const N: usize> FixedRow<T, N> {
    // `push`, and dates that never fell do not fall, if the entry is no older than the others. It goes by the function over slices,
    // whose promise on dates it passes on.
    pub fn append(&mut self, entry: T) -> Result<(), Full>
        ensures row { Pushes N entry (entries_of self.old) (entries_of self.new) result }
        ensures dates { OnOk result (IsNonDecreasingBy T.Dated.stamp (entries_of self.old) → AllByRecursion (λ x. T.Dated.stamp x ≤ T.Dated.stamp entry) (entries_of self.old) → IsNonDecreasingBy T.Dated.stamp (entries_of self.new)) }
    {
        let Some(len) = append(&mut self.places, self.len, entry) else {
            return Err(Full);
        };
        self.len = len;
        Ok(())
    }

    // Takes the oldest entry out, where there is one.
    pub fn take_first(&mut self) -> Option<T>
        ensures row { TakesFirst (entries_of self.old) (entries_of self.new) result }
        ensures dates { IsNonDecreasingBy T.Dated.stamp (entries_of self.old) → IsNonDecreasingBy T.Dated.stamp (entries_of self.new) }
    {
        let first = take_first(&mut self.places, self.len)?;
        self.len -= 1;
        Some(first)
    }

    // Keeps the entries that the rule keeps, in their order.
    pub fn keep<K: Rule<T>>(&mut self, rule: &K)
        ensures row { entries_of self.new ≡ filter (K.Rule.keeps rule.now) (entries_of self.old) }
        ensures dates { IsNonDecreasingBy T.Dated.stamp (entries_of self.old) → IsNonDecreasingBy T.Dated.stamp (entries_of self.new) }
    {
        self.len = keep(&mut self.places, self.len, rule);
    }
}
