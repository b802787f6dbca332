// A row is the first `len` entries of a slice, oldest first. Functions over a slice and a length are a rule of this project: they serve
// every kind of dated entry, in any slice. `FixedRow` keeps slice and length together.
ghost use Rattle.std.specs.Prelude.{◌≡◌, ℕ, ◌+◌, ◌-◌, ◌<◌, ◌≤◌, List, [], ◌∷◌, ◌++◌, length, take, filter, MatchOption, slice_set};
ghost use Rattle.std.specs.List.Sorted.{IsNonDecreasingBy};
ghost use Rattle.std.specs.List.{AllByRecursion};
ghost use Rattle.dated.specs.Row.{appended, first_of, without_first, kept_len, kept_in};

use crate::entry::{Dated, Rule};

// Puts `entry` behind the row and tells the new length; `None`, and nothing changes, where the slice has no place for it.
pub fn append<T: Dated + Copy>(entries: &mut [T], len: usize, entry: T) -> Option<usize>
    ensures answer { result ≡ appended (length entries.old) len }
    ensures entries { entries.new ≡ slice_set entries.old len entry }
    ensures row { MatchOption result (entries.new ≡ entries.old) (λ n. take n entries.new ≡ take len entries.old ++ entry ∷ []) }
    ensures dates { MatchOption result (entries.new ≡ entries.old) (λ n. IsNonDecreasingBy T.Dated.stamp (take len entries.old) → AllByRecursion (λ x. T.Dated.stamp x ≤ T.Dated.stamp entry) (take len entries.old) → IsNonDecreasingBy T.Dated.stamp (take n entries.new)) }
{
    if len >= entries.len() {
        return None;
    }
    entries[len] = entry;
    Some(len + 1)
}

// Takes the oldest entry out of the row, which is one shorter then; `None`, and nothing changes, where the row is empty or
// `len` passes the slice.
pub fn take_first<T: Dated + Copy>(entries: &mut [T], len: usize) -> Option<T>
    ensures answer { result ≡ first_of len entries.old }
    ensures entries { entries.new ≡ without_first len entries.old }
    ensures row { MatchOption result (entries.new ≡ entries.old) (λ x. take len entries.old ≡ x ∷ take (len - 1) entries.new) }
    ensures dates { MatchOption result (entries.new ≡ entries.old) (λ _. IsNonDecreasingBy T.Dated.stamp (take len entries.old) → IsNonDecreasingBy T.Dated.stamp (take (len - 1) entries.new)) }
{
    if len == 0 || len > entries.len() {
        return None;
    }
    let first = entries[0];
    entries[0..len].rotate_left(1);
    Some(first)
}

// Keeps the entries of the row that the rule keeps, in their order, and tells how many; no place behind them changes.
pub fn keep<T: Dated + Copy, K: Rule<T>>(entries: &mut [T], len: usize, rule: &K) -> usize
    ensures answer { result ≡ kept_len (K.Rule.keeps rule.now) len entries.old }
    ensures entries { entries.new ≡ kept_in (K.Rule.keeps rule.now) len entries.old }
    ensures row { take result entries.new ≡ filter (K.Rule.keeps rule.now) (take len entries.old) }
    ensures dates { IsNonDecreasingBy T.Dated.stamp (take len entries.old) → IsNonDecreasingBy T.Dated.stamp (take result entries.new) }
{
    let end = len.min(entries.len());
    let mut kept = 0;
    // by index, since the loop writes into the slice that it reads
    for i in 0..end {
        let entry = entries[i];
        if rule.keeps(&entry) {
            entries[kept] = entry;
            kept += 1;
        }
    }
    kept
}
