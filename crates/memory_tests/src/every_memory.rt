// What is asked of every memory in the same way.
use memory::memory::Memory;
use memory::refusal::Refusal;
use std::process::Abort;

// The number of a refusal, and 0 of an accepted call. Refusals are compared by their numbers, since these are what is reported.
pub(crate) fn number<T: Copy>(answer: Result<T, Refusal>) -> u8 {
    answer.err().map_or(0, |refusal| refusal.number())
}

// Arguments out of range are refused with 1, however large, and a full buffer does not change that.
pub(crate) fn refuses_out_of_range<M: Memory>(rt: &impl Abort, m: &mut M) {
    assert_eq!(rt; number(m.store(8, 0, 1)), 1);
    assert_eq!(rt; number(m.store(0, 64, 1)), 1);
    assert_eq!(rt; number(m.store(usize::MAX, usize::MAX, u64::MAX)), 1);
    assert_eq!(rt; number(m.load(7, 64)), 1);
    assert_eq!(rt; number(m.load(8, 63)), 1);
    assert_eq!(rt; number(m.land(8)), 1);
    assert_eq!(rt; number(m.land(usize::MAX)), 1);
    assert_eq!(rt; number(m.exchange(8, 0, 0, 1)), 1);
    assert_eq!(rt; number(m.exchange(0, usize::MAX, 0, u64::MAX)), 1);
    assert_eq!(rt; m.waiting(8), 0);
    assert_eq!(rt; m.oldest_date(usize::MAX), None);
}

// The clock ends at 1,000,000.
pub(crate) fn ends_at_a_million<M: Memory>(rt: &impl Abort, m: &mut M) {
    for _ in 0..1_000_000 {
        assert_eq!(rt; number(m.tick()), 0);
    }
    assert_eq!(rt; number(m.tick()), 6);
    assert_eq!(rt; m.clock(), 1_000_000);
}

// Eight writes fill a thread's buffer; the check of the range comes first.
pub(crate) fn fills_a_buffer<M: Memory>(rt: &impl Abort, m: &mut M) {
    for cell in 0..8 {
        assert_eq!(rt; number(m.store(7, cell, 1)), 0);
    }
    assert_eq!(rt; number(m.store(7, 63, 1)), 2);
    assert_eq!(rt; number(m.store(7, 64, 1)), 1);
    assert_eq!(rt; m.waiting(7), 8);
    assert_eq!(rt; number(m.exchange(7, 0, 0, 1)), 4);
    assert_eq!(rt; number(m.land(6)), 3);
}
