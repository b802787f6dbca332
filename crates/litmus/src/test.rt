// The calls of the test, and all orders of its two threads.
use crate::kind::{Failure, Kind, run_on};
use memory::run::{Answer, Call};
use std::alloc::Global;

const STORE_0: Call = Call::Store {
    thread: 0,
    cell: 0,
    value: 1,
};

const LOAD_0: Call = Call::Load { thread: 0, cell: 1 };

const STORE_1: Call = Call::Store {
    thread: 1,
    cell: 1,
    value: 1,
};

const LOAD_1: Call = Call::Load { thread: 1, cell: 0 };

// Both threads store and load; the clock goes to the bound and once more; the writes are told to land; the clock again.
pub const CALLS: [Call; 14] = [
    STORE_0,
    STORE_1,
    LOAD_0,
    LOAD_1,
    Call::Tick,
    Call::Tick,
    Call::Tick,
    LOAD_0,
    LOAD_1,
    Call::Land { thread: 0 },
    Call::Land { thread: 1 },
    Call::Tick,
    LOAD_0,
    LOAD_1,
];

// Each thread stores before it loads.
const ORDERS: [[Call; 4]; 6] = [
    [STORE_0, LOAD_0, STORE_1, LOAD_1],
    [STORE_0, STORE_1, LOAD_0, LOAD_1],
    [STORE_0, STORE_1, LOAD_1, LOAD_0],
    [STORE_1, STORE_0, LOAD_0, LOAD_1],
    [STORE_1, STORE_0, LOAD_1, LOAD_0],
    [STORE_1, LOAD_1, STORE_0, LOAD_0],
];

// In how many orders both loads answer 0.
pub(crate) fn both_zero_orders(heap: Global, kind: Kind) -> Result<usize, Failure> {
    let mut both = 0usize;
    // a loop, since a run can fail, and a closure of `filter` cannot hand the failure on
    for order in ORDERS {
        let answers = run_on(heap, kind, &order)?;
        let zeros = answers
            .iter()
            .filter(|answer| **answer == Ok(Answer::Value(0)))
            .count();
        if zeros == 2 {
            both += 1;
        }
    }
    Ok(both)
}
