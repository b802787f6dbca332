// A list of calls on a machine begun new, with every answer.
use crate::set_up::SETTINGS;
use held::Held;
use immediate::Immediate;
use machine::machine::run::run;
use memory::memory::Memory;
use protocol::call::Call;
use std::alloc::Global;
use std::test::Fail;

const PUBLISH_0: Call = Call::Begin {
    thread: 0,
    operation: 4,
    a: 0,
    b: 1,
};

const PROTECT_1: Call = Call::Begin {
    thread: 1,
    operation: 1,
    a: 0,
    b: 0,
};

const REMOVE_0: Call = Call::Begin {
    thread: 0,
    operation: 5,
    a: 0,
    b: 0,
};

const RECLAIM_0: Call = Call::Begin {
    thread: 0,
    operation: 6,
    a: 0,
    b: 0,
};

const STEP_0: Call = Call::Step { thread: 0 };

const STEP_1: Call = Call::Step { thread: 1 };

// A node is published, guarded by thread 1, removed and retired; the sweep at clock 3 finds the guard.
pub(crate) const GUARDED_SWEEP: [Call; 21] = [
    Call::SetUp(SETTINGS),
    PUBLISH_0,
    STEP_0,
    PROTECT_1,
    STEP_1,
    STEP_1,
    STEP_1,
    REMOVE_0,
    STEP_0,
    STEP_0,
    STEP_0,
    Call::Tick,
    Call::Tick,
    Call::Tick,
    Call::Land { thread: 1 },
    Call::Tick,
    RECLAIM_0,
    STEP_0,
    STEP_0,
    STEP_0,
    STEP_0,
];

// The codes and values of the calls over the memory.
fn answers_over<M: Memory + Drop>(heap: Global, memory: M) -> Result<Vec<(u64, u64)>, Fail> {
    let completed = run(heap, memory, &GUARDED_SWEEP).map_err(|_| "no room")?;
    let shown = completed.answers.iter().map(|answer| answer.pair());
    Ok(shown.collect(heap)?)
}

#[test]
fn runs_over_the_held_memory(rt: HostRuntime) -> Result<(), Fail> {
    let answers = answers_over(rt.alloc(), Held::new(2)?)?;
    assert_eq!(rt;
        answers.as_slice(),
        [
            (0, 0),
            (0, 0),
            (2, 1),
            (0, 0),
            (1, 2),
            (1, 3),
            (2, 1),
            (0, 0),
            (1, 2),
            (1, 3),
            (2, 1),
            (0, 0),
            (0, 0),
            (17, 0),
            (0, 0),
            (0, 0),
            (0, 0),
            (1, 2),
            (1, 2),
            (1, 3),
            (2, 0),
        ]
        .as_slice()
    );
    Ok(())
}

// Nothing waits there, so that the third tick is taken and the landing refused.
#[test]
fn runs_over_the_immediate_memory(rt: HostRuntime) -> Result<(), Fail> {
    let answers = answers_over(rt.alloc(), Immediate::new(2)?)?;
    assert_eq!(rt; answers.get(13), Some(&(0, 0)));
    assert_eq!(rt; answers.get(14), Some(&(18, 0)));
    assert_eq!(rt; answers.get(20), Some(&(2, 0)));
    Ok(())
}

#[test]
fn runs_no_calls(rt: HostRuntime) -> Result<(), Fail> {
    let mut completed = run(rt.alloc(), Held::new(2)?, &[]).map_err(|_| "no room")?;
    assert_eq!(rt; completed.answers.len(), 0);
    assert_eq!(rt; completed.machine.tick().code(), 14);
    Ok(())
}
