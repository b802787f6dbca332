// Set-up: it is done once, with settings in range, over a new memory.
use held::Held;
use immediate::Immediate;
use machine::machine::Machine;
use memory::memory::Memory;
use protocol::settings::Settings;
use std::test::Fail;

pub(crate) const SETTINGS: Settings = Settings {
    threads: 2,
    hazards: 1,
    roots: 1,
    nodes: 2,
    places: 3,
};

// As many places as hazard cells, which is out of range.
const OUT_OF_RANGE: Settings = Settings {
    threads: 2,
    hazards: 1,
    roots: 1,
    nodes: 2,
    places: 2,
};

// The code of a set-up over the memory.
fn set_up_over<M: Memory + Drop>(memory: M) -> u64 {
    Machine::new(memory).set_up(SETTINGS).code()
}

#[test]
fn refuses_a_second_set_up(rt: HostRuntime) -> Result<(), Fail> {
    let mut machine = Machine::new(Held::new(2)?);
    assert_eq!(rt; machine.set_up(SETTINGS).code(), 0);
    assert_eq!(rt; machine.set_up(SETTINGS).code(), 11);
    // the memory is no longer new, and the settings are out of range
    assert_eq!(rt; machine.tick().code(), 0);
    assert_eq!(rt; machine.set_up(OUT_OF_RANGE).code(), 11);
    assert_eq!(rt; machine.tick().code(), 0);
    Ok(())
}

#[test]
fn takes_a_set_up_after_a_refused_one(rt: HostRuntime) -> Result<(), Fail> {
    let mut machine = Machine::new(Held::new(2)?);
    assert_eq!(rt; machine.tick().code(), 14);
    assert_eq!(rt; machine.set_up(OUT_OF_RANGE).code(), 12);
    assert_eq!(rt; machine.tick().code(), 14);
    assert_eq!(rt; machine.set_up(SETTINGS).code(), 0);
    assert_eq!(rt; machine.tick().code(), 0);
    Ok(())
}

#[test]
fn refuses_a_memory_where_a_write_waits(rt: HostRuntime) -> Result<(), Fail> {
    let mut memory = Held::new(2)?;
    memory.store(7, 63, 0)?;
    let mut machine = Machine::new(memory);
    assert_eq!(rt; machine.set_up(SETTINGS).code(), 13);
    assert_eq!(rt; machine.set_up(OUT_OF_RANGE).code(), 12);
    assert_eq!(rt; machine.land(0).code(), 14);
    Ok(())
}

#[test]
fn refuses_a_memory_with_a_cell_that_is_not_0(rt: HostRuntime) -> Result<(), Fail> {
    let mut held = Held::new(2)?;
    held.store(7, 63, 1)?;
    held.land(7)?;
    assert_eq!(rt; set_up_over(held), 13);
    let mut immediate = Immediate::new(2)?;
    immediate.store(0, 0, 1)?;
    assert_eq!(rt; set_up_over(immediate), 13);
    Ok(())
}

#[test]
fn refuses_a_memory_whose_clock_is_not_0(rt: HostRuntime) -> Result<(), Fail> {
    let mut immediate = Immediate::new(2)?;
    immediate.tick()?;
    assert_eq!(rt; set_up_over(immediate), 13);
    Ok(())
}

// Newness is in what a memory means: a write of 0 that has landed leaves nothing.
#[test]
fn takes_a_memory_that_is_new_again(rt: HostRuntime) -> Result<(), Fail> {
    let mut memory = Held::new(2)?;
    memory.store(0, 0, 0)?;
    memory.land(0)?;
    assert_eq!(rt; set_up_over(memory), 0);
    Ok(())
}
