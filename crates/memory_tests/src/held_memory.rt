// The held memory: each refusal, and what waits in between.
use crate::every_memory::{ends_at_a_million, fills_a_buffer, number, refuses_out_of_range};
use held::Held;
use memory::memory::Memory;
use std::test::Fail;

#[test]
fn refuses_what_is_out_of_range(rt: HostRuntime) -> Result<(), Fail> {
    refuses_out_of_range(&rt, &mut Held::new(1)?);
    Ok(())
}

#[test]
fn refuses_a_ninth_write(rt: HostRuntime) -> Result<(), Fail> {
    fills_a_buffer(&rt, &mut Held::new(1)?);
    Ok(())
}

#[test]
fn refuses_to_tick_at_the_end(rt: HostRuntime) -> Result<(), Fail> {
    ends_at_a_million(&rt, &mut Held::new(1000)?);
    Ok(())
}

#[test]
fn exchanges_once_the_write_has_landed(rt: HostRuntime) -> Result<(), Fail> {
    let mut m = Held::new(1)?;
    m.store(0, 63, 1)?;
    assert_eq!(rt; number(m.exchange(0, 63, 1, 2)), 4);
    m.land(0)?;
    assert!(rt; m.exchange(0, 63, 1, 2)?);
    assert_eq!(rt; m.exchange(0, 63, 1, 3)?, false);
    assert_eq!(rt; m.load(5, 63)?, 2);
    Ok(())
}

#[test]
fn refuses_to_tick_past_the_bound(rt: HostRuntime) -> Result<(), Fail> {
    let mut m = Held::new(1)?;
    m.store(3, 0, 1)?;
    m.tick()?;
    assert_eq!(rt; number(m.tick()), 5);
    assert_eq!(rt; m.clock(), 1);
    m.land(3)?;
    assert_eq!(rt; number(m.tick()), 0);
    Ok(())
}

#[test]
fn refuses_a_bound_out_of_range(rt: HostRuntime) {
    assert_eq!(rt; number(Held::new(0)), 7);
    assert_eq!(rt; number(Held::new(1001)), 7);
    assert_eq!(rt; number(Held::new(u32::MAX)), 7);
    assert_eq!(rt; number(Held::new(1000)), 0);
}

#[test]
fn loads_its_own_newest(rt: HostRuntime) -> Result<(), Fail> {
    let mut m = Held::new(1)?;
    m.store(0, 5, 1)?;
    m.store(0, 5, 2)?;
    assert_eq!(rt; m.load(0, 5)?, 2);
    assert_eq!(rt; m.load(1, 5)?, 0);
    m.land(0)?;
    assert_eq!(rt; m.load(1, 5)?, 1);
    Ok(())
}
