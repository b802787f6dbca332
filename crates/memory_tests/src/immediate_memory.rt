// The immediate memory: nothing waits, so 2, 4 and 5 never come.
use crate::every_memory::{ends_at_a_million, number, refuses_out_of_range};
use immediate::Immediate;
use memory::memory::Memory;
use std::test::Fail;

#[test]
fn refuses_what_is_out_of_range(rt: HostRuntime) -> Result<(), Fail> {
    refuses_out_of_range(&rt, &mut Immediate::new(1)?);
    Ok(())
}

#[test]
fn refuses_to_tick_at_the_end(rt: HostRuntime) -> Result<(), Fail> {
    ends_at_a_million(&rt, &mut Immediate::new(1)?);
    Ok(())
}

#[test]
fn refuses_a_bound_out_of_range(rt: HostRuntime) {
    assert_eq!(rt; number(Immediate::new(0)), 7);
    assert_eq!(rt; number(Immediate::new(1001)), 7);
    assert_eq!(rt; number(Immediate::new(1)), 0);
}

#[test]
fn lands_each_write_in_its_store(rt: HostRuntime) -> Result<(), Fail> {
    let mut m = Immediate::new(2)?;
    for value in 0..20 {
        assert_eq!(rt; number(m.store(0, 7, value)), 0);
    }
    assert_eq!(rt; m.waiting(0), 0);
    assert_eq!(rt; m.load(3, 7)?, 19);
    assert_eq!(rt; number(m.land(0)), 3);
    assert!(rt; m.exchange(0, 7, 19, 4)?);
    assert!(rt; m.self_landing());
    assert_eq!(rt; m.load(0, 7)?, 4);
    Ok(())
}
