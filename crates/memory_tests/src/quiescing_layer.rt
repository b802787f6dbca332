// The quiescing layer, over each memory and over itself: 5 never comes.
use crate::every_memory::{ends_at_a_million, fills_a_buffer, number, refuses_out_of_range};
use held::Held;
use immediate::Immediate;
use memory::memory::Memory;
use memory::refusal::Refusal;
use quiescing::Quiescing;
use std::test::Fail;

// A layer, or the refusal alone.
fn layer<M: Memory + Drop>(below: M, limit: u32) -> Result<Quiescing<M>, Refusal> {
    Ok(Quiescing::new(below, limit)?)
}

#[test]
fn refuses_what_is_out_of_range(rt: HostRuntime) -> Result<(), Fail> {
    refuses_out_of_range(&rt, &mut layer(Held::new(1)?, 1)?);
    Ok(())
}

#[test]
fn refuses_a_ninth_write(rt: HostRuntime) -> Result<(), Fail> {
    fills_a_buffer(&rt, &mut layer(Held::new(1)?, 1)?);
    Ok(())
}

#[test]
fn refuses_to_tick_at_the_end_and_lands_nothing(rt: HostRuntime) -> Result<(), Fail> {
    let mut m = layer(Held::new(1000)?, 1)?;
    for _ in 0..999_999 {
        m.tick()?;
    }
    m.store(0, 0, 1)?;
    m.tick()?;
    assert_eq!(rt; number(m.tick()), 6);
    assert_eq!(rt; m.waiting(0), 1);
    Ok(())
}

#[test]
fn lands_all_when_one_is_due(rt: HostRuntime) -> Result<(), Fail> {
    let mut m = layer(Held::new(5)?, 2)?;
    assert_eq!(rt; m.bound(), 2);
    m.store(1, 3, 7)?;
    m.tick()?;
    m.store(0, 3, 8)?;
    m.tick()?;
    assert_eq!(rt; m.waiting(0), 1);
    assert_eq!(rt; m.waiting(1), 1);
    m.tick()?;
    assert_eq!(rt; m.waiting(0), 0);
    assert_eq!(rt; m.waiting(1), 0);
    assert_eq!(rt; m.load(2, 3)?, 7);
    Ok(())
}

#[test]
fn refuses_a_limit_out_of_range_or_a_used_memory(rt: HostRuntime) -> Result<(), Fail> {
    let mut used = Held::new(9)?;
    used.store(7, 63, 1)?;
    match Quiescing::new(used, 1) {
        Ok(_) => return Err(Fail::new("made over a used memory")),
        Err(unmade) => {
            assert_eq!(rt; unmade.refusal.number(), 7);
            assert_eq!(rt; unmade.below.waiting(7), 1);
        }
    }
    let mut written = Immediate::new(9)?;
    written.store(0, 63, 1)?;
    assert!(rt; layer(written, 1).is_err());
    assert!(rt; layer(Held::new(9)?, 0).is_err());
    assert!(rt; layer(Held::new(9)?, 1001).is_err());
    assert!(rt; layer(Held::new(9)?, u32::MAX).is_err());
    Ok(())
}

#[test]
fn stands_over_another_layer(rt: HostRuntime) -> Result<(), Fail> {
    let mut m = layer(layer(Held::new(9)?, 4)?, 2)?;
    assert_eq!(rt; m.bound(), 2);
    m.store(7, 9, 5)?;
    m.tick()?;
    m.tick()?;
    assert_eq!(rt; m.oldest_date(7), Some(0));
    m.tick()?;
    assert_eq!(rt; m.waiting(7), 0);
    assert_eq!(rt; m.load(0, 9)?, 5);
    let smaller_below = layer(layer(Immediate::new(9)?, 3)?, 8)?;
    assert_eq!(rt; smaller_below.bound(), 3);
    Ok(())
}

#[test]
fn ends_over_the_immediate_memory(rt: HostRuntime) -> Result<(), Fail> {
    ends_at_a_million(&rt, &mut layer(layer(Immediate::new(1)?, 1)?, 1000)?);
    Ok(())
}
