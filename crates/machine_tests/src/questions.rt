// Questions before set-up, out of range, and after a node was published, guarded, removed and retired.
use crate::runs::GUARDED_SWEEP;
use crate::set_up::SETTINGS;
use held::Held;
use machine::machine::Machine;
use machine::machine::run::run;
use memory::memory::Memory;
use protocol::doing::Doing;
use protocol::node::NodeState;
use protocol::operation::Operation;
use protocol::retired::Retired;
use std::test::Fail;

#[test]
fn tells_none_before_set_up(rt: HostRuntime) -> Result<(), Fail> {
    let machine = Machine::new(Held::new(2)?);
    assert!(rt; machine.hazard_cell(1).is_none());
    assert!(rt; machine.guard(0, 0).is_none());
    assert!(rt; machine.node(1).is_none());
    assert!(rt; machine.retired(0).is_none());
    assert!(rt; machine.is_inside(0).is_none());
    assert!(rt; machine.inside().is_none());
    assert!(rt; machine.doing(0).is_none());
    assert!(rt; machine.settings().is_none());
    assert!(rt; machine.accepted().is_none());
    Ok(())
}

#[test]
fn tells_none_out_of_range(rt: HostRuntime) -> Result<(), Fail> {
    let mut machine = Machine::new(Held::new(2)?);
    assert_eq!(rt; machine.set_up(SETTINGS).code(), 0);
    assert!(rt; machine.hazard_cell(0).is_none());
    assert!(rt; machine.hazard_cell(3).is_none());
    assert!(rt; machine.hazard_cell(64).is_none());
    assert!(rt; machine.guard(2, 0).is_none());
    assert!(rt; machine.guard(0, 1).is_none());
    assert!(rt; machine.node(0).is_none());
    assert!(rt; machine.node(3).is_none());
    assert!(rt; machine.retired(2).is_none());
    assert!(rt; machine.is_inside(2).is_none());
    assert!(rt; machine.doing(2).is_none());
    Ok(())
}

#[test]
fn tells_cells_and_counts(rt: HostRuntime) -> Result<(), Fail> {
    let mut machine = Machine::new(Held::new(2)?);
    assert_eq!(rt; machine.set_up(SETTINGS).code(), 0);
    assert_eq!(rt; machine.hazard_cell(1), Some((0, 0)));
    assert_eq!(rt; machine.hazard_cell(2), Some((1, 0)));
    assert_eq!(rt; machine.land(0).code(), 18);
    assert_eq!(rt; machine.tick().code(), 0);
    assert_eq!(rt; machine.accepted(), Some(1));
    assert_eq!(rt; machine.settings(), Some(SETTINGS));
    Ok(())
}

#[test]
fn tells_guards_nodes_and_lists(rt: HostRuntime) -> Result<(), Fail> {
    let machine = run(rt.alloc(), Held::new(2)?, &GUARDED_SWEEP)
        .map_err(|_| "no room")?
        .machine;
    assert_eq!(rt; machine.guard(1, 0), Some(1));
    assert_eq!(rt; machine.guard(0, 0), Some(0));
    assert_eq!(rt; machine.node(1), Some(NodeState::Retired { thread: 0 }));
    assert_eq!(rt; machine.node(2), Some(NodeState::Free));
    assert_eq!(rt;
        machine.retired(0),
        Some([Retired { node: 1, date: 0 }].as_slice())
    );
    assert_eq!(rt; machine.retired(1), Some([].as_slice()));
    assert_eq!(rt; machine.accepted(), Some(19));
    Ok(())
}

#[test]
fn tells_who_is_inside_and_what_a_thread_does(rt: HostRuntime) -> Result<(), Fail> {
    let mut machine = Machine::new(Held::new(2)?);
    assert_eq!(rt; machine.set_up(SETTINGS).code(), 0);
    assert_eq!(rt; machine.begin(0, 7, 0, 0).code(), 0);
    assert_eq!(rt; machine.step(0).value(), 2);
    assert_eq!(rt;
        machine.doing(0),
        Some(Doing::Busy {
            operation: Operation::OwnerLock,
            step: 2
        })
    );
    assert!(rt; machine.inside().is_none());
    assert_eq!(rt; machine.step(0).code(), 2);
    assert_eq!(rt; machine.doing(0), Some(Doing::Nothing));
    assert_eq!(rt; machine.is_inside(0), Some(true));
    assert_eq!(rt; machine.is_inside(1), Some(false));
    assert_eq!(rt; machine.inside(), Some(0));
    Ok(())
}
