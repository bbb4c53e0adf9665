// A core whose events are given, with ample memory. What events lead to is worked out by the
// checker (`Worked` of `saber_core/proofs`).
use saber_core::{Core, Event, run};
use std::test::Fail;

#[test]
fn a_core_is_made_and_stepped(rt: HostRuntime) -> Result<(), Fail> {
    let mut core = Core::new(rt.alloc(), 1, 1)?;
    core.step(&Event::Fill);
    assert!(rt; core.d() == 1);
    Ok(())
}

#[test]
fn a_core_is_run(rt: HostRuntime) -> Result<(), Fail> {
    let core = run(rt.alloc(), 1, 1, &[Event::Fill])?;
    assert!(rt; core.d() == 1);
    Ok(())
}
