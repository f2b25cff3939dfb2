//! A U channel whose second leg is folded and unfolded.

use crate::asserts::assert_equal;
use bend_state::BendState;
use brake_base::Mask;
use fold_boxes::is_group;
use std::test::Fail;
use test_fixtures::{MACHINE, STAGE, TOOLS, U_CHANNEL, job_of};
use undo_region::Region;

#[test]
fn a_leg_is_folded_and_unfolded(rt: HostRuntime) -> Result<(), Fail> {
    let alloc = rt.alloc();
    let machine = format!(in alloc; "{MACHINE}{STAGE}")?;
    let job = job_of(alloc, U_CHANNEL, TOOLS, &machine)?;
    let mut trail = Region::open(alloc, 13)?;
    let mut state = BendState::start(&job);
    let flat = state.places().get(2).copied();
    let leg = Mask(2);
    assert!(rt; is_group(job.shape(), state.mask(), leg));
    state.fold(&mut trail, leg);
    assert_equal(&rt, &state.mask(), &leg);
    assert_equal(&rt, &trail.mark(), &1);
    assert!(rt; state.places().get(2).copied() != flat);
    state.undo(&mut trail);
    assert_equal(&rt, &state.mask(), &Mask(0));
    assert_equal(&rt, &trail.mark(), &0);
    assert!(rt; state.places().get(2).copied() == flat);
    Ok(())
}
