//! The first legal pairs of the worked parts.

use brake_base::{Back, Gauge, Mask};
use fold_boxes::{is_group, pose};
use gauge_rules::first_legal;
use std::test::Fail;
use test_fixtures::{L_SECTION, MACHINE, STAGE, TOOLS, U_CHANNEL, job_of};

#[test]
fn gauges(rt: HostRuntime) -> Result<(), Fail> {
    let alloc = rt.alloc();
    let machine = format!(in alloc; "{MACHINE}{STAGE}")?;
    let pair = Gauge {
        left_face: 1,
        right_face: 1,
    };
    let cases = [
        (L_SECTION, Mask(0), Mask(1), Back::Child, Some(pair)),
        (U_CHANNEL, Mask(1), Mask(2), Back::Parent, None),
    ];
    for (part, mask, group, back, gauge) in cases {
        let job = job_of(alloc, part, TOOLS, &machine)?;
        let shape = job.shape();
        assert!(rt; is_group(shape, mask, group));
        let posed = pose(shape, mask, group, back, 200_000, 300_000);
        assert!(rt; first_legal(&job, &posed) == gauge);
    }
    Ok(())
}
