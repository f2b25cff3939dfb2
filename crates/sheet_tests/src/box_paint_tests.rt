//! The drawn places of a few points.

use crate::asserts::assert_equal;
use box_paint::drawn;
use brake_base::V3;
use std::test::Fail;

#[test]
fn drawn_points(rt: HostRuntime) -> Result<(), Fail> {
    assert_equal(&rt, &drawn(V3 { x: 1, y: 0, z: 0 }), &(80, -36));
    assert_equal(&rt, &drawn(V3 { x: 0, y: 1, z: 0 }), &(60, 48));
    assert_equal(&rt, &drawn(V3 { x: 0, y: 0, z: 1 }), &(0, 80));
    // The eye's own direction is a point.
    assert_equal(
        &rt,
        &drawn(V3 {
            x: 12,
            y: -16,
            z: 15,
        }),
        &(0, 0),
    );
    Ok(())
}
