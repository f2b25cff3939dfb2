//! The first stroke of the U channel, whose numbers stand on its drawn sheet.

use crate::first_stroke::{south, start, u_channel};
use brake_base::{Box3, Gauge, Half, Quarter, Reason, Rect, V3};
use handling_cost::is_action_at;
use machine_file::Fixed;
use sector_geom::{Sector, Sweep};
use sheet_views::{
    DrawnBox, Finger, Fingers, Hazard, Struck, Swept, Tool, Warning, die_boxes, drawing_of,
    fingers_at, lower_tools, side_area, swept_by, upper_tools, warnings,
};
use std::test::Fail;

fn rect(y0: i64, y1: i64, z0: i64, z1: i64) -> Rect {
    Rect { y0, y1, z0, z1 }
}

/// A box in line with the station, over the whole of it.
fn drawn(id: u8, moves: bool, side: Rect) -> DrawnBox {
    let lo = V3 {
        x: 200_000,
        y: side.y0,
        z: side.z0,
    };
    let hi = V3 {
        x: 300_000,
        y: side.y1,
        z: side.z1,
    };
    DrawnBox {
        id,
        body: Box3 { lo, hi },
        moves,
        in_line: true,
    }
}

fn tool(index: u8, x0: i64, x1: i64, rect: Rect) -> Tool {
    Tool {
        index,
        body: Fixed { x0, x1, rect },
    }
}

#[test]
fn part(rt: HostRuntime) -> Result<(), Fail> {
    let job = u_channel(rt.alloc())?;
    let key = start();
    let action = south();
    assert!(rt; is_action_at(&job, &key, action));
    let drawing = drawing_of(&job, &key, action);
    assert!(rt; drawing.line == (200_000, 300_000));
    let web = drawn(0, false, rect(0, 56_162, -2_000, 0));
    let north = drawn(1, false, rect(56_162, 84_243, -2_000, 0));
    let before = [web, north, drawn(2, true, rect(-28_081, 0, -2_000, 0))];
    let after = [
        web,
        north,
        drawn(2, true, rect(-1_919, 81, -81, 28_000)),
        drawn(14, true, rect(-1_919, 0, -2_000, -81)),
    ];
    assert!(rt; drawing.before.as_slice() == &before[..]);
    assert!(rt; drawing.after.as_slice() == &after[..]);
    Ok(())
}

#[test]
fn fingers(rt: HostRuntime) -> Result<(), Fail> {
    let job = u_channel(rt.alloc())?;
    let key = start();
    let action = south();
    assert!(rt; is_action_at(&job, &key, action));
    let drawing = drawing_of(&job, &key, action);
    assert!(rt; drawing.pose.boxes.len() == 3 && job.stages() == 1);
    let gauge = Gauge {
        left_face: 1,
        right_face: 1,
    };
    let fingers = fingers_at(&job, &drawing.pose, gauge);
    assert!(rt; fingers.edge == 84_243);
    assert!(rt;
        fingers.left.lo
            == V3 {
                x: 205_000,
                y: 84_243,
                z: -12_000
            }
    );
    assert!(rt;
        fingers.left.hi
            == V3 {
                x: 215_000,
                y: 104_243,
                z: 10_000
            }
    );
    assert!(rt; (fingers.right.lo.x, fingers.right.hi.x) == (285_000, 295_000));
    let area = side_area(&job, 0, &drawing.pose, Some(fingers));
    assert!(rt; area == rect(-28_081, 104_243, -18_000, 60_173));
    Ok(())
}

#[test]
fn tools(rt: HostRuntime) -> Result<(), Fail> {
    let job = u_channel(rt.alloc())?;
    assert!(rt; job.stages() == 1);
    let upper = [
        tool(0, 0, 3_000_000, rect(-60_000, 60_000, 100_000, 400_000)),
        tool(1, 200_000, 300_000, rect(-6_000, 6_000, 6_000, 100_000)),
    ];
    let lower = [
        tool(0, 0, 3_000_000, rect(-30_000, 30_000, -360_000, -60_000)),
        tool(1, 200_000, 300_000, rect(-20_000, -8_000, -60_000, 0)),
        tool(2, 200_000, 300_000, rect(-8_000, 8_000, -60_000, -8_000)),
        tool(3, 200_000, 300_000, rect(8_000, 20_000, -60_000, 0)),
    ];
    assert!(rt; upper_tools(&job, 0).as_slice() == &upper[..]);
    assert!(rt; lower_tools(&job, 0).as_slice() == &lower[..]);
    assert!(rt; die_boxes(&job).as_slice() == &lower[1..]);
    Ok(())
}

/// A finger over a range of the bed and a range behind the bend line, as high as on the U channel.
fn finger(along: (i64, i64), behind: (i64, i64)) -> Box3 {
    Box3 {
        lo: V3 {
            x: along.0,
            y: behind.0,
            z: -12_000,
        },
        hi: V3 {
            x: along.1,
            y: behind.1,
            z: 10_000,
        },
    }
}

/// Fingers 10 mm behind the bend line: the left one stands in the die, the right one half beside the
/// bed. Farther behind, on the bed, nothing is to be said.
#[test]
fn hazards(rt: HostRuntime) -> Result<(), Fail> {
    let job = u_channel(rt.alloc())?;
    let near = Fingers {
        edge: 10_000,
        left: finger((205_000, 215_000), (10_000, 30_000)),
        right: finger((2_995_000, 3_005_000), (10_000, 30_000)),
    };
    let expected = [
        Warning {
            finger: Finger::Left,
            hazard: Hazard::Die(0),
        },
        Warning {
            finger: Finger::Right,
            hazard: Hazard::BesideBed,
        },
    ];
    assert!(rt; warnings(&job, &near).as_slice() == &expected[..]);
    let far = Fingers {
        edge: 84_243,
        left: finger((205_000, 215_000), (84_243, 104_243)),
        right: finger((285_000, 295_000), (84_243, 104_243)),
    };
    assert!(rt; warnings(&job, &far).is_empty());
    Ok(())
}

/// The south flange, which lies in front of the line: it is looked at mirrored, and widened by 81.
#[test]
fn swept_flange(rt: HostRuntime) -> Result<(), Fail> {
    let job = u_channel(rt.alloc())?;
    let key = start();
    let action = south();
    assert!(rt; is_action_at(&job, &key, action));
    let drawing = drawing_of(&job, &key, action);
    assert!(rt; job.stages() == 1);
    let expected = Swept {
        id: 2,
        half: Half::Front,
        body: rect(-28_081, 0, -2_000, 0),
        sweep: Sweep::Eighth,
        cover: Sector {
            near2: 0,
            far2: 797_098_244,
            lower: (0, -2_000),
            upper: (28_162, 28_162),
        },
        struck: Struck::Body(rect(-6_000, 6_000, 6_000, 100_000)),
    };
    let punch = Reason::Upper(2, Quarter::Q4, 1);
    assert!(rt; swept_by(&job, 0, &drawing.pose, punch) == Some(expected));
    let nose = swept_by(&job, 0, &drawing.pose, Reason::Nose(2, Quarter::Q4, 0));
    assert!(rt;
        nose == Some(Swept {
            struck: Struck::Nose(6_000),
            ..expected
        })
    );
    let above = Reason::Upper(2, Quarter::Q1, 1);
    assert!(rt; swept_by(&job, 0, &drawing.pose, above).is_none());
    assert!(rt; swept_by(&job, 0, &drawing.pose, Reason::Cover).is_none());
    Ok(())
}
