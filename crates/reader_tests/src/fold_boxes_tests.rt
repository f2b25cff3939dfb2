//! Boxes of the folded part worked out by hand.

use crate::asserts::assert_equal;
use brake_base::{Back, Box3, Half, Mask, V3};
use fold_boxes::{PartBox, PoseBox, Shape, attitude, boxes, is_group, pose};
use part_file::read_part;
use std::test::Fail;
use test_fixtures::{TWO_FLANGES, U_CHANNEL};
use unfolder::unfold;

fn body(x: (i64, i64), y: (i64, i64), z: (i64, i64)) -> Box3 {
    Box3 {
        lo: V3 {
            x: x.0,
            y: y.0,
            z: z.0,
        },
        hi: V3 {
            x: x.1,
            y: y.1,
            z: z.1,
        },
    }
}

#[test]
fn u_channel_with_its_second_bend_folded(rt: HostRuntime) -> Result<(), Fail> {
    let part = read_part(rt.alloc(), U_CHANNEL.as_bytes())?;
    let q = (part.thickness / 2).max(1919);
    match unfold(&part, q) {
        Ok(_) => {
            let boxes = boxes(&Shape::new(&part, q), Mask(2));
            let leg = PartBox {
                id: 2,
                body: body((0, 100_000), (0, 2000), (919, 29_000)),
            };
            let corner = PartBox {
                id: 14,
                body: body((0, 100_000), (0, 1919), (-1000, 919)),
            };
            assert_equal(&rt, &boxes.len(), &4);
            assert_equal(&rt, &boxes.as_slice().get(2), &Some(&leg));
            assert_equal(&rt, &boxes.as_slice().get(3), &Some(&corner));
        }
        Err(fault) => panic!(rt; "{fault:?}"),
    }
    Ok(())
}

#[test]
fn the_second_leg_of_a_channel_is_bent(rt: HostRuntime) -> Result<(), Fail> {
    let part = read_part(rt.alloc(), U_CHANNEL.as_bytes())?;
    let q = (part.thickness / 2).max(1919);
    match unfold(&part, q) {
        Ok(_) => {
            let shape = Shape::new(&part, q);
            assert!(rt; is_group(&shape, Mask(2), Mask(1)));
            let pose = pose(&shape, Mask(2), Mask(1), Back::Child, 200_000, 300_000);
            let all = (200_000, 300_000);
            let boxes = [
                (0, Half::Front, body(all, (-56_162, 0), (-2000, 0))),
                (1, Half::Back, body(all, (0, 28_081), (-2000, 0))),
                (2, Half::Front, body(all, (-58_081, -56_081), (-81, 28_000))),
                (14, Half::Front, body(all, (-58_081, -56_162), (-2000, -81))),
            ];
            assert_equal(&rt, &pose.boxes.len(), &4);
            for (found, (id, half, body)) in pose.boxes.as_slice().iter().zip(boxes) {
                assert_equal(&rt, found, &PoseBox { id, half, body });
            }
            assert!(rt; shape.faces() > 1);
            assert_equal(&rt, &attitude(&shape, Mask(2), 1, Back::Child).number(), &0);
            assert_equal(
                &rt,
                &attitude(&shape, Mask(2), 1, Back::Parent).number(),
                &2,
            );
        }
        Err(fault) => panic!(rt; "{fault:?}"),
    }
    Ok(())
}

#[test]
fn flanges_are_bent_in_one_stroke_or_one_alone(rt: HostRuntime) -> Result<(), Fail> {
    let part = read_part(rt.alloc(), TWO_FLANGES.as_bytes())?;
    let q = (part.thickness / 2).max(1919);
    let cases = [
        (3, 0, Half::Front, (200_000, 300_000), (-58_081, 0)),
        (3, 1, Half::Back, (200_000, 245_000), (0, 28_081)),
        (3, 2, Half::Back, (255_000, 300_000), (0, 28_081)),
        (1, 0, Half::Front, (227_500, 327_500), (-58_081, 0)),
        (1, 1, Half::Back, (227_500, 272_500), (0, 28_081)),
        (1, 2, Half::Front, (282_500, 327_500), (0, 28_081)),
    ];
    match unfold(&part, q) {
        Ok(_) => {
            let shape = Shape::new(&part, q);
            for (group, id, half, x, y) in cases {
                assert!(rt; is_group(&shape, Mask(0), Mask(group)));
                let pose = pose(&shape, Mask(0), Mask(group), Back::Child, 200_000, 300_000);
                let body = body(x, y, (-2000, 0));
                let found = pose.boxes.as_slice().get(usize::from(id));
                assert_equal(&rt, &found, &Some(&PoseBox { id, half, body }));
            }
        }
        Err(fault) => panic!(rt; "{fault:?}"),
    }
    Ok(())
}
