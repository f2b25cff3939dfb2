//! Blanks worked out by hand.

use crate::asserts::assert_equal;
use part_file::{Dir, read_part};
use std::alloc::Global;
use std::test::Fail;
use test_fixtures::{FLAT_OVERLAP, L_SECTION, PAN};
use unfolder::{BendLine, Blank, FlatFace, FlatRect, UnfoldFault, extent, unfold};

/// The blank of a part with a half deduction of 1,919 micrometres, or with that of half its
/// thickness, and the blank's extent.
fn unfolded(alloc: Global, text: &str) -> Result<Result<(Blank, FlatRect), UnfoldFault>, Fail> {
    let part = read_part(alloc, text.as_bytes())?;
    let q = (part.thickness / 2).max(1919);
    match unfold(&part, q) {
        Ok(blank) => {
            let size = extent(&blank);
            Ok(Ok((blank, size)))
        }
        Err(fault) => Ok(Err(fault)),
    }
}

fn rect(x0: i64, x1: i64, y0: i64, y1: i64) -> FlatRect {
    FlatRect { x0, x1, y0, y1 }
}

fn line(bend: u8, from: (i64, i64), to: (i64, i64)) -> BendLine {
    BendLine {
        bend,
        from,
        to,
        dir: Dir::Up,
    }
}

#[test]
fn l_section(rt: HostRuntime) -> Result<(), Fail> {
    let (blank, size) = unfolded(rt.alloc(), L_SECTION)?.ok().expect(&rt, "a blank");
    assert_equal(&rt, &size, &rect(0, 100_000, 0, 76_162));
    let bends = [line(1, (0, 48_081), (100_000, 48_081))];
    assert_equal(&rt, &blank.bends.as_slice(), &bends.as_slice());
    Ok(())
}

#[test]
fn flanges_on_all_four_sides(rt: HostRuntime) -> Result<(), Fail> {
    let (blank, size) = unfolded(rt.alloc(), PAN)?.ok().expect(&rt, "a blank");
    assert_equal(&rt, &size, &rect(-21_162, 111_162, -21_162, 81_162));
    let faces = [
        FlatFace {
            rect: rect(1919, 88_081, 1919, 58_081),
            turn: 0,
        },
        FlatFace {
            rect: rect(2000, 88_000, 58_081, 81_162),
            turn: 0,
        },
        FlatFace {
            rect: rect(2000, 88_000, -21_162, 1919),
            turn: 2,
        },
        FlatFace {
            rect: rect(88_081, 111_162, 2000, 58_000),
            turn: 3,
        },
        FlatFace {
            rect: rect(-21_162, 1919, 2000, 58_000),
            turn: 1,
        },
    ];
    assert_equal(&rt, &blank.faces.as_slice(), &faces.as_slice());
    let bends = [
        line(1, (2000, 58_081), (88_000, 58_081)),
        line(2, (88_000, 1919), (2000, 1919)),
        line(3, (88_081, 58_000), (88_081, 2000)),
        line(4, (1919, 2000), (1919, 58_000)),
    ];
    assert_equal(&rt, &blank.bends.as_slice(), &bends.as_slice());
    Ok(())
}

#[test]
fn faces_that_overlap(rt: HostRuntime) -> Result<(), Fail> {
    let fault = unfolded(rt.alloc(), FLAT_OVERLAP)?.err();
    assert_equal(&rt, &fault, &Some(UnfoldFault::FlatOverlap { a: 1, b: 4 }));
    Ok(())
}
