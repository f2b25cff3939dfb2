//! Values from outside: flanges beside a punch, at the limit and one micrometre beyond, and the two halves of a sheet.

ghost use Rattle.sector_geom.specs.Plane.{HasInterior, IsInRange};
ghost use Rattle.sector_geom.specs.Pieces.{LiesIn};

use crate::asserts::assert_equal;
use brake_base::{Quarter, Rect};
use sector_geom::{Sweep, clear, clear_nose, cover, free, split, widened};

const PUNCH: Rect = Rect {
    y0: -6000,
    y1: 6000,
    z0: 6000,
    z1: 100000,
};

/// The cross section of a flange that stands up 56000 behind the bend line.
const FLANGE: Rect = Rect {
    y0: 56000,
    y1: 58162,
    z0: 0,
    z1: 28000,
};

/// A wall that stands up 10000 behind the bend line.
const WALL: Rect = Rect {
    y0: 10000,
    y1: 12000,
    z0: 0,
    z1: 30000,
};

#[test]
fn a_low_flange_clears_the_punch(rt: HostRuntime) {
    let sector = cover(FLANGE, Quarter::Q1, Sweep::Eighth);
    assert_equal(&rt, &sector.near2, &3136000000);
    assert_equal(&rt, &sector.far2, &4166818244);
    assert_equal(&rt, &sector.lower, &(58162, 0));
    assert_equal(&rt, &sector.upper, &(28000, 84000));
    assert!(rt; clear(&sector, &PUNCH));
    assert!(rt; clear_nose(&sector, 6000));
}

#[test]
fn a_high_flange_meets_the_punch(rt: HostRuntime) {
    let sector = cover(
        Rect {
            z1: 78000,
            ..FLANGE
        },
        Quarter::Q1,
        Sweep::Eighth,
    );
    assert_equal(&rt, &sector.upper, &(-22000, 134000));
    assert!(rt; !clear(&sector, &PUNCH));
}

#[test]
fn one_micrometre_decides(rt: HostRuntime) {
    let low = cover(
        Rect {
            z1: 45104,
            ..FLANGE
        },
        Quarter::Q1,
        Sweep::Eighth,
    );
    let high = cover(
        Rect {
            z1: 45105,
            ..FLANGE
        },
        Quarter::Q1,
        Sweep::Eighth,
    );
    assert_equal(&rt, &low.near2, &3136000000);
    assert_equal(&rt, &low.upper, &(10896, 101104));
    assert_equal(&rt, &high.upper, &(10895, 101105));
    assert!(rt; clear(&low, &PUNCH));
    assert!(rt; !clear(&high, &PUNCH));
}

#[test]
fn one_half_of_the_sheet_meets_the_other(rt: HostRuntime) {
    let sector = cover(WALL, Quarter::Q1, Sweep::Fourth);
    assert_equal(&rt, &sector.near2, &100000000);
    assert_equal(&rt, &sector.far2, &1044000000);
    assert_equal(&rt, &sector.lower, &(12000, 0));
    assert_equal(&rt, &sector.upper, &(-30000, 10000));
    assert!(rt;
        !clear(
            &sector,
            &Rect {
                y0: -12000,
                y1: -10000,
                ..WALL
            }
        )
    );
    assert!(rt;
        clear(
            &sector,
            &Rect {
                y0: -40000,
                y1: -33000,
                ..WALL
            }
        )
    );
}

#[test]
fn a_half_does_not_grow_past_the_bend_line(rt: HostRuntime) {
    assert_equal(&rt, &widened(Rect { y0: 0, ..WALL }, 162).y0, &0);
    assert_equal(&rt, &widened(WALL, 162).y1, &12162);
    let pieces = split(PUNCH);
    assert_equal(&rt, &pieces[0], &Some(Rect { y0: 0, ..PUNCH }));
    assert_equal(&rt, &pieces[1], &Some(Rect { y1: 0, ..PUNCH }));
    assert_equal(&rt, &pieces[2], &None);
    assert_equal(&rt, &pieces[3], &None);
}

/// The least depth up to 12 at which the piece is free of the rectangle.
fn least_depth(piece: Rect, quarter: Quarter, sweep: Sweep, other: &Rect) -> Option<u8>
    requires in_range { IsInRange piece }
    requires in_quarter { LiesIn quarter piece }
    requires interior { HasInterior piece }
    requires other_in_range { IsInRange other.now }
    requires other_interior { HasInterior other.now }
{
    for depth in 0..13 {
        if free(piece, quarter, sweep, other, depth) {
            return Some(depth);
        }
    }
    None
}

/// The cross section of a web that reaches far behind the bend line.
const WEB: Rect = Rect {
    y0: 2000,
    y1: 396000,
    z0: 0,
    z1: 23500,
};

#[test]
fn a_web_is_free_in_four_parts(rt: HostRuntime) {
    let punch = Rect {
        y0: -20000,
        y1: 20000,
        z0: 90000,
        z1: 190000,
    };
    let beam = Rect {
        y0: -60000,
        y1: 60000,
        z0: 190000,
        z1: 590000,
    };
    let (quarter, sweep) = (Quarter::Q1, Sweep::Eighth);
    assert_equal(&rt, &least_depth(WEB, quarter, sweep, &punch), &Some(3));
    assert_equal(&rt, &least_depth(WEB, quarter, sweep, &beam), &Some(2));
}

#[test]
fn the_parts_of_a_web_are_clear(rt: HostRuntime) {
    let first = cover(
        Rect {
            y0: 2000,
            y1: 51250,
            ..WEB
        },
        Quarter::Q1,
        Sweep::Eighth,
    );
    let second = cover(
        Rect {
            y0: 51250,
            y1: 100500,
            ..WEB
        },
        Quarter::Q1,
        Sweep::Eighth,
    );
    assert_equal(&rt, &first.far2, &3178812500);
    assert_equal(&rt, &second.near2, &2626562500);
    assert_equal(&rt, &second.upper, &(27750, 74750));
}

#[test]
fn a_hanging_flange_is_cut_upwards(rt: HostRuntime) {
    let flange = Rect {
        y0: 37000,
        y1: 38500,
        z0: -114000,
        z1: 0,
    };
    let bed = Rect {
        y0: -30000,
        y1: 30000,
        z0: -141500,
        z1: -55500,
    };
    assert_equal(
        &rt,
        &least_depth(flange, Quarter::Q4, Sweep::Eighth, &bed),
        &Some(3),
    );
}

#[test]
fn a_wall_that_meets_is_free_at_no_depth(rt: HostRuntime) {
    let opposite = Rect {
        y0: -12000,
        y1: -10000,
        ..WALL
    };
    let low = Rect {
        y0: -8000,
        y1: 6000,
        z0: 5000,
        z1: 7000,
    };
    let (quarter, sweep) = (Quarter::Q1, Sweep::Fourth);
    assert_equal(&rt, &least_depth(WALL, quarter, sweep, &opposite), &None);
    assert_equal(&rt, &least_depth(WALL, quarter, sweep, &low), &Some(2));
}

#[test]
fn a_middle_below_0_is_rounded_down(rt: HostRuntime) {
    let piece = Rect {
        y0: -13,
        y1: -4,
        z0: -17,
        z1: -8,
    };
    let other = Rect {
        y0: -10,
        y1: -8,
        z0: -6,
        z1: -2,
    };
    assert_equal(
        &rt,
        &least_depth(piece, Quarter::Q3, Sweep::Eighth, &other),
        &Some(1),
    );
}
