//! A whole machine file, and what becomes of it when a line is changed.

use crate::key_rows::{OTHER_LINES, cell};
use brake_base::Rect;
use machine_file::{Costs, Fixed, GaugeRule, MachineFault, are_within, is_bed_range, read_machine};
use std::alloc::{AllocError, Global};
use std::test::Fail;

const MACHINE: &str = "bed = [0, 3000000]
frames = [[0, 100]]
upper = [[0, 3000000, -60000, 60000, 0, 300000]]
lower = [[0, 3000000, -30000, 30000, -300000, 0]]
uncovered = 5000
gang = 1
force = 900000
fine = 10
[gauge]
near = 5000
far = 600000
inset = 6000
finger = 10000
gap = 20000
depth = 30000
above = 40000
below = 50000
[cost]
stroke = 100
quarter = 20
half = 30
flip = 60
roll = 80
stage = 40
[[stage]]
punch = 'P100'
die = 'D16'
at = 200000
pieces = [100000]
";

/// A row of each key.
const KEYS: &str =
    "0 | 1 | bed = [0, 3000000] | bed = [-20000000, 20000000] | bed = [0, 1] | bed = 1 | bed = [1] | bed = [0, 1.0]
0 | 2 | frames = [[0, 100]] | frames = [] | frames = [[-20000000, 20000000]] | frames = [0, 1] | frames = [[0]] | frames = [[0, 1, 2]]
0 | 3 | upper = [[0, 3000000, -60000, 60000, 0, 300000]] | upper = [] | upper = [[0, 1, 0, 1, 0, 20000000]] | upper = 1 | upper = [[0, 1, 0, 1, 0]] | upper = [[0, 1, 0, 1, 0, 1, 1]]
0 | 4 | lower = [[0, 3000000, -30000, 30000, -300000, 0]] | lower = [] | lower = [[0, 1, 0, 1, -20000000, 0]] | lower = 1 | lower = [[0, 1, 0, 1, -1, '']] | lower = [1]
0 | 5 | uncovered = 5000 | uncovered = 0 | uncovered = 1000000 | uncovered = 0.0 | uncovered = -1 | uncovered = 1000001
0 | 6 | [gauge] | [gauge] | ['gauge'] | [[gauge]] | [gauges] | gauge = 1
0 | 7 | [cost] | [cost] | ['cost'] | [[cost]] | [costs] | [[other]]
0 | 8 | [[stage]] | [[stage]] | [['stage']] | [stage] | [stage.x] | [[stage.x]]
1 | 9 | near = 5000 | near = 0 | near = 10000000 | near = 0.0 | near = -1 | near = 10000001
1 | 10 | far = 600000 | far = 0 | far = 10000000 | far = '0' | far = -1 | far = 10000001
1 | 11 | inset = 6000 | inset = 0 | inset = 10000000 | inset = true | inset = -1 | inset = 10000001
1 | 12 | finger = 10000 | finger = 1 | finger = 10000000 | finger = [1] | finger = 0 | finger = 10000001
1 | 13 | gap = 20000 | gap = 0 | gap = 10000000 | gap = 0.0 | gap = -1 | gap = 10000001
1 | 14 | depth = 30000 | depth = 1 | depth = 10000000 | depth = 1.0 | depth = 0 | depth = 10000001
1 | 15 | above = 40000 | above = 0 | above = 10000000 | above = '0' | above = -1 | above = 10000001
1 | 16 | below = 50000 | below = 0 | below = 10000000 | below = 0.0 | below = -1 | below = 10000001
2 | 17 | stroke = 100 | stroke = 0 | stroke = 1000000 | stroke = 0.0 | stroke = -1 | stroke = 1000001
2 | 18 | quarter = 20 | quarter = 0 | quarter = 1000000 | quarter = '0' | quarter = -1 | quarter = 1000001
2 | 19 | half = 30 | half = 0 | half = 1000000 | half = true | half = -1 | half = 1000001
2 | 20 | flip = 60 | flip = 0 | flip = 1000000 | flip = [0] | flip = -1 | flip = 1000001
2 | 21 | roll = 80 | roll = 0 | roll = 1000000 | roll = 0.0 | roll = -1 | roll = 1000001
2 | 22 | stage = 40 | stage = 0 | stage = 1000000 | stage = 'P' | stage = -1 | stage = 1000001
3 | 23 | punch = 'P100' | punch = '!' | punch = '~23456789012345678901234' | punch = 1 | punch = '' | punch = '1234567890123456789012345'
3 | 24 | die = 'D16' | die = '!' | die = '~23456789012345678901234' | die = 1 | die = 'D 1' | die = '1234567890123456789012345'
3 | 25 | at = 200000 | at = -20000000 | at = 20000000 | at = '0' | at = -20000001 | at = 20000001
3 | 26 | pieces = [100000] | pieces = [1] | pieces = [10000000, 1] | pieces = [] | pieces = [0] | pieces = [1, 10000001]
0 | 27 | gang = 1 | gang = 0 | gang = 1 | gang = true | gang = -1 | gang = 2
0 | 28 | force = 900000 | force = 0 | force = 100000000 | force = 1.0 | force = -1 | force = 100000001
0 | 29 | fine = 10 | fine = 0 | fine = 12 | fine = true | fine = -1 | fine = 13";

/// A line of the file, another in its place, and the refusal that this brings.
const REFUSALS: [(&str, &str, MachineFault); 13] = [
    ("bed =", "bed", MachineFault::NotToml),
    ("gang = 1", "x = 1", MachineFault::UnknownKey { table: 0 }),
    (
        "gap = 20000",
        "gap = 1\nx = 1",
        MachineFault::UnknownKey { table: 1 },
    ),
    (
        "roll = 80",
        "roll = 1\nx = 1",
        MachineFault::UnknownKey { table: 2 },
    ),
    (
        "at = 200000",
        "at = 1\nx = 1",
        MachineFault::UnknownKey { table: 3 },
    ),
    (
        "[[0, 100]]",
        "[[1,2],[1,2],[1,2],[1,2],[1,2]]",
        MachineFault::TooMany { table: 0 },
    ),
    (
        "[100000]",
        "[1,1,1,1,1,1,1,1,1,1,1,1,1,1,1,1,1,1,1,1,1,1,1,1,1,1,1,1,1,1,1,1,1]",
        MachineFault::TooMany { table: 3 },
    ),
    (
        "bed = [0, ",
        "bed = [3000000, ",
        MachineFault::BadBox { table: 0 },
    ),
    (
        "bed = [0, ",
        "bed = [-20000001, ",
        MachineFault::BadBox { table: 0 },
    ),
    (
        "[[0, 100]]",
        "[[0, 20000001]]",
        MachineFault::BadBox { table: 0 },
    ),
    (
        "60000, 0, 3",
        "60000, -1, 3",
        MachineFault::BadBox { table: 0 },
    ),
    (
        "-300000, 0]]",
        "-300000, 1]]",
        MachineFault::BadBox { table: 0 },
    ),
    (
        "-30000, 30000",
        "30000, 30000",
        MachineFault::BadBox { table: 0 },
    ),
];

/// The refusal of the file with another line in place of one.
fn refusal(alloc: Global, line: &str, other: &str) -> Result<Option<MachineFault>, AllocError> {
    let text = MACHINE.replacen(alloc, line, other, 1)?;
    Ok(read_machine(alloc, text.as_bytes()).err())
}

#[test]
fn each_key_takes_its_range_alone(rt: HostRuntime) -> Result<(), Fail> {
    for row in KEYS.lines() {
        let table = cell(row, 0).parse::<u8>()?;
        let key = cell(row, 1).parse::<u8>()?;
        for (place, may_stand) in OTHER_LINES {
            let found = refusal(rt.alloc(), cell(row, 2), cell(row, place))?;
            let bad = MachineFault::BadField { table, key };
            assert!(rt; found == (!may_stand).then_some(bad), "{row}");
        }
    }
    Ok(())
}

#[test]
fn refusals(rt: HostRuntime) -> Result<(), Fail> {
    for (line, other, fault) in REFUSALS {
        assert!(rt; refusal(rt.alloc(), line, other)? == Some(fault));
    }
    Ok(())
}

#[test]
fn the_machine_of_a_file(rt: HostRuntime) -> Result<(), MachineFault> {
    let machine = read_machine(rt.alloc(), MACHINE.as_bytes())?;
    assert!(rt; is_bed_range(&machine.bed) && machine.bed == (0, 3_000_000));
    assert!(rt; machine.frames.as_slice().first() == Some(&(0, 100)));
    let lower = Fixed {
        x0: 0,
        x1: 3_000_000,
        rect: Rect {
            y0: -30_000,
            y1: 30_000,
            z0: -300_000,
            z1: 0,
        },
    };
    assert!(rt; machine.upper.len() == 1 && machine.lower.as_slice().first() == Some(&lower));
    assert!(rt; lower.is_between(-20_000_000, 0) && !lower.is_between(-299_999, 0));
    let gauge = GaugeRule {
        near: 5000,
        far: 600_000,
        inset: 6000,
        finger: 10_000,
        gap: 20_000,
        depth: 30_000,
        above: 40_000,
        below: 50_000,
    };
    assert!(rt; machine.gauge == gauge && gauge.is_valid());
    let cost = Costs {
        stroke: 100,
        quarter: 20,
        half: 30,
        flip: 60,
        roll: 80,
        stage: 40,
    };
    assert!(rt; machine.cost == cost && cost.is_valid());
    let stage = machine.stages.as_slice().first().expect(&rt, "a stage");
    assert!(rt; stage.punch.as_str() == "P100" && stage.die.as_str() == "D16");
    assert!(rt; stage.at == 200_000 && are_within(stage.pieces.as_slice(), 100_000, 100_000));
    assert!(rt;
        machine.gang && machine.force == 900_000 && machine.fine == 10 && machine.uncovered == 5000
    );
    Ok(())
}
