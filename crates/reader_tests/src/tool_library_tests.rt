//! A tools file of one row of each kind, and what becomes of it when a line is changed.

use crate::key_rows::{OTHER_LINES, cell};
use allowance::Factor;
use brake_base::Rect;
use std::alloc::{AllocError, Global};
use std::test::Fail;
use tool_library::{ToolFault, read_tools};

/// The allow row has table 1, the punch table 2, the die table 3 and the load row table 4.
const TOOLS: &str = "[[allow]]
material = 'S235'
thickness = 2000
radius = 1500
k = 650
[[punch]]
name = 'P100'
height = 100000
nose = 6000
body = [[-6000, 6000, 6000, 100000]]
sections = [[100000, 2]]
limit = 700
[[die]]
name = 'D16'
height = 60000
v = 16000
least_flange = 11000
body = [[-20000, -8000, -60000, 0]]
sections = [[90000, 1]]
limit = 800
[[load]]
material = 'DC01'
thickness = 3000
v = 12000
load = 300
";

/// A row of each key.
const KEYS: &str = "0 | 1 | [[allow]] | [[allow]] | [['allow']] | [allow] | [allow.x] | [[allow.x]]
0 | 2 | [[punch]] | [[punch]] | [['punch']] | [punch] | [punch.x] | [[punch.x]]
0 | 3 | [[die]] | [[die]] | [['die']] | [die] | [die.x] | [[die.x]]
1 | 4 | material = 'S235' | material = '!' | material = '~23456789012345678901234' | material = 1 | material = '' | material = '1234567890123456789012345'
1 | 5 | thickness = 2000 | thickness = 2 | thickness = 50000 | thickness = 2.0 | thickness = 1 | thickness = 50001
1 | 6 | radius = 1500 | radius = 1 | radius = 50000 | radius = '1' | radius = 0 | radius = 50001
1 | 7 | k = 650 | k = 0 | k = 1000 | k = true | k = -1 | k = 1001
1 | 8 | k = 650 | q = 1 | q = 100000 | q = [1] | q = 0 | q = 100001
2 | 9 | name = 'P100' | name = '!' | name = '~23456789012345678901234' | name = 1 | name = 'P 1' | name = '1234567890123456789012345'
2 | 10 | height = 100000 | height = 100000 | height = 1000000 | height = 1.0 | height = 0 | height = 1000001
2 | 11 | nose = 6000 | nose = 0 | nose = 100000 | nose = '0' | nose = -1 | nose = 100001
2 | 12 | body = [[-6000, 6000, 6000, 100000]] | body = [] | body = [[-1000000, 1000000, 0, 100000]] | body = 1 | body = [1, 2, 3, 4] | body = [[1, 2, 3]]
2 | 13 | sections = [[100000, 2]] | sections = [[1, 1], [1, 1]] | sections = [[10000000, 1000]] | sections = [1, 1] | sections = [[0, 1]] | sections = [[1, 1001]]
3 | 14 | name = 'D16' | name = '!' | name = 'P100' | name = 1 | name = '' | name = '1234567890123456789012345'
3 | 15 | height = 60000 | height = 60000 | height = 1000000 | height = 1.0 | height = 0 | height = 1000001
3 | 16 | v = 16000 | v = 2 | v = 1000000 | v = 2.0 | v = 0 | v = 1000002
3 | 17 | least_flange = 11000 | least_flange = 0 | least_flange = 1000000 | least_flange = '0' | least_flange = -1 | least_flange = 1000001
3 | 18 | body = [[-20000, -8000, -60000, 0]] | body = [] | body = [[-1000000, 1000000, -60000, 0]] | body = 1 | body = [[]] | body = [[1, 2, 3, 4, 5]]
3 | 19 | sections = [[90000, 1]] | sections = [] | sections = [[1, 1000]] | sections = [[1, true]] | sections = [[10000001, 1]] | sections = [[1, 0]]
0 | 20 | [[load]] | [[load]] | [['load']] | [load] | [load.x] | [[load.x]]
4 | 21 | material = 'DC01' | material = '!' | material = '~23456789012345678901234' | material = 1 | material = '' | material = '1234567890123456789012345'
4 | 22 | thickness = 3000 | thickness = 2 | thickness = 50000 | thickness = 2.0 | thickness = 1 | thickness = 50001
4 | 23 | v = 12000 | v = 2 | v = 1000000 | v = 3 | v = 0 | v = 1000002
4 | 24 | load = 300 | load = 1 | load = 1000000 | load = '1' | load = 0 | load = 1000001
2 | 25 | limit = 700 | limit = 0 | limit = 1000000 | limit = 0.0 | limit = -1 | limit = 1000001
3 | 26 | limit = 800 | limit = 0 | limit = 1000000 | limit = [0] | limit = -1 | limit = 1000001";

/// A line of the file, another in its place, and the refusal that this brings.
const REFUSALS: [(&str, &str, ToolFault); 14] = [
    ("k = 650", "k =", ToolFault::NotToml),
    (
        "[[allow]]",
        "x = 1\n[[allow]]",
        ToolFault::UnknownKey { table: 0 },
    ),
    (
        "k = 650",
        "k = 650\nx = 1",
        ToolFault::UnknownKey { table: 1 },
    ),
    (
        "k = 650",
        "k = 650\nq = 1",
        ToolFault::BadField { table: 1, key: 7 },
    ),
    ("k = 650", "", ToolFault::BadField { table: 1, key: 7 }),
    (
        "[[-6000, 6000, 6",
        "[[6000, 6000, 6",
        ToolFault::BadBox { table: 2 },
    ),
    (
        "[[-6000, 6000, 6",
        "[[-6000, 6000, -1",
        ToolFault::BadBox { table: 2 },
    ),
    (
        "6000, 100000]]",
        "6000, 100001]]",
        ToolFault::BadBox { table: 2 },
    ),
    ("[[-20000", "[[-1000001", ToolFault::BadBox { table: 3 }),
    ("-60000, 0]]", "-60000, 1]]", ToolFault::BadBox { table: 3 }),
    ("-60000, 0]]", "-60001, 0]]", ToolFault::BadBox { table: 3 }),
    (
        "sections = [[100000, 2]]",
        "sections = [[1,1],[1,1],[1,1],[1,1],[1,1],[1,1],[1,1],[1,1],[1,1],[1,1],[1,1],[1,1],[1,1],[1,1],[1,1],[1,1],[1,1]]",
        ToolFault::TooMany { table: 2 },
    ),
    (
        "[[-20000, -8000, -60000, 0]]",
        "[[0,1,-1,0],[0,1,-1,0],[0,1,-1,0],[0,1,-1,0],[0,1,-1,0],[0,1,-1,0],[0,1,-1,0],[0,1,-1,0],[0,1,-1,0]]",
        ToolFault::TooMany { table: 3 },
    ),
    (
        "[[die]]",
        "[[punch]]\nname = 'P100'\nheight = 1\nnose = 0\nbody = []\nsections = []\n[[die]]",
        ToolFault::SameName { table: 3 },
    ),
];

/// The refusal of the file with another line in place of one.
fn refusal(alloc: Global, line: &str, other: &str) -> Result<Option<ToolFault>, AllocError> {
    let text = TOOLS.replacen(alloc, line, other, 1)?;
    Ok(read_tools(alloc, text.as_bytes()).err())
}

#[test]
fn each_key_takes_its_range_alone(rt: HostRuntime) -> Result<(), Fail> {
    for row in KEYS.lines() {
        let table = cell(row, 0).parse::<u16>()?;
        let key = cell(row, 1).parse::<u8>()?;
        for (place, may_stand) in OTHER_LINES {
            let found = refusal(rt.alloc(), cell(row, 2), cell(row, place))?;
            let bad = ToolFault::BadField { table, key };
            assert!(rt; found == (!may_stand).then_some(bad), "{row}");
        }
    }
    Ok(())
}

#[test]
fn refusals(rt: HostRuntime) -> Result<(), Fail> {
    for (line, other, fault) in REFUSALS {
        assert!(rt; refusal(rt.alloc(), line, other)? == Some(fault));
    }
    Ok(())
}

#[test]
fn the_greatest_number_of_rows_of_a_kind(rt: HostRuntime) -> Result<(), Fail> {
    let rows = [
        ("[[allow]]\n", 256, 257, 4),
        ("[[punch]]\n", 32, 33, 9),
        ("[[die]]\n", 32, 33, 14),
        ("[[load]]\n", 256, 257, 21),
    ];
    for (table, few, many, key) in rows {
        let few = table.repeat(rt.alloc(), few)?;
        let many = table.repeat(rt.alloc(), many)?;
        let fault = ToolFault::BadField { table: 1, key };
        assert!(rt; read_tools(rt.alloc(), few.as_bytes()).err() == Some(fault));
        let fault = ToolFault::TooMany { table: 0 };
        assert!(rt; read_tools(rt.alloc(), many.as_bytes()).err() == Some(fault));
    }
    Ok(())
}

#[test]
fn the_tools_of_a_file(rt: HostRuntime) -> Result<(), ToolFault> {
    let tools = read_tools(rt.alloc(), TOOLS.as_bytes())?;
    let row = tools.allow.rows.first().expect(&rt, "an allow row");
    assert!(rt; row.material.as_str() == "S235" && row.thickness == 2000);
    assert!(rt; row.radius == 1500 && row.factor == Factor::K(650));
    let punch = tools.punches.first().expect(&rt, "a punch");
    assert!(rt; punch.is_valid() && punch.name.as_str() == "P100" && punch.height == 100_000);
    assert!(rt; punch.nose == 6000 && punch.limit == 700 && punch.body.len() == 1);
    assert!(rt; punch.sections.as_slice().first() == Some(&(100_000, 2)));
    let die = tools.dies.first().expect(&rt, "a die");
    assert!(rt; die.is_valid() && die.v == 16_000 && die.least_flange == 11_000);
    let body = Rect {
        y0: -20_000,
        y1: -8000,
        z0: -60_000,
        z1: 0,
    };
    assert!(rt; die.body.as_slice().first() == Some(&body) && die.limit == 800);
    let load = tools.loads.first().expect(&rt, "a load row");
    assert!(rt; load.thickness == 3000 && load.v == 12_000 && load.load == 300);
    Ok(())
}
