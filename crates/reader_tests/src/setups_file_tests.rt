//! A whole setups file, and what becomes of it when a line is changed.

use setup_choice::{OneSetup, SetupFault, read_setups};
use std::alloc::{AllocError, Global};
use std::test::Fail;

/// Setup 0 has table 1 and its stages tables 2 and 3; setup 1 has table 4 and its stage table 5.
const SETUPS: &str = "[[setup]]
name = 'first'
[[setup.stage]]
punch = 'P100'
die = 'D16'
at = 200000
length = 60000
[[setup.stage]]
punch = 'P101'
die = 'D17'
at = 300000
length = 70000
[[setup]]
name = 'second'
[[setup.stage]]
punch = 'P102'
die = 'D18'
at = 400000
length = 80000
";

/// The places of the lines that may stand for a key's or not, and whether each may.
const OTHER_LINES: [(usize, bool); 5] = [(3, true), (4, true), (5, false), (6, false), (7, false)];

/// A row of each key: its table and number, its line in the file, two lines that may stand for it,
/// and three that may not, of another type or just out of range.
const KEYS: &str =
    "1 | 2 | name = 'first' | name = '!' | name = '~23456789012345678901234' | name = 1 | name = '' | name = '1234567890123456789012345'
4 | 2 | name = 'second' | name = '!' | name = '~23456789012345678901234' | name = 1 | name = 'a b' | name = '1234567890123456789012345'
2 | 4 | punch = 'P100' | punch = '!' | punch = '~23456789012345678901234' | punch = 1 | punch = '' | punch = '1234567890123456789012345'
3 | 5 | die = 'D17' | die = '!' | die = '~23456789012345678901234' | die = 1 | die = 'D 1' | die = '1234567890123456789012345'
3 | 6 | at = 300000 | at = -20000000 | at = 20000000 | at = '0' | at = -20000001 | at = 20000001
5 | 6 | at = 400000 | at = -20000000 | at = 20000000 | at = 0.0 | at = -20000001 | at = 20000001
2 | 7 | length = 60000 | length = 1 | length = 20000000 | length = 1.0 | length = 0 | length = 20000001
5 | 7 | length = 80000 | length = 1 | length = 20000000 | length = true | length = 0 | length = 20000001";

/// The cell of a row at a place, counted from 0; an empty text where there is none.
fn cell(row: &str, place: usize) -> &str {
    row.split(" | ").nth(place).unwrap_or("")
}

/// The refusal of the file with another line in place of one.
fn refusal(alloc: Global, line: &str, other: &str) -> Result<Option<SetupFault>, AllocError> {
    let text = SETUPS.replacen(alloc, line, other, 1)?;
    Ok(read_setups(alloc, text.as_bytes()).err())
}

#[test]
fn each_key_takes_its_range_alone(rt: HostRuntime) -> Result<(), Fail> {
    for row in KEYS.lines() {
        let table = cell(row, 0).parse::<u8>()?;
        let key = cell(row, 1).parse::<u8>()?;
        for (place, may_stand) in OTHER_LINES {
            let found = refusal(rt.alloc(), cell(row, 2), cell(row, place))?;
            let bad = SetupFault::BadField { table, key };
            assert!(rt; found == (!may_stand).then_some(bad), "{row}");
        }
    }
    Ok(())
}

/// A line of the file, another in its place, and the refusal that this brings.
const REFUSALS: [(&str, &str, SetupFault); 9] = [
    ("name = 'first'", "name", SetupFault::NotToml),
    (
        "[[setup]]\nname = 'first'",
        "x = 1\n[[setup]]\nname = 'first'",
        SetupFault::UnknownKey { table: 0 },
    ),
    (
        "name = 'first'",
        "name = 'first'\nx = 1",
        SetupFault::UnknownKey { table: 1 },
    ),
    (
        "length = 60000",
        "length = 60000\nx = 1",
        SetupFault::UnknownKey { table: 2 },
    ),
    (
        "length = 80000",
        "length = 80000\nx = 1",
        SetupFault::UnknownKey { table: 5 },
    ),
    (
        "name = 'second'",
        "name = 'first'",
        SetupFault::SameName { setup: 1 },
    ),
    // the keys of a table come before an unknown one, and a table before the next
    (
        "at = 200000\n",
        "x = 1\n",
        SetupFault::BadField { table: 2, key: 6 },
    ),
    (
        "name = 'second'\n",
        "",
        SetupFault::BadField { table: 4, key: 2 },
    ),
    // the tables come before the names
    (
        "[[setup]]\nname = 'second'\n[[setup.stage]]\npunch = 'P102'\n",
        "[[setup]]\nname = 'first'\n[[setup.stage]]\n",
        SetupFault::BadField { table: 5, key: 4 },
    ),
];

#[test]
fn refusals(rt: HostRuntime) -> Result<(), Fail> {
    for (line, other, fault) in REFUSALS {
        assert!(rt; refusal(rt.alloc(), line, other)? == Some(fault));
    }
    Ok(())
}

/// Texts without a setup or a stage, or with something else in its place, and their refusals.
const OTHER_TEXTS: [(&str, SetupFault); 11] = [
    ("", SetupFault::BadField { table: 0, key: 1 }),
    ("setup = []", SetupFault::BadField { table: 0, key: 1 }),
    ("setup = 1", SetupFault::BadField { table: 0, key: 1 }),
    ("[setup]", SetupFault::BadField { table: 0, key: 1 }),
    ("setup = [{}, 1]", SetupFault::BadField { table: 0, key: 1 }),
    (
        "setup = []\nx = 1",
        SetupFault::BadField { table: 0, key: 1 },
    ),
    (
        "setup = [{name = 'a'}]",
        SetupFault::BadField { table: 1, key: 3 },
    ),
    (
        "setup = [{name = 'a', stage = []}]",
        SetupFault::BadField { table: 1, key: 3 },
    ),
    (
        "setup = [{name = 'a', stage = {}}]",
        SetupFault::BadField { table: 1, key: 3 },
    ),
    (
        "setup = [{name = 'a', stage = [{}, 1]}]",
        SetupFault::BadField { table: 1, key: 3 },
    ),
    (
        "setup = [{name = 'a', stage = [{}]}]",
        SetupFault::BadField { table: 2, key: 4 },
    ),
];

#[test]
fn other_texts(rt: HostRuntime) -> Result<(), Fail> {
    for (text, fault) in OTHER_TEXTS {
        assert!(rt; read_setups(rt.alloc(), text.as_bytes()).err() == Some(fault));
    }
    Ok(())
}

/// The refusal of so many setups, each with so many stages.
fn refusal_of(alloc: Global, setups: usize, stages: usize) -> Result<Option<SetupFault>, Fail> {
    let stage = "{punch = 'P', die = 'D', at = 0, length = 1}, ".repeat(alloc, stages)?;
    let mut list = String::new(alloc);
    for i in 0..setups {
        let one = format!(in alloc; "{{name = 's{i}', stage = [{stage}]}}, ")?;
        list.push_str(one.as_str())?;
    }
    let text = format!(in alloc; "setup = [{list}]")?;
    Ok(read_setups(alloc, text.as_bytes()).err())
}

#[test]
fn most_setups_and_stages(rt: HostRuntime) -> Result<(), Fail> {
    assert!(rt; refusal_of(rt.alloc(), 16, 6)?.is_none());
    assert!(rt; refusal_of(rt.alloc(), 17, 1)? == Some(SetupFault::TooMany { table: 0 }));
    assert!(rt; refusal_of(rt.alloc(), 2, 7)? == Some(SetupFault::TooMany { table: 1 }));
    Ok(())
}

#[test]
fn numbers_of_refusals(rt: HostRuntime) -> Result<(), Fail> {
    let fault = SetupFault::Job {
        setup: 1,
        fault: job_setup::JobFault::UnknownTool { stage: 0 },
    };
    assert!(rt; fault.numbers().as_slice() == [6, 1, 3, 0].as_slice());
    let fault = SetupFault::SameName { setup: 15 };
    assert!(rt; fault.numbers().as_slice() == [5, 15].as_slice());
    Ok(())
}

/// The name of a setup, and of its last stage the punch, the die, where it begins and how long it
/// is.
fn last_stage(one: &OneSetup) -> Option<(&str, &str, &str, i64, i64)> {
    let stage = one.stages.as_slice().last()?;
    Some((
        one.name.as_str(),
        stage.punch.as_str(),
        stage.die.as_str(),
        stage.at,
        stage.length,
    ))
}

#[test]
fn the_setups_of_a_file(rt: HostRuntime) -> Result<(), SetupFault> {
    let setups = read_setups(rt.alloc(), SETUPS.as_bytes())?;
    let list = setups.list.as_slice();
    assert!(rt; list.len() == 2 && list[0].stages.len() == 2 && list[1].stages.len() == 1);
    assert!(rt; last_stage(&list[0]) == Some(("first", "P101", "D17", 300_000, 70_000)));
    assert!(rt; last_stage(&list[1]) == Some(("second", "P102", "D18", 400_000, 80_000)));
    Ok(())
}
