//! The L section, and what becomes of it when a line is changed.

use crate::asserts::assert_equal;
use brake_base::Name;
use part_file::{
    Dir, Face, GREATEST_THICKNESS, Joint, LEAST_THICKNESS, PartFault, Side, bent, path, read_part,
    side_of,
};
use std::alloc::{AllocError, Global};
use std::test::Fail;

const SHEET: &str = "material = \"S235\"\nthickness = 2000\nradius = 2000\n";

const FACES: &str =
    "[[face]]\nname = \"base\"\nwidth = 100000\nlength = 50000\n[[face]]\nname = \"leg\"\non = \"base\"\nside = \"N\"\nat = 0\nwidth = 100000\nlength = 30000\ndir = \"up\"\n";

/// The part file of the L section.
fn l_section(alloc: Global) -> Result<String, AllocError> {
    format!(in alloc; "{SHEET}{FACES}")
}

/// The refusal of a key of a table.
fn bad(table: u8, key: u8) -> PartFault {
    PartFault::BadField { table, key }
}

/// The refusal of the L section with one text in place of another.
fn refusal(alloc: Global, old: &str, new: &str) -> Result<Option<PartFault>, AllocError> {
    let text = l_section(alloc)?.replacen(alloc, old, new, 1)?;
    Ok(read_part(alloc, text.as_bytes()).err())
}

/// A part of so many faces, each on N of the one before.
fn staircase(alloc: Global, faces: u8) -> Result<String, AllocError> {
    let mut text = String::new(alloc);
    text.push_str(SHEET)?;
    for face in 0..faces {
        text.push_str(&format!(in alloc;
            "[[face]]\nname = \"f{face}\"\nwidth = 20000\nlength = 30000\n"
        )?)?;
        if face > 0 {
            text.push_str(&format!(in alloc;
                "on = \"f{}\"\nside = \"N\"\nat = 0\ndir = \"up\"\n",
                face - 1
            )?)?;
        }
    }
    Ok(text)
}

/// Whether the part of the text is valid with this joint of its last face.
fn is_valid_on(alloc: Global, text: &str, joint: Option<Joint>) -> Result<bool, PartFault> {
    let mut part = read_part(alloc, text.as_bytes())?;
    if let Some(face) = part.faces.pop() {
        let _ = part.faces.try_push(Face { joint, ..face });
    }
    Ok(part.is_valid())
}

/// A bend upwards on that side of a face.
fn upwards(on: u8, side: Side, at: i64) -> Option<Joint> {
    Some(Joint {
        on,
        side,
        at,
        dir: Dir::Up,
    })
}

#[test]
fn reads_the_l_section(rt: HostRuntime) -> Result<(), Fail> {
    let alloc = rt.alloc();
    let part = read_part(alloc, l_section(alloc)?.as_bytes())?;
    assert_equal(&rt, &part.material.as_str(), &"S235");
    assert_equal(&rt, &part.thickness, &2000);
    assert_equal(&rt, &part.radius, &2000);
    assert!(rt; part.faces.len() == 2);
    let leg = part.faces[1];
    assert_equal(&rt, &leg.name.as_str(), &"leg");
    assert_equal(&rt, &leg.length, &30000);
    assert_equal(&rt, &leg.joint, &upwards(0, Side::N, 0));
    Ok(())
}

/// The text of each key, with a value of another type, and with one just out of range; its table
/// and its number.
const KEYS: [(&str, &str, &str, u8, u8); 11] = [
    ("\"S235\"", "235", "\"ABCDEFGHIJKLMNOPQRSTUVWXY\"", 0, 1),
    ("2000\nr", "\"2000\"\nr", "50001\nr", 0, 2),
    ("radius = 2000", "radius = 2000.0", "radius = 0", 0, 3),
    (FACES, "face = 1", "face = []", 0, 4),
    ("\"leg\"", "1", "\"\"", 2, 5),
    ("on = \"base\"", "on = 0", "on = \"\"", 2, 6),
    ("side = \"N\"", "side = 0", "side = \"n\"", 2, 7),
    ("at = 0", "at = \"0\"", "at = -1", 2, 8),
    ("0\nwidth = 100000", "0\nwidth = []", "0\nwidth = 0", 2, 9),
    ("30000", "[30000]", "10000001", 2, 10),
    ("\"up\"", "1", "\"Up\"", 2, 11),
];

/// The refusal of a key that is just out of range: a place and the sizes are tested over all faces.
fn out_of_range(table: u8, key: u8) -> PartFault {
    match key {
        8 | 9 | 10 => PartFault::BadSize { face: 1 },
        _ => bad(table, key),
    }
}

#[test]
fn refuses_by_key(rt: HostRuntime) -> Result<(), Fail> {
    let alloc = rt.alloc();
    for (text, other_type, beyond, table, key) in KEYS {
        assert_equal(
            &rt,
            &refusal(alloc, text, other_type)?,
            &Some(bad(table, key)),
        );
        assert_equal(
            &rt,
            &refusal(alloc, text, beyond)?,
            &Some(out_of_range(table, key)),
        );
    }
    Ok(())
}

#[test]
fn refuses_by_rule(rt: HostRuntime) -> Result<(), Fail> {
    let alloc = rt.alloc();
    let rows = [
        ("material", "= 1\n", PartFault::NotToml),
        ("at = 0\n", "", bad(2, 8)),
        (
            "[[face]]",
            "colour = 1\n[[face]]",
            PartFault::UnknownKey { table: 0 },
        ),
        (
            "name = \"base\"",
            "name = \"base\"\nat = 0",
            PartFault::UnknownKey { table: 1 },
        ),
        ("\"leg\"", "\"base\"", PartFault::SameName { face: 1 }),
        (
            "on = \"base\"",
            "on = \"leg\"",
            PartFault::UnknownParent { face: 1 },
        ),
        ("at = 0", "at = 1", PartFault::BadSize { face: 1 }),
        (
            "thickness = 2000",
            "thickness = 1501",
            PartFault::OddThickness,
        ),
    ];
    for (old, new, fault) in rows {
        assert_equal(&rt, &refusal(alloc, old, new)?, &Some(fault));
    }
    Ok(())
}

#[test]
fn thirteen_faces_and_fourteen(rt: HostRuntime) -> Result<(), Fail> {
    let alloc = rt.alloc();
    let thirteen = staircase(alloc, 13)?;
    let part = read_part(alloc, thirteen.as_bytes())?;
    assert!(rt; part.faces.len() == 13);
    assert!(rt; bent(&part, 4, Side::S));
    assert!(rt; !bent(&part, 12, Side::N));
    assert!(rt; side_of(&part, 5, 12));
    assert!(rt; !side_of(&part, 5, 4));
    assert_equal(&rt, &path(&part, 3, 1).as_slice(), &[3, 2].as_slice());
    assert_equal(&rt, &path(&part, 1, 3).as_slice(), &[2, 3].as_slice());
    let fourteen = staircase(alloc, 14)?;
    assert_equal(
        &rt,
        &read_part(alloc, fourteen.as_bytes()).err(),
        &Some(PartFault::TooMany),
    );
    Ok(())
}

#[test]
fn tells_a_valid_part(rt: HostRuntime) -> Result<(), Fail> {
    let alloc = rt.alloc();
    let mut part = read_part(alloc, l_section(alloc)?.as_bytes())?;
    assert!(rt; part.is_valid());
    part.thickness = GREATEST_THICKNESS;
    assert!(rt; part.is_valid());
    part.thickness = GREATEST_THICKNESS - 1;
    assert!(rt; !part.is_valid());
    part.thickness = LEAST_THICKNESS;
    part.material = Name::from("S 235")?;
    assert!(rt; !part.is_valid());
    let three = staircase(alloc, 3)?;
    let rows = [
        (upwards(1, Side::N, 0), true),
        (upwards(0, Side::S, 0), true),
        (upwards(1, Side::S, 0), false),
        (upwards(2, Side::N, 0), false),
        (upwards(1, Side::N, -1), false),
        (upwards(1, Side::N, i64::MAX), false),
        (None, false),
    ];
    for (joint, valid) in rows {
        assert_equal(&rt, &is_valid_on(alloc, three.as_str(), joint)?, &valid);
    }
    Ok(())
}
