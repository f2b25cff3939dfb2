//! Each call on a line of a certificate, and on one with a second spelling.

use crate::asserts::assert_equal;
use brake_base::{Back, Mask, Quarter, Reason, Worth};
use cert_words::{
    child, claim, costs_of, gang_of, named, note, row, signed_numbers, split_word, step,
};
use std::test::Fail;

#[test]
fn words_of_the_job(rt: HostRuntime) -> Result<(), Fail> {
    let (keyword, text) = split_word(b"bed -10 3000000");
    assert_equal(&rt, &keyword, &b"bed".as_slice());
    let bed = signed_numbers(text).ok_or("a range")?;
    assert_equal(&rt, &bed.as_slice(), &[-10, 3_000_000].as_slice());
    assert!(rt; signed_numbers(b" -0").is_none());
    let (material, sizes) = named(b" S235 2000 2000 1919").ok_or("a part")?;
    assert_equal(&rt, &material.as_str(), &"S235");
    assert_equal(&rt, &sizes.as_slice(), &[2000, 2000, 1919].as_slice());
    assert!(rt; named(b" web 100000 6e4").is_none());
    let face = child(b" north 0 N 0 100000 30000 up", 1).ok_or("a face")?;
    assert_equal(&rt, &face.width, &100_000);
    assert!(rt; child(b" north 1 N 0 100000 30000 up", 1).is_none());
    assert!(rt; costs_of(&((100, 20), ((-30, 60), (80, 40)))).is_none());
    assert_equal(&rt, &gang_of(1), &Some(true));
    Ok(())
}

#[test]
fn words_behind_the_job(rt: HostRuntime) -> Result<(), Fail> {
    assert_equal(&rt, &claim(b" none"), &Some(Worth::Blocked));
    assert_equal(&rt, &claim(b" 1000000001"), &None);
    let step = step(b" 2 C 0 1 2", 2, 1).ok_or("a step")?;
    assert_equal(&rt, &step.gauge.right_face, &2);
    let (key, worth) = row(b" 2 0 0 130", 2, 1).ok_or("a row")?;
    assert_equal(&rt, &key.mask, &Mask(2));
    assert_equal(&rt, &worth, &Worth::Cost(130));
    assert!(rt; row(b" 3 0 0 130", 2, 1).is_none());
    let (action, reason) = note(b" 1 P 0 4 0 2 63", 2, 1).ok_or("a note")?;
    assert_equal(&rt, &action.back, &Back::Parent);
    assert_equal(&rt, &reason, &Reason::Upper(0, Quarter::Q2, 63));
    assert!(rt; note(b" 1 P 0 5 0 1 1", 2, 1).is_none());
    Ok(())
}
