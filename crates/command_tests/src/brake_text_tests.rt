//! Each call once, on texts from outside.

use crate::asserts::assert_equal;
use brake_text::{Lines, number, put_number, put_word, signed};
use std::test::Fail;

#[test]
fn words_and_numbers(rt: HostRuntime) -> Result<(), Fail> {
    let mut out = Vec::new(rt.alloc());
    put_word(&mut out, b"at ")?;
    put_number(&mut out, i64::MIN)?;
    assert_equal(&rt, &out.as_slice(), &b"at -9223372036854775808".as_slice());
    assert_equal(
        &rt,
        &number(b"999999999999999999"),
        &Some(999_999_999_999_999_999),
    );
    assert_equal(&rt, &number(b"007"), &None);
    assert_equal(&rt, &signed(b"-17"), &Some(-17));
    assert_equal(&rt, &signed(b"+1"), &None);
    Ok(())
}

#[test]
fn lines_of_a_text(rt: HostRuntime) -> Result<(), Fail> {
    let mut lines = Lines::new(b"end\n\nlast");
    let line = lines.next().ok_or("a line")?;
    assert_equal(&rt, &line.bytes, &b"end".as_slice());
    assert!(rt; line.ended);
    let line = lines.next().ok_or("a line")?;
    assert!(rt; line.bytes.is_empty());
    let line = lines.next().ok_or("a line")?;
    assert_equal(&rt, &line.bytes, &b"last".as_slice());
    assert!(rt; !line.ended);
    assert!(rt; lines.next().is_none());
    Ok(())
}
