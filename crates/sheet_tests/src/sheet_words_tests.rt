//! Words, as a worked page has them.

use crate::asserts::assert_equal;
use brake_base::Turn;
use sheet_words::{looks, movements_of, put_mm, put_plural, put_seconds, put_turn, separator};
use std::test::Fail;

#[test]
fn counts(rt: HostRuntime) -> Result<(), Fail> {
    let mut out = Vec::new(rt.alloc());
    put_plural(&mut out, 1, b"stroke")?;
    put_plural(&mut out, 12, b" state")?;
    put_seconds(&mut out, 205)?;
    put_mm(&mut out, -84_243)?;
    assert_equal(
        &rt,
        &out.as_slice(),
        &b"1 stroke12  states20.5-84.243".as_slice(),
    );
    assert_equal(&rt, &separator(0, 3), &b"".as_slice());
    assert_equal(&rt, &separator(1, 3), &b", ".as_slice());
    assert_equal(&rt, &separator(2, 3), &b" and ".as_slice());
    Ok(())
}

#[test]
fn turns(rt: HostRuntime) -> Result<(), Fail> {
    let cases: [(u8, &[u8], &[u8]); 5] = [
        (0, b"no turn", b"up"),
        (3, b"quarter turn clockwise", b"up"),
        (6, b"turn over, left to right", b"down"),
        (
            7,
            b"quarter turn clockwise, then turn over, front to back",
            b"down",
        ),
        (8, b"tip over to the right", b"to the right"),
    ];
    for (number, words, side) in cases {
        if let Some(turn) = Turn::new(number) {
            let mut out = Vec::new(rt.alloc());
            put_turn(&mut out, turn)?;
            assert_equal(&rt, &out.as_slice(), &words);
            assert_equal(&rt, &looks(turn), &side);
        }
    }
    let over = movements_of(Turn::from_number(6));
    assert_equal(&rt, &over.len(), &1);
    assert_equal(&rt, &over.as_slice()[0].left(), &b"left".as_slice());
    Ok(())
}
