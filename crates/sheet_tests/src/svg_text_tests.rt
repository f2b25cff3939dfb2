//! Each call, on texts from outside.

use crate::asserts::assert_equal;
use std::test::Fail;
use svg_text::{Hole, put_decimal, put_line};

#[test]
fn decimals(rt: HostRuntime) -> Result<(), Fail> {
    let cases: [(i64, u8, &[u8]); 10] = [
        (84243, 3, b"84.243"),
        (100_000, 3, b"100"),
        (-500, 3, b"-0.5"),
        (0, 3, b"0"),
        (999, 3, b"0.999"),
        (1001, 3, b"1.001"),
        (-1000, 3, b"-1"),
        (7, 1, b"0.7"),
        (100_020, 5, b"1.0002"),
        (i64::MIN, 6, b"-9223372036854.775808"),
    ];
    for (value, places, text) in cases {
        let mut out = Vec::new(rt.alloc());
        put_decimal(&mut out, value, places)?;
        assert_equal(&rt, &out.as_slice(), &text);
    }
    Ok(())
}

#[test]
fn lines(rt: HostRuntime) -> Result<(), Fail> {
    let mut out = Vec::new(rt.alloc());
    let holes = [
        Hole::Word(b"up"),
        Hole::Number(-3),
        Hole::Decimal {
            value: -20,
            places: 3,
        },
        Hole::Text(b"clip&<hook>'\""),
    ];
    put_line(&mut out, b"<p class=\"~\">~ of ~: ~</p>", &holes)?;
    assert_equal(
        &rt,
        &out.as_slice(),
        &b"<p class=\"up\">-3 of -0.02: clip&amp;&lt;hook&gt;&#39;&quot;</p>\n".as_slice(),
    );
    Ok(())
}
