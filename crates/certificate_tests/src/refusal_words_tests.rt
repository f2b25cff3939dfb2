//! Sentences of printed lines, and lines that have none.

use crate::asserts::assert_equal;
use refusal_words::sentence;
use std::test::Fail;

#[test]
fn sentences(rt: HostRuntime) -> Result<(), Fail> {
    let cases: [(&[u8], &[u8]); 11] = [
        (
            b"refused long 2",
            b"The second file is longer than its limit.",
        ),
        (
            b"refused part 2 3 7",
            b"The part file is refused: in the table of face 2 the key `side` is missing or isn't \"N\", \"E\", \"S\" or \"W\".",
        ),
        (
            b"refused tools 2 4 25",
            b"The tools file is refused: in table 4 (a punch, counted from 1 over allow, punch, die and load) the key `limit` isn't a whole number from 0 to 1000000.",
        ),
        (
            b"refused machine 5 4",
            b"The machine file is refused: the table of stage 1 has a range or a box whose ends are in the wrong order or out of range.",
        ),
        (
            b"refused setups 6 2 2 3 0 4",
            b"The setups file is refused: in setup 2: faces 0 and 4 lie over one another in the blank.",
        ),
        (
            b"refused job 7",
            b"The files make no job: there is no stage.",
        ),
        (
            b"certificate refused 2 0 2 7 13 4 2",
            b"The certificate is refused: step 1 is refused: the corner of bend 1 would hit face 2.",
        ),
        (
            b"certificate refused 4 17 3",
            b"The certificate is refused: action 3 of row 17 has a reason that doesn't hold.",
        ),
        (
            b"certificate refused job",
            b"The certificate is good, but it isn't of these files' job.",
        ),
        (
            b"table refused 2 1 1 5",
            b"The table (file 2) is refused: line 5 of the table isn't one that may stand there.",
        ),
        (
            b"table refused job",
            b"The tables are good, but they are of different jobs.",
        ),
    ];
    for (line, words) in cases {
        let said = sentence(rt.alloc(), line)?.ok_or("a sentence")?;
        assert_equal(&rt, &said.as_slice(), &words);
    }
    Ok(())
}

#[test]
fn lines_without_a_sentence(rt: HostRuntime) -> Result<(), Fail> {
    let cases: [&[u8]; 8] = [
        b"",
        b"refused",
        b"refused long 6",
        b"refused part 2 1 6",
        b"refused job 2 2 0",
        b"refused job 2 2 03",
        b"refused job 7 1",
        b"certificate refused 2 12 1",
    ];
    for line in cases {
        assert!(rt; sentence(rt.alloc(), line)?.is_none());
    }
    Ok(())
}
