//! Both answers, and a run that fails at its store or in its text.

use crate::asserts::assert_equal;
use brake_io::{MemShelf, MemSink};
use command_runner::{Command, Status, is_form};
use sample_command::{Sample, run_sample};
use std::test::Fail;

#[test]
fn both_answers_and_faults(rt: HostRuntime) -> Result<(), Fail> {
    let alloc = rt.alloc();
    let mut words = Vec::new(alloc);
    for word in ["plan", "part", "out"] {
        words.push(String::from_str(alloc, word)?)?;
    }
    for (sample, call, put, status, stored, text) in [
        (
            Sample::One,
            0,
            0,
            Status::Done,
            Some("one\n"),
            "one\nsheet\n",
        ),
        (
            Sample::Two,
            0,
            0,
            Status::Done,
            Some("two\n"),
            "two\nsheet\n",
        ),
        (Sample::Two, 2, 0, Status::Fault, None, ""),
        (Sample::Two, 0, 2, Status::Fault, Some("two\n"), "two\nshe"),
    ] {
        let mut shelf = MemShelf::new(alloc);
        shelf.add("part", b"sheet\n")?;
        shelf.fail_at(call)?;
        let mut out = MemSink::new(alloc);
        out.fail_at(put, 3);
        if is_form(sample.kinds(), &words) {
            let ended = run_sample(alloc, sample, &words, &mut shelf, &mut out);
            assert_equal(&rt, &ended, &status);
        }
        assert_equal(&rt, &shelf.bytes_of("out"), &stored.map(str::as_bytes));
        assert_equal(&rt, &out.bytes(), &text.as_bytes());
    }
    Ok(())
}
