//! The worked values.

use allowance::{AllowFault, find, half_deduction};
use part_file::read_part;
use std::alloc::Global;
use std::test::Fail;
use test_fixtures::{L_SECTION, TOOLS};
use tool_library::read_tools;
use unfolder::{FlatRect, extent, unfold};

#[test]
fn half_deductions(rt: HostRuntime) {
    assert!(rt; half_deduction(2000, 2000, 650) == 1919);
    assert!(rt; half_deduction(2000, 1000, 801) == 1115);
}

/// The extent of the L section's blank, where the shop's allow row has this entry in place of `k`.
fn extent_by(alloc: Global, entry: &str) -> Result<Result<FlatRect, AllowFault>, Fail> {
    let text = TOOLS.replacen(alloc, "k = 650", entry, 1)?;
    let tools = read_tools(alloc, text.as_bytes())?;
    let part = read_part(alloc, L_SECTION.as_bytes())?;
    match find(&tools.allow, &part) {
        Ok(q) => {
            let blank = unfold(&part, q)?;
            Ok(Ok(extent(&blank)))
        }
        Err(fault) => Ok(Err(fault)),
    }
}

#[test]
fn measured_deductions(rt: HostRuntime) -> Result<(), Fail> {
    for (entry, y1) in [
        ("k = 650", Ok(76_162)),
        ("q = 1900", Ok(76_200)),
        ("q = 1000", Ok(78_000)),
        ("q = 900", Err(AllowFault::BelowHalfThickness)),
    ] {
        let found = extent_by(rt.alloc(), entry)?;
        let wanted = y1.map(|y1| FlatRect {
            x0: 0,
            x1: 100_000,
            y0: 0,
            y1,
        });
        assert!(rt; found == wanted);
    }
    Ok(())
}
