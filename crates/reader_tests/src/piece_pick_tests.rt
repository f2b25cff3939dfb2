//! The worked choices, stocks that wants share, and stocks that don't fit.
ghost use Rattle.std.specs.Prelude.{◌↔◌, IsTrue, All};
ghost use Rattle.tool_library.specs.Tools.{tools_data};
ghost use Rattle.piece_pick.specs.Choice.{IsWant};

use piece_pick::{Picked, Want, pick};
use std::alloc::Global;
use std::test::Fail;
use tool_library::{Tools, read_tools};

/// A want of the only punch and the only die.
fn want(length: i64) -> Want {
    Want {
        punch: 0,
        die: 0,
        length,
    }
}

/// Whether the want's tools are there, and its length is at least 1.
fn is_want(tools: &Tools, want: &Want) -> bool
    ensures { IsTrue result ↔ IsWant (tools_data tools.now) want.now }
{
    usize::from(want.punch) < tools.punches.len()
        && usize::from(want.die) < tools.dies.len()
        && want.length >= 1
}

/// Whether this holds of each want.
fn are_wants(tools: &Tools, wants: &[Want]) -> bool
    ensures { IsTrue result → All (IsWant (tools_data tools.now)) wants.now }
{
    wants.iter().all(|want| is_want(tools, want))
}

/// The first choice for the wants, of one punch and one die with these sections.
fn picked_of(
    alloc: Global,
    of_punch: &str,
    of_die: &str,
    wants: &[Want],
) -> Result<Option<Picked>, Fail> {
    let punch = format!(in alloc; "[[punch]]\nname = \"P\"\nheight = 1000\nnose = 0\nbody = []\n")?;
    let die = format!(in alloc;
        "[[die]]\nname = \"D\"\nheight = 1000\nv = 2\nleast_flange = 0\nbody = []\n"
    )?;
    let text = format!(in alloc; "{punch}sections = {of_punch}\n{die}sections = {of_die}\n")?;
    let tools = read_tools(alloc, text.as_bytes())?;
    if wants.len() > 6 || !are_wants(&tools, wants) {
        return Err(Fail::new("a test's wants aren't wants"));
    }
    Ok(pick(&tools, wants))
}

/// Whether these are the pieces of the want at a place.
fn has_pieces(picked: &Picked, place: usize, pieces: &[i64]) -> bool {
    match picked.as_slice().get(place) {
        Some(own) => own.as_slice() == pieces,
        None => false,
    }
}

const COMMON: &str = "[[100000, 2], [90000, 1], [70000, 1], [60000, 1], [56000, 1], [45000, 1]]";

#[test]
fn worked_choices(rt: HostRuntime) -> Result<(), Fail> {
    let wants = [want(200_000), want(105_000)];
    let picked = picked_of(rt.alloc(), COMMON, COMMON, &wants)?.expect(&rt, "a choice");
    assert!(rt; picked.len() == 2);
    assert!(rt; has_pieces(&picked, 0, &[100_000, 100_000]));
    assert!(rt; has_pieces(&picked, 1, &[60_000, 45_000]));
    let wants = [want(200_000), want(200_000)];
    assert!(rt; picked_of(rt.alloc(), COMMON, COMMON, &wants)?.is_none());
    Ok(())
}

#[test]
fn counts_of_equal_lengths_add_up(rt: HostRuntime) -> Result<(), Fail> {
    let sections = "[[50000, 1], [80000, 1], [50000, 2]]";
    let picked = picked_of(rt.alloc(), sections, sections, &[want(150_000)])?;
    assert!(rt;
        has_pieces(
            &picked.expect(&rt, "a choice"),
            0,
            &[50_000, 50_000, 50_000]
        )
    );
    assert!(rt; picked_of(rt.alloc(), sections, sections, &[want(200_000)])?.is_none());
    Ok(())
}

#[test]
fn both_tools_have_the_pieces(rt: HostRuntime) -> Result<(), Fail> {
    let (of_punch, of_die) = ("[[100000, 2], [50000, 4]]", "[[50000, 4], [25000, 8]]");
    let picked = picked_of(rt.alloc(), of_punch, of_die, &[want(200_000)])?;
    let pieces = [50_000, 50_000, 50_000, 50_000];
    assert!(rt; has_pieces(&picked.expect(&rt, "a choice"), 0, &pieces));
    assert!(rt; picked_of(rt.alloc(), of_punch, of_die, &[want(225_000)])?.is_none());
    Ok(())
}

#[test]
fn wants_of_one_tool_share_its_stock(rt: HostRuntime) -> Result<(), Fail> {
    let sections = "[[70000, 1], [60000, 1], [50000, 1], [40000, 1], [30000, 1]]";
    let wants = [want(110_000), want(100_000)];
    let picked = picked_of(rt.alloc(), sections, sections, &wants)?.expect(&rt, "a choice");
    assert!(rt; has_pieces(&picked, 0, &[60_000, 50_000]));
    assert!(rt; has_pieces(&picked, 1, &[70_000, 30_000]));
    let wants = [want(70_000), want(70_000), want(70_000)];
    assert!(rt; picked_of(rt.alloc(), sections, sections, &wants)?.is_none());
    Ok(())
}

#[test]
fn a_want_has_at_most_32_pieces(rt: HostRuntime) -> Result<(), Fail> {
    let sections = "[[10000, 40]]";
    let picked = picked_of(rt.alloc(), sections, sections, &[want(320_000)])?;
    assert!(rt; has_pieces(&picked.expect(&rt, "a choice"), 0, &[10_000; 32]));
    assert!(rt; picked_of(rt.alloc(), sections, sections, &[want(330_000)])?.is_none());
    Ok(())
}

#[test]
fn a_big_want_of_short_pieces_is_refused_at_once(rt: HostRuntime) -> Result<(), Fail> {
    let sections = "[[5000, 1000], [10000, 1000]]";
    let wants = [want(20_000_000)];
    assert!(rt; picked_of(rt.alloc(), sections, sections, &wants)?.is_none());
    Ok(())
}

#[test]
fn wants_that_are_longer_than_the_stock_are_refused_at_once(rt: HostRuntime) -> Result<(), Fail> {
    let sections = "[[835000, 4], [550000, 4], [500000, 4], [300000, 4], [100000, 8], [20000, 9]]";
    let wants = [
        want(2_500_000),
        want(2_500_000),
        want(2_500_000),
        want(2_500_000),
    ];
    assert!(rt; picked_of(rt.alloc(), sections, sections, &wants)?.is_none());
    Ok(())
}

#[test]
fn a_length_off_the_grid_of_its_pieces_is_refused_at_once(rt: HostRuntime) -> Result<(), Fail> {
    let sections = "[[835000, 32], [550000, 32], [300000, 32], [100000, 32], [15000, 32]]";
    let wants = [want(12_003_000)];
    assert!(rt; picked_of(rt.alloc(), sections, sections, &wants)?.is_none());
    Ok(())
}

#[test]
fn the_last_wants_are_tried_alone(rt: HostRuntime) -> Result<(), Fail> {
    let sections = "[[500000, 4], [300000, 4], [200000, 8], [100000, 8], [10000, 3], [15000, 1]]";
    let wants = [
        want(1_000_000),
        want(2_000_000),
        want(1_115_000),
        want(1_115_000),
    ];
    assert!(rt; picked_of(rt.alloc(), sections, sections, &wants)?.is_none());
    Ok(())
}

#[test]
fn wants_off_a_grid_share_the_pieces_off_it(rt: HostRuntime) -> Result<(), Fail> {
    let long = "[835000, 2], [800000, 2], [550000, 2], [500000, 2], [415000, 2], [300000, 2]";
    let middle = "[200000, 2], [150000, 2], [100000, 2], [80000, 2], [50000, 2]";
    let short = "[40000, 2], [30000, 2], [20000, 2], [15000, 2], [10000, 2]";
    let sections = format!(in rt.alloc(); "[{long}, {middle}, {short}]")?;
    let picked = picked_of(rt.alloc(), &sections, &sections, &[want(1_265_000); 6])?;
    let picked = picked.expect(&rt, "a choice");
    assert!(rt; has_pieces(&picked, 0, &[835_000, 300_000, 100_000, 30_000]));
    Ok(())
}
