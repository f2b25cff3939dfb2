//! The nogoods of worked jobs, against the lines that `why` puts for them.

use brake_base::{Action, Back, Mask, Quarter, Reason};
use handling_cost::{is_action_at, start_key};
use job_setup::Job;
use nogood_book::{Book, Nogood, learn, verify};
use std::alloc::Global;
use std::test::Fail;
use test_fixtures::{L_SECTION, LID, MACHINE, STAGE, TOOLS, U_CHANNEL, job_of};

/// The job of a part on the common machine with these keys more.
fn job_with(alloc: Global, part: &str, keys: &str) -> Result<Job, Fail> {
    let machine = format!(in alloc; "{keys}{MACHINE}{STAGE}")?;
    job_of(alloc, part, TOOLS, &machine)
}

/// A channel whose legs are so long that the second bend isn't free of the first one's leg.
fn long_legs(alloc: Global) -> Result<Job, Fail> {
    let part = U_CHANNEL.replacen(alloc, "30000", "80000", 2)?;
    job_with(alloc, &part, "")
}

/// A lid that is so wide that at depth 1 its walls E and W aren't free of the beam.
fn wide_lid(alloc: Global, keys: &str) -> Result<Job, Fail> {
    let wide = LID.replacen(alloc, "width = 105000", "width = 110000", 1)?;
    let part = wide.replacen(alloc, "101000", "106000", 2)?;
    job_with(alloc, &part, keys)
}

/// Whether the book has these nogoods, in this order.
fn is_book(book: &Book, nogoods: &[Nogood]) -> bool {
    if book.len() as usize != nogoods.len() {
        return false;
    }
    for number in 0..book.len() {
        if book.get(number) != nogoods[number as usize] {
            return false;
        }
    }
    true
}

/// The nogood of these numbers at stage 0.
fn nogood(bend: u8, back: Back, folded: u16, flat: u16, reason: Reason) -> Nogood {
    Nogood {
        action: Action {
            bend,
            back,
            stage: 0,
        },
        reason,
        folded: Mask(folded),
        flat: Mask(flat),
    }
}

/// The leg of this number hits the first punch.
fn leg_hits(leg: u8) -> Reason {
    Reason::Upper(leg, Quarter::Q1, 1)
}

#[test]
fn a_stage_that_is_too_short(rt: HostRuntime) -> Result<(), Fail> {
    let alloc = rt.alloc();
    let stage = STAGE.replacen(alloc, "[100000]", "[60000]", 1)?;
    let machine = format!(in alloc; "{MACHINE}{stage}")?;
    let job = job_of(alloc, L_SECTION, TOOLS, &machine)?;
    let book = Book::of(alloc, &job)?;
    let nogoods = [
        nogood(1, Back::Parent, 0, 1, Reason::Cover),
        nogood(1, Back::Child, 0, 1, Reason::Cover),
    ];
    assert!(rt; is_book(&book, &nogoods));
    Ok(())
}

#[test]
fn legs_that_hit_the_punch(rt: HostRuntime) -> Result<(), Fail> {
    let alloc = rt.alloc();
    let job = long_legs(alloc)?;
    let book = Book::of(alloc, &job)?;
    let nogoods = [
        nogood(2, Back::Parent, 1, 2, leg_hits(1)),
        nogood(2, Back::Child, 1, 2, leg_hits(1)),
        nogood(1, Back::Parent, 2, 1, leg_hits(2)),
        nogood(1, Back::Child, 2, 1, leg_hits(2)),
    ];
    assert!(rt; is_book(&book, &nogoods));
    for number in 0..4 {
        let one = nogoods[number];
        assert!(rt; verify(&job, &one));
        assert!(rt; book.refutes(one.folded, one.action) == Some(number as u32));
        assert!(rt; book.refutes(Mask(0), one.action).is_none());
        assert!(rt; book.refutes(Mask(3), one.action).is_none());
    }
    Ok(())
}

#[test]
fn nogoods_of_a_lid_by_depth(rt: HostRuntime) -> Result<(), Fail> {
    let alloc = rt.alloc();
    for (fine, count) in [("", 16), ("fine = 1\n", 8), ("fine = 2\n", 0)] {
        let job = wide_lid(alloc, fine)?;
        let book = Book::of(alloc, &job)?;
        assert!(rt; book.len() == count);
    }
    Ok(())
}

#[test]
fn nogoods_of_a_lid_at_depth_1(rt: HostRuntime) -> Result<(), Fail> {
    let alloc = rt.alloc();
    let job = wide_lid(alloc, "fine = 1\n")?;
    let book = Book::of(alloc, &job)?;
    assert!(rt; book.len() == 8);
    for number in 0..book.len() {
        let one = book.get(number);
        let body = u8::try_from(one.folded.0).unwrap_or(0);
        assert!(rt; one.action.bend == 3 || one.action.bend == 4);
        assert!(rt; body == 1 || body == 2);
        assert!(rt; one.reason == Reason::Upper(body, Quarter::Q1, 0));
        assert!(rt; verify(&job, &one));
    }
    Ok(())
}

#[test]
fn nogoods_that_are_not_verified(rt: HostRuntime) -> Result<(), Fail> {
    let alloc = rt.alloc();
    let job = long_legs(alloc)?;
    let back = Back::Parent;
    let high_stage = Nogood {
        action: Action {
            bend: 2,
            back,
            stage: 1,
        },
        ..nogood(2, back, 1, 2, leg_hits(1))
    };
    let cases = [
        // Bend 1 is in neither set.
        nogood(2, back, 0, 2, leg_hits(1)),
        nogood(2, back, 2, 1, leg_hits(1)),
        nogood(2, back, 1, 0, leg_hits(1)),
        nogood(2, back, 1, 3, leg_hits(1)),
        nogood(2, back, 1, 6, leg_hits(1)),
        nogood(2, back, 5, 2, leg_hits(1)),
        nogood(0, back, 1, 2, leg_hits(1)),
        nogood(3, back, 1, 6, leg_hits(1)),
        nogood(2, back, 1, 2, Reason::NoGauge),
        nogood(2, back, 1, 2, Reason::Cover),
        nogood(2, back, 1, 2, leg_hits(2)),
        nogood(2, back, 1, 2, leg_hits(3)),
        high_stage,
    ];
    for one in cases {
        assert!(rt; !verify(&job, &one));
    }
    assert!(rt; verify(&job, &nogood(2, back, 1, 2, leg_hits(1))));
    Ok(())
}

/// What is learned from a reason against an action at the start; None where it isn't one.
fn learned_at_the_start(job: &Job, action: Action, reason: Reason) -> Option<Nogood> {
    if !is_action_at(job, &start_key(), action) {
        return None;
    }
    learn(job, Mask(0), action, reason)
}

#[test]
fn learns_only_from_what_holds(rt: HostRuntime) -> Result<(), Fail> {
    let alloc = rt.alloc();
    let stage = STAGE.replacen(alloc, "[100000]", "[60000]", 1)?;
    let machine = format!(in alloc; "{MACHINE}{stage}")?;
    let job = job_of(alloc, L_SECTION, TOOLS, &machine)?;
    let one = nogood(1, Back::Child, 0, 1, Reason::Cover);
    assert!(rt; learned_at_the_start(&job, one.action, Reason::Cover) == Some(one));
    assert!(rt; learned_at_the_start(&job, one.action, Reason::NoGauge).is_none());
    assert!(rt; learned_at_the_start(&job, one.action, leg_hits(1)).is_none());
    Ok(())
}
