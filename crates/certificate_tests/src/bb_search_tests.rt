//! The worked parts, searched with ample and with little budget.

use crate::asserts::assert_equal;
use crate::first_stage::{key, step};
use bb_search::{Outcome, Search, nodes};
use brake_base::{Back, Quarter, Reason, Worth};
use job_setup::Job;
use part_gen::made_job;
use plan_cert::{Cert, Note, RowHead, read_cert};
use std::alloc::{AllocError, Global};
use std::test::Fail;
use test_fixtures::{L_SECTION, LID, MACHINE, STAGE, TOOLS, U_CHANNEL, job_of};

/// A base of 100,000 by 60,000 with two flanges each on its sides S and N.
const FOUR_FLANGES: &str = "material = \"S235\"
thickness = 2000
radius = 2000
[[face]]
name = \"base\"
width = 100000
length = 60000
[[face]]
name = \"a\"
on = \"base\"
side = \"S\"
at = 0
width = 45000
length = 30000
dir = \"up\"
[[face]]
name = \"b\"
on = \"base\"
side = \"S\"
at = 55000
width = 45000
length = 30000
dir = \"up\"
[[face]]
name = \"c\"
on = \"base\"
side = \"N\"
at = 0
width = 45000
length = 30000
dir = \"up\"
[[face]]
name = \"d\"
on = \"base\"
side = \"N\"
at = 55000
width = 45000
length = 30000
dir = \"up\"
";

/// A base of 600,000 by 60,000.
const LONG_BASE: &str = "material = \"S235\"
thickness = 2000
radius = 2000
[[face]]
name = \"base\"
width = 600000
length = 60000
";

/// That base with six flanges on each of its sides S and N.
fn twelve_flanges(alloc: Global) -> Result<String, AllocError> {
    let mut part = String::from_str(alloc, LONG_BASE)?;
    for (side, at) in [
        ("S", "0"),
        ("S", "100000"),
        ("S", "200000"),
        ("S", "300000"),
        ("S", "400000"),
        ("S", "500000"),
        ("N", "0"),
        ("N", "100000"),
        ("N", "200000"),
        ("N", "300000"),
        ("N", "400000"),
        ("N", "500000"),
    ] {
        let name = format!(in alloc; "[[face]]\nname = \"{side}{at}\"\non = \"base\"\n")?;
        let line = format!(in alloc; "side = \"{side}\"\nat = {at}\nwidth = 45000\n")?;
        part.push_str(&name)?;
        part.push_str(&line)?;
        part.push_str("length = 30000\ndir = \"up\"\n")?;
    }
    Ok(part)
}

/// The common machine with six stages.
fn six_stages(alloc: Global) -> Result<String, AllocError> {
    let mut machine = String::from_str(alloc, MACHINE)?;
    for (at, piece) in [
        ("200000", "100000"),
        ("400000", "100000"),
        ("600000", "90000"),
        ("800000", "70000"),
        ("1000000", "60000"),
        ("1200000", "56000"),
    ] {
        let place = format!(in alloc; "at = {at}\npieces = [{piece}]\n")?;
        machine.push_str("[[stage]]\npunch = \"P100\"\ndie = \"D16\"\n")?;
        machine.push_str(&place)?;
    }
    Ok(machine)
}

/// The job of a part on a machine with one stage of one piece.
fn job_with(alloc: Global, part: &str, piece: &str) -> Result<Job, Fail> {
    let stage = STAGE.replacen(alloc, "[100000]", piece, 1)?;
    let machine = format!(in alloc; "{MACHINE}{stage}")?;
    job_of(alloc, part, TOOLS, &machine)
}

/// What a search of the job answers within a budget.
fn outcome_of(alloc: Global, job: &Job, budget: u32) -> Result<Outcome, AllocError> {
    let mut search = Search::open(alloc, job, budget)?;
    Ok(search.run(job))
}

/// The certificate of the job, searched with ample budget, as the text that the search writes is
/// read; None where the budget is used up.
fn certificate_of(alloc: Global, job: &Job) -> Result<Option<Cert>, Fail> {
    let mut search = Search::open(alloc, job, nodes(job))?;
    match search.run(job) {
        Outcome::Spent => Ok(None),
        _ => {
            let written = search.write(alloc, job)?;
            let text = written.text.gather(alloc)?;
            let file = read_cert(alloc, text.as_slice())?;
            Ok(Some(file.cert))
        }
    }
}

/// A row of a certificate, of a part that is held as its file describes it.
fn row(mask: u16, worth: Worth) -> RowHead {
    RowHead {
        key: key(mask, 0),
        worth,
    }
}

#[test]
fn outcomes_of_the_worked_parts(rt: HostRuntime) -> Result<(), Fail> {
    let alloc = rt.alloc();
    let high = U_CHANNEL.replace(alloc, "length = 30000", "length = 80000")?;
    let l_section = job_with(alloc, L_SECTION, "[100000]")?;
    let u_channel = job_with(alloc, U_CHANNEL, "[100000]")?;
    let high_channel = job_with(alloc, &high, "[100000]")?;
    let four = job_with(alloc, FOUR_FLANGES, "[45000]")?;
    assert_equal(&rt, &nodes(&u_channel), &49);
    assert_equal(
        &rt,
        &outcome_of(alloc, &l_section, 1)?,
        &Outcome::Best { cost: 100 },
    );
    assert_equal(&rt, &outcome_of(alloc, &u_channel, 1)?, &Outcome::Spent);
    assert_equal(
        &rt,
        &outcome_of(alloc, &u_channel, 5)?,
        &Outcome::Best { cost: 200 },
    );
    assert_equal(
        &rt,
        &outcome_of(alloc, &high_channel, 49)?,
        &Outcome::Blocked,
    );
    assert_equal(
        &rt,
        &outcome_of(alloc, &four, 8)?,
        &Outcome::Best { cost: 400 },
    );
    Ok(())
}

/// At least nine keys are reached: the start and eight after one bend.
#[test]
fn four_keys_settle_the_four_flanges(rt: HostRuntime) -> Result<(), Fail> {
    let alloc = rt.alloc();
    let job = job_with(alloc, FOUR_FLANGES, "[45000]")?;
    assert_equal(&rt, &outcome_of(alloc, &job, 3)?, &Outcome::Spent);
    assert_equal(
        &rt,
        &outcome_of(alloc, &job, 4)?,
        &Outcome::Best { cost: 400 },
    );
    let cert = certificate_of(alloc, &job)?.expect(&rt, "a certificate");
    assert!(rt; cert.rows.len() == 4 && cert.steps.len() == 4);
    let steps = cert.steps.as_slice();
    let order = [steps[0], steps[1], steps[2], steps[3]].map(|step| step.action.bend);
    assert!(rt; order == [1, 2, 3, 4]);
    Ok(())
}

#[test]
fn a_lid_has_a_plan_where_its_walls_are_halved(rt: HostRuntime) -> Result<(), Fail> {
    let alloc = rt.alloc();
    let whole = job_with(alloc, LID, "[100000]")?;
    let machine = format!(in alloc; "fine = 1\n{MACHINE}{STAGE}")?;
    let halved = job_of(alloc, LID, TOOLS, &machine)?;
    let budget = nodes(&whole);
    assert_equal(&rt, &outcome_of(alloc, &whole, budget)?, &Outcome::Blocked);
    let best = Outcome::Best { cost: 420 };
    assert_equal(&rt, &outcome_of(alloc, &halved, budget)?, &best);
    Ok(())
}

#[test]
fn the_most_nodes_of_a_job(rt: HostRuntime) -> Result<(), Fail> {
    let alloc = rt.alloc();
    let part = twelve_flanges(alloc)?;
    let machine = six_stages(alloc)?;
    let job = job_of(alloc, &part, TOOLS, &machine)?;
    assert_equal(&rt, &nodes(&job), &589_537);
    Ok(())
}

#[test]
fn the_u_channel_is_proved(rt: HostRuntime) -> Result<(), Fail> {
    let alloc = rt.alloc();
    let job = job_with(alloc, U_CHANNEL, "[100000]")?;
    let cert = certificate_of(alloc, &job)?.expect(&rt, "a certificate");
    let steps = [step(2, Back::Parent, 1), step(1, Back::Child, 1)];
    let rows = [
        row(0, Worth::Cost(200)),
        row(1, Worth::Cost(130)),
        row(2, Worth::Cost(100)),
    ];
    let note = Note {
        row: 1,
        action: 2,
        reason: Reason::NoGauge,
    };
    assert!(rt; cert.claim == Worth::Cost(200) && cert.steps.as_slice() == steps.as_slice());
    assert!(rt; cert.rows.as_slice() == rows.as_slice());
    assert!(rt; cert.notes.as_slice() == [note].as_slice());
    Ok(())
}

#[test]
fn the_high_u_channel_has_no_plan(rt: HostRuntime) -> Result<(), Fail> {
    let alloc = rt.alloc();
    let high = U_CHANNEL.replace(alloc, "length = 30000", "length = 80000")?;
    let job = job_with(alloc, &high, "[100000]")?;
    let cert = certificate_of(alloc, &job)?.expect(&rt, "a certificate");
    let keys = [key(0, 0), key(1, 0), key(1, 2), key(2, 0), key(2, 2)];
    let rows = keys.map(|key| RowHead {
        key,
        worth: Worth::Blocked,
    });
    let note = Note {
        row: 4,
        action: 1,
        reason: Reason::Upper(2, Quarter::Q1, 1),
    };
    assert!(rt; cert.claim == Worth::Blocked && cert.steps.is_empty());
    assert!(rt; cert.rows.as_slice() == rows.as_slice());
    assert!(rt; cert.notes.len() == 8 && cert.notes.as_slice().last() == Some(&note));
    Ok(())
}

#[test]
fn the_first_made_jobs_have_no_plan(rt: HostRuntime) -> Result<(), Fail> {
    let alloc = rt.alloc();
    for n in 0..4 {
        let job = made_job(n);
        assert_equal(
            &rt,
            &outcome_of(alloc, &job, nodes(&job))?,
            &Outcome::Blocked,
        );
    }
    Ok(())
}

#[test]
fn what_a_search_writes_is_read(rt: HostRuntime) -> Result<(), Fail> {
    let alloc = rt.alloc();
    let high = U_CHANNEL.replace(alloc, "length = 30000", "length = 80000")?;
    let jobs = [
        job_with(alloc, U_CHANNEL, "[100000]")?,
        job_with(alloc, &high, "[100000]")?,
        job_with(alloc, FOUR_FLANGES, "[45000]")?,
        job_with(alloc, LID, "[100000]")?,
    ];
    for job in &jobs {
        let _ = certificate_of(alloc, job)?.expect(&rt, "a certificate");
    }
    Ok(())
}
