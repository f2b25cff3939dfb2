//! The worked strokes: the part before them, and the first reason against them.
ghost use Rattle.fold_boxes.specs.Pose.{IsGroup, pose_data};
ghost use Rattle.job_setup.specs.Setup.{shape_of};
ghost use Rattle.job_setup.specs.Reasons.{IsPoseAt};

use brake_base::{Back, Half, Mask, Quarter, Reason};
use fold_boxes::{Pose, is_group, place, pose};
use job_setup::Job;
use std::alloc::Global;
use std::test::Fail;
use stroke_table::pose_at;
use sweep_check::{first_reason, holds};
use test_fixtures::{L_SECTION, LID, MACHINE, STAGE, TOOLS, TWO_FLANGES, U_CHANNEL, job_of};

/// A base and a flange on its side N, each 100,000 by 30,000 with a wall of 28,000 at its far edge.
const TWO_WALLS: &str = "material = \"S235\"
thickness = 2000
radius = 2000
[[face]]
name = \"base\"
width = 100000
length = 30000
[[face]]
name = \"flange\"
on = \"base\"
side = \"N\"
at = 0
width = 100000
length = 30000
dir = \"up\"
[[face]]
name = \"base_wall\"
on = \"base\"
side = \"S\"
at = 0
width = 100000
length = 28000
dir = \"up\"
[[face]]
name = \"flange_wall\"
on = \"flange\"
side = \"N\"
at = 0
width = 100000
length = 28000
dir = \"up\"
";

/// The common machine with these keys more, and its stage with these pieces.
fn machine_with(alloc: Global, keys: &str, pieces: &str) -> Result<String, Fail> {
    let stage = STAGE.replacen(alloc, "[100000]", pieces, 1)?;
    Ok(format!(in alloc; "{keys}{MACHINE}{stage}")?)
}

/// The part before a stroke at the first stage.
fn posed(job: &Job, mask: Mask, group: Mask, back: Back) -> Pose
    requires { IsGroup (shape_of job.now) mask group }
    ensures { IsPoseAt job.now 0 (pose_data result) }
{
    let places = place(job.shape(), mask);
    pose_at(job, places.as_slice(), mask, group, back, 0)
}

/// The first reason against a stroke at the first stage, of a kind other than NoGauge.
fn reason_of(job: &Job, mask: Mask, group: Mask, back: Back) -> Option<Reason>
    requires { IsGroup (shape_of job.now) mask group }
{
    let pose = posed(job, mask, group, back);
    first_reason(job, &pose, 0)
}

/// Whether a reason of a kind other than NoGauge holds against a stroke at the first stage.
fn is_reason(job: &Job, mask: Mask, group: Mask, back: Back, reason: Reason) -> bool
    requires { IsGroup (shape_of job.now) mask group }
{
    let pose = posed(job, mask, group, back);
    match reason {
        Reason::NoGauge => false,
        other => holds(job, &pose, 0, other),
    }
}

#[test]
fn poses_at_the_first_stage(rt: HostRuntime) -> Result<(), Fail> {
    let alloc = rt.alloc();
    let machine = machine_with(alloc, "", "[100000]")?;
    for (part, mask, group) in [
        (U_CHANNEL, Mask(2), Mask(1)),
        (TWO_FLANGES, Mask(0), Mask(3)),
        (TWO_FLANGES, Mask(0), Mask(1)),
    ] {
        let job = job_of(alloc, part, TOOLS, &machine)?;
        assert!(rt; is_group(job.shape(), mask, group));
        let found = posed(&job, mask, group, Back::Child);
        let wanted = pose(job.shape(), mask, group, Back::Child, 200_000, 300_000);
        assert!(rt; found.boxes.as_slice() == wanted.boxes.as_slice());
    }
    Ok(())
}

#[test]
fn covers_and_frames(rt: HostRuntime) -> Result<(), Fail> {
    let alloc = rt.alloc();
    let near_frame = "frames = [[290000, 400000]]\n";
    let far_frame = "frames = [[300000, 400000]]\n";
    let cases = [
        ("", "[60000]", Some(Reason::Cover)),
        ("", "[90000]", None),
        (near_frame, "[100000]", Some(Reason::Frame(0))),
        (far_frame, "[100000]", None),
    ];
    for (keys, pieces, reason) in cases {
        let machine = machine_with(alloc, keys, pieces)?;
        let job = job_of(alloc, L_SECTION, TOOLS, &machine)?;
        assert!(rt; is_group(job.shape(), Mask(0), Mask(1)));
        assert!(rt; reason_of(&job, Mask(0), Mask(1), Back::Parent) == reason);
        assert!(rt; reason_of(&job, Mask(0), Mask(1), Back::Child) == reason);
    }
    Ok(())
}

#[test]
fn rests(rt: HostRuntime) -> Result<(), Fail> {
    let alloc = rt.alloc();
    let machine = machine_with(alloc, "", "[100000]")?;
    let cases = [
        ("12919", Back::Child, None),
        ("12919", Back::Parent, None),
        ("12918", Back::Child, Some(Reason::Rest(Half::Back))),
        ("12918", Back::Parent, Some(Reason::Rest(Half::Front))),
    ];
    for (leg, back, reason) in cases {
        let part = L_SECTION.replacen(alloc, "30000", leg, 1)?;
        let job = job_of(alloc, &part, TOOLS, &machine)?;
        assert!(rt; is_group(job.shape(), Mask(0), Mask(1)));
        assert!(rt; reason_of(&job, Mask(0), Mask(1), back) == reason);
    }
    Ok(())
}

#[test]
fn a_punch_touches_and_meets_the_leg(rt: HostRuntime) -> Result<(), Fail> {
    let alloc = rt.alloc();
    let machine = machine_with(alloc, "", "[100000]")?;
    let wide = TOOLS.replacen(alloc, "[[-6000, 6000, 6000,", "[[-6000, 6001, 6000,", 1)?;
    let low = U_CHANNEL.replacen(alloc, "30000", "47104", 2)?;
    let high = U_CHANNEL.replacen(alloc, "30000", "47105", 2)?;
    let base = Reason::Upper(0, Quarter::Q4, 1);
    let leg = Reason::Upper(1, Quarter::Q4, 1);
    let wall = Reason::Upper(1, Quarter::Q1, 1);
    let cases = [
        (L_SECTION, TOOLS, 0, 1, Back::Parent, base, false),
        (L_SECTION, TOOLS, 0, 1, Back::Child, leg, false),
        (L_SECTION, wide.as_str(), 0, 1, Back::Parent, base, true),
        (L_SECTION, wide.as_str(), 0, 1, Back::Child, leg, true),
        (low.as_str(), TOOLS, 1, 2, Back::Parent, wall, false),
        (high.as_str(), TOOLS, 1, 2, Back::Parent, wall, true),
        (high.as_str(), TOOLS, 1, 2, Back::Child, wall, true),
    ];
    for (part, tools, mask, group, back, reason, is_met) in cases {
        let job = job_of(alloc, part, tools, &machine)?;
        assert!(rt; is_group(job.shape(), Mask(mask), Mask(group)));
        let first = reason_of(&job, Mask(mask), Mask(group), back);
        assert!(rt; first == is_met.then_some(reason));
        assert!(rt; is_reason(&job, Mask(mask), Mask(group), back, reason) == is_met);
    }
    Ok(())
}

/// The first leg's widened section begins 56,000 behind the bend line, upright on it, so that the
/// nearest corner is 56,000 from the tip. A wedge of 39,597 reaches to 39,597 times the root of 2,
/// which is 55,998.6; one of 39,598 to 56,000.03. The punch's body is out of reach.
#[test]
fn a_nose_meets_the_leg(rt: HostRuntime) -> Result<(), Fail> {
    let alloc = rt.alloc();
    let machine = machine_with(alloc, "", "[100000]")?;
    let high = TOOLS.replacen(alloc, "6000, 100000]]", "90000, 100000]]", 1)?;
    let reason = Reason::Nose(1, Quarter::Q1, 0);
    for (nose, is_met) in [("nose = 39597", false), ("nose = 39598", true)] {
        let tools = high.replacen(alloc, "nose = 6000", nose, 1)?;
        let job = job_of(alloc, U_CHANNEL, &tools, &machine)?;
        assert!(rt; is_group(job.shape(), Mask(1), Mask(2)));
        for back in [Back::Parent, Back::Child] {
            let first = reason_of(&job, Mask(1), Mask(2), back);
            assert!(rt; first == is_met.then_some(reason));
            assert!(rt; is_reason(&job, Mask(1), Mask(2), back, reason) == is_met);
        }
    }
    Ok(())
}

/// Both walls begin 26,000 from the bend line and are 26,000 high, seen upright. The inner upper
/// edge of each is then in the direction of 45 degrees, so that both come to touch as their halves
/// turn by 45 degrees. A wall that is a micrometre higher meets the other. There is no punch.
#[test]
fn two_walls_touch_and_meet(rt: HostRuntime) -> Result<(), Fail> {
    let alloc = rt.alloc();
    let machine = machine_with(alloc, "", "[100000]")?;
    let tools = TOOLS.replacen(alloc, "[[-6000, 6000, 6000, 100000]]", "[]", 1)?;
    let high = TWO_WALLS.replacen(alloc, "28000", "28001", 1)?;
    let flange_wall = Reason::SelfHit(3, Quarter::Q1, 2);
    let base_wall = Reason::SelfHit(2, Quarter::Q1, 3);
    for (part, back, reason, is_met) in [
        (TWO_WALLS, Back::Child, flange_wall, false),
        (TWO_WALLS, Back::Parent, base_wall, false),
        (high.as_str(), Back::Child, flange_wall, true),
        (high.as_str(), Back::Parent, base_wall, true),
    ] {
        let job = job_of(alloc, part, &tools, &machine)?;
        assert!(rt; is_group(job.shape(), Mask(6), Mask(1)));
        let first = reason_of(&job, Mask(6), Mask(1), back);
        assert!(rt; first == is_met.then_some(reason));
        assert!(rt; is_reason(&job, Mask(6), Mask(1), back, reason) == is_met);
    }
    Ok(())
}

#[test]
fn halves_of_a_wall_clear_the_beam(rt: HostRuntime) -> Result<(), Fail> {
    let alloc = rt.alloc();
    let high = U_CHANNEL.replacen(alloc, "30000", "47105", 2)?;
    let larger = LID.replacen(alloc, "105000", "110000", 2)?;
    let large = larger.replacen(alloc, "101000", "106000", 4)?;
    let wall = Reason::Upper(1, Quarter::Q1, 1);
    let beside = Reason::Upper(1, Quarter::Q1, 0);
    let cases = [
        (high.as_str(), "fine = 0\n", 1, 2, wall, true),
        (high.as_str(), "fine = 1\n", 1, 2, wall, false),
        (LID, "", 3, 4, beside, true),
        (LID, "fine = 1\n", 3, 4, beside, false),
        (large.as_str(), "fine = 1\n", 3, 4, beside, true),
        (large.as_str(), "fine = 2\n", 3, 4, beside, false),
        (large.as_str(), "fine = 12\n", 3, 4, beside, false),
    ];
    for (part, keys, mask, group, reason, is_met) in cases {
        let machine = machine_with(alloc, keys, "[100000]")?;
        let job = job_of(alloc, part, TOOLS, &machine)?;
        assert!(rt; is_group(job.shape(), Mask(mask), Mask(group)));
        let first = reason_of(&job, Mask(mask), Mask(group), Back::Child);
        assert!(rt; first == is_met.then_some(reason));
        assert!(rt; is_reason(&job, Mask(mask), Mask(group), Back::Child, reason) == is_met);
    }
    Ok(())
}

#[test]
fn a_flange_hangs_over_the_die(rt: HostRuntime) -> Result<(), Fail> {
    let alloc = rt.alloc();
    let gangs = "gang = 1\n";
    let (child, parent) = (Back::Child, Back::Parent);
    let cases = [
        ("", "[45000]", 0, 1, child, None),
        ("", "[45000]", 1, 2, child, None),
        ("", "[70000]", 0, 1, child, Some(6)),
        ("", "[70000]", 0, 2, child, Some(6)),
        ("", "[70000]", 0, 1, parent, Some(6)),
        ("", "[70000]", 0, 2, parent, Some(6)),
        (gangs, "[100000]", 0, 3, child, None),
        (gangs, "[100000]", 0, 1, child, Some(6)),
        (gangs, "[70000]", 0, 3, child, Some(1)),
        (gangs, "[70000]", 0, 3, parent, Some(1)),
    ];
    for (keys, pieces, mask, group, back, kind) in cases {
        let machine = machine_with(alloc, keys, pieces)?;
        let job = job_of(alloc, TWO_FLANGES, TOOLS, &machine)?;
        assert!(rt; is_group(job.shape(), Mask(mask), Mask(group)));
        let first = reason_of(&job, Mask(mask), Mask(group), back);
        assert!(rt; first.map(|reason| reason.kind()) == kind);
    }
    Ok(())
}

#[test]
fn loads(rt: HostRuntime) -> Result<(), Fail> {
    let alloc = rt.alloc();
    let row = "[[load]]\nmaterial = \"S235\"\nthickness = 2000\nv = 16000\nload = 300\n";
    let loaded = format!(in alloc; "{TOOLS}{row}")?;
    let limited = loaded.replacen(alloc, "nose = 6000\n", "nose = 6000\nlimit = 299\n", 1)?;
    let gang_force = "gang = 1\nforce = 27000\n";
    let small_gang_force = "gang = 1\nforce = 26999\n";
    let cases = [
        (L_SECTION, loaded.as_str(), "force = 30000\n", 1, None),
        (
            L_SECTION,
            loaded.as_str(),
            "force = 29999\n",
            1,
            Some(Reason::Load),
        ),
        (L_SECTION, limited.as_str(), "", 1, Some(Reason::Load)),
        (TWO_FLANGES, loaded.as_str(), gang_force, 3, None),
        (
            TWO_FLANGES,
            loaded.as_str(),
            small_gang_force,
            3,
            Some(Reason::Load),
        ),
    ];
    for (part, tools, keys, group, reason) in cases {
        let machine = machine_with(alloc, keys, "[100000]")?;
        let job = job_of(alloc, part, tools, &machine)?;
        assert!(rt; is_group(job.shape(), Mask(0), Mask(group)));
        assert!(rt; reason_of(&job, Mask(0), Mask(group), Back::Parent) == reason);
        assert!(rt; reason_of(&job, Mask(0), Mask(group), Back::Child) == reason);
    }
    Ok(())
}
