//! What the rules don't test of the stop fingers, in words.
ghost use Rattle.std.specs.Prelude.{◌≡◌, ◌+◌, ◌<◌, ◌++◌, length, OnOk};
ghost use Rattle.sheet_views.specs.Hazards.{warnings};
ghost use Rattle.sheet_page.specs.Warnings.{finger_words, hazard_words, listed_warning, warning_words, warning_line};

use crate::forms::WARNING;
use brake_text::{put_number, put_word};
use job_setup::Job;
use sheet_views::{Finger, Fingers, Hazard, Warning, warnings};
use sheet_words::separator;
use std::alloc::AllocError;
use svg_text::{Hole, put_line};

/// The fingers of a warning.
#[tactic(auto, unfolding(crate::specs::Warnings::finger_words))]
fn finger_words(finger: Finger) -> &'static [u8]
    ensures { result.now ≡ finger_words finger }
{
    match finger {
        Finger::Left => b"the left stop finger would ",
        Finger::Right => b"the right stop finger would ",
        Finger::Both => b"both stop fingers would ",
    }
}

/// What a finger would do.
#[tactic(auto, using(sheet_paper::proofs::Texts::pieces), unfolding(crate::specs::Warnings::hazard_words))]
fn put_hazard(out: &mut Vec<u8>, hazard: Hazard) -> Result<(), AllocError>
    ensures { OnOk result (out.new.items ≡ out.old.items ++ hazard_words hazard) }
{
    match hazard {
        Hazard::Bed => put_word(out, b"reach into the bed under the dies"),
        Hazard::Die(stage) => {
            put_word(out, b"reach into the die of station ")?;
            put_number(out, i64::from(stage))
        }
        Hazard::Beam => put_word(out, b"reach into the beam above the punches"),
        Hazard::Punch(stage) => {
            put_word(out, b"reach into the punch of station ")?;
            put_number(out, i64::from(stage))
        }
        Hazard::SideFrame => put_word(out, b"stand in a side frame"),
        Hazard::BesideBed => put_word(out, b"stand beside the bed"),
    }
}

/// A warning at a place of a list of so many.
#[tactic(auto, using(sheet_paper::proofs::Texts::pieces), unfolding(crate::specs::Warnings::listed_warning))]
fn put_listed_warning(
    out: &mut Vec<u8>,
    at: usize,
    count: usize,
    warning: Warning,
) -> Result<(), AllocError>
    requires { at < count }
    ensures { OnOk result (out.new.items ≡ out.old.items ++ listed_warning at count warning) }
{
    put_word(out, separator(at, count))?;
    put_word(out, finger_words(warning.finger))?;
    put_hazard(out, warning.hazard)
}

/// The last warnings of a list of so many, from a place on.
#[tactic(auto, using(sheet_paper::proofs::Texts::pieces))]
fn put_last_warnings(
    out: &mut Vec<u8>,
    at: usize,
    count: usize,
    warnings: &[Warning],
) -> Result<(), AllocError>
    requires { at + length warnings.now ≡ count }
    ensures { OnOk result (out.new.items
        ≡ out.old.items ++ warning_words at count warnings.now) }
{
    match warnings {
        [] => Ok(()),
        [warning, warnings @ ..] => {
            put_listed_warning(out, at, count, *warning)?;
            put_last_warnings(out, at + 1, count, warnings)
        }
    }
}

/// The line of some warnings, where there is one.
#[tactic(auto, using(sheet_paper::proofs::Texts::pieces), unfolding(crate::specs::Warnings::warning_line))]
fn put_warning_line(out: &mut Vec<u8>, warnings: &[Warning]) -> Result<(), AllocError>
    ensures { OnOk result (out.new.items ≡ out.old.items ++ warning_line warnings.now) }
{
    match warnings {
        [] => Ok(()),
        [..] => {
            let mut words = Vec::new(*out.allocator());
            put_last_warnings(&mut words, 0, warnings.len(), warnings)?;
            put_line(out, WARNING, &[Hole::Text(words.as_slice())])
        }
    }
}

/// The line of what the rules don't test of these fingers, where there is anything.
pub fn put_warnings(out: &mut Vec<u8>, job: &Job, fingers: &Fingers) -> Result<(), AllocError>
    ensures { OnOk result (out.new.items
        ≡ out.old.items ++ warning_line (warnings job.now fingers.now)) }
{
    put_warning_line(out, warnings(job, fingers).as_slice())
}
