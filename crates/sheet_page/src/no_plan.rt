//! The page of a job without a plan.
ghost use Rattle.std.specs.Prelude.{◌≡◌, ◌<◌, ◌≤◌, ◌^◌, [], ◌++◌, pos, ◌+ℤ◌, int_le, unsigned_abs, IsTrue, All, length, map, option_map, IfOk, IfSome, OnOk};
ghost use Rattle.brake_base.specs.declared.stroke.Worth.TheVariants.{Blocked};
ghost use Rattle.plan_cert.specs.Cert.{cert_data};
ghost use Rattle.plan_cert.specs.GoodCert.{IsGoodCert};
ghost use Rattle.sheet_page.specs.Kept.{AreNotesAt, IsStateOf, state_data, states_of, flat_mask, notes_if_any, IsKept, HasFew};
ghost use Rattle.sheet_page.specs.NoPlan.{verdict_text, first_caption, first_table, first_text, shown_words, far_words, far_text, AreDeadEnds, HasRefusals, IsPictureAt, IsPictureCount};
ghost use Rattle.sheet_page.specs.Page.{HasParts, IsNoPlanPage};
ghost use Rattle.sheet_page.specs.Refused.{AreRefusals};

use crate::blank_part::{put_blank_section, put_face_section};
use crate::counts::put_counts;
use crate::dead_end::put_dead_end;
use crate::forms::{
    CAPTION, FLOW, H2, NEW_PAGE, PAGE_END, PARAGRAPH, REFUSAL_HEAD, SECTION, SECTION_END, TABLE,
    TABLE_END,
};
use crate::head::put_head;
use crate::kept::{DeadEnds, Kept, State, collect};
use crate::left::strokes_left;
use crate::plan::first_figure;
use crate::refusal_table::Refusals;
use crate::station_part::put_stations;
use brake_base::Mask;
use brake_text::{put_number, put_word};
use job_setup::Job;
use plan_cert::{Cert, Note};
use sheet_figures::flat_blank;
use sheet_words::put_plural;
use std::alloc::{AllocError, Global};
use svg_text::{Hole, put_line};

/// The verdict in two sentences.
const NO_PLAN: &[u8] = b"no plan";

const NO_ORDER: &[u8] = b"no order of bends is possible";

const NOT_POSSIBLE: &[u8] = b"No order of bends is possible";

const MEANING: &[u8] =
    b"With these stations, and by the rules of the planner, no order of bends folds this part: in every order some bend is refused, however the part is turned. The certificate names the refusals; this page shows the first and the last of them.";

const FIRST_STROKE: &[u8] = b"The first stroke";

const FROM_FLAT: &[u8] = b"From the flat blank: ";

const REFUSED_AT_ONCE: &[u8] = b" refused at once, ";

const AFTER_WHICH: &[u8] = b" after which no order reaches the end.";

const AS_FAR: &[u8] = b"As far as it goes";

const CAN_BE_FOLDED: &[u8] = b" can be folded before every stroke that is left is refused, in ";

const OF_THE_PART: &[u8] = b" of the part";

const THEM_SHOWN: &[u8] = b" of them are shown";

/// The verdict, and what it means.
#[tactic(auto, using(sheet_paper::proofs::Texts::pieces), unfolding(crate::specs::NoPlan::verdict_text))]
fn put_verdict(out: &mut Vec<u8>) -> Result<(), AllocError>
    ensures { OnOk result (out.new.items ≡ out.old.items ++ verdict_text) }
{
    put_line(out, SECTION, &[Hole::Word(NEW_PAGE)])?;
    put_line(out, H2, &[Hole::Text(NOT_POSSIBLE)])?;
    put_line(out, PARAGRAPH, &[Hole::Text(MEANING)])?;
    put_line(out, SECTION_END, &[])
}

/// How many strokes are refused at once from the flat blank, and how many are left.
#[tactic(auto, using(sheet_paper::proofs::Texts::pieces), unfolding(crate::specs::NoPlan::first_caption))]
fn put_first_caption(out: &mut Vec<u8>, refused: usize, left: usize) -> Result<(), AllocError>
    requires refused { refused < 2 ^ 63 }
    requires left { left < 2 ^ 63 }
    ensures { OnOk result (out.new.items ≡ out.old.items ++ first_caption refused left) }
{
    put_word(out, FROM_FLAT)?;
    put_plural(out, refused, b"stroke")?;
    put_word(out, REFUSED_AT_ONCE)?;
    put_number(out, left as i64)?;
    put_word(out, AFTER_WHICH)
}

/// The table of what becomes of the strokes from the flat blank.
#[tactic(auto, using(sheet_paper::proofs::Texts::pieces), unfolding(crate::specs::NoPlan::first_table))]
fn put_first_table(out: &mut Vec<u8>, refusals: &Refusals) -> Result<(), AllocError>
    requires { AreRefusals refusals.now }
    ensures { OnOk result (out.new.items ≡ out.old.items
        ++ first_table refusals.now.job.now refusals.now.mask refusals.now.notes.now) }
{
    let left = strokes_left(refusals.job, refusals.mask, refusals.notes);
    let mut caption = Vec::new(*out.allocator());
    put_first_caption(&mut caption, refusals.notes.len(), left)?;
    put_line(out, TABLE, &[])?;
    put_line(out, CAPTION, &[Hole::Text(caption.as_slice())])?;
    put_line(out, REFUSAL_HEAD, &[])?;
    refusals.put_rows(out)?;
    refusals.put_left_rows(out)?;
    put_line(out, TABLE_END, &[])
}

/// What becomes of the strokes from the flat blank, which has these notes.
#[tactic(auto, using(sheet_paper::proofs::Texts::pieces), unfolding(crate::specs::NoPlan::first_text))]
fn put_first_stroke(out: &mut Vec<u8>, job: &Job, notes: &[Note]) -> Result<(), AllocError>
    requires { AreNotesAt job.now flat_mask notes.now }
    ensures { OnOk result (out.new.items ≡ out.old.items ++ first_text job.now notes.now) }
{
    let refusals = Refusals::new(*out.allocator(), job, Mask(0), notes)?;
    put_line(out, SECTION, &[Hole::Word(FLOW)])?;
    put_line(out, H2, &[Hole::Text(FIRST_STROKE)])?;
    put_first_table(out, &refusals)?;
    put_line(out, SECTION_END, &[])
}

/// How many of the states are shown, where not all are.
#[tactic(auto, using(sheet_paper::proofs::Texts::pieces), unfolding(crate::specs::NoPlan::shown_words))]
fn put_shown(out: &mut Vec<u8>, states: usize, shown: usize) -> Result<(), AllocError>
    requires { shown ≤ 4 }
    ensures { OnOk result (out.new.items ≡ out.old.items ++ shown_words states shown) }
{
    if states <= shown {
        return Ok(());
    }
    put_word(out, b"; ")?;
    put_number(out, shown as i64)?;
    put_word(out, THEM_SHOWN)
}

/// How many bends can be folded, in how many states, and how many of these are shown.
#[tactic(auto, using(sheet_paper::proofs::Texts::pieces), unfolding(crate::specs::NoPlan::far_words))]
fn put_far_words(
    out: &mut Vec<u8>,
    most: usize,
    states: usize,
    shown: usize,
) -> Result<(), AllocError>
    requires most { most < 2 ^ 63 }
    requires states { states < 2 ^ 63 }
    requires shown { shown ≤ 4 }
    ensures { OnOk result (out.new.items ≡ out.old.items ++ far_words most states shown) }
{
    put_word(out, b"At most ")?;
    put_plural(out, most, b"bend")?;
    put_word(out, CAN_BE_FOLDED)?;
    put_plural(out, states, b"state")?;
    put_word(out, OF_THE_PART)?;
    put_shown(out, states, shown)?;
    put_word(out, b".")
}

/// How far it goes, where there is a state at which every stroke is refused.
#[tactic(auto, using(sheet_paper::proofs::Texts::pieces), unfolding(crate::specs::NoPlan::far_text))]
fn put_far(out: &mut Vec<u8>, dead_ends: &DeadEnds) -> Result<(), AllocError>
    requires { dead_ends.now.count < 2 ^ 63 }
    ensures { OnOk result (out.new.items ≡ out.old.items
        ++ far_text dead_ends.now.most dead_ends.now.count (length dead_ends.now.shown.items)) }
{
    if dead_ends.count == 0 {
        return Ok(());
    }
    let mut words = Vec::new(*out.allocator());
    let most = usize::from(dead_ends.most);
    put_far_words(&mut words, most, dead_ends.count, dead_ends.shown.len())?;
    put_line(out, SECTION, &[Hole::Word(b"")])?;
    put_line(out, H2, &[Hole::Text(AS_FAR)])?;
    put_line(out, PARAGRAPH, &[Hole::Text(words.as_slice())])?;
    put_line(out, SECTION_END, &[])
}

/// The number of the figure behind a state's pictures.
fn figure_behind(figure: i64, pictures: i64) -> i64
    requires figure { unsigned_abs figure ≤ 2 ^ 9 }
    requires pictures { IsPictureCount pictures }
    ensures { result ≡ figure +ℤ pictures }
{
    figure + pictures
}

/// The last of the states that are shown, their pictures numbered from `figure`.
fn put_dead_ends(
    out: &mut Vec<u8>,
    job: &Job,
    cert: &Cert,
    states: &[State],
    figure: i64,
) -> Result<(), AllocError>
    requires states { All (IsStateOf job.now cert.now.notes.items) states.now }
    requires figure { IsPictureAt (length states.now) figure }
    ensures { OnOk result (AreDeadEnds job.now (map (state_data cert.now.notes.items) states.now)
        figure out.old.items out.new.items) }
{
    match states {
        [] => Ok(()),
        [state, states @ ..] => {
            let count = put_dead_end(out, job, state.mask, state.notes(cert), figure)?;
            let next = figure_behind(figure, count);
            put_dead_ends(out, job, cert, states, next)
        }
    }
}

/// What becomes of the strokes from the flat blank, whose state this is, where it is found.
fn put_flat(
    out: &mut Vec<u8>,
    job: &Job,
    cert: &Cert,
    flat: Option<State>,
) -> Result<(), AllocError>
    requires tried { IfSome flat (IsStateOf job.now cert.now.notes.items) }
    requires flat { IfSome flat (λ state. state.mask ≡ flat_mask) }
    ensures { OnOk result (out.new.items ≡ out.old.items ++ first_text job.now
        (notes_if_any (option_map (state_data cert.now.notes.items) flat))) }
{
    match flat {
        Some(state) => put_first_stroke(out, job, state.notes(cert)),
        None => put_first_stroke(out, job, &[]),
    }
}

/// The refusals: those of the first stroke, how far it goes, the last states, and the counts; the
/// pictures are numbered from `figure`.
fn put_refusals(
    out: &mut Vec<u8>,
    job: &Job,
    cert: &Cert,
    kept: &Kept,
    figure: i64,
) -> Result<(), AllocError>
    requires kept { IsKept job.now cert.now.notes.items (states_of (cert_data cert.now)) kept.now }
    requires few { HasFew (length cert.now.rows.items) (length cert.now.notes.items) kept.now }
    requires figure { IsPictureAt 4 figure }
    ensures { OnOk result (HasRefusals job.now (states_of (cert_data cert.now)) figure
        out.old.items out.new.items) }
{
    put_flat(out, job, cert, kept.flat)?;
    put_far(out, &kept.dead_ends)?;
    put_dead_ends(out, job, cert, kept.dead_ends.shown.as_slice(), figure)?;
    put_counts(out, job, &kept.counts, kept.states)
}

/// The blank, the faces and the stations, where nothing is bent.
fn put_parts(out: &mut Vec<u8>, job: &Job) -> Result<(), AllocError>
    ensures { OnOk result (HasParts job.now 0 [] out.old.items out.new.items) }
{
    let flat = flat_blank(job);
    put_blank_section(out, job, &flat, 0)?;
    put_face_section(out, job, &flat)?;
    put_stations(out, job)
}

/// The page of a job without a plan, of its good certificate, which has so many bytes.
pub fn no_plan_page(alloc: Global, job: &Job, cert: &Cert, size: i64) -> Result<Vec<u8>, AllocError>
    requires good { IsGoodCert job.now (cert_data cert.now) }
    requires claim { cert.now.claim ≡ Blocked }
    requires size { IsTrue (int_le (pos 0) size) }
    ensures { IfOk result (λ page.
        IsNoPlanPage job.now (cert_data cert.now) (unsigned_abs size) page.items) }
{
    let mut out = Vec::new(alloc);
    let kept = collect(job, cert);
    put_head(&mut out, job, NO_PLAN, NO_ORDER, size)?;
    put_parts(&mut out, job)?;
    put_verdict(&mut out)?;
    put_refusals(&mut out, job, cert, &kept, first_figure(job))?;
    put_line(&mut out, PAGE_END, &[])?;
    Ok(out)
}
