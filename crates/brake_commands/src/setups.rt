//! What `setups` answers.
ghost use Rattle.std.specs.Prelude.{◌≡◌, ◌⊎◌, ◌≤◌, ◌++◌, ◌∷◌, [], Ok, length, map, All, IfOk, OnOk, OnErr, IsErrOf};
ghost use Rattle.std.specs.List.{AllZip};
ghost use Rattle.std.specs.Vec.{vec_items};
ghost use Rattle.brake_io.specs.Rose.{Rose};
ghost use Rattle.brake_io.specs.Meanings.{NoCountFalls};
ghost use Rattle.handling_cost.specs.Plan.{start};
ghost use Rattle.setup_sheet.specs.OrderSheet.{AreSteps};
ghost use Rattle.cert_lines.specs.Lines.{spaced};
ghost use Rattle.setup_choice.specs.Setups.{IsSetups};
ghost use Rattle.setup_choice.specs.Fitting.{part_fits};
ghost use Rattle.command_runner.specs.Answers.{answer_data};
ghost use Rattle.command_runner.specs.Fetching.{HasDueCall};
ghost use Rattle.command_runner.specs.Delivery.{IsCutShort};
ghost use Rattle.command_runner.specs.Ends.{StoresFirst, StoresBeginning};
ghost use Rattle.brake_commands.specs.PlanAnswer.{no_plan_line};
ghost use Rattle.brake_commands.specs.SetupList.{IsJobFiles};
ghost use Rattle.brake_commands.specs.SetupStops.{job_files_data, list_data, fitted_data, IsFitted};
ghost use Rattle.brake_commands.specs.Attempts.{attempt_data, planned_data, IsKept};
ghost use Rattle.brake_commands.specs.SetupsAnswer.{cost_word, try_line, try_lines, best_line, best_texts, IsBlankSheetIn, AnswersTried, IsTriedAnswer, IsListAnswer, IsSetupsAnswer};
ghost use Rattle.brake_commands.specs.Begun.{IsListBeginning, IsSetupsBeginning};

use crate::attempts::{Attempt, PlannedJob, cheapest, planned_at, try_all};
use crate::setup_list::{FittedSetup, JobFiles, SetupList, fit_all, list_at, setups_stopped};
use allowance::find;
use brake_base::Name;
use brake_io::{Shelf, StoreFault};
use brake_text::put_word;
use command_runner::{Answer, Status};
use plan_cert::{put_count, put_worth};
use setup_sheet::{blank_sheet, order_sheet, setup_sheet};
use std::alloc::{AllocError, Global};
use unfolder::unfold;

/// A name behind a space.
#[tactic(auto, using(cert_lines::proofs::Texts::pieces))]
fn put_name(out: &mut Vec<u8>, name: &Name) -> Result<(), AllocError>
    ensures { OnOk result (out.new.items ≡ out.old.items ++ spaced name.now.bytes) }
{
    put_word(out, b" ")?;
    put_word(out, name.as_bytes())
}

/// The cost of a tried setup; `none` where it has no plan, `short` where it has no choice of
/// pieces.
fn put_cost(out: &mut Vec<u8>, attempt: &Attempt) -> Result<(), AllocError>
    requires { IsKept (attempt_data attempt.now) }
    ensures { OnOk result (out.new.items
        ≡ out.old.items ++ spaced (cost_word (attempt_data attempt.now).planned)) }
{
    match &attempt.planned {
        Some(planned) => put_worth(out, planned.claim),
        None => put_word(out, b" short"),
    }
}

/// The line of a tried setup.
#[tactic(auto, using(cert_lines::proofs::Texts::pieces), unfolding(crate::specs::SetupsAnswer::try_line))]
fn put_try(out: &mut Vec<u8>, place: u8, attempt: &Attempt) -> Result<(), AllocError>
    requires { IsKept (attempt_data attempt.now) }
    ensures { OnOk result (out.new.items
        ≡ out.old.items ++ try_line (place, attempt_data attempt.now)) }
{
    put_word(out, b"try")?;
    put_count(out, u64::from(place))?;
    put_name(out, &attempt.name)?;
    put_cost(out, attempt)?;
    put_word(out, b"\n")
}

/// A line for each tried setup, in order.
fn try_lines(alloc: Global, attempts: &[Attempt]) -> Result<Vec<u8>, AllocError>
    requires few { length attempts.now ≤ 16 }
    requires kept { All IsKept (map attempt_data attempts.now) }
    ensures { IfOk result (λ lines. lines.items ≡ try_lines (map attempt_data attempts.now)) }
{
    let mut out = Vec::new(alloc);
    for (place, attempt) in attempts.iter().enumerate() {
        put_try(&mut out, place as u8, attempt)?;
    }
    Ok(out)
}

/// The line of the best setup.
#[tactic(auto, using(cert_lines::proofs::Texts::pieces), unfolding(crate::specs::SetupsAnswer::best_line))]
fn best_line(alloc: Global, place: u8) -> Result<Vec<u8>, AllocError>
    ensures { IfOk result (λ line. line.items ≡ best_line place) }
{
    let mut out = Vec::new(alloc);
    put_word(&mut out, b"best")?;
    put_count(&mut out, u64::from(place))?;
    put_word(&mut out, b"\n")?;
    Ok(out)
}

/// All texts, where this setup is the best.
fn texts_with_best(
    alloc: Global,
    sheet: Vec<u8>,
    tries: Vec<u8>,
    place: u8,
    planned: &PlannedJob,
) -> Result<Vec<Vec<u8>>, AllocError>
    requires { AreSteps planned.now.job start planned.now.steps.items }
    ensures { IfOk result (λ texts. map vec_items texts.items
        ≡ sheet.items ∷ tries.items ∷ best_texts place (planned_data planned.now)) }
{
    let mut texts = Vec::new(alloc);
    texts.push(sheet)?;
    texts.push(tries)?;
    texts.push(best_line(alloc, place)?)?;
    texts.push(setup_sheet(alloc, &planned.job)?)?;
    texts.push(order_sheet(alloc, &planned.job, planned.steps.as_slice())?)?;
    Ok(texts)
}

/// All texts, where no setup has a plan.
#[tactic(auto, unfolding(crate::specs::PlanAnswer::no_plan_line))]
fn texts_without_plan(
    alloc: Global,
    sheet: Vec<u8>,
    tries: Vec<u8>,
) -> Result<Vec<Vec<u8>>, AllocError>
    ensures { IfOk result (λ texts. map vec_items texts.items
        ≡ sheet.items ∷ tries.items ∷ no_plan_line ∷ []) }
{
    let mut texts = Vec::new(alloc);
    texts.push(sheet)?;
    texts.push(tries)?;
    texts.push(Vec::from_slice(alloc, b"no plan\n")?)?;
    Ok(texts)
}

/// The blank sheet of the part, whose setups fit.
fn blank_sheet_of(alloc: Global, files: &JobFiles) -> Result<Vec<u8>, AllocError>
    requires files { IsJobFiles (job_files_data files.now) }
    requires fits { part_fits (job_files_data files.now).part (job_files_data files.now).tools
        ≡ Ok tt }
    ensures { IfOk result (λ sheet. IsBlankSheetIn (job_files_data files.now) sheet.items) }
{
    match find(&files.tools.allow, &files.part) {
        Ok(q) => match unfold(&files.part, q) {
            Ok(blank) => blank_sheet(alloc, &files.part, &blank),
            Err(_) => unreachable!(),
        },
        Err(_) => unreachable!(),
    }
}

/// What is left to put once the setups are tried, with this as the first sheet.
fn tried_answer(alloc: Global, sheet: Vec<u8>, attempts: &[Attempt]) -> Result<Answer, AllocError>
    requires few { length attempts.now ≤ 16 }
    requires kept { All IsKept (map attempt_data attempts.now) }
    ensures answer { IfOk result (λ answer.
        AnswersTried sheet.items (map attempt_data attempts.now) (answer_data answer)) }
    ensures status { IfOk result (λ answer. ¬ IsCutShort answer.status) }
{
    let tries = try_lines(alloc, attempts)?;
    let best = cheapest(alloc, attempts)?;
    match best {
        Some(place) => Ok(Answer {
            stored: Vec::new(alloc),
            status: Status::Done,
            texts: texts_with_best(alloc, sheet, tries, place, planned_at(attempts, place))?,
        }),
        None => Ok(Answer {
            stored: Vec::new(alloc),
            status: Status::NoPlan,
            texts: texts_without_plan(alloc, sheet, tries)?,
        }),
    }
}

/// The answer to a list whose setups fit so. Each certificate is stored before the next is made.
fn fitted_answer<H: Shelf>(
    alloc: Global,
    name: &str,
    list: &SetupList,
    fits: &[FittedSetup],
    shelf: &mut H,
) -> Result<Answer, StoreFault>
    requires files { IsJobFiles (list_data list.now).files }
    requires setups { IsSetups (list_data list.now).setups }
    requires fits { AllZip (IsFitted (list_data list.now).files) (list_data list.now).setups
        (map fitted_data fits.now) }
    ensures answer { IfOk result (λ answer.
        StoresFirst (IsTriedAnswer name.now (list_data list.now)) (answer_data answer)
        (H.state shelf.old) (H.state shelf.new)) }
    ensures status { IfOk result (λ answer. ¬ IsCutShort answer.status) }
    ensures begins { OnErr result ((H.state shelf.new ≡ H.state shelf.old)
        ⊎ StoresBeginning (IsListBeginning name.now (list_data list.now))
        (H.state shelf.old) (H.state shelf.new)) }
    ensures never_falls { NoCountFalls (H.state shelf.old) (H.state shelf.new) }
    ensures failed { IsErrOf result StoreFault.Failed →
        Rose (H.state shelf.old).faults (H.state shelf.new).faults }
    ensures cause { IsErrOf result StoreFault.Failed →
        HasDueCall (H.state shelf.old) (H.state shelf.new) }
{
    let sheet = blank_sheet_of(alloc, &list.files)?;
    let attempts = try_all(alloc, name, fits, shelf)?;
    Ok(tried_answer(alloc, sheet, attempts.as_slice())?)
}

/// The answer to a list of setups: the first refusal of a setup, or that by all tried setups.
fn list_answer<H: Shelf>(
    alloc: Global,
    name: &str,
    list: &SetupList,
    shelf: &mut H,
) -> Result<Answer, StoreFault>
    requires files { IsJobFiles (list_data list.now).files }
    requires setups { IsSetups (list_data list.now).setups }
    ensures answer { IfOk result (λ answer.
        StoresFirst (IsListAnswer name.now (list_data list.now)) (answer_data answer)
        (H.state shelf.old) (H.state shelf.new)) }
    ensures status { IfOk result (λ answer. ¬ IsCutShort answer.status) }
    ensures begins { OnErr result ((H.state shelf.new ≡ H.state shelf.old)
        ⊎ StoresBeginning (IsListBeginning name.now (list_data list.now))
        (H.state shelf.old) (H.state shelf.new)) }
    ensures never_falls { NoCountFalls (H.state shelf.old) (H.state shelf.new) }
    ensures failed { IsErrOf result StoreFault.Failed →
        Rose (H.state shelf.old).faults (H.state shelf.new).faults }
    ensures cause { IsErrOf result StoreFault.Failed →
        HasDueCall (H.state shelf.old) (H.state shelf.new) }
{
    match fit_all(alloc, &list.files, list.setups.list.as_slice()) {
        Ok(fits) => fitted_answer(alloc, name, list, fits.as_slice(), shelf),
        Err(stop) => Ok(setups_stopped(alloc, stop)?),
    }
}

/// The answer to the contents of the part's file, the tools file, the machine file and the setups
/// file. Its certificates are stored here, each before the next setup is tried.
pub fn answer<H: Shelf>(
    alloc: Global,
    name: &str,
    contents: &[Vec<u8>],
    shelf: &mut H,
) -> Result<Answer, StoreFault>
    requires { length contents.now ≡ 4 }
    ensures answer { IfOk result (λ answer.
        StoresFirst (IsSetupsAnswer name.now (map vec_items contents.now)) (answer_data answer)
        (H.state shelf.old) (H.state shelf.new)) }
    ensures status { IfOk result (λ answer. ¬ IsCutShort answer.status) }
    ensures begins { OnErr result ((H.state shelf.new ≡ H.state shelf.old)
        ⊎ StoresBeginning (IsSetupsBeginning name.now (map vec_items contents.now))
        (H.state shelf.old) (H.state shelf.new)) }
    ensures never_falls { NoCountFalls (H.state shelf.old) (H.state shelf.new) }
    ensures failed { IsErrOf result StoreFault.Failed →
        Rose (H.state shelf.old).faults (H.state shelf.new).faults }
    ensures cause { IsErrOf result StoreFault.Failed →
        HasDueCall (H.state shelf.old) (H.state shelf.new) }
{
    match list_at(alloc, contents) {
        Ok(list) => list_answer(alloc, name, &list, shelf),
        Err(stop) => Ok(setups_stopped(alloc, stop)?),
    }
}
