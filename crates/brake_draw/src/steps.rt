//! The steps of a certificate, from its text.
ghost use Rattle.std.specs.Prelude.{◌≡◌, ◌<◌, ◌∷◌, [], ◌++◌, if◌then◌else◌, nat_lt, length};
ghost use Rattle.job_setup.specs.Setup.{JobData};
ghost use Rattle.plan_cert.specs.Cert.{CertData};
ghost use Rattle.plan_lines.specs.PlanItem.{item_of};
ghost use Rattle.plan_cert.specs.CertReading.{AnswersLeft, answers_left};
ghost use Rattle.cert_check.specs.Texts.{IsTextOfCert};
ghost use Rattle.brake_draw.specs.Steps.{is_before_rows, with_step_of, with_steps_of};

use arrayvec::ArrayVec;
use brake_base::Step;
use plan_cert::{CertReader, PlanItem};

/// Adds a step, of which a certificate has at most 12.
fn add_step(steps: &mut ArrayVec<Step, 12>, step: Step)
    ensures { steps.new.items
        ≡ (if nat_lt (length steps.old.items) 12
        then steps.old.items ++ step ∷ []
        else steps.old.items) }
{
    if steps.len() < 12 {
        steps.push(step);
    }
}

/// Adds the step that an item is. Whether steps may stand behind it.
fn take_item(steps: &mut ArrayVec<Step, 12>, item: PlanItem) -> bool
    ensures steps { steps.new.items ≡ with_step_of steps.old.items (item_of item) }
    ensures before { result ≡ is_before_rows (item_of item) }
{
    match item {
        PlanItem::Claim(_) => true,
        PlanItem::Step(step) => {
            add_step(steps, step);
            true
        }
        PlanItem::Row(_) | PlanItem::Note { .. } | PlanItem::End => false,
    }
}

/// Adds the steps that are left to a reader, which goes no further than to the line behind them.
fn take_steps(steps: &mut ArrayVec<Step, 12>, reader: &mut CertReader)
    requires job { 0 < reader.old.answered }
    requires left { AnswersLeft reader.old }
    ensures { steps.new.items ≡ with_steps_of steps.old.items (answers_left reader.old) }
{
    match reader.next_behind_job() {
        Ok(item) => {
            if take_item(steps, item) {
                take_steps(steps, reader);
            }
        }
        Err(_) => {}
    }
}

/// The steps that are left to a reader.
fn steps_left(reader: &mut CertReader) -> ArrayVec<Step, 12>
    requires job { 0 < reader.old.answered }
    requires left { AnswersLeft reader.old }
    ensures { result.items ≡ with_steps_of [] (answers_left reader.old) }
{
    let mut steps = ArrayVec::new();
    take_steps(&mut steps, reader);
    steps
}

/// The steps of the certificate that the text is. No row and no note is read but the first.
pub fn steps_of(text: &[u8]) -> ArrayVec<Step, 12>
    ensures { (job : JobData) (cert : CertData) → IsTextOfCert text.now job cert
        → result.items ≡ cert.steps }
{
    let mut reader = CertReader::new(text);
    match reader.read_job() {
        Ok(_) => steps_left(&mut reader),
        Err(_) => ArrayVec::new(),
    }
}
