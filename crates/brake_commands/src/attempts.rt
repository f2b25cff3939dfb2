//! The setups of a list, each tried in turn.
ghost use Rattle.std.specs.Prelude.{◌≡◌, ◌⊎◌, ◌≤◌, ◌++◌, ◌∷◌, [], Some, map, option_map, length, string_bytes, All, IfOk, OnOk, OnErr, IsErrOf};
ghost use Rattle.brake_io.specs.Rose.{Rose};
ghost use Rattle.brake_io.specs.Meanings.{NoCountFalls};
ghost use Rattle.setup_choice.specs.declared.outcome.Fit.TheVariants.{Ready};
ghost use Rattle.setup_choice.specs.Best.{IsBest};
ghost use Rattle.command_runner.specs.Answers.{one_stored};
ghost use Rattle.command_runner.specs.Fetching.{HasDueCall};
ghost use Rattle.command_runner.specs.Delivery.{AreStored, AreStoredUpTo};
ghost use Rattle.command_runner.specs.Ends.{StoresBeginning};
ghost use Rattle.brake_commands.specs.SetupStops.{fitted_data};
ghost use Rattle.brake_commands.specs.Attempts.{planned_data, attempt_data, PlannedData, IsPlannedJob, IsPlannedAs, IsAttemptOf, IsPlannedAt, tried_of, tried_all};
ghost use Rattle.brake_commands.specs.SetupsAnswer.{numbered_name, stored_at};
ghost use Rattle.brake_commands.specs.Begun.{StoresPlanned, StoresPart, StoresTried, IsTriedBeginning};

use crate::plan::least_cert;
use crate::setup_list::FittedSetup;
use arrayvec::ArrayVec;
use bb_search::CertPieces;
use brake_base::{Name, Step, Worth};
use brake_io::{Shelf, StoreFault};
use command_runner::store_pieces;
use job_setup::Job;
use setup_choice::{Fit, Tried, best};
use std::alloc::{AllocError, Global};

/// What is kept of a planned job once its certificate is stored: the claim, which is the least cost
/// of a plan or that there is none, and the steps.
#[derive(Drop)]
pub struct PlannedJob {
    pub job: Job,
    pub claim: Worth,
    pub steps: ArrayVec<Step, 12>,
}

/// A setup that was tried: its name, and its planned job, where the stock has a choice of pieces.
#[derive(Drop)]
pub struct Attempt {
    pub name: Name,
    pub planned: Option<PlannedJob>,
}

/// NAME.I: the name, a full stop and a number.
fn numbered_name(alloc: Global, name: &str, place: u8) -> Result<String, AllocError>
    ensures { IfOk result (λ text. string_bytes text ≡ numbered_name name.now place) }
{
    let mut text = String::from_str(alloc, name)?;
    text.push_str(".")?;
    text.push_str(itoa::Buffer::new().format(place))?;
    Ok(text)
}

/// Stores the text of a certificate under the name of its setup's place.
fn store_cert<H: Shelf>(
    alloc: Global,
    name: &str,
    place: u8,
    mut text: CertPieces,
    shelf: &mut H,
) -> Result<(), StoreFault>
    ensures ok { OnOk result (AreStored (one_stored (numbered_name name.now place) text)
        (H.state shelf.old) (H.state shelf.new)) }
    ensures err { OnErr result ((H.state shelf.new ≡ H.state shelf.old)
        ⊎ AreStoredUpTo (one_stored (numbered_name name.now place) text)
        (H.state shelf.old) (H.state shelf.new)) }
    ensures never_falls { NoCountFalls (H.state shelf.old) (H.state shelf.new) }
    ensures faults { OnOk result ((H.state shelf.new).faults ≡ (H.state shelf.old).faults) }
    ensures failed { IsErrOf result StoreFault.Failed →
        Rose (H.state shelf.old).faults (H.state shelf.new).faults }
    ensures cause { IsErrOf result StoreFault.Failed →
        HasDueCall (H.state shelf.old) (H.state shelf.new) }
{
    let name = numbered_name(alloc, name, place)?;
    store_pieces(alloc, name.as_str(), &mut text, shelf)
}

/// Plans a job, and stores the certificate.
fn plan_job<H: Shelf>(
    alloc: Global,
    name: &str,
    place: u8,
    job: &Job,
    shelf: &mut H,
) -> Result<PlannedJob, StoreFault>
    ensures ok { IfOk result (λ planned.
        StoresPlanned name.now place (Ready job.now) (Some (planned_data planned))
        (H.state shelf.old) (H.state shelf.new)) }
    ensures err { OnErr result
        (StoresPart name.now place (Ready job.now) (H.state shelf.old) (H.state shelf.new)) }
    ensures never_falls { NoCountFalls (H.state shelf.old) (H.state shelf.new) }
    ensures failed { IsErrOf result StoreFault.Failed →
        Rose (H.state shelf.old).faults (H.state shelf.new).faults }
    ensures cause { IsErrOf result StoreFault.Failed →
        HasDueCall (H.state shelf.old) (H.state shelf.new) }
{
    let job = job.copy();
    let cert = least_cert(alloc, &job)?;
    store_cert(alloc, name, place, cert.text, shelf)?;
    Ok(PlannedJob {
        job,
        claim: cert.claim,
        steps: cert.steps,
    })
}

/// Plans the job of a setup, where the stock has a choice of pieces, and stores the certificate.
fn plan_fit<H: Shelf>(
    alloc: Global,
    name: &str,
    place: u8,
    fit: &Fit,
    shelf: &mut H,
) -> Result<Option<PlannedJob>, StoreFault>
    ensures ok { IfOk result (λ planned.
        StoresPlanned name.now place fit.now (option_map planned_data planned)
        (H.state shelf.old) (H.state shelf.new)) }
    ensures err { OnErr result
        (StoresPart name.now place fit.now (H.state shelf.old) (H.state shelf.new)) }
    ensures never_falls { NoCountFalls (H.state shelf.old) (H.state shelf.new) }
    ensures failed { IsErrOf result StoreFault.Failed →
        Rose (H.state shelf.old).faults (H.state shelf.new).faults }
    ensures cause { IsErrOf result StoreFault.Failed →
        HasDueCall (H.state shelf.old) (H.state shelf.new) }
{
    match fit {
        Fit::Ready(job) => Ok(Some(plan_job(alloc, name, place, job, shelf)?)),
        Fit::Short => Ok(None),
    }
}

/// Appends what is kept of a tried setup.
fn keep(
    attempts: &mut Vec<Attempt>,
    name: Name,
    planned: Option<PlannedJob>,
) -> Result<(), AllocError>
    ensures { OnOk result (map attempt_data attempts.new.items ≡ map attempt_data attempts.old.items
        ++ record { name = name.bytes; planned = option_map planned_data planned } ∷ []) }
{
    attempts.push(Attempt { name, planned })?;
    Ok(())
}

/// Tries some setups in order. The certificate of each is stored, and then dropped, before the next
/// is tried.
pub fn try_all<H: Shelf>(
    alloc: Global,
    name: &str,
    fits: &[FittedSetup],
    shelf: &mut H,
) -> Result<Vec<Attempt>, StoreFault>
    requires { length fits.now ≤ 16 }
    ensures ok { IfOk result (λ attempts.
        StoresTried name.now (map fitted_data fits.now) (map attempt_data attempts.items)
        (H.state shelf.old) (H.state shelf.new)) }
    ensures err { OnErr result
        (StoresBeginning (IsTriedBeginning name.now (map fitted_data fits.now))
        (H.state shelf.old) (H.state shelf.new)) }
    ensures never_falls { NoCountFalls (H.state shelf.old) (H.state shelf.new) }
    ensures failed { IsErrOf result StoreFault.Failed →
        Rose (H.state shelf.old).faults (H.state shelf.new).faults }
    ensures cause { IsErrOf result StoreFault.Failed →
        HasDueCall (H.state shelf.old) (H.state shelf.new) }
{
    let mut attempts = Vec::new(alloc);
    for (place, fitted) in fits.iter().enumerate() {
        let planned = plan_fit(alloc, name, place as u8, &fitted.fit, shelf)?;
        keep(&mut attempts, fitted.name, planned)?;
    }
    Ok(attempts)
}

impl Attempt {
    /// How the setup did: it has no choice of pieces, or this is claimed of its plans.
    fn tried(&self) -> Tried
        ensures { result ≡ tried_of (attempt_data self.now).planned }
    {
        match &self.planned {
            Some(planned) => Tried::Planned(planned.claim),
            None => Tried::Short,
        }
    }
}

/// How each of the setups did, in order.
fn tried_all(alloc: Global, attempts: &[Attempt]) -> Result<Vec<Tried>, AllocError>
    ensures { IfOk result (λ tried. tried.items ≡ tried_all (map attempt_data attempts.now)) }
{
    let mut tried = Vec::new(alloc);
    for attempt in attempts {
        tried.push(attempt.tried())?;
    }
    Ok(tried)
}

/// The place of the first setup of least cost. None where no setup has a plan.
pub fn cheapest(alloc: Global, attempts: &[Attempt]) -> Result<Option<u8>, AllocError>
    requires { length attempts.now ≤ 16 }
    ensures { IfOk result (IsBest (tried_all (map attempt_data attempts.now))) }
{
    let tried = tried_all(alloc, attempts)?;
    Ok(best(tried.as_slice()))
}

/// The planned job of the tried setup of this place, which has one.
pub fn planned_at(attempts: &[Attempt], place: u8) -> &PlannedJob
    requires { (planned : PlannedData) × IsPlannedAt (map attempt_data attempts.now) place planned }
    ensures { IsPlannedAt (map attempt_data attempts.now) place (planned_data result.now) }
{
    match &attempts[usize::from(place)].planned {
        Some(planned) => planned,
        None => unreachable!(),
    }
}
