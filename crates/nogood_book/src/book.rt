//! The book of a job: all its nogoods.
ghost use Rattle.std.specs.Prelude.{◌≡◌, ◌↔◌, ◌<◌, ◌≤◌, ◌*◌, [], IfOk, IfSome, IfNone, IsSome, IsTrue, length, slice_get, Some};
ghost use Rattle.brake_base.specs.declared.mask.Mask.{Mask};
ghost use Rattle.fold_boxes.specs.Places.{ArePlaces};
ghost use Rattle.job_setup.specs.Setup.{shape_of, stage_count};
ghost use Rattle.job_setup.specs.StrokeGroup.{group_of};
ghost use Rattle.handling_cost.specs.StepCost.{IsActionAt};
ghost use Rattle.sweep_check.specs.FirstReasons.{IsFirstBeforeNoGauge};
ghost use Rattle.nogood_book.specs.Nogood.{IsSetOf, key_at};
ghost use Rattle.nogood_book.specs.Refuted.{AreNumbered, AreTold};
ghost use Rattle.nogood_book.specs.Book.{IsBook, Grows, GrowsBelow, IsNumbered, IsRefuted, IsOpposed, IsFirstRefuting, IsNogoodLaw};

use crate::deciding::is_no_gauge;
use crate::learning::{key_at, learned};
use crate::nogood::Nogood;
use brake_base::{Action, Mask, Place, Reason, action_number, action_of};
use fold_boxes::place;
use handling_cost::is_action_at;
use job_setup::Job;
use std::alloc::{AllocError, Global};
use std::marker::Model;
use stroke_table::StrokeTable;

/// All nogoods of a job. Contracts see the job and the list, which is that of the job's book.
#[derive(Drop)]
pub struct Book {
    job: Job,
    nogoods: Vec<Nogood>,
}

impl Model for Book {
    ghost use Rattle.job_setup.specs.ValidJob.{IsJob};
    ghost use Rattle.nogood_book.specs.Book.{BookData, IsBook};

    ghost Value = { BookData };

    ghost view = { λ b. record { job = b.job; nogoods = b.nogoods.items } };

    ghost invariant = { λ b. IsJob b.job × IsBook b.job b.nogoods.items };
}

impl Book {
    /// The book of a job: going through the sets of folded bends upwards from none, and through
    /// the actions at each by their numbers, wherever a reason other than NoGauge holds and no
    /// nogood so far refutes the action, what is learned from the first reason is appended.
    pub fn of(alloc: Global, job: &Job) -> Result<Book, AllocError>
        ensures job { IfOk result (λ book. book.job ≡ job.now) }
        ensures exact { IfOk result (λ book. IsBook job.now book.nogoods) }
        ensures law { IfOk result (λ book. IsNogoodLaw job.now book.nogoods) }
    {
        let nogoods = all_nogoods(alloc, job)?;
        Ok(Book {
            job: job.copy(),
            nogoods,
        })
    }

    /// The number of nogoods.
    pub fn len(&self) -> u32
        ensures { result ≡ length self.now.nogoods }
    {
        self.nogoods.len() as u32
    }

    /// The nogood of a number, counted from 0.
    pub fn get(&self, i: u32) -> Nogood
        requires { i < length self.now.nogoods }
        ensures { slice_get self.now.nogoods i ≡ Some result }
    {
        self.nogoods[i as usize]
    }

    /// The least number of a nogood that refutes the action where the bends of the mask are folded.
    /// None exactly where none does. Of an action at the mask one does exactly where a reason other
    /// than NoGauge holds.
    pub fn refutes(&self, mask: Mask, action: Action) -> Option<u32>
        ensures some { IfSome result (λ number.
            IsFirstRefuting self.now.nogoods mask action number) }
        ensures none { IfNone result (¬ IsRefuted self.now.nogoods mask action) }
        ensures law { IsSetOf self.now.job mask → IsActionAt self.now.job (key_at mask) action
            → (IsSome result ↔ IsOpposed self.now.job mask action) }
    {
        for number in 0..self.nogoods.len() {
            if self.nogoods[number].refutes(mask, action) {
                return Some(number as u32);
            }
        }
        None
    }
}

/// The nogoods of a job's book.
fn all_nogoods(alloc: Global, job: &Job) -> Result<Vec<Nogood>, AllocError>
    ensures { IfOk result (λ nogoods. IsBook job.now nogoods.items) }
{
    let mut strokes = StrokeTable::open(alloc, job)?;
    let mut nogoods = Vec::new(alloc);
    for mask in 0..(1_u16 << job.bends()) - 1 {
        grow_at(job, &mut strokes, Mask(mask), &mut nogoods)?;
    }
    Ok(nogoods)
}

/// What the list becomes by all actions where the bends of the mask are folded.
fn grow_at(
    job: &Job,
    strokes: &mut StrokeTable,
    mask: Mask,
    nogoods: &mut Vec<Nogood>,
) -> Result<(), AllocError>
    requires job { job.now ≡ strokes.old }
    requires mask { IsSetOf job.now mask }
    requires actions { AreNumbered (stage_count job.now) nogoods.old.items }
    ensures job { strokes.new ≡ strokes.old }
    ensures list { IfOk result (λ done. GrowsBelow job.now mask (24 * stage_count job.now)
        nogoods.old.items nogoods.new.items) }
    ensures actions { IfOk result (λ done. AreNumbered (stage_count job.now) nogoods.new.items) }
{
    let places = place(job.shape(), mask);
    let stages = job.stages();
    let refuted = refuted_actions(nogoods, mask, stages);
    for number in 0..24 * stages {
        let action = action_of(number, stages);
        if !refuted[usize::from(number)] {
            grow_by(job, strokes, places.as_slice(), mask, action, nogoods)?;
        }
    }
    Ok(())
}

/// Whether some nogood of the list refutes an action where the bends of the mask are folded, by
/// the action's number.
fn refuted_actions(nogoods: &[Nogood], mask: Mask, stages: u8) -> [bool; 144]
    requires stages { stages ≤ 6 }
    requires actions { AreNumbered stages nogoods.now }
    ensures count { length result ≡ 144 }
    ensures told { AreTold stages nogoods.now mask 0 result }
{
    let mut refuted = [false; 144];
    for nogood in nogoods {
        if nogood.matches(mask) {
            refuted[usize::from(action_number(nogood.action, stages))] = true;
        }
    }
    refuted
}

/// What the list becomes by an action that none of its nogoods refutes where the bends of the mask
/// are folded: where it can be tried and a reason other than NoGauge holds, what is learned from
/// the first reason is appended. `places` are those of the faces.
fn grow_by(
    job: &Job,
    strokes: &mut StrokeTable,
    places: &[Place],
    mask: Mask,
    action: Action,
    nogoods: &mut Vec<Nogood>,
) -> Result<(), AllocError>
    requires job { job.now ≡ strokes.old }
    requires count { length places.now ≡ length job.now.part.faces }
    requires places { ArePlaces (shape_of job.now) mask places.now }
    requires mask { IsSetOf job.now mask }
    requires new { ¬ IsRefuted nogoods.old.items mask action }
    ensures job { strokes.new ≡ strokes.old }
    ensures list { IfOk result (λ done. Grows job.now mask action nogoods.old.items
        nogoods.new.items) }
{
    if !is_action_at(job, &key_at(mask), action) {
        return Ok(());
    }
    if let Some(reason) = first_opposing(job, strokes, places, mask, action) {
        nogoods.push(learned(job, mask, action, reason))?;
    }
    Ok(())
}

/// The first reason against an action where the bends of the mask are folded, where that isn't
/// NoGauge. `places` are those of the faces.
fn first_opposing(
    job: &Job,
    strokes: &mut StrokeTable,
    places: &[Place],
    mask: Mask,
    action: Action,
) -> Option<Reason>
    requires job { job.now ≡ strokes.old }
    requires count { length places.now ≡ length job.now.part.faces }
    requires places { ArePlaces (shape_of job.now) mask places.now }
    requires mask { IsSetOf job.now mask }
    requires action { IsActionAt job.now (key_at mask) action }
    ensures job { strokes.new ≡ strokes.old }
    ensures first { IsFirstBeforeNoGauge job.now mask (group_of job.now mask action.bend)
        action.back action.stage result }
{
    match strokes.reason_at(job, places, mask, action) {
        Some(reason) => {
            if is_no_gauge(reason) {
                None
            } else {
                Some(reason)
            }
        }
        None => None,
    }
}
