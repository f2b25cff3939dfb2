//! What a reader keeps of a job, and the bends that may be bent next where a set of bends is folded.
ghost use Rattle.std.specs.Prelude.{◌≡◌, ◌≤◌, ◌<◌, ℕ, length, true};
ghost use Rattle.brake_base.specs.Masks.{has};
ghost use Rattle.job_setup.specs.StrokeGroup.{is_lead};
ghost use Rattle.job_setup.specs.Setup.{JobData};
ghost use Rattle.plan_lines.specs.Facts.{KeepsFacts, HasFew, AreEarlier, AreAllEarlier};
ghost use Rattle.plan_lines.specs.NoteLines.{AreLeads};
ghost use Rattle.plan_lines.specs.declared.job_facts.JobFacts.{JobFacts};

use brake_base::Mask;
use cert_lines::Format;
use job_setup::{Job, group};

/// The format of a text, how many bends and stages its job has, and for each bend the lesser bends
/// that are in its group where no bend is folded.
#[derive(Clone, Copy)]
pub struct JobFacts {
    pub format: Format,
    pub bends: u8,
    pub stages: u8,
    pub earlier: [Mask; 12],
}

/// The lesser bends that are in the bend's group where no bend is folded.
fn earlier_of(job: &Job, bend: u8) -> Mask
    requires some { 0 < bend }
    requires few { bend ≤ 12 }
    requires bend { bend < length job.now.part.faces }
    ensures { AreEarlier job.now bend result }
{
    group(job, Mask::empty(), bend).intersection(Mask::full(bend - 1))
}

/// The lesser bends of each bend's group where no bend is folded.
fn all_earlier(job: &Job) -> [Mask; 12]
    ensures { AreAllEarlier job.now result }
{
    let mut earlier = [Mask::empty(); 12];
    for bend in 1..job.bends() + 1 {
        earlier[usize::from(bend - 1)] = earlier_of(job, bend);
    }
    earlier
}

impl JobFacts {
    /// What is kept of a job in a text of this format.
    pub fn new(format: Format, job: &Job) -> JobFacts
        ensures format { result.format ≡ format }
        ensures kept { KeepsFacts result job.now }
    {
        JobFacts {
            format,
            bends: job.bends(),
            stages: job.stages(),
            earlier: all_earlier(job),
        }
    }

    /// What is kept before a job is known.
    pub fn none() -> JobFacts
        ensures { HasFew result }
    {
        JobFacts {
            format: Format::Version2,
            bends: 0,
            stages: 0,
            earlier: [Mask::empty(); 12],
        }
    }

    /// Whether the bend isn't folded, and no lesser bend is in its group.
    pub fn is_lead(&self, folded: Mask, bend: u8) -> bool
        requires some { 0 < bend }
        requires bend { bend ≤ self.now.bends }
        requires few { self.now.bends ≤ 12 }
        ensures { (job : JobData) → KeepsFacts self.now job → result ≡ is_lead job folded bend }
    {
        !folded.contains(bend)
            && self.earlier[usize::from(bend - 1)]
                .without(folded)
                .is_empty()
    }
}

/// A set of folded bends, and the bends of which each is the lead of its group there.
#[derive(Clone, Copy)]
pub struct SetLeads {
    pub folded: Mask,
    pub leads: Mask,
}

impl SetLeads {
    /// No lead, of the set of all bends.
    pub fn none() -> SetLeads
        ensures { (facts : JobFacts) → AreLeads facts result }
    {
        SetLeads {
            folded: Mask(u16::MAX),
            leads: Mask::empty(),
        }
    }

    /// The leads where these bends are folded.
    pub fn at(facts: &JobFacts, folded: Mask) -> SetLeads
        requires { HasFew facts.now }
        ensures folded { result.folded ≡ folded }
        ensures leads { AreLeads facts.now result }
        ensures all { (job : JobData) (bend : ℕ) → KeepsFacts facts.now job → 1 ≤ bend
            → bend ≤ facts.now.bends → is_lead job folded bend ≡ true
            → has result.leads bend ≡ true }
    {
        let mut leads = Mask::empty();
        for bend in 1..facts.bends + 1 {
            if facts.is_lead(folded, bend) {
                leads = leads.with(bend);
            }
        }
        SetLeads { folded, leads }
    }

    /// These leads where they are those of the set, or else the set's own.
    pub fn turned_to(self, facts: &JobFacts, folded: Mask) -> SetLeads
        requires few { HasFew facts.now }
        requires leads { AreLeads facts.now self }
        ensures folded { result.folded ≡ folded }
        ensures leads { AreLeads facts.now result }
    {
        if self.folded == folded {
            self
        } else {
            SetLeads::at(facts, folded)
        }
    }
}
