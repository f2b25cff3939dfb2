//! The line reader.
ghost use Rattle.std.specs.Prelude.{◌≡◌, ◌+◌, ◌<◌, length, slice_get, Some};
ghost use Rattle.plan_lines.specs.Items.{items};
ghost use Rattle.plan_lines.specs.PlanItem.{plan_answer, job_answer};
ghost use Rattle.plan_cert.specs.ExactItems.{ReadsCertTexts, ReadsTableTexts};

use cert_lines::TextKind;
use job_setup::Job;
use plan_lines::{CertFault, Item, PlanItem, PlanReader, answer_behind_job, first_answer};
use std::marker::Model;

/// A reader of a certificate or a table file, line by line. It is seen as what it reads, the text,
/// and how many answers it gave. It takes no memory.
#[derive(Drop)]
pub struct CertReader<'a> {
    kind: TextKind,
    text: &'a [u8],
    answered: u64,
    plan: PlanReader<'a>,
}

impl<'a> Model for CertReader<'a> {
    ghost use Rattle.std.specs.Prelude.{drop};
    ghost use Rattle.plan_lines.specs.Items.{items};
    ghost use Rattle.plan_lines.specs.Facts.{HasFew};
    ghost use Rattle.plan_lines.specs.Reading.{Reading, Leaves};

    ghost Value = { Reading };

    ghost view = { λ r. record { kind = r.kind; text = r.text.now; answered = r.answered } };

    ghost invariant = { λ r. Leaves r.answered r.kind r.plan.place r.plan.rest.now
        (drop r.answered (items r.kind r.text.now)) × HasFew r.plan.place.facts };
}

impl<'a> CertReader<'a> {
    /// A reader of a certificate, in version 1 or 2. Its answers end with the end exactly where the
    /// text is a certificate's, and are then the certificate's items.
    #[tactic(auto, using(crate::proofs::WholeTexts::reads_cert_texts))]
    pub fn new(text: &'a [u8]) -> Self
        ensures reader { result
            ≡ record { kind = TextKind.Certificate; text = text.now; answered = 0 } }
        ensures exact { ReadsCertTexts text.now }
    {
        CertReader::of(TextKind::Certificate, text)
    }

    /// A reader of a table file. Its answers end with the end exactly where the text is a table's,
    /// and are then the table's items.
    #[tactic(auto, using(crate::proofs::WholeTexts::reads_table_texts))]
    pub fn table(text: &'a [u8]) -> Self
        ensures reader { result
            ≡ record { kind = TextKind.Table; text = text.now; answered = 0 } }
        ensures exact { ReadsTableTexts text.now }
    {
        CertReader::of(TextKind::Table, text)
    }

    /// A reader of a text of this kind.
    pub(crate) fn of(kind: TextKind, text: &'a [u8]) -> Self
        ensures { result ≡ record { kind = kind; text = text.now; answered = 0 } }
    {
        CertReader {
            kind,
            text,
            answered: 0,
            plan: PlanReader::new(text),
        }
    }

    /// The next item, or the refusal; `End` and a refusal are the last answer. It takes no memory.
    pub fn next(&mut self) -> Result<Item, CertFault>
        requires { self.old.answered < length (items self.old.kind self.old.text) }
        ensures given { slice_get (items self.old.kind self.old.text) self.old.answered
            ≡ Some result }
        ensures after { self.new ≡ record self.old { answered = self.old.answered + 1 } }
    {
        if self.answered == 0 {
            Ok(Item::Job(self.read_job()?))
        } else {
            Ok(Item::from(self.next_behind_job()?))
        }
    }

    /// The first answer, as `next` gives it: the job, or the refusal. It takes no memory.
    pub fn read_job(&mut self) -> Result<Job, CertFault>
        requires { self.old.answered ≡ 0 }
        ensures given { slice_get (items self.old.kind self.old.text) self.old.answered
            ≡ Some (job_answer result) }
        ensures after { self.new ≡ record self.old { answered = self.old.answered + 1 } }
    {
        self.answered += 1;
        first_answer(self.kind, &mut self.plan)
    }

    /// The next answer behind the job, as `next` gives it, in a small value: what the line gives, or
    /// the refusal. It takes no memory.
    #[tactic(auto, using(plan_lines::proofs::ItemCounts::few_items))]
    pub fn next_behind_job(&mut self) -> Result<PlanItem, CertFault>
        requires job { 0 < self.old.answered }
        requires left { self.old.answered < length (items self.old.kind self.old.text) }
        ensures given { slice_get (items self.old.kind self.old.text) self.old.answered
            ≡ Some (plan_answer result) }
        ensures after { self.new ≡ record self.old { answered = self.old.answered + 1 } }
    {
        self.answered += 1;
        answer_behind_job(&mut self.plan)
    }
}
