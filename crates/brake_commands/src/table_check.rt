//! The check of a table's file.
ghost use Rattle.std.specs.Prelude.{◌≡◌, ◌++◌, ◌∷◌, [], IfOk, OnOk};
ghost use Rattle.std.specs.List.{flat_map};
ghost use Rattle.cert_lines.specs.Lines.{spaced, number};
ghost use Rattle.command_runner.specs.declared.status.Status.TheVariants as status;
ghost use Rattle.command_runner.specs.Answers.{answer_data, one_text};
ghost use Rattle.command_runner.specs.Delivery.{IsCutShort};
ghost use Rattle.brake_commands.specs.TableCheck.{table_refusal_words, table_refused_line};
ghost use Rattle.brake_commands.specs.TableStops.{ChecksText, IsTableRefusalAnd};

use brake_text::put_word;
use cert_check::CheckFault;
use cert_merge::{ProveFault, TableFault, prove_text};
use command_runner::{Answer, Status};
use job_setup::Job;
use plan_cert::{CertFault, put_count};
use std::alloc::{AllocError, AllocFailed, Global};

/// Why a table's file is refused.
#[derive(Clone, Copy, Debug, PartialEq, Eq)]
pub enum TableRefusal {
    /// The text is no table's.
    Text(CertFault),
    /// An action of a row isn't accounted for.
    Rows(TableFault),
}

/// Why the check of a table's file stops early.
#[derive(Clone, Copy, Debug, PartialEq, Eq)]
pub enum TableStop {
    /// The file is refused.
    Refused(TableRefusal),
    /// Memory ran out.
    NoMemory,
}

impl From<CertFault> for TableStop {
    ghost use Rattle.std.specs.Prelude.{◌≡◌};
    ghost use Rattle.brake_commands.specs.TableStops.{of_cert_fault};

    ghost from_gives = { λ fault stop. stop ≡ of_cert_fault fault };

    fn from(fault: CertFault) -> Self {
        match fault {
            CertFault::NoMemory => TableStop::NoMemory,
            _ => TableStop::Refused(TableRefusal::Text(fault)),
        }
    }
}

impl From<TableFault> for TableStop {
    ghost use Rattle.std.specs.Prelude.{◌≡◌};
    ghost use Rattle.brake_commands.specs.TableStops.{of_table_fault};

    ghost from_gives = { λ fault stop. stop ≡ of_table_fault fault };

    fn from(fault: TableFault) -> Self {
        TableStop::Refused(TableRefusal::Rows(fault))
    }
}

impl From<ProveFault> for TableStop {
    ghost use Rattle.std.specs.Prelude.{◌≡◌};
    ghost use Rattle.brake_commands.specs.TableStops.{of_prove_fault};

    ghost from_gives = { λ fault stop. stop ≡ of_prove_fault fault };

    fn from(fault: ProveFault) -> Self {
        match fault {
            ProveFault::Text(fault) => TableStop::from(fault),
            ProveFault::Rows(fault) => TableStop::from(fault),
        }
    }
}

/// The text of a closed table, with the job that it gives.
#[derive(Drop)]
pub struct CheckedText<'a> {
    pub job: Job,
    pub text: &'a [u8],
}

/// The text of a table whose rows all meet their condition, with its job, or the first refusal.
pub fn checked_text<'a>(alloc: Global, text: &'a [u8]) -> Result<CheckedText<'a>, TableStop>
    ensures value { ChecksText text.now result }
{
    let proved = prove_text(alloc, text)?;
    Ok(CheckedText {
        job: proved.job,
        text,
    })
}

/// A number, and behind it those of a row and an action.
#[tactic(auto, using(cert_lines::proofs::Texts::pieces))]
fn put_row_fault(out: &mut Vec<u8>, kind: u8, row: u32, action: u8) -> Result<(), AllocError>
    ensures { OnOk result (out.new.items ≡ out.old.items
        ++ flat_map spaced (number kind ∷ number row ∷ number action ∷ [])) }
{
    put_count(out, u64::from(kind))?;
    put_count(out, u64::from(row))?;
    put_count(out, u64::from(action))
}

impl TableRefusal {
    /// Its number and what it names, each behind a space.
    fn put_words(self, out: &mut Vec<u8>) -> Result<(), AllocError>
        ensures { OnOk result (out.new.items
            ≡ out.old.items ++ flat_map spaced (table_refusal_words self)) }
    {
        match self {
            TableRefusal::Text(fault) => CheckFault::Cert(fault).put_words(out),
            TableRefusal::Rows(TableFault::BadReason { row, action }) => {
                put_row_fault(out, 2, row, action)
            }
            TableRefusal::Rows(TableFault::NotClosed { row, action }) => {
                put_row_fault(out, 3, row, action)
            }
        }
    }
}

/// The line of a refusal of the table of the file word of this number.
#[tactic(auto, using(cert_lines::proofs::Texts::pieces), unfolding(crate::specs::TableCheck::table_refused_line))]
fn refused_line(alloc: Global, place: u8, refusal: TableRefusal) -> Result<Vec<u8>, AllocError>
    ensures { IfOk result (λ line. line.items ≡ table_refused_line place refusal) }
{
    let mut out = Vec::new(alloc);
    put_word(&mut out, b"table refused")?;
    put_count(&mut out, u64::from(place))?;
    refusal.put_words(&mut out)?;
    put_word(&mut out, b"\n")?;
    Ok(out)
}

/// The answer to a stop of the check of such a table, unless memory ran out.
pub fn table_stopped(alloc: Global, place: u8, stop: TableStop) -> Result<Answer, AllocError>
    ensures answer { IfOk result (λ answer. IsTableRefusalAnd stop (λ refusal.
        answer_data answer ≡ one_text status.CertRefused (table_refused_line place refusal))) }
    ensures status { IfOk result (λ answer. ¬ IsCutShort answer.status) }
{
    match stop {
        TableStop::Refused(refusal) => {
            let line = refused_line(alloc, place, refusal)?;
            Answer::one_text(alloc, Status::CertRefused, line)
        }
        TableStop::NoMemory => Err(AllocError),
    }
}
