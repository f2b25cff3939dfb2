//! The commands that read their first file themselves, in pieces.
use crate::form::Form;
use crate::{check, prove};
use brake_io::{Reader, Window};
use check_command::answer_alone;
use command_runner::{Answer, ReadingCommand, WordKind};
use std::alloc::{AllocError, Global};

/// A command that reads its first file itself.
#[derive(Clone, Copy)]
pub enum PieceCommand {
    /// `check` of a certificate alone.
    Check,
    /// `check` with the files of a job.
    CheckFiles,
    Prove,
}

impl ReadingCommand for PieceCommand {
    ghost use Rattle.brake_commands.specs.Commands.{piece_kinds, piece_meaning};

    ghost form = { piece_kinds };

    ghost meaning = { piece_meaning };

    fn kinds(&self) -> &'static [WordKind] {
        match self {
            PieceCommand::Check => Form::Check.kinds(),
            PieceCommand::CheckFiles => Form::CheckFiles.kinds(),
            PieceCommand::Prove => Form::Prove.kinds(),
        }
    }

    fn answer_from<R: Reader + Drop>(
        &self,
        alloc: Global,
        _: &[String],
        window: &mut Window<R>,
        contents: &[Vec<u8>],
    ) -> Result<Answer, AllocError> {
        match self {
            PieceCommand::Check => answer_alone(alloc, window),
            PieceCommand::CheckFiles => check::answer_with_files(alloc, window, contents),
            PieceCommand::Prove => prove::answer(alloc, window),
        }
    }
}
