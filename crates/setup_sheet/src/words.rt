//! The words of a sheet's lines.
ghost use Rattle.std.specs.Prelude.{◌≡◌, ◌++◌, OnOk};
ghost use Rattle.setup_sheet.specs.Sheets.{field};

use brake_text::{put_number, put_word};
use std::alloc::AllocError;

/// A space and a number.
#[tactic(auto, using(crate::proofs::Texts::pieces), unfolding(crate::specs::Sheets::field))]
pub(crate) fn put_field(out: &mut Vec<u8>, value: i64) -> Result<(), AllocError>
    ensures { OnOk result (out.new.items ≡ out.old.items ++ field value) }
{
    put_word(out, b" ")?;
    put_number(out, value)
}
