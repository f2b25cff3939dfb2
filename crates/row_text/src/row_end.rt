//! The end of a row's line.
ghost use Rattle.std.specs.Prelude.{◌≡◌, ◌≤◌, ◌++◌, codes, OnOk};
ghost use Rattle.cert_lines.specs.Lines.{number, spaced, worth_word, IsWorth};

use brake_base::Worth;
use std::alloc::AllocError;
use std::marker::Model;

/// The worth of a row behind a space, and the end of the line: some of 16 bytes from a start on,
/// which are appended all at once and then cut.
#[derive(Drop)]
pub(crate) struct RowEnd {
    bytes: [u8; 32],
    start: u8,
    len: u8,
}

impl Model for RowEnd {
    ghost use Rattle.std.specs.Prelude.{ℕ, ◌≤◌, ◌+◌, List, take, drop};

    ghost Value = { List ℕ };

    ghost view = { λ e. take e.len (drop e.start e.bytes) };

    ghost invariant = { λ e. e.start + e.len ≤ 16 };
}

/// The end of the line of a row from which there is no way on.
fn blocked_end() -> RowEnd
    ensures { result ≡ codes " none\n" }
{
    let mut bytes = [b'\n'; 32];
    bytes[..5].copy_from_slice(b" none");
    RowEnd {
        bytes,
        start: 0,
        len: 6,
    }
}

/// The end of the line of a row of a cost. The digits are put from the last one on.
fn cost_end(cost: u64) -> RowEnd
    requires { cost ≤ 1000000000 }
    ensures { result ≡ spaced (number cost) ++ codes "\n" }
{
    let mut bytes = [b'\n'; 32];
    let mut at = 15u8;
    let mut rest = cost;
    while rest >= 10 {
        at -= 1;
        bytes[usize::from(at)] = b'0' + (rest % 10) as u8;
        rest /= 10;
    }
    bytes[usize::from(at - 1)] = b'0' + rest as u8;
    bytes[usize::from(at - 2)] = b' ';
    RowEnd {
        bytes,
        start: at - 2,
        len: 18 - at,
    }
}

impl RowEnd {
    /// The end of the line of a row of this worth.
    pub fn of(worth: Worth) -> RowEnd
        requires { IsWorth worth }
        ensures { result ≡ spaced (worth_word worth) ++ codes "\n" }
    {
        match worth {
            Worth::Cost(cost) => cost_end(cost),
            Worth::Blocked => blocked_end(),
        }
    }

    /// Appends the bytes.
    pub fn put(&self, out: &mut Vec<u8>) -> Result<(), AllocError>
        ensures { OnOk result (out.new.items ≡ out.old.items ++ self.now) }
    {
        let start = usize::from(self.start);
        let end = out.len() + usize::from(self.len);
        out.extend_from_slice(&self.bytes[start..start + 16])?;
        out.truncate(end);
        Ok(())
    }
}
