//! Short texts.
ghost use Rattle.std.specs.Prelude.{◌≡◌, ◌≤◌, ◌++◌, [], length, OnOk};

use std::alloc::AllocError;
use std::marker::Model;

/// Up to 32 bytes, which are appended to a text all at once and then cut: to move a fixed number of
/// bytes takes half the time.
#[derive(Drop)]
pub(crate) struct ShortText {
    bytes: [u8; 32],
    len: u8,
}

impl Model for ShortText {
    ghost use Rattle.std.specs.Prelude.{ℕ, ◌≤◌, List, take};

    ghost Value = { List ℕ };

    ghost view = { λ t. take t.len t.bytes };

    ghost invariant = { λ t. t.len ≤ 32 };
}

impl ShortText {
    /// No byte.
    pub fn empty() -> ShortText
        ensures { result ≡ [] }
    {
        ShortText {
            bytes: [0; 32],
            len: 0,
        }
    }

    /// These bytes.
    pub fn of(text: &[u8]) -> ShortText
        requires { length text.now ≤ 32 }
        ensures { result ≡ text.now }
    {
        let mut bytes = [0; 32];
        bytes[..text.len()].copy_from_slice(text);
        ShortText {
            bytes,
            len: text.len() as u8,
        }
    }

    /// Appends the bytes.
    #[inline(always)]
    pub fn put(&self, out: &mut Vec<u8>) -> Result<(), AllocError>
        ensures { OnOk result (out.new.items ≡ out.old.items ++ self.now) }
    {
        let end = out.len() + usize::from(self.len);
        out.extend_from_slice(&self.bytes)?;
        out.truncate(end);
        Ok(())
    }
}
