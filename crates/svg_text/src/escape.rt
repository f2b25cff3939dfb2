//! Texts in which nothing is markup.
ghost use Rattle.std.specs.Prelude.{◌≡◌, ◌++◌, OnOk};
ghost use Rattle.std.specs.List.{flat_map};
ghost use Rattle.svg_text.specs.Escapes.{escaped_byte, escaped, IsReadAs};

use brake_text::put_word;
use std::alloc::AllocError;

/// Appends a byte, or the mark that stands for it.
#[tactic(auto, unfolding(crate::specs::Escapes::escaped_byte))]
fn put_escaped_byte(out: &mut Vec<u8>, byte: u8) -> Result<(), AllocError>
    ensures { OnOk result (out.new.items ≡ out.old.items ++ escaped_byte byte) }
{
    match byte {
        b'&' => put_word(out, b"&amp;"),
        b'<' => put_word(out, b"&lt;"),
        b'>' => put_word(out, b"&gt;"),
        b'"' => put_word(out, b"&quot;"),
        b'\'' => put_word(out, b"&#39;"),
        _ => put_word(out, &[byte]),
    }
}

/// Appends a text as character data: each byte that could begin or end markup by the mark that
/// stands for it.
#[tactic(auto, using(crate::proofs::Reading::reads_back))]
pub fn put_escaped(out: &mut Vec<u8>, text: &[u8]) -> Result<(), AllocError>
    ensures ok { OnOk result (out.new.items ≡ out.old.items ++ escaped text.now) }
    // Nothing of it is markup, and a reader of the page has the text again.
    ensures safe { IsReadAs (escaped text.now) text.now }
{
    for byte in text {
        put_escaped_byte(out, *byte)?;
    }
    Ok(())
}
