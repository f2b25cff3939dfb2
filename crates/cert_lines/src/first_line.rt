//! The first line of a text.
ghost use Rattle.std.specs.Prelude.{◌≡◌, ◌<◌, [], ◌∷◌, length, position, IsNone, IfSome};
ghost use Rattle.brake_text.specs.Lines.{is_line_feed};
ghost use Rattle.cert_lines.specs.LineReading.{lines_in};
ghost use Rattle.cert_lines.specs.LineReading.{IsCut};

/// Where the first line feed stands.
fn first_line_feed(text: &[u8]) -> Option<usize>
    ensures { result ≡ position is_line_feed text.now }
{
    text.iter().position(|byte| *byte == b'\n')
}

/// The first line of a text without its line feed, and what stands behind it. `None` where the
/// text has no line feed.
pub fn whole_line(text: &[u8]) -> Option<(&[u8], &[u8])>
    ensures some { IfSome result (λ x. IsCut text.now x.0.now x.1.now) }
    ensures shorter { IfSome result (λ x. length x.1.now < length text.now) }
    ensures none { IsNone result → lines_in text.now ≡ text.now ∷ [] }
{
    match first_line_feed(text) {
        Some(at) => Some((&text[..at], &text[at + 1..])),
        None => None,
    }
}
