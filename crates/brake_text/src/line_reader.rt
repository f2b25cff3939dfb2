//! The lines of a text.
ghost use Rattle.std.specs.Prelude.{◌≡◌, ◌↔◌, [], IsNone, IfSome, position};
ghost use Rattle.std.specs.List.{before_first, after_first};
ghost use Rattle.brake_text.specs.Lines.{is_line_feed, BeginsWithLine};

use std::marker::Model;

/// A line without its line feed. Only the last line of a text may lack one, and then it is not
/// `ended`.
#[derive(Clone, Copy)]
pub struct Line<'a> {
    pub bytes: &'a [u8],
    pub ended: bool,
}

/// The lines of a text from some place on. It is seen as the bytes that are still to be read.
#[derive(Drop)]
pub struct Lines<'a> {
    rest: &'a [u8],
}

impl<'a> Model for Lines<'a> {
    ghost use Rattle.std.specs.Prelude.{ℕ, List};

    ghost Value = { List ℕ };

    ghost view = { λ lines. lines.rest.now };
}

impl<'a> Lines<'a> {
    /// All lines of the text.
    pub fn new(text: &'a [u8]) -> Self
        ensures { result ≡ text.now }
    {
        Lines { rest: text }
    }

    /// The next line, or `None` exactly at the end of the text.
    pub fn next(&mut self) -> Option<Line<'a>>
        ensures none { IsNone result ↔ (self.old ≡ []) }
        ensures bytes { IfSome result (λ line. line.bytes.now
            ≡ before_first is_line_feed self.old) }
        ensures rest { self.new ≡ after_first is_line_feed self.old }
        ensures whole { IfSome result
            (λ line. BeginsWithLine self.old line.bytes.now line.ended self.new) }
    {
        let text = self.rest;
        if text.is_empty() {
            return None;
        }
        match first_line_feed(text) {
            Some(at) => {
                self.rest = &text[at + 1..];
                Some(Line {
                    bytes: &text[..at],
                    ended: true,
                })
            }
            None => {
                self.rest = &[];
                Some(Line {
                    bytes: text,
                    ended: false,
                })
            }
        }
    }
}

/// Where the first line feed stands.
fn first_line_feed(text: &[u8]) -> Option<usize>
    ensures { result ≡ position is_line_feed text.now }
{
    text.iter().position(|byte| *byte == b'\n')
}
