//! Texts, lengths and times in the holes of a line.
ghost use Rattle.std.specs.Prelude.{◌≡◌, ◌<◌, ◌^◌};
ghost use Rattle.svg_text.specs.Escapes.{escaped};
ghost use Rattle.svg_text.specs.Forms.{IsHole, hole_text};
ghost use Rattle.sheet_words.specs.Lists.{mm, seconds};

use svg_text::Hole;

/// A text, of which nothing becomes markup.
#[tactic(auto, unfolding(svg_text::specs::Forms::hole_text))]
pub fn text(words: &[u8]) -> Hole<'_>
    ensures text { hole_text result ≡ escaped words.now }
    ensures hole { IsHole result }
{
    Hole::Text(words)
}

/// A length in millimetres, of micrometres.
#[tactic(auto, unfolding(svg_text::specs::Forms::hole_text))]
pub fn length(micrometres: i64) -> Hole<'static>
    ensures text { hole_text result ≡ mm micrometres }
    ensures hole { IsHole result }
{
    Hole::Decimal {
        value: micrometres,
        places: 3,
    }
}

/// A time in seconds, of tenths.
#[tactic(auto, using(sheet_paper::proofs::Texts::pieces), unfolding(svg_text::specs::Forms::hole_text))]
pub fn seconds(tenths: u64) -> Hole<'static>
    requires { tenths < 2 ^ 63 }
    ensures text { hole_text result ≡ seconds tenths }
    ensures hole { IsHole result }
{
    Hole::Decimal {
        value: tenths as i64,
        places: 1,
    }
}
