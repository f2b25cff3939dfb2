//! A job line: which one a text is, by its keyword and its words.
ghost use Rattle.std.specs.Prelude.{◌≡◌};
ghost use Rattle.part_file.specs.Part.{face_data};
ghost use Rattle.cert_words.specs.LineWords.{Reads};
ghost use Rattle.cert_lines.specs.Lines.{part_line, punch_line, die_line};
ghost use Rattle.cert_lines.specs.JobLineReading.{line_of, single, pair, triple, rect_of, fixed_of, gauge_of, cost_numbers, pieces_of, numbered, named, root_in, face_in, number_line_in, words_line_in, line_in};

use arrayvec::ArrayVec;
use brake_base::{Name, Rect};
use cert_words::{child, named, signed_numbers, split_word};
use machine_file::bounds::MOST_PIECES;
use machine_file::{Fixed, GaugeRule};
use part_file::{Face, MOST_FACES};

/// Six costs, in three pairs.
pub type CostNumbers = ((i64, i64), ((i64, i64), (i64, i64)));

/// A job line, with what its words say. Lengths are in micrometres, costs in tenths of a second,
/// forces in newtons.
#[derive(Drop)]
pub enum JobLine {
    Part {
        material: Name,
        thickness: i64,
        radius: i64,
        q: i64,
    },
    Face(Face),
    Bed((i64, i64)),
    Frame((i64, i64)),
    Upper(Fixed),
    Lower(Fixed),
    Uncovered(i64),
    Gauge(GaugeRule),
    Cost(CostNumbers),
    Gang(i64),
    Force(i64),
    Fine(i64),
    Stage((i64, i64)),
    Punch {
        name: Name,
        height: i64,
        nose: i64,
    },
    Die {
        name: Name,
        height: i64,
        v: i64,
        least_flange: i64,
    },
    Box(Rect),
    Pieces(ArrayVec<i64, MOST_PIECES>),
    Load((i64, i64)),
}

/// A number alone.
#[tactic(auto, unfolding(crate::specs::JobLineReading::numbered))]
fn single(text: &[u8]) -> Option<i64>
    ensures { result ≡ numbered single text.now }
{
    match *signed_numbers(text)?.as_slice() {
        [n] => Some(n),
        _ => None,
    }
}

/// Two numbers alone.
#[tactic(auto, unfolding(crate::specs::JobLineReading::numbered))]
fn pair(text: &[u8]) -> Option<(i64, i64)>
    ensures { result ≡ numbered pair text.now }
{
    match *signed_numbers(text)?.as_slice() {
        [m, n] => Some((m, n)),
        _ => None,
    }
}

/// A rectangle alone.
#[tactic(auto, unfolding(crate::specs::JobLineReading::numbered))]
fn rect(text: &[u8]) -> Option<Rect>
    ensures { result ≡ numbered rect_of text.now }
{
    match *signed_numbers(text)?.as_slice() {
        [y0, y1, z0, z1] => Some(Rect { y0, y1, z0, z1 }),
        _ => None,
    }
}

/// A fixed box alone.
#[tactic(auto, unfolding(crate::specs::JobLineReading::numbered))]
fn fixed(text: &[u8]) -> Option<Fixed>
    ensures { result ≡ numbered fixed_of text.now }
{
    match *signed_numbers(text)?.as_slice() {
        [x0, x1, y0, y1, z0, z1] => Some(Fixed {
            x0,
            x1,
            rect: Rect { y0, y1, z0, z1 },
        }),
        _ => None,
    }
}

/// The backgauge alone.
#[tactic(auto, unfolding(crate::specs::JobLineReading::numbered))]
fn gauge(text: &[u8]) -> Option<GaugeRule>
    ensures { result ≡ numbered gauge_of text.now }
{
    match *signed_numbers(text)?.as_slice() {
        [near, far, inset, finger, gap, depth, above, below] => Some(GaugeRule {
            near,
            far,
            inset,
            finger,
            gap,
            depth,
            above,
            below,
        }),
        _ => None,
    }
}

/// The costs alone.
#[tactic(auto, unfolding(crate::specs::JobLineReading::numbered))]
fn costs(text: &[u8]) -> Option<CostNumbers>
    ensures { result ≡ numbered cost_numbers text.now }
{
    match *signed_numbers(text)?.as_slice() {
        [stroke, quarter, half, flip, roll, stage] => {
            Some(((stroke, quarter), ((half, flip), (roll, stage))))
        }
        _ => None,
    }
}

/// The pieces alone, of which there is one.
#[tactic(auto, unfolding(crate::specs::JobLineReading::numbered))]
fn pieces(text: &[u8]) -> Option<ArrayVec<i64, MOST_PIECES>>
    ensures { Reads (λ pieces. pieces.items) result (numbered pieces_of text.now) }
{
    let numbers = signed_numbers(text)?;
    if numbers.is_empty() {
        None
    } else {
        Some(numbers)
    }
}

/// A name and two numbers.
#[tactic(auto, unfolding(crate::specs::JobLineReading::named))]
fn named_pair(text: &[u8]) -> Option<(Name, (i64, i64))>
    ensures { Reads (λ x. (x.0.bytes, x.1)) result (named pair text.now) }
{
    let (name, numbers) = named(text)?;
    match *numbers.as_slice() {
        [m, n] => Some((name, (m, n))),
        _ => None,
    }
}

/// A name and three numbers.
#[tactic(auto, unfolding(crate::specs::JobLineReading::named))]
fn named_triple(text: &[u8]) -> Option<(Name, (i64, i64, i64))>
    ensures { Reads (λ x. (x.0.bytes, x.1)) result (named triple text.now) }
{
    let (name, numbers) = named(text)?;
    match *numbers.as_slice() {
        [l, m, n] => Some((name, (l, m, n))),
        _ => None,
    }
}

/// Face 0, which stands on none.
#[tactic(auto, unfolding(crate::specs::JobLineReading::root_in))]
fn root(text: &[u8]) -> Option<Face>
    ensures { Reads face_data result (root_in text.now) }
{
    let (name, (width, length)) = named_pair(text)?;
    Some(Face {
        name,
        width,
        length,
        joint: None,
    })
}

/// A face: face 0, or one that stands on a face of the numbers that a part may have.
#[tactic(auto, unfolding(crate::specs::JobLineReading::face_in))]
fn face(text: &[u8]) -> Option<Face>
    ensures { Reads face_data result (face_in text.now) }
{
    match root(text) {
        Some(face) => Some(face),
        None => child(text, MOST_FACES as u8),
    }
}

impl JobLine {
    /// The line of the sheet: its material, its sizes and the half deduction.
    fn part(sheet: (Name, (i64, i64, i64))) -> JobLine
        ensures { line_of result ≡ part_line sheet.0.bytes sheet.1.0 sheet.1.1 sheet.1.2 }
    {
        let (material, (thickness, radius, q)) = sheet;
        JobLine::Part {
            material,
            thickness,
            radius,
            q,
        }
    }

    /// The line of a punch: its name, its height and the size of its nose.
    fn punch(tool: (Name, (i64, i64))) -> JobLine
        ensures { line_of result ≡ punch_line tool.0.bytes tool.1.0 tool.1.1 }
    {
        let (name, (height, nose)) = tool;
        JobLine::Punch { name, height, nose }
    }

    /// The line of a die: its name, its height, its opening and the shortest flange.
    fn die(tool: (Name, (i64, i64, i64))) -> JobLine
        ensures { line_of result ≡ die_line tool.0.bytes tool.1.0 tool.1.1 tool.1.2 }
    {
        let (name, (height, v, least_flange)) = tool;
        JobLine::Die {
            name,
            height,
            v,
            least_flange,
        }
    }

    /// A line of numbers alone.
    #[tactic(auto, unfolding(crate::specs::JobLineReading::number_line_in))]
    fn of_numbers(keyword: &[u8], text: &[u8]) -> Option<JobLine>
        ensures { Reads line_of result (number_line_in keyword.now text.now) }
    {
        if keyword == b"bed".as_slice() {
            pair(text).map(JobLine::Bed)
        } else if keyword == b"frame".as_slice() {
            pair(text).map(JobLine::Frame)
        } else if keyword == b"upper".as_slice() {
            fixed(text).map(JobLine::Upper)
        } else if keyword == b"lower".as_slice() {
            fixed(text).map(JobLine::Lower)
        } else if keyword == b"uncovered".as_slice() {
            single(text).map(JobLine::Uncovered)
        } else if keyword == b"gauge".as_slice() {
            gauge(text).map(JobLine::Gauge)
        } else if keyword == b"cost".as_slice() {
            costs(text).map(JobLine::Cost)
        } else if keyword == b"gang".as_slice() {
            single(text).map(JobLine::Gang)
        } else if keyword == b"force".as_slice() {
            single(text).map(JobLine::Force)
        } else if keyword == b"fine".as_slice() {
            single(text).map(JobLine::Fine)
        } else if keyword == b"stage".as_slice() {
            pair(text).map(JobLine::Stage)
        } else if keyword == b"box".as_slice() {
            rect(text).map(JobLine::Box)
        } else if keyword == b"pieces".as_slice() {
            pieces(text).map(JobLine::Pieces)
        } else if keyword == b"load".as_slice() {
            pair(text).map(JobLine::Load)
        } else {
            None
        }
    }

    /// The line by its keyword and the text behind it.
    #[tactic(auto, unfolding(crate::specs::JobLineReading::words_line_in))]
    fn of_words(keyword: &[u8], text: &[u8]) -> Option<JobLine>
        ensures { Reads line_of result (words_line_in keyword.now text.now) }
    {
        if keyword == b"part".as_slice() {
            named_triple(text).map(JobLine::part)
        } else if keyword == b"face".as_slice() {
            face(text).map(JobLine::Face)
        } else if keyword == b"punch".as_slice() {
            named_pair(text).map(JobLine::punch)
        } else if keyword == b"die".as_slice() {
            named_triple(text).map(JobLine::die)
        } else {
            JobLine::of_numbers(keyword, text)
        }
    }

    /// The job line that the text is, without its line feed.
    #[tactic(auto, unfolding(crate::specs::JobLineReading::line_in))]
    pub fn read(line: &[u8]) -> Option<JobLine>
        ensures { Reads line_of result (line_in line.now) }
    {
        let (keyword, text) = split_word(line);
        JobLine::of_words(keyword, text)
    }
}
