//! How the part is turned before a stroke, as somebody sees it who stands before the machine.
ghost use Rattle.std.specs.Prelude.{◌≡◌, ◌++◌, [], ◌∷◌, OnOk};
ghost use Rattle.brake_base.specs.Turns.{turn_of};
ghost use Rattle.sheet_words.specs.Turns.{movement_words, icon_shapes, words_left, words_right, movements_about, movements_over, movements, parting, movement_texts, turn_words, side_words, looks};

use arrayvec::ArrayVec;
use brake_base::{Turn, V3};
use brake_text::put_word;
use std::alloc::AllocError;

/// A movement of the part: it stays, turns about the vertical, is turned over or tipped.
#[derive(Clone, Copy, Debug, Default, PartialEq, Eq)]
pub enum Movement {
    #[default]
    Still,
    QuarterAnticlockwise,
    Half,
    QuarterClockwise,
    OverBack,
    OverRight,
    TipRight,
    TipLeft,
    TipBack,
    TipFront,
}

/// The movements of a turn, in order.
pub type Movements = ArrayVec<Movement, 2>;

const STILL: &[u8] =
    b"<path d=\"M22 58H78V72H22Z\"/><path d=\"M50 46V22\"/><path class=\"a\" d=\"M50 12L60 30H40Z\"/>";

const QUARTER_ANTICLOCKWISE: &[u8] =
    b"<path d=\"M34 34H66V66H34Z\"/><path d=\"M88 50A38 38 0 0 0 56 12\"/><path class=\"a\" d=\"M40 12L58 3V22Z\"/>";

const HALF: &[u8] =
    b"<path d=\"M34 34H66V66H34Z\"/><path d=\"M88 50A38 38 0 0 0 12 46\"/><path class=\"a\" d=\"M12 64L3 46H21Z\"/>";

const QUARTER_CLOCKWISE: &[u8] =
    b"<path d=\"M34 34H66V66H34Z\"/><path d=\"M12 50A38 38 0 0 1 44 12\"/><path class=\"a\" d=\"M60 12L42 3V22Z\"/>";

const OVER: &[u8] =
    b"<path d=\"M16 68H84V76H16Z\"/><path d=\"M20 54A30 30 0 0 1 80 48\"/><path class=\"a\" d=\"M80 64L70 46H90Z\"/>";

const TIPPED_CLOCKWISE: &[u8] =
    b"<path d=\"M14 68H56V76H14Z\"/><path d=\"M24 50A40 40 0 0 1 78 50\"/><path class=\"a\" d=\"M84 66L68 54L86 44Z\"/>";

const TIPPED_ANTICLOCKWISE: &[u8] =
    b"<path d=\"M44 68H86V76H44Z\"/><path d=\"M76 50A40 40 0 0 0 22 50\"/><path class=\"a\" d=\"M16 66L32 54L14 44Z\"/>";

impl Movement {
    /// The movement in words.
    #[tactic(auto, unfolding(crate::specs::Turns::movement_words))]
    pub fn words(self) -> &'static [u8]
        ensures { result.now ≡ movement_words self }
    {
        match self {
            Movement::Still => b"no turn",
            Movement::QuarterAnticlockwise => b"quarter turn anticlockwise",
            Movement::Half => b"half turn",
            Movement::QuarterClockwise => b"quarter turn clockwise",
            Movement::OverBack => b"turn over, front to back",
            Movement::OverRight => b"turn over, left to right",
            Movement::TipRight => b"tip over to the right",
            Movement::TipLeft => b"tip over to the left",
            Movement::TipBack => b"tip over to the back",
            Movement::TipFront => b"tip over to the front",
        }
    }

    /// The shapes of its icon, as they stand in a page.
    #[tactic(auto, unfolding(crate::specs::Turns::icon_shapes))]
    pub fn icon(self) -> &'static [u8]
        ensures { result.now ≡ icon_shapes self }
    {
        match self {
            Movement::Still => STILL,
            Movement::QuarterAnticlockwise => QUARTER_ANTICLOCKWISE,
            Movement::Half => HALF,
            Movement::QuarterClockwise => QUARTER_CLOCKWISE,
            Movement::OverBack | Movement::OverRight => OVER,
            Movement::TipRight | Movement::TipBack => TIPPED_CLOCKWISE,
            Movement::TipLeft | Movement::TipFront => TIPPED_ANTICLOCKWISE,
        }
    }

    /// The word at the left of its icon.
    #[tactic(auto, unfolding(crate::specs::Turns::words_left))]
    pub fn left(self) -> &'static [u8]
        ensures { result.now ≡ words_left self }
    {
        match self {
            Movement::OverRight | Movement::TipRight | Movement::TipLeft => b"left",
            Movement::OverBack | Movement::TipBack | Movement::TipFront => b"front",
            _ => b"",
        }
    }

    /// The word at the right of its icon.
    #[tactic(auto, unfolding(crate::specs::Turns::words_right))]
    pub fn right(self) -> &'static [u8]
        ensures { result.now ≡ words_right self }
    {
        match self {
            Movement::OverRight | Movement::TipRight | Movement::TipLeft => b"right",
            Movement::OverBack | Movement::TipBack | Movement::TipFront => b"back",
            _ => b"",
        }
    }
}

/// The movement of so many quarter turns about the vertical, where there is one.
fn about(quarters: u8) -> Movements
    ensures { result.items ≡ movements_about quarters }
{
    match quarters {
        1 => one(Movement::QuarterAnticlockwise),
        2 => one(Movement::Half),
        3 => one(Movement::QuarterClockwise),
        _ => ArrayVec::new(),
    }
}

/// What turns or tips the part over, where something does.
fn over(base: u8) -> Movements
    ensures { result.items ≡ movements_over base }
{
    match base {
        1 => one(Movement::OverBack),
        2 => one(Movement::TipRight),
        3 => one(Movement::TipLeft),
        4 => one(Movement::TipBack),
        5 => one(Movement::TipFront),
        _ => ArrayVec::new(),
    }
}

/// One movement alone.
fn one(movement: Movement) -> Movements
    ensures { result.items ≡ movement ∷ [] }
{
    let mut movements = ArrayVec::new();
    movements.push(movement);
    movements
}

/// The movements of a turn, one or two: first about the vertical, then over.
pub fn movements_of(turn: Turn) -> Movements
    ensures { result.items ≡ movements turn }
{
    match turn.number() {
        0 => one(Movement::Still),
        6 => one(Movement::OverRight),
        number => {
            let mut movements = about(number % 4);
            let _ = movements.try_extend_from_slice(over(number / 4).as_slice());
            movements
        }
    }
}

/// What parts a movement from those before it.
#[tactic(auto, unfolding(crate::specs::Turns::parting))]
fn parting(is_first: bool) -> &'static [u8]
    ensures { result.now ≡ parting is_first }
{
    if is_first { b"" } else { b", then " }
}

/// Movements in words, which may follow others.
#[tactic(auto, using(crate::proofs::Texts::pieces))]
fn put_movements(
    out: &mut Vec<u8>,
    is_first: bool,
    movements: &[Movement],
) -> Result<(), AllocError>
    ensures { OnOk result (out.new.items
        ≡ out.old.items ++ movement_texts is_first movements.now) }
{
    match movements {
        [] => Ok(()),
        [movement, movements @ ..] => {
            put_word(out, parting(is_first))?;
            put_word(out, movement.words())?;
            put_movements(out, false, movements)
        }
    }
}

/// A turn in words.
pub fn put_turn(out: &mut Vec<u8>, turn: Turn) -> Result<(), AllocError>
    ensures { OnOk result (out.new.items ≡ out.old.items ++ turn_words turn) }
{
    let movements = movements_of(turn);
    put_movements(out, true, movements.as_slice())
}

/// The word for where a direction along an axis points.
#[tactic(auto, unfolding(crate::specs::Turns::side_words))]
fn side_words(towards: V3) -> &'static [u8]
    ensures { result.now ≡ side_words towards }
{
    if towards.z == 1 {
        b"up"
    } else if towards.z == -1 {
        b"down"
    } else if towards.x == 1 {
        b"to the right"
    } else if towards.x == -1 {
        b"to the left"
    } else if towards.y == 1 {
        b"to the back"
    } else {
        b"to the front"
    }
}

/// Where side A, the side of the blank that is drawn, looks in an attitude.
pub fn looks(attitude: Turn) -> &'static [u8]
    ensures { result.now ≡ looks attitude }
{
    side_words(attitude.apply(V3 { x: 0, y: 0, z: 1 }))
}
