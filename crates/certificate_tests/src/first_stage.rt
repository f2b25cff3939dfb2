//! Keys and steps at the first stage.

ghost use Rattle.std.specs.Prelude.{◌<◌};

use brake_base::{Action, Back, Gauge, Key, Mask, Step, Turn};

/// The key with these bends folded, where the part is held so.
pub fn key(mask: u16, attitude: u8) -> Key
    requires { attitude < 24 }
{
    Key {
        mask: Mask(mask),
        attitude: Turn::from_number(attitude),
        stage: 0,
    }
}

/// A step with both fingers at one face.
pub fn step(bend: u8, back: Back, face: u8) -> Step {
    Step {
        action: Action {
            bend,
            back,
            stage: 0,
        },
        gauge: Gauge {
            left_face: face,
            right_face: face,
        },
    }
}
