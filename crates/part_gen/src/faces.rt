//! The faces of a made part.
ghost use Rattle.std.specs.Prelude.{◌≡◌, ◌<◌, ◌≤◌, ◌==◌, pos, ◌≤ℤ◌, [], ◌∷◌, ◌++◌, map, length, if◌then◌else◌};
ghost use Rattle.part_file.specs.Part.{face_data};
ghost use Rattle.part_gen.specs.Draws.{next, answer, state_after};
ghost use Rattle.part_gen.specs.Generator.{face_name, first_number, root_face, dir_of, generated_faces};
ghost use Rattle.part_gen.specs.Steps.{length_from, first_from, first_faces, second_from};

use crate::draws::Draws;
use arrayvec::ArrayVec;
use brake_base::Name;
use part_file::{Dir, Face, Joint, Side};

/// The name of the face of a number: the letter f and the number's digit.
fn face_name(number: u8) -> Name
    requires { number < 10 }
    ensures { result.bytes ≡ face_name number }
{
    let mut name = Name::new();
    name.push('f');
    name.push(char::from(b'0' + number));
    name
}

/// The number of the first flange of a side.
fn first_number(side: Side) -> u8
    ensures value { result ≡ first_number side }
    ensures few { result ≤ 4 }
{
    match side {
        Side::N => 1,
        Side::E => 2,
        Side::S => 3,
        Side::W => 4,
    }
}

/// Draws a length: the least one and up to `choices - 1` whole millimetres more, in micrometres.
fn drawn_length(draws: &mut Draws, least: u32, choices: u32) -> i64
    requires some { 0 < choices }
    requires few { choices ≤ 100 }
    requires short { least ≤ 1000000 }
    ensures value { result ≡ length_from draws.old.x least choices }
    ensures low { pos least ≤ℤ result }
    ensures high { result ≤ℤ pos 1100000 }
    ensures state { draws.new.x ≡ next draws.old.x }
{
    i64::from(least + 1000 * draws.draw(choices))
}

/// Draws a direction: up where the draw is 0, else down.
fn drawn_dir(draws: &mut Draws) -> Dir
    ensures value { result ≡ dir_of (answer draws.old.x 2) }
    ensures state { draws.new.x ≡ next draws.old.x }
{
    match draws.draw(2) {
        0 => Dir::Up,
        _ => Dir::Down,
    }
}

/// Draws a flange's length and then its direction.
fn drawn_flange(draws: &mut Draws, least: u32, choices: u32) -> (i64, Dir)
    requires some { 0 < choices }
    requires few { choices ≤ 100 }
    requires short { least ≤ 1000000 }
    ensures length { result.0 ≡ length_from draws.old.x least choices }
    ensures dir { result.1 ≡ dir_of (answer (next draws.old.x) 2) }
    ensures state { draws.new.x ≡ state_after 2 draws.old.x }
{
    let length = drawn_length(draws, least, choices);
    let dir = drawn_dir(draws);
    (length, dir)
}

/// Face 0 of these sizes.
fn root_face(width: i64, length: i64) -> Face
    ensures { face_data result ≡ root_face width length }
{
    Face {
        name: face_name(0),
        width,
        length,
        joint: None,
    }
}

/// The first flange of a side, of this width.
fn first_flange(draws: &mut Draws, side: Side, width: i64) -> Face
    ensures value { face_data result ≡ first_from draws.old.x side width }
    ensures state { draws.new.x ≡ state_after 2 draws.old.x }
{
    let (length, dir) = drawn_flange(draws, 20_000, 11);
    Face {
        name: face_name(first_number(side)),
        width,
        length,
        joint: Some(Joint {
            on: 0,
            side,
            at: 2000,
            dir,
        }),
    }
}

/// The second flange of a side, of this width, as the face of this number.
fn second_flange(draws: &mut Draws, number: u8, side: Side, width: i64) -> Face
    requires { number < 10 }
    ensures value { face_data result ≡ second_from draws.old.x number side width }
    ensures state { draws.new.x ≡ state_after 2 draws.old.x }
{
    let (length, dir) = drawn_flange(draws, 15_000, 6);
    Face {
        name: face_name(number),
        width,
        length,
        joint: Some(Joint {
            on: first_number(side),
            side: Side::N,
            at: 0,
            dir,
        }),
    }
}

/// Adds the second flange of a side.
fn push_second(draws: &mut Draws, faces: &mut ArrayVec<Face, 13>, side: Side, width: i64)
    requires { length faces.old.items < 10 }
    ensures faces { map face_data faces.new.items
        ≡ map face_data faces.old.items
        ++ second_from draws.old.x (length faces.old.items) side width ∷ [] }
    ensures state { draws.new.x ≡ state_after 2 draws.old.x }
{
    let flange = second_flange(draws, faces.len() as u8, side, width);
    faces.push(flange);
}

/// Adds a second flange of a side where the draw says so, which is where it is 1.
fn push_second_by_choice(draws: &mut Draws, faces: &mut ArrayVec<Face, 13>, side: Side, width: i64)
    requires { length faces.old.items < 10 }
    ensures faces { map face_data faces.new.items
        ≡ (if answer draws.old.x 2 == 1 then map face_data faces.old.items
        ++ second_from (next draws.old.x) (length faces.old.items) side width
        ∷ [] else map face_data faces.old.items) }
    ensures state { draws.new.x
        ≡ (if answer draws.old.x 2 == 1 then state_after 3 draws.old.x else next draws.old.x) }
{
    if draws.draw(2) == 1 {
        push_second(draws, faces, side, width);
    }
}

/// Face 0 and the first flange of each of its sides.
fn first_round(draws: &mut Draws, width: i64, length: i64) -> ArrayVec<Face, 13>
    requires width { pos 4000 ≤ℤ width }
    requires length { pos 4000 ≤ℤ length }
    ensures faces { map face_data result.items ≡ first_faces draws.old.x width length }
    ensures state { draws.new.x ≡ state_after 8 draws.old.x }
{
    let mut faces = ArrayVec::new();
    faces.push(root_face(width, length));
    faces.push(first_flange(draws, Side::N, width - 4000));
    faces.push(first_flange(draws, Side::E, length - 4000));
    faces.push(first_flange(draws, Side::S, width - 4000));
    faces.push(first_flange(draws, Side::W, length - 4000));
    faces
}

/// The faces of the part of a number.
pub(crate) fn made_faces(n: u32) -> ArrayVec<Face, 13>
    ensures { map face_data result.items ≡ generated_faces n }
{
    let mut draws = Draws::new(n);
    let width = drawn_length(&mut draws, 100_000, 51);
    let length = drawn_length(&mut draws, 80_000, 41);
    let mut faces = first_round(&mut draws, width, length);
    push_second(&mut draws, &mut faces, Side::N, width - 4000);
    push_second_by_choice(&mut draws, &mut faces, Side::E, length - 4000);
    push_second(&mut draws, &mut faces, Side::S, width - 4000);
    push_second_by_choice(&mut draws, &mut faces, Side::W, length - 4000);
    faces
}
