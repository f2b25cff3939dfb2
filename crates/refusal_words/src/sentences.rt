//! The sentence of a printed refusal.
ghost use Rattle.std.specs.Prelude.{◌≡◌, ◌++◌, IfOk, OnOk, option_map};
ghost use Rattle.std.specs.List.{flat_map};
ghost use Rattle.std.specs.Vec.{vec_items};
ghost use Rattle.refusal_words.specs.Rows.{begun_data};
ghost use Rattle.refusal_words.specs.Sentences.{told_words, letter_words, filled, refusal_data, refusal_words, sentence};

use crate::refusal::{Refusal, refusal_by};
use crate::row::{Begun, Numbers, Told};
use crate::subject::SUBJECTS;
use brake_text::put_word;
use std::alloc::{AllocError, Global};

/// Appends how a number is told, where there is one.
fn put_told(out: &mut Vec<u8>, told: Option<Told>) -> Result<(), AllocError>
    ensures { OnOk result (out.new.items ≡ out.old.items ++ told_words told) }
{
    match told {
        Some(told) => told.mark.put(out, told.number),
        None => Ok(()),
    }
}

/// Appends a letter of a sentence, or the number that it marks.
fn put_letter(out: &mut Vec<u8>, letter: u8, numbers: Numbers) -> Result<(), AllocError>
    ensures { OnOk result (out.new.items ≡ out.old.items ++ letter_words numbers letter) }
{
    match letter {
        b'~' => put_told(out, numbers.first),
        b'^' => put_told(out, numbers.last),
        _ => {
            out.push(letter)?;
            Ok(())
        }
    }
}

/// Appends the letters of a sentence, each mark as the number for which it stands.
#[tactic(auto, using(crate::proofs::Texts::pieces))]
fn put_letters(out: &mut Vec<u8>, letters: &[u8], numbers: Numbers) -> Result<(), AllocError>
    ensures { OnOk result (out.new.items
        ≡ out.old.items ++ flat_map (letter_words numbers) letters.now) }
{
    for letter in letters {
        put_letter(out, *letter, numbers)?;
    }
    Ok(())
}

/// Appends what is said of a beginning.
#[tactic(auto, unfolding(crate::specs::Sentences::filled))]
fn put_filled(out: &mut Vec<u8>, begun: Begun) -> Result<(), AllocError>
    ensures { OnOk result (out.new.items ≡ out.old.items ++ filled (begun_data begun.entry)) }
{
    put_letters(out, begun.words, begun.numbers)
}

/// The sentence of a refusal.
#[tactic(auto, using(crate::proofs::Texts::pieces), unfolding(crate::specs::Sentences::refusal_words))]
fn words_of(alloc: Global, refusal: Refusal) -> Result<Vec<u8>, AllocError>
    ensures { IfOk result (λ words. words.items ≡ refusal_words (refusal_data refusal.entry)) }
{
    let mut words = Vec::new(alloc);
    put_filled(&mut words, refusal.beginning)?;
    put_filled(&mut words, refusal.end)?;
    put_word(&mut words, b".")?;
    Ok(words)
}

/// The sentence of a printed line. None exactly where it is no printed refusal.
#[tactic(auto, unfolding(crate::specs::Sentences::sentence))]
pub fn sentence(alloc: Global, line: &[u8]) -> Result<Option<Vec<u8>>, AllocError>
    ensures { IfOk result (λ words. option_map vec_items words ≡ sentence line.now) }
{
    match refusal_by(&SUBJECTS, line) {
        Some(refusal) => Ok(Some(words_of(alloc, refusal)?)),
        None => Ok(None),
    }
}
