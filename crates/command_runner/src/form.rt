//! Whether words have a form.
ghost use Rattle.std.specs.Prelude.{◌≡◌, map, string_bytes};
ghost use Rattle.command_runner.specs.Kinds.{are_of_kinds, is_apart, are_apart, is_form};

use crate::word_kind::WordKind;

/// Whether each word is of its kind.
fn are_of_kinds(kinds: &[WordKind], words: &[String]) -> bool
    ensures { result ≡ are_of_kinds kinds.now (map string_bytes words.now) }
{
    match kinds {
        [] => words.is_empty(),
        [kind, kinds @ ..] => match words {
            [] => false,
            [word, words @ ..] => kind.is_of(word.as_str()) && are_of_kinds(kinds, words),
        },
    }
}

/// Whether nothing that is stored for the word of this kind has the name of a file that is fetched
/// for these words.
fn is_apart(kind: WordKind, word: &str, kinds: &[WordKind], words: &[String]) -> bool
    ensures { result ≡ is_apart kind word.now kinds.now (map string_bytes words.now) }
{
    match kinds {
        [] => true,
        [other_kind, kinds @ ..] => match words {
            [] => true,
            [other, words @ ..] => {
                (other_kind.limit().is_none() || kind.is_stored_apart(word, other.as_str()))
                    && is_apart(kind, word, kinds, words)
            }
        },
    }
}

/// The same of each of some words.
fn are_apart(some_kinds: &[WordKind], some: &[String], kinds: &[WordKind], words: &[String]) -> bool
    ensures { result ≡ are_apart some_kinds.now (map string_bytes some.now)
        kinds.now (map string_bytes words.now) }
{
    match some_kinds {
        [] => true,
        [kind, some_kinds @ ..] => match some {
            [] => true,
            [word, some @ ..] => {
                is_apart(*kind, word.as_str(), kinds, words)
                    && are_apart(some_kinds, some, kinds, words)
            }
        },
    }
}

/// Whether the words have this form: each is of its kind, and no output is a file that is fetched.
pub fn is_form(kinds: &[WordKind], words: &[String]) -> bool
    ensures { result ≡ is_form kinds.now (map string_bytes words.now) }
{
    are_of_kinds(kinds, words) && are_apart(kinds, words, kinds, words)
}
