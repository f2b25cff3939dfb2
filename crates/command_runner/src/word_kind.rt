//! The kinds of words of which a command's form is made.
ghost use Rattle.std.specs.Prelude.{◌≡◌, ◌≤◌, IfSome, Option};
ghost use Rattle.command_runner.specs.Kinds.{spelling, is_file_word, number_in, is_of_kind, limit_of, is_file, is_numbered_ending, is_numbered_name, is_stored_apart};

use brake_text::number;

/// The greatest length of an input file, in bytes.
const INPUT_LIMIT: u64 = 1_048_576;

/// The greatest length of a certificate or a table, in bytes.
const CERTIFICATE_LIMIT: u64 = 1_073_741_824;

/// A word that stands as it is.
#[derive(Clone, Copy, Debug, PartialEq, Eq)]
pub enum Keyword {
    Blank,
    Plan,
    Check,
    Trial,
    Why,
    Setups,
    Settle,
    Merge,
    Prove,
    Budget,
}

/// What a word is.
#[derive(Clone, Copy, Debug, PartialEq, Eq)]
pub enum WordKind {
    /// This very word.
    Literal(Keyword),
    /// An input file, which is fetched.
    Input,
    /// A certificate that is fetched.
    Certificate,
    /// A table that is fetched.
    Table,
    /// The name under which a text is stored.
    Output,
    /// The name under which texts are stored, with a full stop and a number from 0 to 15.
    NumberedOutput,
    /// A number. The command reads it, and knows its range.
    Number,
}

impl Keyword {
    /// How the keyword is written.
    #[tactic(auto, unfolding(crate::specs::Kinds::spelling))]
    pub fn spelling(self) -> &'static str
        ensures { result.now ≡ spelling self }
    {
        match self {
            Keyword::Blank => "blank",
            Keyword::Plan => "plan",
            Keyword::Check => "check",
            Keyword::Trial => "trial",
            Keyword::Why => "why",
            Keyword::Setups => "setups",
            Keyword::Settle => "settle",
            Keyword::Merge => "merge",
            Keyword::Prove => "prove",
            Keyword::Budget => "--budget",
        }
    }
}

#[tactic(auto, unfolding(crate::specs::Kinds::is_file_word))]
fn is_file_word(word: &str) -> bool
    ensures { result ≡ is_file_word word.now }
{
    !word.is_empty() && !word.starts_with("--")
}

/// The number that the word spells. None where it spells none, or one outside the range.
pub fn number_in(word: &[u8], least: u32, most: u32) -> Option<u32>
    ensures value { result ≡ number_in least most word.now }
    ensures within { IfSome result (λ n. n ≤ most) }
{
    match number(word) {
        Some(n) if u64::from(least) <= n && n <= u64::from(most) => Some(n as u32),
        _ => None,
    }
}

/// Whether the bytes are a full stop and a number from 0 to 15.
fn is_numbered_ending(ending: &[u8]) -> bool
    ensures { result ≡ is_numbered_ending ending.now }
{
    match ending {
        [byte, digits @ ..] => *byte == b'.' && number_in(digits, 0, 15).is_some(),
        [] => false,
    }
}

/// Whether the word is one of the names NAME.0 to NAME.15.
#[tactic(auto, unfolding(crate::specs::Kinds::is_numbered_name))]
fn is_numbered_name(name: &str, word: &str) -> bool
    ensures { result ≡ is_numbered_name name.now word.now }
{
    let (name, word) = (name.as_bytes(), word.as_bytes());
    word.starts_with(name) && is_numbered_ending(&word[name.len()..])
}

impl WordKind {
    /// Whether the word is of this kind. Every word may stand for a number.
    pub fn is_of(self, word: &str) -> bool
        ensures { result ≡ is_of_kind self word.now }
    {
        match self {
            WordKind::Literal(keyword) => word == keyword.spelling(),
            WordKind::Number => true,
            _ => is_file_word(word),
        }
    }

    /// The greatest length, in bytes, of a file of this kind that is fetched, and None of a word whose
    /// file isn't.
    pub fn limit(self) -> Option<u64>
        ensures { result ≡ limit_of self }
    {
        match self {
            WordKind::Input => Some(INPUT_LIMIT),
            WordKind::Certificate | WordKind::Table => Some(CERTIFICATE_LIMIT),
            _ => None,
        }
    }

    /// Whether the word names a file, fetched or stored.
    pub fn is_file(self) -> bool
        ensures { result ≡ is_file self }
    {
        !matches!(self, WordKind::Literal(_) | WordKind::Number)
    }

    /// Whether nothing that is stored for the word of this kind has the other word's name.
    #[tactic(auto, unfolding(crate::specs::Kinds::is_stored_apart))]
    pub fn is_stored_apart(self, word: &str, other: &str) -> bool
        ensures { result ≡ is_stored_apart self word.now other.now }
    {
        match self {
            WordKind::Output => word != other,
            WordKind::NumberedOutput => !is_numbered_name(word, other),
            _ => true,
        }
    }
}
