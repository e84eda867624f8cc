// The words of a row and the cells that they stand for.
ghost use Rattle.std.specs.Prelude.{◌≡◌, length};
ghost use Rattle.std.specs.Option.{option_map};
ghost use Rattle.std.specs.List.{take_while, list_all};
ghost use Rattle.std.specs.Char.{is_ascii_alphanumeric};
ghost use Rattle.lls_search_file.specs.Posed.{is_name};
ghost use Rattle.lls_search_file.specs.Words.{said_of, name_said_of, word_of, is_of_word};
ghost use Rattle.lls_search_file.specs.Seen.{seen_said, seen_word};

use crate::Names;
use lls_text::is_blank;

/// What a word says of a cell's value, with the name itself where it is a name.
#[derive(Clone, Copy)]
pub(crate) enum Said<'t> {
    Dead,
    Live,
    Free,
    Named(&'t [u8]),
    Negated(&'t [u8]),
}

/// A cell as its word says it.
#[derive(Clone, Copy)]
pub(crate) struct Word<'t> {
    pub mark: bool,
    pub says: Said<'t>,
}

/// The cell of a word, where it is one.
pub(crate) fn read_word(word: &[u8]) -> Option<Word<'_>>
    ensures { option_map seen_word result ≡ word_of word.now }
{
    let (body, mark) = match word {
        [body @ .., b'\''] => (body, true),
        _ => (word, false),
    };
    let says = read_body(body)?;
    Some(Word { mark, says })
}

// What a word without its mark says.
fn read_body(body: &[u8]) -> Option<Said<'_>>
    ensures { option_map seen_said result ≡ said_of body.now }
{
    match body {
        b"0" => Some(Said::Dead),
        b"1" => Some(Said::Live),
        b"*" => Some(Said::Free),
        _ => read_name(body),
    }
}

// A name, or `-` and a name.
fn read_name(body: &[u8]) -> Option<Said<'_>>
    ensures { option_map seen_said result ≡ name_said_of body.now }
{
    if is_name(body) {
        return Some(Said::Named(body));
    }
    match body {
        [b'-', name @ ..] => if is_name(name) {
            Some(Said::Negated(name))
        } else {
            None
        },
        _ => None,
    }
}

// Whether a text is a letter and then letters or digits, at most `Names::MOST_BYTES` bytes.
fn is_name(text: &[u8]) -> bool
    ensures { result ≡ is_name text.now }
{
    match text {
        [first, rest @ ..] => first.is_ascii_alphabetic()
            && are_letters_or_digits(rest)
            && text.len() <= Names::MOST_BYTES,
        [] => false,
    }
}

fn are_letters_or_digits(text: &[u8]) -> bool
    ensures { result ≡ list_all is_ascii_alphanumeric text.now }
{
    text.iter().all(|byte| byte.is_ascii_alphanumeric())
}

/// How many bytes the word has that stands first.
pub(crate) fn word_len(bytes: &[u8]) -> usize
    ensures { result ≡ length (take_while is_of_word bytes.now) }
{
    bytes.iter().take_while(|byte| is_of_word(**byte)).count()
}

// Whether a byte belongs to a word: it is neither blank nor comma.
fn is_of_word(byte: u8) -> bool
    ensures { result ≡ is_of_word byte }
{
    !is_blank(byte) && byte != b','
}
