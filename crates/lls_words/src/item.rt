// An item of a command line: an operand, or an option with its value.
ghost use Rattle.std.specs.Prelude.{◌≡◌, position};
ghost use Rattle.std.specs.Option.{option_copied, option_map};
ghost use Rattle.lls_words.specs.Items.{item_of, takes_next, is_bare, option_text, is_equals_sign};
ghost use Rattle.lls_words.specs.Seen.{cut, seen_item, seen_pair};

/// An operand.
#[derive(Clone, Copy, Debug)]
pub struct Operand<'w> {
    /// The place of its word, from 1.
    pub place: u64,
    pub word: &'w str,
}

/// An item of a command line, with the place of its word, from 1.
#[derive(Clone, Copy, Debug)]
pub enum Item<'w> {
    /// A word that isn't empty and doesn't begin with `-`.
    Operand(Operand<'w>),
    /// An option: its name, and its value in the same word or the next, where there is one.
    Named(u64, &'w str, Option<&'w str>),
    /// A word that is neither.
    Odd(u64),
}

/// The item of a word, of which the word behind it may be the value.
pub fn read_item<'w>(place: u64, word: &'w str, next: Option<&'w str>) -> Item<'w>
    ensures { seen_item result ≡ item_of place word.entry.now (option_copied next.entry) }
{
    if is_bare(word) {
        return Item::Operand(Operand { place, word });
    }
    let Some(text) = option_text(word) else {
        return Item::Odd(place);
    };
    match name_and_value(text) {
        None => Item::Named(place, text, next),
        Some((name, value)) => Item::Named(place, name, Some(value)),
    }
}

/// Whether a word is an option alone, whose value is the word behind it.
pub fn takes_next(word: &str) -> bool
    ensures { result ≡ takes_next word.now }
{
    if is_bare(word) {
        return false;
    }
    match option_text(word) {
        Some(text) => name_and_value(text).is_none(),
        None => false,
    }
}

/// Whether a word isn't empty and doesn't begin with `-`.
pub fn is_bare(word: &str) -> bool
    ensures { result ≡ is_bare word.now }
{
    match word.as_bytes() {
        [] => false,
        [first, ..] => *first != b'-',
    }
}

// What stands behind the two dashes of an option.
fn option_text(word: &str) -> Option<&str>
    ensures { option_copied result ≡ option_text word.now }
{
    let text = word.strip_prefix('-')?.strip_prefix('-')?;
    if text.is_empty() { None } else { Some(text) }
}

// What stands before the first `=` of an option, and behind it.
fn name_and_value(text: &str) -> Option<(&str, &str)>
    ensures { option_map seen_pair result ≡ option_map (cut text.now) (position is_equals_sign text.now) }
{
    text.split_once('=')
}
