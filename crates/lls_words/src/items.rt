// The items of a command line behind its command, one after another.
ghost use Rattle.std.specs.Prelude.{◌≡◌, ◌+◌, ◌<◌, ◌^◌, length, map, slice_get, string_bytes};
ghost use Rattle.std.specs.Option.{option_copied};
ghost use Rattle.lls_words.specs.Items.{words_taken};

use crate::item::{Item, read_item, takes_next};

/// The items that are left of a command line, one after another.
#[derive(Debug, Drop)]
pub struct Items<'w> {
    place: u64,
    words: &'w [String],
    ghost fits: { place + length words.now < 2 ^ 64 },
}

impl<'w> Items<'w> {
    ghost use Rattle.std.specs.Prelude.{map, string_bytes};
    ghost use Rattle.lls_words.specs.Items.{items_of};
    ghost use Rattle.lls_words.specs.Seen.{items_left};

    /// The items of the words behind a command, of which the first has the place 2.
    pub fn new(words: &'w [String]) -> Items<'w>
        ensures { items_left result ≡ items_of 2 (map string_bytes words.now) }
    {
        Items { place: 2, words }
    }
}

impl<'w> Iterator for Items<'w> {
    ghost use Rattle.std.specs.Iterator.{YieldsFirstBy, item_count};
    ghost use Rattle.lls_words.specs.Seen.{seen_item, items_left};

    type Item = Item<'w>;

    ghost next_gives = { YieldsFirstBy seen_item items_left };

    ghost remaining = { item_count items_left };

    fn next(&mut self) -> Option<Item<'w>> {
        let (word, behind) = self.words.split_first()?;
        let item = read_item(self.place, word.as_str(), first_text(behind));
        let taken = words_taken(word.as_str(), behind.len());
        self.place += taken as u64;
        self.words = &self.words[taken..];
        Some(item)
    }
}

// How many words the item of a word takes, behind which stand that many.
fn words_taken(word: &str, behind: usize) -> usize
    ensures { result ≡ words_taken word.now behind }
{
    if behind > 0 && takes_next(word) { 2 } else { 1 }
}

// The first word.
fn first_text(words: &[String]) -> Option<&str>
    ensures { option_copied result ≡ slice_get (map string_bytes words.now) 0 }
{
    match words.split_first() {
        Some((first, _)) => Some(first.as_str()),
        None => None,
    }
}
