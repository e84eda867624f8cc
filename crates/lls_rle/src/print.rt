// The RLE text of a generation.
ghost use Rattle.std.specs.Prelude.{◌≡◌, ◌==◌, ◌<◌, ◌≤◌, ◌+◌, ◌^◌, [], ◌++◌, ◌∷◌, ◌↔◌, ℕ, List, length, reverse, nat_lt, decimal, slice_index_or, Ok, if◌then◌else◌, IfOk, IsErrOf, OnOk};
ghost use Rattle.lls_hensel.specs.Printing.{uneven};
ghost use Rattle.lls_grid.specs.History.{height_of, width_of, rows_at};
ghost use Rattle.lls_rle.specs.Printing.{before_cell, before_end, before_row, body_text, header_text, item_text, items_of_rows, longer, rle_text, single, tag_text, wrapped};
ghost use Rattle.lls_rle.specs.Reading.{rle_of};
ghost use Rattle.lls_rle.specs.Stacked.{AreSmall, cell_of};

use crate::item::{Item, Tag};
use itoa::Buffer;
use lls_base::Memory;
use lls_grid::History;
use lls_hensel::{PrintRuleError, print_rule};
use lls_rule::Rule;
use std::alloc::Global;

// The greatest number of bytes of a line of items.
const MOST_LINE: usize = 70;

/// The RLE text of a generation, with the rule's canonical text in its header. [`read_rle`](crate::read_rle) of it is the
/// generation.
pub fn print_rle(
    alloc: Global,
    history: &History,
    t: u32,
    rule: &Rule,
) -> Result<Vec<u8>, PrintRuleError>
    requires { t < length history.now }
    ensures text { IfOk result (λ text. text.items ≡ rle_text rule.now history.now t) }
    ensures reads_back { IfOk result (λ text. rle_of (height_of history.now) (width_of history.now) text.items ≡ Ok (rows_at history.now t ∷ [])) }
    ensures not_isotropic { (nine : ℕ) → IsErrOf result (PrintRuleError.NotIsotropic nine) ↔ (uneven rule.now ≡ Some nine) }
{
    // Every history keeps to the limits.
    let _sizes = history.sizes();
    let rule_text = print_rule(alloc, rule)?;
    Ok(text_of(alloc, history, t, rule, &rule_text)?)
}

fn text_of(
    alloc: Global,
    history: &History,
    t: u32,
    rule: &Rule,
    rule_text: &[u8],
) -> Result<Vec<u8>, Memory>
    requires { t < length history.now }
    ensures { IfOk result (λ text. text.items ≡ header_text (width_of history.now) (height_of history.now) rule_text.now ++ body_text (items_of_rows (rows_at history.now t))) }
{
    let mut text = header_of(alloc, history, rule_text)?;
    let items = items_of(alloc, history, t, rule)?;
    push_items(&mut text, &items)?;
    Ok(text)
}

fn header_of(alloc: Global, history: &History, rule_text: &[u8]) -> Result<Vec<u8>, Memory>
    ensures { IfOk result (λ text. text.items ≡ header_text (width_of history.now) (height_of history.now) rule_text.now) }
{
    let mut digits = Buffer::new();
    let mut text = Vec::from_slice(alloc, b"x = ")?;
    text.extend_from_slice(digits.format(history.width()).as_bytes())?;
    text.extend_from_slice(b", y = ")?;
    text.extend_from_slice(digits.format(history.height()).as_bytes())?;
    text.extend_from_slice(b", rule = ")?;
    text.extend_from_slice(rule_text)?;
    text.push(b'\n')?;
    Ok(text)
}

// The items of a generation.
fn items_of(alloc: Global, history: &History, t: u32, rule: &Rule) -> Result<Vec<Item>, Memory>
    requires { t < length history.now }
    ensures { IfOk result (λ items. items.items ≡ items_of_rows (rows_at history.now t)) }
{
    let mut stack = Vec::new(alloc);
    let mut y = history.sizes().height;
    while y > 0 {
        y -= 1;
        push_end(&mut stack)?;
        push_row(&mut stack, history, t, y, rule)?;
    }
    stack.reverse();
    Ok(stack)
}

// Puts a row before the items so far, of which the first stands last.
fn push_row(
    stack: &mut Vec<Item>,
    history: &History,
    t: u32,
    y: u32,
    rule: &Rule,
) -> Result<(), Memory>
    requires generation { t < length history.now }
    requires row { y < height_of history.now }
    requires small { AreSmall (2 ^ 30) (reverse stack.old.items) }
    ensures { OnOk result (reverse stack.new.items ≡ before_row (slice_index_or (rows_at history.now t) y []) (reverse stack.old.items)) }
{
    let mut x = history.sizes().width;
    while x > 0 {
        x -= 1;
        push_cell(stack, cell(history, t, y, x, rule))?;
    }
    Ok(())
}

fn cell(history: &History, t: u32, y: u32, x: u32, rule: &Rule) -> bool
    requires generation { t < length history.now }
    requires row { y < height_of history.now }
    requires column { x < width_of history.now }
    ensures { result ≡ cell_of history.now t y x }
{
    // Every history keeps to the limits.
    let _sizes = history.sizes();
    history.at(rule, t, y as i32, x as i32)
}

// Puts a cell before the items so far.
fn push_cell(stack: &mut Vec<Item>, live: bool) -> Result<(), Memory>
    requires { AreSmall (2 ^ 31) (reverse stack.old.items) }
    ensures { OnOk result (reverse stack.new.items ≡ before_cell live (reverse stack.old.items)) }
{
    let Some(item) = stack.pop() else {
        if live {
            stack.push(single(Tag::Live))?;
        }
        return Ok(());
    };
    match (item.tag, live) {
        (Tag::Live, true) | (Tag::Dead, false) => stack.push(longer(item))?,
        (Tag::RowEnd, false) => stack.push(item)?,
        (Tag::Live, false) => push_both(stack, item, Tag::Dead)?,
        (_, true) => push_both(stack, item, Tag::Live)?,
    }
    Ok(())
}

// Puts a row's end before the items so far.
fn push_end(stack: &mut Vec<Item>) -> Result<(), Memory>
    requires { AreSmall (2 ^ 31) (reverse stack.old.items) }
    ensures { OnOk result (reverse stack.new.items ≡ before_end (reverse stack.old.items)) }
{
    if let Some(item) = stack.pop() {
        match item.tag {
            Tag::RowEnd => stack.push(longer(item))?,
            Tag::Dead | Tag::Live => push_both(stack, item, Tag::RowEnd)?,
        }
    }
    Ok(())
}

// Puts an item before the items so far, and one of a single tag before it.
fn push_both(stack: &mut Vec<Item>, item: Item, tag: Tag) -> Result<(), Memory>
    ensures { OnOk result (stack.new.items ≡ (stack.old.items ++ item ∷ []) ++ single tag ∷ []) }
{
    stack.push(item)?;
    stack.push(single(tag))?;
    Ok(())
}

fn single(tag: Tag) -> Item
    ensures { result ≡ single tag }
{
    Item { count: 1, tag }
}

fn longer(item: Item) -> Item
    requires { item.count ≤ 2 ^ 31 }
    ensures { result ≡ longer item }
{
    Item {
        count: item.count + 1,
        tag: item.tag,
    }
}

// Puts the items and `!` behind a text, in lines.
fn push_items(text: &mut Vec<u8>, items: &[Item]) -> Result<(), Memory>
    ensures { OnOk result (text.new.items ≡ text.old.items ++ body_text items.now) }
{
    let mut used = 0;
    for item in items {
        used = push_item(text, used, *item)?;
    }
    make_room(text, used, 1)?;
    text.extend_from_slice(b"!\n")?;
    Ok(())
}

// Puts an item behind a text, and answers how many bytes its line has then.
fn push_item(text: &mut Vec<u8>, used: usize, item: Item) -> Result<usize, Memory>
    requires { used ≤ MOST_LINE }
    ensures text { IfOk result (λ now. (rest : List (List ℕ)) → text.new.items ++ wrapped now rest ≡ text.old.items ++ wrapped used (item_text item ∷ rest)) }
    ensures most { IfOk result (λ now. now ≤ MOST_LINE) }
{
    let mut digits = Buffer::new();
    let count = count_text(item.count, &mut digits);
    let len = count.len() + 1;
    let used = make_room(text, used, len)?;
    text.extend_from_slice(count)?;
    text.push(tag_byte(item.tag))?;
    Ok(used + len)
}

// Begins a line where a piece has no room on the one that goes on, and answers how many bytes the piece's line has.
fn make_room(text: &mut Vec<u8>, used: usize, len: usize) -> Result<usize, Memory>
    requires { used + len < 2 ^ 62 }
    ensures text { OnOk result (text.new.items ≡ (if nat_lt MOST_LINE (used + len) then text.old.items ++ 10 ∷ [] else text.old.items)) }
    ensures used { IfOk result (λ now. now ≡ (if nat_lt MOST_LINE (used + len) then 0 else used)) }
{
    if used + len > MOST_LINE {
        text.push(b'\n')?;
        return Ok(0);
    }
    Ok(used)
}

// The text of a count, which is left out at 1.
fn count_text(count: u32, digits: &mut Buffer) -> &[u8]
    ensures text { result.now ≡ (if count == 1 then [] else decimal count) }
    ensures short { length result.now ≤ 40 }
{
    if count == 1 {
        return b"";
    }
    digits.format(count).as_bytes()
}

fn tag_byte(tag: Tag) -> u8
    ensures { result ∷ [] ≡ tag_text tag }
{
    match tag {
        Tag::Dead => b'b',
        Tag::Live => b'o',
        Tag::RowEnd => b'$',
    }
}
