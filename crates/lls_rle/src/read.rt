// The reading of RLE texts.
ghost use Rattle.std.specs.Prelude.{◌≡◌, ◌≤◌, ◌<◌, ◌+◌, ◌^◌, None, Some, length, IfSome, IfNone};
ghost use Rattle.lls_base.specs.Results.{GivesWrapped};
ghost use Rattle.lls_rle.specs.Reading.{body_of, rle_of, tokens_of_lines};
ghost use Rattle.lls_rle.specs.Reader.{total};

use crate::header::is_header;
use crate::reader::{MOST_BYTES, Reader, is_comment};
use crate::{RleError, RleFault};
use lls_grid::History;
use lls_text::{Lines, is_blank_line};
use std::alloc::Global;

/// The generation of an RLE text, its pattern placed at the top left of a grid of that size: the form of *Golly* and the
/// LifeWiki, "Run Length Encoded", with two states. The header's sizes and rule are read and not used.
pub fn read_rle(alloc: Global, bytes: &[u8], height: u32, width: u32) -> Result<History, RleError>
    requires bytes { length bytes.now ≤ MOST_BYTES }
    requires height { (1 ≤ height) × (height ≤ History.MOST_HEIGHT) }
    requires width { (1 ≤ width) × (width ≤ History.MOST_WIDTH) }
    ensures { GivesWrapped RleError.Fault (λ history. history) result (rle_of height width bytes.now) }
{
    let mut lines = Lines::new(bytes);
    let Some(number) = header_number(&mut lines) else {
        return Err(RleError::Fault(RleFault::NoHeader));
    };
    let reader = Reader::new(alloc, height, width)?;
    Ok(reader.take_lines(number + 1, lines)?)
}

// The number of the header's line, which is taken with those before it.
fn header_number(lines: &mut Lines) -> Option<u64>
    requires { length lines.old < 2 ^ 32 }
    ensures found { IfSome result (λ number. body_of 1 lines.old ≡ Some (tokens_of_lines (number + 1) lines.new)) }
    ensures number { IfSome result (λ number. number + length lines.new ≡ length lines.old) }
    ensures total { IfSome result (λ number. total lines.new ≤ total lines.old) }
    ensures none { IfNone result (body_of 1 lines.old ≡ None) }
{
    let mut number = 0;
    while let Some(line) = lines.next() {
        number += 1;
        if !is_comment(line) && !is_blank_line(line) {
            return if is_header(line) { Some(number) } else { None };
        }
    }
    None
}
