// The bytes of a text that comes in pieces, until what ends at some byte is whole.
ghost use Rattle.std.specs.Prelude.{◌≡◌, ◌≤◌, ◌==◌, [], ◌++◌, false, length, take, drop, None, OnOk, OnErr, IfSome};
ghost use Rattle.std.specs.List.{position};
ghost use Rattle.lls_text.specs.WaitingBytes.{IsFirstEnd, has_byte};

use std::alloc::{AllocError, Global};
use std::marker::Model;

/// Bytes that are put at the end, in pieces of any size, and taken from the front, mostly up to a byte that ends what stands before
/// it, as LF ends a line.
///
/// It is seen as that byte, and the bytes that were put and not yet taken. To take the first costs no time by those behind them, and
/// no byte is searched twice for an end.
#[derive(Drop)]
pub struct WaitingBytes {
    end: u8,
    bytes: Vec<u8>,
    /// How many of the bytes were taken.
    taken: usize,
    /// How many of the others, from the first on, were searched and have no end.
    searched: usize,
}

impl Model for WaitingBytes {
    ghost use Rattle.std.specs.Prelude.{drop};
    ghost use Rattle.lls_text.specs.WaitingBytes.{IsSearched, WaitingState};

    ghost Value = { WaitingState };

    ghost view = { λ w. record { end = w.end; bytes = drop w.taken w.bytes.items } };

    ghost invariant = { λ w. IsSearched w.end w.bytes.items w.taken w.searched };
}

impl WaitingBytes {
    /// No bytes. It takes no memory.
    pub fn new(alloc: Global, end: u8) -> WaitingBytes
        ensures { result ≡ record { end = end; bytes = [] } }
    {
        WaitingBytes {
            end,
            bytes: Vec::new(alloc),
            taken: 0,
            searched: 0,
        }
    }

    /// The bytes that were not taken yet.
    pub fn bytes(&self) -> &[u8]
        ensures { result.now ≡ self.now.bytes }
    {
        &self.bytes[self.taken..]
    }

    /// Puts a piece behind all others. After a refused allocation the bytes are as before.
    pub fn put(&mut self, piece: &[u8]) -> Result<(), AllocError>
        ensures ok { OnOk result (self.new ≡ record self.old { bytes = self.old.bytes ++ piece.now }) }
        ensures err { OnErr result (self.new ≡ self.old) }
    {
        if self.bytes.len() - self.taken < self.taken {
            drop_front(&mut self.bytes, self.taken);
            self.taken = 0;
        }
        self.bytes.extend_from_slice(piece)?;
        Ok(())
    }

    /// How many bytes stand before the first end. None where there is none yet.
    pub fn first_len(&mut self) -> Option<usize>
        ensures same { self.new ≡ self.old }
        ensures found { IfSome result (λ len. IsFirstEnd self.old.end self.old.bytes len) }
        ensures none { result ≡ None → has_byte self.old.end self.old.bytes ≡ false }
    {
        let waiting = &self.bytes[self.taken..];
        let found = first_end(self.end, waiting, self.searched);
        self.searched = match found {
            Some(len) => len,
            None => waiting.len(),
        };
        found
    }

    /// Takes so many bytes out at the front.
    pub fn take(&mut self, count: usize)
        requires { count ≤ length self.old.bytes }
        ensures { self.new ≡ record self.old { bytes = drop count self.old.bytes } }
    {
        self.taken += count;
        self.searched = 0;
    }

    /// The bytes that are left. It takes no memory.
    pub fn rest(self) -> Vec<u8>
        ensures { result.items ≡ self.bytes }
    {
        let mut bytes = self.bytes;
        drop_front(&mut bytes, self.taken);
        bytes
    }
}

// How many bytes stand before the first end, where so many were searched and have none.
fn first_end(end: u8, bytes: &[u8], searched: usize) -> Option<usize>
    requires within { searched ≤ length bytes.now }
    requires searched { has_byte end (take searched bytes.now) ≡ false }
    ensures found { IfSome result (λ len. IsFirstEnd end bytes.now len) }
    ensures none { result ≡ None → has_byte end bytes.now ≡ false }
{
    let behind = place_of(end, &bytes[searched..])?;
    Some(searched + behind)
}

// The place of the first byte of that value.
fn place_of(end: u8, bytes: &[u8]) -> Option<usize>
    ensures { result ≡ position (λ b. b == end) bytes.now }
{
    bytes.iter().position(|byte| *byte == end)
}

// Takes so many bytes out at the front.
fn drop_front(bytes: &mut Vec<u8>, count: usize)
    requires { count ≤ length bytes.old.items }
    ensures { bytes.new.items ≡ drop count bytes.old.items }
{
    let left = bytes.len() - count;
    bytes.copy_within(count.., 0);
    bytes.truncate(left);
}
