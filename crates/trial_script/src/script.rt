//! Splits a script into lines of words, and bytes whose number a line names.
ghost use Rattle.std.specs.Prelude.{◌≤◌, length};

use gs1_ids::Gln;
use std::str;

// Returns how many bytes come before the first `stop`.
fn length_before(stop: u8, text: &[u8]) -> usize
    ensures within { result ≤ length text.now }
{
    for (place, byte) in text.iter().enumerate() {
        if *byte == stop {
            return place;
        }
    }
    text.len()
}

// Returns the bytes before the first `stop`, and those after it.
fn cut_at(stop: u8, text: &[u8]) -> (&[u8], &[u8]) {
    let (first, rest) = text.split_at(length_before(stop, text));
    match rest.split_first() {
        Some((_, after)) => (first, after),
        None => (first, &[]),
    }
}

fn number_of(word: &[u8]) -> Option<u64> {
    str::from_utf8(word).ok()?.parse().ok()
}

/// What is left of a script.
#[derive(Drop)]
pub struct Script<'a> {
    rest: &'a [u8],
}

impl<'a> Script<'a> {
    /// Begins with the whole script.
    pub fn new(text: &'a [u8]) -> Self {
        Script { rest: text }
    }

    /// Returns the words of the next line; `None` at the end of the script.
    pub fn next_line(&mut self) -> Option<LineWords<'a>> {
        if self.rest.is_empty() {
            return None;
        }
        let (line, after) = cut_at(b'\n', self.rest);
        self.rest = after;
        Some(LineWords { rest: line })
    }

    /// Returns the next `count` bytes and skips the line end after them; `None` if there are not that many.
    pub fn next_bytes(&mut self, count: usize) -> Option<&'a [u8]> {
        if count > self.rest.len() {
            return None;
        }
        let (bytes, after) = self.rest.split_at(count);
        self.rest = match after.split_first() {
            Some((_, lines)) => lines,
            None => after,
        };
        Some(bytes)
    }
}

/// The words that are left of a line, separated by single blanks.
#[derive(Drop)]
pub struct LineWords<'a> {
    rest: &'a [u8],
}

impl<'a> LineWords<'a> {
    /// Returns the next word, which is empty at the end of the line.
    pub fn next_word(&mut self) -> &'a [u8] {
        let (word, after) = cut_at(b' ', self.rest);
        self.rest = after;
        word
    }

    /// Returns the next word as a number.
    pub fn next_number(&mut self) -> Option<u64> {
        number_of(self.next_word())
    }

    /// Returns the next word as a count of bytes.
    pub fn next_count(&mut self) -> Option<usize> {
        Some(self.next_number()? as usize)
    }

    /// Returns the next word as a GLN.
    pub fn next_gln(&mut self) -> Option<Gln> {
        Gln::parse(self.next_word())
    }
}
