// Lines and words: what stands between marks. A doubled space, or one in front or behind, makes an empty word.
ghost use Rattle.std.specs.Prelude.{◌≡◌, None, is_none, []};
ghost use Rattle.std.specs.Iterator.{YieldsFirstRef, item_count};
ghost use Rattle.std.specs.Option.{option_map, unwrap_or};
ghost use Rattle.grammar.specs.Words.{before, behind, lines, next_word, next_number};
ghost use Rattle.grammar.specs.Arguments.{next_length};

use crate::numbers::{Width, number_up_to};
use std::marker::Model;

const SPACE: u8 = b' ';

const NEWLINE: u8 = b'\n';

// The greatest length that a script can lend.
const MAX_LENGTH: usize = 70_000;

// The bytes before the first mark, and those behind it where there is one.
fn cut(mark: u8, bytes: &[u8]) -> (&[u8], Option<&[u8]>)
    ensures front { result.0.now ≡ before mark bytes.now }
    ensures back { option_map (λ x. x.now) result.1 ≡ behind mark bytes.now }
{
    match bytes.iter().position(|byte| *byte == mark) {
        Some(at) => (&bytes[..at], Some(&bytes[at + 1..])),
        None => (bytes, None),
    }
}

// The first line of a text without its end, and the text behind it.
pub fn first_line(text: &[u8]) -> (&[u8], &[u8])
    ensures front { result.0.now ≡ before 10 text.now }
    ensures back { result.1.now ≡ unwrap_or (behind 10 text.now) [] }
{
    let (line, behind) = cut(NEWLINE, text);
    (line, behind.unwrap_or(&[]))
}

// The lines of a text, each without its end. A contract sees those that are still to come.
#[derive(Drop)]
pub struct Lines<'a> {
    rest: &'a [u8],
}

impl<'a> Model for Lines<'a> {
    ghost use Rattle.std.specs.Prelude.{ℕ, List};
    ghost use Rattle.grammar.specs.Words.{lines};

    ghost Value = { List (List ℕ) };

    ghost view = { λ s. lines s.rest.now };
}

impl<'a> Lines<'a> {
    pub fn new(text: &'a [u8]) -> Lines<'a>
        ensures { result ≡ lines text.now }
    {
        Lines { rest: text }
    }
}

impl<'a> Iterator for Lines<'a> {
    type Item = &'a [u8];

    ghost next_gives = { YieldsFirstRef (λ lines. lines) };

    ghost remaining = { item_count (λ lines. lines) };

    fn next(&mut self) -> Option<&'a [u8]> {
        if self.rest.is_empty() {
            return None;
        }
        let (line, behind) = first_line(self.rest);
        self.rest = behind;
        Some(line)
    }
}

// The words of a line that are still to be read. A contract sees the bytes that are left, or `None` where no word is.
#[derive(Drop)]
pub(crate) struct Words<'a> {
    rest: Option<&'a [u8]>,
}

impl<'a> Model for Words<'a> {
    ghost use Rattle.std.specs.Prelude.{ℕ, List, Option};
    ghost use Rattle.std.specs.Option.{option_map};

    ghost Value = { Option (List ℕ) };

    ghost view = { λ s. option_map (λ bytes. bytes.now) s.rest };
}

impl<'a> Words<'a> {
    // The first word of a line, and the words behind it.
    pub(crate) fn split_first(line: &'a [u8]) -> (&'a [u8], Words<'a>)
        ensures first { result.0.now ≡ before 32 line.now }
        ensures others { result.1 ≡ behind 32 line.now }
    {
        let (first, rest) = cut(SPACE, line);
        (first, Words { rest })
    }

    pub(crate) fn next_word(&mut self) -> Option<&'a [u8]>
        ensures { option_map (λ word. (word.now, self.new)) result ≡ next_word self.old }
    {
        let (word, rest) = cut(SPACE, self.rest?);
        self.rest = rest;
        Some(word)
    }

    // The next word as a number: one that does not fit becomes the greatest that does, which no call takes.
    pub(crate) fn number<N: Width>(&mut self) -> Option<N>
        ensures { option_map (λ number. (N.value number, self.new)) result ≡ next_number N.MAX self.old }
    {
        let word = self.next_word()?;
        let number = number_up_to(N::MAX, word)?;
        Some(N::narrowed(number))
    }

    // A length that can be lent.
    pub(crate) fn length(&mut self) -> Option<usize>
        ensures { option_map (λ length. (length, self.new)) result ≡ next_length self.old }
    {
        self.number().filter(|length| *length <= MAX_LENGTH)
    }

    pub(crate) fn is_empty(&self) -> bool
        ensures { result ≡ is_none self.now }
    {
        self.rest.is_none()
    }

    pub(crate) fn skip_all(&mut self)
        ensures { self.new ≡ None }
    {
        self.rest = None;
    }
}
