// A statement's words, one space apart, and the numbers that they stand for.
ghost use Rattle.std.specs.Prelude.{◌≤◌, length, IfOk};
ghost use Rattle.std.specs.Iterator.{at_most};

use crate::failure::Unread;
use std::str::FromStr;

// The words that are left. They end with the text, or where two spaces follow each other.
#[derive(Clone, Copy)]
pub struct Words<'a> {
    text: &'a [u8],
}

impl<'a> Iterator for Words<'a> {
    type Item = &'a [u8];

    ghost remaining = { λ s. at_most (length s.text.now) };

    fn next(&mut self) -> Option<&'a [u8]> {
        let text = self.text;
        let end = text.iter().position(|b| *b == b' ').unwrap_or(text.len());
        self.text = text.get(end + 1..).unwrap_or(&[]);
        if end == 0 { None } else { Some(&text[..end]) }
    }
}

impl<'a> Words<'a> {
    pub fn new(text: &'a [u8]) -> Self {
        Words { text }
    }

    pub fn word(&mut self) -> Result<&'a [u8], Unread> {
        self.next().ok_or(Unread)
    }

    pub fn number<N: FromStr<Err: Drop>>(&mut self) -> Result<N, Unread> {
        number(self.word()?)
    }

    // A number of at most `most`.
    pub fn up_to(&mut self, most: usize) -> Result<usize, Unread>
        ensures { IfOk result (λ n. n ≤ most) }
    {
        let n = self.number()?;
        if n <= most { Ok(n) } else { Err(Unread) }
    }

    pub fn end(&mut self) -> Result<(), Unread> {
        match self.next() {
            None => Ok(()),
            Some(_) => Err(Unread),
        }
    }
}

// A decimal number with no sign before it.
pub fn number<N: FromStr<Err: Drop>>(word: &[u8]) -> Result<N, Unread> {
    if word.starts_with(b"+") {
        return Err(Unread);
    }
    str::from_utf8(word)?.parse().map_err(|_| Unread)
}

// A word as it is looked up: zero bytes before a word of at most eight count for nothing.
pub fn name(word: &[u8]) -> &[u8] {
    let begin = word.iter().position(|b| *b != 0).unwrap_or(word.len());
    if word.len() <= 8 {
        &word[begin..]
    } else {
        word
    }
}
