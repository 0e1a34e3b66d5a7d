// A statement: its words, and behind `| ` the name that is printed before what it tells, empty where it has none.
use crate::words::{self, Words};
use std::io;

#[derive(Clone, Copy)]
pub struct Statement<'a> {
    pub words: Words<'a>,
    pub name: &'a [u8],
}

#[derive(Clone, Copy, Debug, PartialEq, Eq)]
pub enum Verb {
    Clear,
    Keep,
    Back,
    Fresh,
    Old,
    Set,
    With,
    Show,
    Say,
    Compare,
    Gather,
    Run,
    Do,
    Ask,
    Broken,
    Edge,
    Request,
    Comment,
}

impl<'a> From<&'a [u8]> for Statement<'a> {
    fn from(line: &'a [u8]) -> Self {
        let (text, name) = match line.iter().position(|b| *b == b'|') {
            Some(end) if end + 2 <= line.len() => (&line[..end], &line[end + 2..]),
            _ => (line, &line[..0]),
        };
        Statement {
            words: Words::new(text),
            name,
        }
    }
}

impl Statement<'_> {
    // `say`: the text.
    pub fn say(&self, rt: &impl Print) -> io::Result<()> {
        rt.write_all(self.name)?;
        println!(rt)
    }

    // The verb that it begins with. A request begins with its own word; an empty line tells as little as a comment.
    pub fn verb(&mut self) -> Verb {
        let begin = self.words;
        let Some(word) = self.words.next() else {
            return Verb::Comment;
        };
        match words::name(word) {
            b"#" => Verb::Comment,
            b"clear" => Verb::Clear,
            b"keep" => Verb::Keep,
            b"back" => Verb::Back,
            b"fresh" => Verb::Fresh,
            b"old" => Verb::Old,
            b"set" => Verb::Set,
            b"with" => Verb::With,
            b"show" => Verb::Show,
            b"say" => Verb::Say,
            b"compare" => Verb::Compare,
            b"gather" => Verb::Gather,
            b"run" => Verb::Run,
            b"do" => Verb::Do,
            b"ask" => Verb::Ask,
            b"broken" => Verb::Broken,
            b"edge" => Verb::Edge,
            _ => {
                self.words = begin;
                Verb::Request
            }
        }
    }
}
