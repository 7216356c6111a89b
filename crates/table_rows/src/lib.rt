//! The words of a row of a table, for programs of test cases.
#![tactic(auto)]

/// What is left of a row, whose words stand apart by one space.
#[derive(Drop)]
pub struct Row<'a> {
    rest: &'a str,
}

impl<'a> Row<'a> {
    /// A row whose words are those of a line.
    pub fn new(line: &'a str) -> Row<'a> {
        Row { rest: line }
    }

    /// The next word; the empty one where none is left.
    pub fn word(&mut self) -> &'a str {
        let (word, rest) = self.rest.split_once(" ").unwrap_or((self.rest, ""));
        self.rest = rest;
        word
    }

    /// The next word as a number; 0 where it is none.
    pub fn number(&mut self) -> u32 {
        self.word().parse().unwrap_or(0)
    }

    /// The next word as a number of 16 bits; 0 where it is none.
    pub fn short(&mut self) -> u16 {
        self.word().parse().unwrap_or(0)
    }

    /// The next word as a byte; 0 where it is none.
    pub fn byte(&mut self) -> u8 {
        self.word().parse().unwrap_or(0)
    }
}
