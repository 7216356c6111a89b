//! Reading an expression from left to right.

ghost use Rattle.std.specs.Prelude.{◌≡◌, ◌<◌, ◌≤◌, All, length, option_copied, slice_index_or};
ghost use Rattle.std.specs.List.{slice_range};
ghost use Rattle.avr_text.specs.Operators.{sign_applied as sign_applied_to};
ghost use Rattle.avr_text.specs.Tokens.{Lies, text_of as slice_of};
ghost use Rattle.avr_text.specs.Words.{bracket_word as bracket_of_word};
ghost use Rattle.avr_text.specs.Reading.{reduced as reduced_outcome, signed as signed_outcome};
ghost use Rattle.avr_text.specs.Reading.{name_operand as name_operand_of, operand_of as operand_of_token, opened};
ghost use Rattle.avr_text.specs.Reading.{closed, operand_step, operator_step, waiting, bracket_step, step as step_of};
ghost use Rattle.avr_text.specs.Reading.{finished, beginning};

use crate::operator_stack::{Entry, Stack};
use crate::operators::{Binary, Bracket, bracket_applied, is_sign, operator_of, sign_applied};
use crate::symbols::Symbols;
use crate::tokens::{Token, TokenKind};
use crate::values::{ValueOrWhy, ValueWhy};
use crate::words::is_word_named;

/// Parentheses may stand as deep as this.
const DEEPEST: u8 = 32;

/// What a token is where an operand may begin.
#[derive(Clone, Copy)]
pub enum Operand {
    /// The operand itself.
    Value(ValueOrWhy),
    /// A sign before it.
    Sign,
    /// `lo8` or `hi8`.
    Word(Bracket),
    /// An opening parenthesis.
    Parenthesis,
    /// Nothing that an operand begins with.
    Nothing,
}

/// What may come next.
#[derive(Clone, Copy)]
pub enum Mode {
    /// An operand, whose signs begin at the token `from`.
    Operand {
        from: usize,
    },
    /// The parenthesis of the word at the token `at`.
    Parenthesis {
        bracket: Bracket,
        from: usize,
        at: usize,
    },
    /// An operator: an operand has been read.
    Operator {
        value: ValueOrWhy,
    },
    /// Nothing: the tokens are no expression.
    Refused,
}

/// An expression that is read from left to right.
#[derive(Drop)]
pub struct Reader {
    stack: Stack,
    depth: u8,
    mode: Mode,
}

/// The text of a token.
pub fn text_of(text: &[u8], token: Token) -> &[u8]
    requires { Lies (length text.now) token }
    ensures { result.now ≡ slice_of text.now token }
{
    &text[token.from as usize..token.to as usize]
}

/// The signs from one token to before another, applied to the operand after them: the last one first.
fn signed(tokens: &[Token], from: usize, at: usize, value: ValueOrWhy) -> ValueOrWhy
    ensures { result ≡ signed_outcome (slice_range tokens.now from at) value }
{
    let mut value = value;
    for i in (from..at).rev() {
        if let Some(token) = tokens.get(i) {
            value = sign_applied(token.kind, value);
        }
    }
    value
}

/// The operators that wait and bind at least as tightly as a level take their right operand.
fn reduced(stack: &mut Stack, level: u8, value: ValueOrWhy) -> ValueOrWhy
    ensures value { result ≡ (reduced_outcome level value stack.old).0 }
    ensures stack { stack.new ≡ (reduced_outcome level value stack.old).1 }
{
    let mut value = value;
    while let Some(entry) = stack.pop() {
        match entry {
            Entry::Waiting { left, operator } if operator.level() >= level => {
                value = operator.combined(left, value);
            }
            _ => {
                stack.push(entry);
                return value;
            }
        }
    }
    value
}

/// The word before a parenthesis.
fn bracket_word(word: &[u8]) -> Option<Bracket>
    ensures { result ≡ bracket_of_word word.now }
{
    if is_word_named(word, b"lo8") {
        Some(Bracket::Low)
    } else if is_word_named(word, b"hi8") {
        Some(Bracket::High)
    } else {
        None
    }
}

/// What a name is where an operand may begin.
fn name_operand(word: &[u8], symbols: &Symbols) -> Operand
    ensures { result ≡ name_operand_of word.now symbols.now }
{
    match bracket_word(word) {
        Some(bracket) => Operand::Word(bracket),
        None => Operand::Value(symbols.get(word).ok_or(ValueWhy::Unknown)),
    }
}

/// What a token is where an operand may begin.
fn operand_of(text: &[u8], token: Token, symbols: &Symbols, dot: Option<i64>) -> Operand
    requires { Lies (length text.now) token }
    ensures { result ≡ operand_of_token text.now token symbols.now dot }
{
    match token.kind {
        TokenKind::Number(n) => Operand::Value(Ok(n)),
        TokenKind::Name => name_operand(text_of(text, token), symbols),
        TokenKind::Mark(b'(') => Operand::Parenthesis,
        TokenKind::Mark(b'.') => match dot {
            Some(x) => Operand::Value(Ok(x)),
            None => Operand::Nothing,
        },
        kind => {
            if is_sign(kind) {
                Operand::Sign
            } else {
                Operand::Nothing
            }
        }
    }
}

impl Reader {
    /// Nothing has been read.
    pub fn new() -> Reader
        ensures { result ≡ beginning }
    {
        Reader {
            stack: Stack::new(),
            depth: 0,
            mode: Mode::Operand { from: 0 },
        }
    }

    /// An opening parenthesis at the token `next - 1`, whose signs and word are the tokens from `from` to before `at`.
    fn open(&mut self, bracket: Bracket, from: usize, at: usize, next: usize)
        ensures { self.new ≡ opened bracket from at next self.old }
    {
        if self.depth >= DEEPEST || self.stack.is_full() {
            self.mode = Mode::Refused;
            return;
        }
        self.stack.push(Entry::Open { bracket, from, at });
        self.depth += 1;
        self.mode = Mode::Operand { from: next };
    }

    /// A closing parenthesis after an operand.
    fn close(&mut self, tokens: &[Token], value: ValueOrWhy)
        ensures { self.new ≡ closed tokens.now value self.old }
    {
        let inner = reduced(&mut self.stack, 0, value);
        match self.stack.pop() {
            Some(Entry::Open { bracket, from, at }) => {
                self.depth = self.depth.saturating_sub(1);
                let value = signed(tokens, from, at, bracket_applied(bracket, inner));
                self.mode = Mode::Operator { value };
            }
            _ => self.mode = Mode::Refused,
        }
    }

    /// A token where an operand may begin.
    fn take_operand(&mut self, operand: Operand, tokens: &[Token], from: usize, at: usize)
        requires { at < length tokens.now }
        ensures { self.new ≡ operand_step operand tokens.now from at self.old }
    {
        match operand {
            Operand::Value(value) => {
                let value = signed(tokens, from, at, value);
                self.mode = Mode::Operator { value };
            }
            Operand::Sign => self.mode = Mode::Operand { from },
            Operand::Word(bracket) => self.mode = Mode::Parenthesis { bracket, from, at },
            Operand::Parenthesis => self.open(Bracket::Plain, from, at, at + 1),
            Operand::Nothing => self.mode = Mode::Refused,
        }
    }

    /// A token after an operand.
    fn take_operator(&mut self, kind: TokenKind, tokens: &[Token], at: usize, value: ValueOrWhy)
        requires { at < length tokens.now }
        ensures { self.new ≡ operator_step kind tokens.now at value self.old }
    {
        if let TokenKind::Mark(b')') = kind {
            self.close(tokens, value);
            return;
        }
        match operator_of(kind) {
            None => self.mode = Mode::Refused,
            Some(operator) => self.wait(operator, value, at + 1),
        }
    }

    /// An operator waits for its right operand, which begins at a token.
    fn wait(&mut self, operator: Binary, value: ValueOrWhy, next: usize)
        ensures { self.new ≡ waiting operator value next self.old }
    {
        let left = reduced(&mut self.stack, operator.level(), value);
        if self.stack.is_full() {
            self.mode = Mode::Refused;
            return;
        }
        self.stack.push(Entry::Waiting { left, operator });
        self.mode = Mode::Operand { from: next };
    }

    /// The token after `lo8` or `hi8`.
    fn take_parenthesis(
        &mut self,
        kind: TokenKind,
        bracket: Bracket,
        from: usize,
        at: usize,
        next: usize,
    )
        ensures { self.new ≡ bracket_step kind bracket from at next self.old }
    {
        if let TokenKind::Mark(b'(') = kind {
            self.open(bracket, from, at, next);
            return;
        }
        self.mode = Mode::Refused;
    }

    /// The token at a place.
    pub fn step(
        &mut self,
        text: &[u8],
        tokens: &[Token],
        at: usize,
        token: Token,
        symbols: &Symbols,
        dot: Option<i64>,
    )
        requires within { at < length tokens.now }
        requires lies { Lies (length text.now) token }
        ensures { self.new ≡ step_of text.now tokens.now symbols.now dot at token self.old }
    {
        match self.mode {
            Mode::Operand { from } => {
                let operand = operand_of(text, token, symbols, dot);
                self.take_operand(operand, tokens, from, at);
            }
            Mode::Parenthesis {
                bracket,
                from,
                at: word,
            } => self.take_parenthesis(token.kind, bracket, from, word, at + 1),
            Mode::Operator { value } => self.take_operator(token.kind, tokens, at, value),
            Mode::Refused => {}
        }
    }

    /// The value of what has been read.
    pub fn finish(self) -> ValueOrWhy
        ensures { result ≡ finished self }
    {
        let mut reader = self;
        match reader.mode {
            Mode::Operator { value } => {
                let value = reduced(&mut reader.stack, 0, value);
                if reader.stack.is_empty() {
                    value
                } else {
                    Err(ValueWhy::Form)
                }
            }
            _ => Err(ValueWhy::Form),
        }
    }
}
