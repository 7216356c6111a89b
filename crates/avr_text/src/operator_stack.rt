//! The operator stack: what waits while an expression is read from left to right.

ghost use Rattle.std.specs.Bool.{OnFalse};
ghost use Rattle.std.specs.Prelude.{◌≡◌, ◌==◌, ◌<◌, List, [], ◌∷◌, length, option_to_list, ◌++◌, IfNone};

use crate::operators::{Binary, Bracket};
use crate::values::ValueOrWhy;
use arrayvec::ArrayVec;
use std::marker::Model;

/// How many entries can wait: more than parentheses 32 deep need.
const ROOM: usize = 256;

/// What waits for an operand or a closing parenthesis.
#[derive(Clone, Copy)]
pub enum Entry {
    /// A left operand with its operator.
    Waiting {
        left: ValueOrWhy,
        operator: Binary,
    },
    /// A parenthesis, of which the signs and the word before it are the tokens from `from` to before `at`.
    Open {
        bracket: Bracket,
        from: usize,
        at: usize,
    },
}

impl Default for Entry {
    fn default() -> Entry {
        Entry::Open {
            bracket: Bracket::Plain,
            from: 0,
            at: 0,
        }
    }
}

/// The entries that wait. A clause sees them as a list, the latest first.
#[derive(Drop)]
pub struct Stack {
    entries: ArrayVec<Entry, ROOM>,
}

impl Model for Stack {
    ghost use Rattle.std.specs.Prelude.{◌≤◌, List, length, reverse};
    ghost use Rattle.avr_text.specs.declared.operator_stack.Entry.{Entry};

    ghost Value = { List Entry };

    ghost view = { λ s. reverse s.entries.items };

    ghost invariant = { λ s. length s.entries.items ≤ 256 };
}

impl Stack {
    /// Nothing waits.
    pub fn new() -> Stack
        ensures { result ≡ [] }
    {
        Stack {
            entries: ArrayVec::new(),
        }
    }

    pub fn is_empty(&self) -> bool
        ensures { result ≡ (length self.now == 0) }
    {
        self.entries.is_empty()
    }

    pub fn is_full(&self) -> bool
        ensures full { result ≡ (length self.now == 256) }
        ensures room { OnFalse result (length self.now < 256) }
    {
        self.entries.is_full()
    }

    pub fn push(&mut self, entry: Entry)
        requires { length self.old < 256 }
        ensures { self.new ≡ entry ∷ self.old }
    {
        self.entries.push(entry);
    }

    pub fn pop(&mut self) -> Option<Entry>
        ensures entries { self.old ≡ option_to_list result ++ self.new }
        ensures empty { IfNone result (self.new ≡ []) }
        ensures room { length self.new < 256 }
    {
        self.entries.pop()
    }
}
