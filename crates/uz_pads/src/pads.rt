//! The pads, and the lines that they drive.

ghost use Rattle.std.specs.Prelude.{◌≡◌, ◌<◌, ◌≤◌, ◌+◌, ◌∷◌, [], not, length, List, IfOk};
ghost use Rattle.uz_core.specs.Arithmetic.{bit_value, bit_is_set};
ghost use Rattle.uz_core.specs.PadLine.{PadHistory, pad_lines, with_level, is_fall, is_rise, latches};
ghost use Rattle.uz_core.specs.Turn.{history_at_reset};

use crate::pad_list::PadList;
use std::alloc::{AllocError, Global};

/// The two players' words of one latch. Bits 0 to 11 are B, Y, Select, Start, Up, Down, Left, Right, A, X, L and R
/// (Uzebox kernel documentation). A set bit means pressed. Bits 12 to 15 are ignored.
#[derive(Clone, Copy)]
pub struct Pad {
    pub one: u16,
    pub two: u16,
}

/// What changes of pads, beside their list: PORTA's value, how far the list is used, and what the lines show.
#[derive(Clone, Copy)]
pub struct PadState {
    /// PORTA's value.
    pub level: u8,
    /// The place of the pair that the next latch loads.
    pub next: usize,
    /// The pair that the last latch loaded.
    pub current: Option<Pad>,
    /// Moves since the last latch, counted up to 12.
    pub moves: u8,
}

/// Two game pads on PORTA, answering from a list of pairs, one pair a latch.
#[derive(Drop)]
pub struct Pads {
    list: PadList,
    /// PORTA's value.
    level: u8,
    /// The place of the pair that the next latch loads.
    next: usize,
    /// The pair that the last latch loaded.
    current: Option<Pad>,
    /// Moves since the last latch, counted up to 12.
    moves: u8,
}

fn is_bit_set(value: u8, bit: u8) -> bool
    requires { bit < 8 }
    ensures { result ≡ bit_is_set value bit }
{
    value >> bit & 1 == 1
}

fn is_fall(bit: u8, old: u8, new: u8) -> bool
    requires { bit < 8 }
    ensures { result ≡ is_fall bit (old, new) }
{
    is_bit_set(old, bit) && !is_bit_set(new, bit)
}

fn is_rise(bit: u8, old: u8, new: u8) -> bool
    requires { bit < 8 }
    ensures { result ≡ is_rise bit (old, new) }
{
    !is_bit_set(old, bit) && is_bit_set(new, bit)
}

/// The level of a line on which a word's bit is shown: a pressed button reads 0.
fn shown(word: u16, at: u8) -> u8
    requires { at < 16 }
    ensures value { result ≡ bit_value (not (bit_is_set word at)) }
    ensures small { result < 2 }
{
    if word >> at & 1 == 1 { 0 } else { 1 }
}

impl Pads {
    ghost use Rattle.uz_pads.specs.Pads.{StandsFor, StateStandsFor, pairs_of, list_of, pad_state_of, with_pad_state};
    ghost use Rattle.uz_pads.specs.Pads.{held_list, holding, pads_left, times_held};
    ghost use Rattle.uz_pads.specs.Pads.{pads_after, pads_loaded, pads_lines};
    ghost use Rattle.uz_pads.specs.declared.pads.Pad.{Pad};

    /// Pads that answer from a list. Before the first latch both lines read 1 (this project's profile).
    pub fn new(list: Vec<Pad>) -> Pads
        ensures { StandsFor result (history_at_reset (pairs_of list.items)) }
    {
        Pads {
            list: PadList::new(list),
            level: 0,
            next: 0,
            current: None,
            moves: 0,
        }
    }

    /// Pads with the same list in the same state.
    pub fn copy(&self, alloc: Global) -> Result<Pads, AllocError>
        ensures list { IfOk result (λ pads. list_of pads ≡ list_of self.now) }
        ensures state { IfOk result (λ pads. pad_state_of pads ≡ pad_state_of self.now) }
    {
        Ok(Pads {
            list: self.list.copy(alloc)?,
            level: self.level,
            next: self.next,
            current: self.current,
            moves: self.moves,
        })
    }

    /// What changes of the pads.
    pub fn state(&self) -> PadState
        ensures { result ≡ pad_state_of self.now }
    {
        PadState {
            level: self.level,
            next: self.next,
            current: self.current,
            moves: self.moves,
        }
    }

    /// Goes to a state of pads with the same list.
    pub fn set_state(&mut self, state: PadState)
        ensures exact { self.new ≡ with_pad_state state self.old }
        ensures stands { (list : List Pad) (history : PadHistory) → StateStandsFor list state history
            → pairs_of (list_of self.old) ≡ pairs_of list → StandsFor self.new history }
    {
        self.take_state(state);
    }

    fn take_state(&mut self, state: PadState)
        ensures { self.new ≡ with_pad_state state self.old }
    {
        self.level = state.level;
        self.next = state.next;
        self.current = state.current;
        self.moves = state.moves;
    }

    /// Holds buttons: the next latches, so many of them, find this pair, and those after them none. What was latched
    /// stays. Where memory runs out no latch finds a pair. The memory is the list's own, and only pairs that were held before and
    /// latched take some.
    pub fn hold(&mut self, _alloc: Global, pad: Pad, times: usize) -> Result<(), AllocError>
        ensures list { list_of self.new ≡ held_list pad (times_held result times) self.old }
        ensures state { pad_state_of self.new ≡ pad_state_of self.old }
        ensures stands { (history : PadHistory) → StandsFor self.old history → latches history.levels ≤ length history.pairs
            → StandsFor self.new (holding pad (times_held result times) history) }
    {
        self.hold_in_list(pad, times)
    }

    fn hold_in_list(&mut self, pad: Pad, times: usize) -> Result<(), AllocError>
        ensures list { list_of self.new ≡ held_list pad (times_held result times) self.old }
        ensures state { pad_state_of self.new ≡ pad_state_of self.old }
    {
        self.list.hold(self.next, pad, times)
    }

    /// So many pairs of the list aren't latched yet. Where there is one, no latch found the list at its end.
    #[tactic(auto, using(crate::proofs::Holding::is_within))]
    pub fn left(&self) -> usize
        ensures exact { result ≡ pads_left self.now }
        ensures stands { (history : PadHistory) → StandsFor self.now history → 0 < result
            → latches history.levels < length history.pairs }
    {
        self.list.len().saturating_sub(self.next)
    }

    /// PORTA takes a value. A fall of bit 2 loads the next pair, and a rise of bit 3 moves to the next bit. Where
    /// both come at once, the load acts first.
    pub fn levels(&mut self, porta: u8)
        ensures exact { self.new ≡ pads_after porta self.old }
        ensures stands { (history : PadHistory) → StandsFor self.old history → StandsFor self.new (with_level porta history) }
    {
        self.take_level(porta);
    }

    fn take_level(&mut self, porta: u8)
        ensures { self.new ≡ pads_after porta self.old }
    {
        let rise = if is_rise(3, self.level, porta) { 1 } else { 0 };
        if is_fall(2, self.level, porta) {
            self.load_next();
            self.moves = rise;
        } else if self.moves < 12 {
            self.moves += rise;
        }
        self.level = porta;
    }

    /// A latch.
    fn load_next(&mut self)
        ensures { self.new ≡ pads_loaded self.old }
    {
        if self.next < self.list.len() {
            self.current = Some(self.list.at(self.next));
            self.next += 1;
        } else {
            self.current = None;
        }
    }

    /// Data 1 in bit 0 and data 2 in bit 1. A pressed button reads 0. After 12 moves, and for a load past the list's
    /// end, the lines read 1 (this project's profile).
    #[tactic(auto, using(crate::proofs::History::lines_stand))]
    pub fn lines(&self) -> u8
        ensures exact { result ≡ pads_lines self.now }
        ensures stands { (history : PadHistory) → StandsFor self.now history → result ≡ pad_lines history }
        ensures small { result < 4 }
    {
        self.shown_lines()
    }

    fn shown_lines(&self) -> u8
        ensures exact { result ≡ pads_lines self.now }
        ensures small { result < 4 }
    {
        match self.current {
            Some(pad) if self.moves < 12 => shown(pad.one, self.moves)
                + shown(pad.two, self.moves) * 2,
            _ => 3,
        }
    }
}
