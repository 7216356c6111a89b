//! What points of one chain have in common: all but their lines or clocks, their successors and the bytes that their facts tell.

use crate::dimension::Dimension;
use crate::facts::{
    KnownByte, are_steady, differences, follow_by, is_pair_steady, put_growths, same_but_bytes,
};
use crate::points::pair_facts;
use uz_schedule::{Bit, Fact, Instance, Kind, Point, Span, Val};

/// Whether no fact of a point changes along a dimension.
fn is_steady(point: &Point, dimension: Dimension) -> bool {
    are_steady(&point.regs, dimension)
        && point
            .pairs
            .iter()
            .all(|pair| is_pair_steady(pair, dimension))
        && are_steady(point.stack.as_slice(), dimension)
        && are_steady(point.cells.as_slice(), dimension)
}

/// Whether a point stands at one line, or at one clock and the count 0.
fn is_at_one(point: &Point, dimension: Dimension) -> bool {
    match dimension {
        Dimension::Lines => point.l0 == point.l1,
        Dimension::Counts => point.c0 == 0 && point.c1 == 0 && point.slope == 0,
    }
}

/// Whether a point may be joined with others: it stands at one place of the dimension, and isn't of main.
pub fn is_joinable(point: &Point, dimension: Dimension) -> bool {
    is_at_one(point, dimension)
        && is_steady(point, dimension)
        && match point.kind {
            Kind::Main => false,
            Kind::Handler | Kind::Alone => true,
        }
}

/// By how much each byte grows from one point of a chain to the next, modulo 256.
#[derive(Clone, Copy, Drop)]
pub struct Growth {
    regs: [u8; 32],
    stack: [u8; 32],
    cells: [u8; 16],
}

impl Growth {
    /// None.
    pub fn none() -> Growth {
        Growth {
            regs: [0; 32],
            stack: [0; 32],
            cells: [0; 16],
        }
    }

    /// From one to another.
    pub fn between<P: Shaped>(from: &P, to: &P) -> Growth {
        let mut growth = Growth::none();
        put_growths(&mut growth.regs, from.regs(), to.regs());
        put_growths(&mut growth.stack, from.stack(), to.stack());
        put_growths(&mut growth.cells, from.cells(), to.cells());
        growth
    }
}

/// What chains are made of: points, and instances in place of their points.
pub trait Shaped {
    /// What is known of a register or of a byte of the stack.
    type Byte: KnownByte;
    /// What is known of a cell.
    type Cell: KnownByte;

    /// The line or clock by which chains are put in order.
    fn place(&self, dimension: Dimension) -> u16;

    /// Whether another has the same shape but for what is said of registers, stack and cells.
    fn same_frame(&self, dimension: Dimension, other: &Self) -> bool;

    /// What is known of each register.
    fn regs(&self) -> &[Self::Byte];

    /// What is known of each byte of the stack.
    fn stack(&self) -> &[Self::Byte];

    /// What is known of each cell.
    fn cells(&self) -> &[Self::Cell];
}

/// Whether two points stand at the same place of the program, and of the line or of the frame.
fn same_place(dimension: Dimension, a: &Point, b: &Point) -> bool {
    a.kind == b.kind
        && a.pc == b.pc
        && match dimension {
            Dimension::Lines => {
                a.clock == b.clock && a.slope == b.slope && a.c0 == b.c0 && a.c1 == b.c1
            }
            Dimension::Counts => a.l0 == b.l0 && a.l1 == b.l1,
        }
}

impl Shaped for Point {
    type Byte = Fact;

    type Cell = Fact;

    fn place(&self, dimension: Dimension) -> u16 {
        match dimension {
            Dimension::Lines => self.l0,
            Dimension::Counts => self.clock,
        }
    }

    fn same_frame(&self, dimension: Dimension, other: &Point) -> bool {
        same_place(dimension, self, other)
            && (self.pending == other.pending && self.top == other.top && self.temp == other.temp)
            && self.flags == other.flags
            && self.compared == other.compared
            && self.pairs == other.pairs
    }

    fn regs(&self) -> &[Fact] {
        &self.regs
    }

    fn stack(&self) -> &[Fact] {
        self.stack.as_slice()
    }

    fn cells(&self) -> &[Fact] {
        self.cells.as_slice()
    }
}

/// Whether two instances stand at the same place of the program, and of the line or of the frame.
fn same_instance_place(dimension: Dimension, a: &Instance, b: &Instance) -> bool {
    a.kind == b.kind
        && a.pc == b.pc
        && match dimension {
            Dimension::Lines => a.clock == b.clock,
            Dimension::Counts => a.line == b.line,
        }
}

impl Shaped for Instance {
    type Byte = Val;

    type Cell = Span;

    fn place(&self, dimension: Dimension) -> u16 {
        match dimension {
            Dimension::Lines => self.line,
            Dimension::Counts => self.clock,
        }
    }

    fn same_frame(&self, dimension: Dimension, other: &Instance) -> bool {
        same_instance_place(dimension, self, other)
            && (self.pending == other.pending && self.top == other.top && self.temp == other.temp)
            && self.flags == other.flags
            && self.compared == other.compared
            && pair_facts(self) == pair_facts(other)
    }

    fn regs(&self) -> &[Val] {
        &self.regs
    }

    fn stack(&self) -> &[Val] {
        self.stack.as_slice()
    }

    fn cells(&self) -> &[Span] {
        self.cells.as_slice()
    }
}

/// Whether two have one shape.
pub fn same_shape<P: Shaped>(dimension: Dimension, a: &P, b: &P) -> bool {
    a.same_frame(dimension, b)
        && same_but_bytes(a.regs(), b.regs())
        && same_but_bytes(a.stack(), b.stack())
        && same_but_bytes(a.cells(), b.cells())
}

/// Whether one has the shape of the last of a chain, and each byte grows by so much from that one to it.
pub fn goes_on<P: Shaped>(dimension: Dimension, growth: &Growth, last: &P, new: &P) -> bool {
    last.same_frame(dimension, new)
        && follow_by(&growth.regs, last.regs(), new.regs())
        && follow_by(&growth.stack, last.stack(), new.stack())
        && follow_by(&growth.cells, last.cells(), new.cells())
}

/// How many bytes differ.
pub fn distance<P: Shaped>(a: &P, b: &P) -> u32 {
    differences(a.regs(), b.regs())
        .saturating_add(differences(a.stack(), b.stack()))
        .saturating_add(differences(a.cells(), b.cells()))
}

/// The key of no number, and the factor for each: those of the hash FNV-1a of 64 bits.
const SEED: u64 = 0xcbf2_9ce4_8422_2325;

const FACTOR: u64 = 0x0000_0100_0000_01b3;

/// One more number in a key.
fn mix(key: u64, number: u64) -> u64 {
    (key ^ number).wrapping_mul(FACTOR)
}

/// A key with what is known of bytes.
fn mix_bytes<T: KnownByte>(key: u64, told: &[T]) -> u64 {
    let mut key = mix(key, told.len() as u64);
    for byte in told {
        key = mix(key, byte.code());
    }
    key
}

fn flag_code(flag: Bit) -> u64 {
    match flag {
        Bit::Zero => 0,
        Bit::One => 1,
        Bit::Free => 2,
        Bit::Old => 3,
    }
}

/// The key of a point's place.
fn place_key(dimension: Dimension, point: &Point) -> u64 {
    let pc = mix(SEED, u64::from(point.pc));
    match dimension {
        Dimension::Lines => mix(mix(pc, u64::from(point.clock)), u64::from(point.c1)),
        Dimension::Counts => mix(mix(pc, u64::from(point.l0)), u64::from(point.l1)),
    }
}

/// The upper half of a key.
fn upper_half(key: u64) -> u32 {
    (key >> 32) as u32
}

/// A place's key with what is known there, and of that the upper half.
fn shape_key<P: Shaped>(place: u64, flags: &[Bit; 7], of: &P) -> u32 {
    let mut key = place;
    for flag in flags {
        key = mix(key, flag_code(*flag));
    }
    let bytes = mix_bytes(mix_bytes(key, of.regs()), of.stack());
    upper_half(mix_bytes(bytes, of.cells()))
}

/// A number that points of one shape have alike. Few others have it.
pub fn key(dimension: Dimension, point: &Point) -> u32 {
    let place = mix(place_key(dimension, point), u64::from(point.top));
    shape_key(place, &point.flags, point)
}

/// A number that instances have alike which differ in their lines and in single bytes. Few others have it.
pub fn node_key(at: &Instance) -> u32 {
    let place = mix(mix(SEED, u64::from(at.pc)), u64::from(at.clock));
    shape_key(mix(place, u64::from(at.top)), &at.flags, at)
}
