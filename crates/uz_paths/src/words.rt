//! The hints of each kind, read off their list.

ghost use Rattle.std.specs.Prelude.{◌≡◌, length};
ghost use Rattle.uz_paths.specs.Words.{first_start as start_in, first_lines as lines_in};
ghost use Rattle.uz_paths.specs.Words.{first_stack as stack_in, has_cell as cell_in, cell_count as cells_in};
ghost use Rattle.uz_paths.specs.Words.{first_fact as fact_in, halves_some as halves_some_line};
ghost use Rattle.uz_paths.specs.Words.{has_half as some_half_in, cell_at, cell_hint, range_at};

use avr_asm::Hint;
use uz_schedule::Kind;

/// Where runs enter.
#[derive(Clone, Copy)]
pub struct Beginning {
    /// Main, or a program that is alone.
    pub kind: Kind,
    /// The program counter, a word address.
    pub pc: u16,
}

/// The lines of a frame.
#[derive(Clone, Copy)]
pub struct FrameSize {
    /// How many there are.
    pub lines: u16,
    /// The clock of each at which the level of sync falls.
    pub fall: u16,
}

/// The stack's region, and how many bytes main and the handler may push.
#[derive(Clone, Copy)]
pub struct StackRegion {
    /// Its lowest address.
    pub lo: u16,
    /// Its highest address.
    pub hi: u16,
    /// Main's bytes.
    pub main: u8,
    /// The handler's bytes.
    pub handler: u8,
}

/// A fact of a place: both ends are in its range.
#[derive(Clone, Copy)]
pub struct PlaceRange {
    /// The least number.
    pub lo: u16,
    /// The greatest number.
    pub hi: u16,
}

/// The first start.
pub(crate) fn first_start(hints: &[Hint]) -> Option<Beginning>
    ensures { result ≡ start_in hints.now }
{
    for hint in hints {
        if let Hint::Start { kind, at } = hint {
            return Some(Beginning {
                kind: *kind,
                pc: *at,
            });
        }
    }
    None
}

/// The first lines.
pub(crate) fn first_lines(hints: &[Hint]) -> Option<FrameSize>
    ensures { result ≡ lines_in hints.now }
{
    for hint in hints {
        if let Hint::Lines { lines, fall } = hint {
            return Some(FrameSize {
                lines: *lines,
                fall: *fall,
            });
        }
    }
    None
}

/// Whether a hint says that some line from one to another has half a scanline's clocks.
fn halves_some(hint: &Hint, from: u16, to: u16) -> bool
    ensures { result ≡ halves_some_line from to hint.now }
{
    match hint {
        Hint::Half {
            from: first,
            to: last,
        } => from <= to && from <= *last && *first <= to && *first <= *last,
        _ => false,
    }
}

/// Whether some hint says so of some line from one to another.
pub(crate) fn has_half(hints: &[Hint], from: u16, to: u16) -> bool
    ensures { result ≡ some_half_in from to hints.now }
{
    for hint in hints {
        if halves_some(hint, from, to) {
            return true;
        }
    }
    false
}

/// The first stack.
pub(crate) fn first_stack(hints: &[Hint]) -> Option<StackRegion>
    ensures { result ≡ stack_in hints.now }
{
    for hint in hints {
        if let Hint::Stack {
            lo,
            hi,
            main,
            handler,
        } = hint
        {
            return Some(StackRegion {
                lo: *lo,
                hi: *hi,
                main: *main,
                handler: *handler,
            });
        }
    }
    None
}

/// Whether a hint is a cell at an address.
fn is_cell_at(hint: &Hint, address: u16) -> bool
    ensures { result ≡ cell_at address hint.now }
{
    match hint {
        Hint::Cell { at, .. } => *at == address,
        _ => false,
    }
}

/// Whether a cell has this address.
pub(crate) fn has_cell(hints: &[Hint], address: u16) -> bool
    ensures { result ≡ cell_in address hints.now }
{
    for hint in hints {
        if is_cell_at(hint, address) {
            return true;
        }
    }
    false
}

/// Whether a hint is a cell.
fn is_cell(hint: &Hint) -> bool
    ensures { result ≡ cell_hint hint.now }
{
    matches!(hint, Hint::Cell { .. })
}

/// How many cells there are.
pub(crate) fn cell_count(hints: &[Hint]) -> usize
    ensures { result ≡ cells_in hints.now }
{
    let mut count = 0;
    for hint in hints {
        if is_cell(hint) {
            count += 1;
        }
    }
    count
}

/// The range that a hint gives a place at a program counter.
fn fact_at(hint: &Hint, pc: u16, place: u8) -> Option<PlaceRange>
    ensures { result ≡ range_at pc place hint.now }
{
    match hint {
        Hint::Fact {
            at,
            place: of,
            lo,
            hi,
        } if *at == pc && *of == place => Some(PlaceRange { lo: *lo, hi: *hi }),
        _ => None,
    }
}

/// The first fact of a place at a program counter.
pub(crate) fn first_fact(hints: &[Hint], pc: u16, place: u8) -> Option<PlaceRange>
    ensures { result ≡ fact_in pc place hints.now }
{
    for hint in hints {
        let range = fact_at(hint, pc, place);
        if range.is_some() {
            return range;
        }
    }
    None
}
