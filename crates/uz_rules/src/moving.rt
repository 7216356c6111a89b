//! An instance of a point, put from one line and count of its box to another. Only what depends on these is made anew.

ghost use Rattle.std.specs.Prelude.{◌≡◌, ◌<◌, All, [], ◌∷◌, length};
ghost use Rattle.uz_rules.specs.Moving.{with_registers, with_stack, with_cells, with_pair, with_pairs, moved};
ghost use Rattle.uz_rules.specs.Moving.{IsVarying, IsOfPoint};
ghost use Rattle.uz_schedule.specs.Instances.{hull_at, instance_of};

use crate::varying::Varying;
use uz_schedule::{Instance, Point, Val, Wide, hull_of_bytes, pair_by, span_of, val_of};

/// A register is known by its fact at this line and count.
#[tactic(auto, unfolding(crate::specs::Moving::put_facts))]
fn put_register(at: &mut Instance, point: &Point, place: u8, line: u16, count: u8)
    requires { place < 32 }
    ensures { at.new ≡ with_registers point.now line count (place ∷ []) at.old }
{
    at.regs[place as usize] = val_of(&point.regs[place as usize], line, count);
}

/// These registers are.
#[tactic(auto, unfolding(crate::specs::Moving::put_facts))]
fn put_registers(at: &mut Instance, point: &Point, places: &[u8], line: u16, count: u8)
    requires { All (λ i. i < 32) places.now }
    ensures { at.new ≡ with_registers point.now line count places.now at.old }
{
    for place in places {
        put_register(at, point, *place, line, count);
    }
}

/// A byte of the stack is known by its fact at this line and count.
#[tactic(auto, unfolding(crate::specs::Moving::put_facts))]
fn put_slot(at: &mut Instance, point: &Point, place: u8, line: u16, count: u8)
    requires fact { place < length point.now.stack.items }
    requires slot { place < length at.old.stack.items }
    ensures { at.new ≡ with_stack point.now line count (place ∷ []) at.old }
{
    let slots = at.stack.as_mut_slice();
    slots[place as usize] = val_of(&point.stack.as_slice()[place as usize], line, count);
}

/// These bytes of the stack are.
#[tactic(auto, unfolding(crate::specs::Moving::put_facts))]
fn put_slots(at: &mut Instance, point: &Point, places: &[u8], line: u16, count: u8)
    requires facts { All (λ i. i < length point.now.stack.items) places.now }
    requires slots { length at.old.stack.items ≡ length point.now.stack.items }
    ensures { at.new ≡ with_stack point.now line count places.now at.old }
{
    for place in places {
        put_slot(at, point, *place, line, count);
    }
}

/// The range of a cell is that of its fact at this line and count.
#[tactic(auto, unfolding(crate::specs::Moving::put_facts))]
fn put_cell(at: &mut Instance, point: &Point, place: u8, line: u16, count: u8)
    requires fact { place < length point.now.cells.items }
    requires cell { place < length at.old.cells.items }
    ensures { at.new ≡ with_cells point.now line count (place ∷ []) at.old }
{
    let cells = at.cells.as_mut_slice();
    cells[place as usize] = span_of(&val_of(&point.cells.as_slice()[place as usize], line, count));
}

/// Those of these cells are.
#[tactic(auto, unfolding(crate::specs::Moving::put_facts))]
fn put_cells(at: &mut Instance, point: &Point, places: &[u8], line: u16, count: u8)
    requires facts { All (λ i. i < length point.now.cells.items) places.now }
    requires cells { length at.old.cells.items ≡ length point.now.cells.items }
    ensures { at.new ≡ with_cells point.now line count places.now at.old }
{
    for place in places {
        put_cell(at, point, *place, line, count);
    }
}

/// What the bytes of the pair say whose low register is `low`.
fn hull_in(regs: &[Val; 32], low: usize) -> Wide
    requires { low < 31 }
    ensures { result ≡ hull_at regs.now low }
{
    hull_of_bytes(&regs[low], &regs[low + 1])
}

/// A pair, of which `low` is the low register, is known by its fact and by its bytes, but where it is the same at each line and count.
fn put_pair(
    at: &mut Instance,
    point: &Point,
    steady: bool,
    pair: usize,
    low: usize,
    line: u16,
    count: u8,
)
    requires pair { pair < 3 }
    requires low { low < 31 }
    ensures { at.new ≡ with_pair point.now line count steady pair low at.old }
{
    if !steady {
        let bytes = hull_in(&at.regs, low);
        at.pairs[pair] = pair_by(&point.pairs[pair], line, count, bytes);
    }
}

/// X, Y and Z are.
fn put_pairs(at: &mut Instance, point: &Point, varying: &Varying, line: u16, count: u8)
    ensures { at.new ≡ with_pairs point.now line count varying.now at.old }
{
    put_pair(at, point, varying.x, 0, 26, line, count);
    put_pair(at, point, varying.y, 1, 28, line, count);
    put_pair(at, point, varying.z, 2, 30, line, count);
}

/// All that depends on the line and the count is put, and the clock and level.
#[tactic(auto, using(crate::proofs::MovingLaws::put_anew))]
fn put_varying(
    at: &mut Instance,
    point: &Point,
    varying: &Varying,
    line: u16,
    count: u8,
    clock: u16,
    level: u8,
)
    requires varying { IsVarying point.now varying.now }
    requires kept { IsOfPoint point.now at.old }
    ensures { at.new ≡ moved point.now varying.now line count clock level at.old }
{
    at.line = line;
    at.clock = clock;
    at.level = level;
    put_registers(at, point, varying.registers.as_slice(), line, count);
    put_slots(at, point, varying.stack.as_slice(), line, count);
    put_cells(at, point, varying.cells.as_slice(), line, count);
    put_pairs(at, point, varying, line, count);
}

/// An instance of a point becomes that at another line, count and clock, with this level.
pub fn move_to(
    at: &mut Instance,
    point: &Point,
    varying: &Varying,
    line: u16,
    count: u8,
    clock: u16,
    level: u8,
)
    requires varying { IsVarying point.now varying.now }
    requires kept { IsOfPoint point.now at.old }
    ensures { at.new ≡ instance_of point.now line count clock level }
{
    put_varying(at, point, varying, line, count, clock, level);
}
