//! The transfer function: what an instruction makes of what is known.

ghost use Rattle.std.specs.Prelude.{◌≡◌, ◌<◌, ◌≤◌, ◌+◌, ◌%◌, ◌∷◌, ◌++◌, [], false, true, None, length};
ghost use Rattle.uz_core.specs.OperandRanges.{EffectFits};
ghost use Rattle.uz_core.specs.declared.machine.Effect.TheVariants.{PushByte, PopByte, Jump, Return, Store};
ghost use Rattle.uz_transfer.specs.Values.{value_at, with_value};
ghost use Rattle.uz_transfer.specs.Kinds.{depth_limit as limit_of_depth};
ghost use Rattle.uz_transfer.specs.Transfer.{transfer, pc_values};
ghost use Rattle.uz_transfer.specs.Memory.{with_slots, without_slots, slot_value};
ghost use Rattle.uz_transfer.specs.Refusals.{fail_of as fail_of_effect};

use crate::arithmetic::{
    add_to_pair, binary, copy_byte, copy_pair, load_bit, multiply, store_bit, unary, write_flag,
};
use crate::loads::{known_byte, load, load_program, pop_byte};
use crate::memory::{drop_slots, push};
use crate::stores::store;
use crate::values::val;
use uz_core::{Effect, JumpTarget};
use uz_hex::Image;
use uz_schedule::{Head, Instance};

/// What becomes known. The effect isn't refused. `following` is the pc of the following instruction, and `sampled` the clock
/// of the line at which a load samples.
pub(crate) fn transfer(
    at: &mut Instance,
    head: &Head,
    image: &Image,
    following: u16,
    sampled: u16,
    e: Effect,
)
    requires limits { limit_of_depth head.now at.old.kind ≤ 32 }
    requires following { following < 32768 }
    requires fits { EffectFits e }
    requires fine { fail_of_effect head.now e at.old ≡ None }
    ensures { at.new ≡ transfer head.now image.now following sampled e at.old }
{
    match e {
        Effect::CopyByte { d, source } => copy_byte(at, d, source),
        Effect::CopyPair { d, r } => copy_pair(at, d, r),
        Effect::Binary {
            op,
            d,
            source,
            compare,
        } => binary(at, op, d, source, compare),
        Effect::Unary { op, d } => unary(at, op, d),
        Effect::AddToPair {
            d,
            constant,
            subtract,
        } => add_to_pair(at, d, constant, subtract),
        Effect::Multiply {
            d,
            r,
            d_signed,
            r_signed,
            shifted,
        } => multiply(at, d, r, d_signed, r_signed, shifted),
        Effect::Load { d, from } => load(at, head, sampled, d, from),
        Effect::Store { to, r } => store(at, head, to, r),
        Effect::PushByte { r } => push_register(at, head, r),
        Effect::PopByte { d } => pop_one(at, head, d),
        Effect::LoadProgram { d, increment } => load_program(at, image, d, increment),
        Effect::WriteFlag { flag, set } => write_flag(at, flag, set),
        Effect::LoadBit { d, bit } => load_bit(at, d, bit),
        Effect::StoreBit { d, bit } => store_bit(at, d, bit),
        Effect::Jump { call: true, target } => push_pc(at, head, target, following),
        Effect::Return {
            from_interrupt: false,
        } => drop_pc(at, head),
        _ => {}
    }
}

/// PUSH.
#[tactic(auto, using(crate::proofs::Refused::push_room))]
fn push_register(at: &mut Instance, head: &Head, r: u8)
    requires limits { limit_of_depth head.now at.old.kind ≤ 32 }
    requires register { r < 32 }
    requires fine { fail_of_effect head.now (PushByte r) at.old ≡ None }
    ensures { at.new ≡ with_slots (at.old.stack.items ++ value_at at.old.regs r ∷ []) at.old }
{
    let _ = head; // said of in the contract alone
    let v = val(at, r);
    push(at, v);
}

/// POP.
#[tactic(auto, using(crate::proofs::Refused::pop_some))]
fn pop_one(at: &mut Instance, head: &Head, d: u8)
    requires register { d < 32 }
    requires fine { fail_of_effect head.now (PopByte d) at.old ≡ None }
    ensures { at.new ≡ with_value d (slot_value 1 at.old) (without_slots 1 at.old) }
{
    let _ = head; // said of in the contract alone
    pop_byte(at, d);
}

/// The pushes of a call, the low byte first.
#[tactic(auto, using(crate::proofs::Refused::call_room))]
fn push_pc(at: &mut Instance, head: &Head, target: JumpTarget, following: u16)
    requires limits { limit_of_depth head.now at.old.kind ≤ 32 }
    requires fine { fail_of_effect head.now (Jump target true) at.old ≡ None }
    ensures { at.new ≡ with_slots (at.old.stack.items ++ pc_values following) at.old }
{
    let _ = head; // said of in the contract alone
    let _ = target; // said of in the contract alone
    push(at, known_byte((following % 256) as u8));
    push(at, known_byte((following / 256) as u8));
}

/// The pops of a return.
#[tactic(auto, using(crate::proofs::Refused::return_slots))]
fn drop_pc(at: &mut Instance, head: &Head)
    requires { fail_of_effect head.now (Return false) at.old ≡ None }
    ensures { at.new ≡ without_slots 2 at.old }
{
    let _ = head; // said of in the contract alone
    drop_slots(at, 2);
}
