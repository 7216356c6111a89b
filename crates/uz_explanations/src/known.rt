//! What is known of what an instruction depends on.

ghost use Rattle.std.specs.Prelude.{◌≡◌, ◌<◌, ◌≤◌, ◌++◌, ◌∷◌, [], IfOk, OnOk, length};
ghost use Rattle.uz_explanations.specs.Known.{fact_of, val_word, item_if, register_item, pair_item, flag_item, slot_item};
ghost use Rattle.uz_explanations.specs.Known.{slots_of, known_items, reads_line, known_line};
ghost use Rattle.uz_explanations.specs.Pieces.{pieces};
ghost use Rattle.uz_cert_writer.specs.Spelling.{fact_word, pair_word, flag_word};
ghost use Rattle.uz_core.specs.declared.machine.Effect.TheVariants.{Return};

use crate::dependence::{reads_flag, reads_pair, reads_register, taken_slots};
use crate::trail_lines::put_number;
use avr_table::Instr;
use std::alloc::{AllocError, Global};
use uz_cert_writer::{add_fact, add_pair_fact, flag_word};
use uz_core::{Effect, effect};
use uz_schedule::{Bit, Fact, Instance, PairFact, Val, Wide};

/// The letters of the pairs and of the flags.
const PAIR_LETTERS: [u8; 3] = [b'x', b'y', b'z'];

const FLAG_LETTERS: [u8; 7] = [b'c', b'z', b'n', b'v', b's', b'h', b't'];

/// What is known of a byte, as a fact.
fn fact_of(val: &Val) -> Fact
    ensures { result ≡ fact_of val.now }
{
    match *val {
        Val::Range(span) => Fact::Between(span),
        Val::Old(r) => Fact::Old(r),
        Val::OldFlags => Fact::OldFlags,
    }
}

/// Adds what is known of a byte.
fn add_val(text: &mut Vec<u8>, val: &Val) -> Result<(), AllocError>
    ensures { OnOk result (text.new.items ≡ text.old.items ++ val_word val.now) }
{
    add_fact(text, &fact_of(val))
}

/// Adds the item of a register, where it is read.
fn add_register(text: &mut Vec<u8>, e: Effect, register: u8, val: &Val) -> Result<(), AllocError>
    ensures { OnOk result (text.new.items ≡ text.old.items ++ register_item e register val.now) }
{
    if !reads_register(e, register) {
        return Ok(());
    }
    put_number(text, b" r", u64::from(register))?;
    text.extend_from_slice(b"=")?;
    add_val(text, val)
}

/// Adds the items of the registers.
fn add_registers(text: &mut Vec<u8>, e: Effect, vals: &[Val]) -> Result<(), AllocError>
    requires { length vals.now ≤ 32 }
    ensures { OnOk result (text.new.items ≡ text.old.items ++ pieces (register_item e) 0 vals.now) }
{
    for (register, val) in vals.iter().enumerate() {
        add_register(text, e, register as u8, val)?;
    }
    Ok(())
}

/// Adds a letter behind a space, and an equals sign.
fn add_letter(text: &mut Vec<u8>, letter: u8) -> Result<(), AllocError>
    ensures { OnOk result (text.new.items ≡ text.old.items ++ (32 ∷ letter ∷ 61 ∷ [])) }
{
    text.extend_from_slice(&[b' ', letter, b'='])
}

/// Adds the item of a pair, where it is read.
fn add_pair(text: &mut Vec<u8>, e: Effect, k: u8, range: &Wide) -> Result<(), AllocError>
    requires { k < 3 }
    ensures { OnOk result (text.new.items ≡ text.old.items ++ pair_item e k range.now) }
{
    if !reads_pair(e, 26 + 2 * k) {
        return Ok(());
    }
    add_letter(text, PAIR_LETTERS[k as usize])?;
    add_pair_fact(text, &PairFact::Between(*range))
}

/// Adds the items of the pairs.
fn add_pairs(text: &mut Vec<u8>, e: Effect, ranges: &[Wide]) -> Result<(), AllocError>
    requires { length ranges.now ≤ 3 }
    ensures { OnOk result (text.new.items ≡ text.old.items ++ pieces (pair_item e) 0 ranges.now) }
{
    for (k, range) in ranges.iter().enumerate() {
        add_pair(text, e, k as u8, range)?;
    }
    Ok(())
}

/// Adds the item of a flag, where it is read.
fn add_flag(text: &mut Vec<u8>, e: Effect, b: u8, bit: Bit) -> Result<(), AllocError>
    requires { b < 7 }
    ensures { OnOk result (text.new.items ≡ text.old.items ++ flag_item e b bit) }
{
    if !reads_flag(e, b) {
        return Ok(());
    }
    add_letter(text, FLAG_LETTERS[b as usize])?;
    text.extend_from_slice(flag_word(bit))
}

/// Adds the items of the flags.
fn add_flags(text: &mut Vec<u8>, e: Effect, bits: &[Bit]) -> Result<(), AllocError>
    requires { length bits.now ≤ 7 }
    ensures { OnOk result (text.new.items ≡ text.old.items ++ pieces (flag_item e) 0 bits.now) }
{
    for (b, bit) in bits.iter().enumerate() {
        add_flag(text, e, b as u8, *bit)?;
    }
    Ok(())
}

/// Adds the items of bytes of the stack.
fn add_slots(text: &mut Vec<u8>, vals: &[Val]) -> Result<(), AllocError>
    ensures { OnOk result (text.new.items ≡ text.old.items ++ pieces slot_item 0 vals.now) }
{
    for val in vals {
        text.extend_from_slice(b" s:")?;
        add_val(text, val)?;
    }
    Ok(())
}

/// The bytes of the stack that an effect takes, as far as there are so many.
fn slots(e: Effect, stack: &[Val]) -> &[Val]
    ensures { result.now ≡ slots_of e stack.now }
{
    &stack[stack.len().saturating_sub(taken_slots(e))..]
}

/// Adds what is known of what an effect depends on.
fn add_items(text: &mut Vec<u8>, e: Effect, at: &Instance) -> Result<(), AllocError>
    ensures { OnOk result (text.new.items ≡ text.old.items ++ known_items e at.now) }
{
    add_registers(text, e, &at.regs)?;
    add_pairs(text, e, &at.pairs)?;
    add_flags(text, e, &at.flags)?;
    add_slots(text, slots(e, at.stack.as_slice()))
}

/// The items of what an effect depends on.
fn items_of(alloc: Global, e: Effect, at: &Instance) -> Result<Vec<u8>, AllocError>
    ensures { IfOk result (λ items. items.items ≡ known_items e at.now) }
{
    let mut items = Vec::new(alloc);
    add_items(&mut items, e, at)?;
    Ok(items)
}

/// Adds the line of items, if there are any.
fn add_reads(text: &mut Vec<u8>, items: &[u8]) -> Result<(), AllocError>
    ensures { OnOk result (text.new.items ≡ text.old.items ++ reads_line items.now) }
{
    match items {
        [] => Ok(()),
        [_, ..] => {
            text.extend_from_slice(b"reads")?;
            text.extend_from_slice(items)?;
            text.extend_from_slice(b"\n")
        }
    }
}

/// Adds the line of what is known of what an instruction depends on.
#[tactic(auto, unfolding(crate::specs::Known::known_line))]
pub(crate) fn add_known(
    alloc: Global,
    text: &mut Vec<u8>,
    row: Option<Instr>,
    at: &Instance,
) -> Result<(), AllocError>
    ensures { OnOk result (text.new.items ≡ text.old.items ++ known_line row at.now) }
{
    match row {
        Some(i) => {
            let items = items_of(alloc, effect(&i), at)?;
            add_reads(text, items.as_slice())
        }
        None => Ok(()),
    }
}
