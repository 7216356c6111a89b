//! The second pass over the lines, and the whole.

ghost use Rattle.std.specs.Prelude.{◌≡◌, ◌<◌, ◌≤◌, ◌-◌, ◌+◌, ◌^◌, ◌⊎◌, ℕ, All, IfErr, IfOk, OnOk, MatchResult, Ok, Err};
ghost use Rattle.std.specs.Prelude.{length, drop, map as mapped};
ghost use Rattle.avr_text.specs.Faults.{Gives};
ghost use Rattle.avr_text.specs.Operands.{AllLie, EachLies};
ghost use Rattle.avr_asm.specs.Layout.{EachShort, GivesLayout};
ghost use Rattle.uz_hex.specs.Cells.{IsFlash};
ghost use Rattle.avr_asm.specs.Items.{IsDecoded, IsInFlash};
ghost use Rattle.avr_asm.specs.Relation.{IsAssembly};
ghost use Rattle.avr_asm.specs.FirstFault.{IsFirstFault};
ghost use Rattle.avr_text.specs.declared.errors.AsmWhy.{AsmWhy};
ghost use Rattle.avr_asm.specs.Assembly.{Output, seen_built, with_instruction, with_data, with_hint, with_directive};
ghost use Rattle.avr_asm.specs.Assembly.{with_action, with_line, following as following_address, output_from, assembly};
ghost use Rattle.avr_asm.specs.Taken.{assembly_over, over};

use crate::directives::Directive;
use crate::emission::{byte_data, code_of, put, word_data};
use crate::errors::AsmError;
use crate::hints::hint_of;
use crate::layout::{is_instruction_line, lay_out};
use crate::lines::{Action, action_of, arguments_of, body_of, content_of, lines_of, parts_of};
use crate::output::{Built, Placed};
use avr_table::Instr;
use avr_text::{AsmWhy, Operands, Symbols, Token, name_gives_word_count, value_is_kept};
use std::alloc::Global;
use uz_hex::Image;

/// A line of a source, and where what it puts out goes.
#[derive(Clone, Copy)]
pub(crate) struct PlacedLine<'a> {
    /// Its bytes.
    pub(crate) text: &'a [u8],
    /// Its number, from 1 on.
    pub(crate) number: u32,
    /// Its byte address.
    pub(crate) address: u32,
    /// The word address of the first instruction line behind it, and 0 where there is none.
    pub(crate) following: u16,
}

/// Puts an instruction at a byte address.
#[tactic(auto, unfolding(crate::specs::Assembly::with_instruction))]
fn put_instruction(
    alloc: Global,
    built: &mut Built,
    line: u32,
    address: u32,
    instr: Instr,
) -> Result<(), AsmWhy>
    requires { address ≤ 65536 }
    ensures { Gives (λ _. seen_built built.new) result (with_instruction line address (seen_built built.old) instr) }
{
    let bytes = code_of(alloc, &instr)?;
    put(&mut built.image, address, bytes.as_slice())?;
    built.items.push(Placed {
        at: (address / 2) as u16,
        line,
        instr,
    })?;
    Ok(())
}

/// Puts data at a byte address.
#[tactic(auto, unfolding(crate::specs::Assembly::with_data))]
fn put_data(built: &mut Built, address: u32, bytes: &[u8]) -> Result<(), AsmWhy>
    requires { address ≤ 65536 }
    ensures { Gives (λ _. seen_built built.new) result (with_data address (seen_built built.old) bytes.now) }
{
    put(&mut built.image, address, bytes)
}

/// Puts a directive's data or hint out.
fn put_directive(
    alloc: Global,
    built: &mut Built,
    directive: Directive,
    line: &PlacedLine<'_>,
    symbols: &Symbols,
    parts: &[&[Token]],
) -> Result<(), AsmWhy>
    requires lie { EachLies (length line.now.text.now) parts.now }
    requires address { line.now.address ≤ 65536 }
    ensures { Gives (λ _. seen_built built.new) result
        (with_directive directive line.now.text.now symbols.now line.now.address line.now.following (mapped (λ p. p.now) parts.now)
        (seen_built built.old)) }
{
    match directive {
        Directive::Db => {
            let bytes = byte_data(alloc, line.text, symbols, parts)?;
            put_data(built, line.address, bytes.as_slice())
        }
        Directive::Dw => {
            let bytes = word_data(alloc, line.text, symbols, parts)?;
            put_data(built, line.address, bytes.as_slice())
        }
        _ => {
            if let Some(hint) = hint_of(directive, line.text, symbols, parts, line.following)? {
                built.hints.push(hint)?;
            }
            Ok(())
        }
    }
}

/// Puts out what a line does.
fn put_action(
    alloc: Global,
    built: &mut Built,
    action: Action,
    line: &PlacedLine<'_>,
    symbols: &Symbols,
    parts: &[&[Token]],
) -> Result<(), AsmWhy>
    requires lie { EachLies (length line.now.text.now) parts.now }
    requires address { line.now.address ≤ 65536 }
    ensures { Gives (λ _. seen_built built.new) result
        (with_action action line.now.text.now symbols.now line.now.number line.now.address line.now.following
        (mapped (λ p. p.now) parts.now) (seen_built built.old)) }
{
    match action {
        Action::Instruction(mnemonic) => {
            let operands = Operands {
                line: line.text,
                symbols,
                next: line.address + 2,
                parts,
            };
            let instr = operands.instruction(mnemonic)?;
            put_instruction(alloc, built, line.number, line.address, instr)
        }
        Action::Directive(directive) => put_directive(
            alloc, built, directive, line, symbols, parts,
        ),
        _ => Ok(()),
    }
}

/// Puts out a line at its address.
#[tactic(auto, unfolding(crate::specs::Assembly::with_line))]
fn put_line(
    alloc: Global,
    built: &mut Built,
    line: &PlacedLine<'_>,
    symbols: &Symbols,
) -> Result<(), AsmWhy>
    requires short { length line.now.text.now < 2 ^ 32 - 1 }
    requires address { line.now.address ≤ 65536 }
    ensures { Gives (λ _. seen_built built.new) result
        (with_line line.now.text.now symbols.now line.now.number line.now.address line.now.following (seen_built built.old)) }
{
    let text = line.text;
    let tokens = content_of(alloc, text)?;
    let tokens = tokens.as_slice();
    let body = body_of(text.len(), tokens);
    let action = action_of(text, body);
    let arguments = arguments_of(text.len(), action, body);
    let parts = parts_of(alloc, text.len(), arguments)?;
    put_action(alloc, built, action, line, symbols, parts.as_slice())
}

/// The word address of the first instruction line from a line on, and 0 where there is none.
fn next_instruction(
    alloc: Global,
    lines: &[&[u8]],
    addresses: &[u32],
    from: usize,
) -> Result<u16, AsmWhy>
    requires short { EachShort lines.now }
    requires same { length addresses.now ≡ length lines.now }
    requires below { All (λ a. a ≤ 65536) addresses.now }
    ensures { MatchResult result (λ n. n ≡ following_address (drop from (mapped (λ line. line.now) lines.now))
        (drop from addresses.now)) (λ why. why ≡ AsmWhy.Memory) }
{
    for i in from..lines.len() {
        if is_instruction_line(alloc, lines[i])? {
            return Ok((addresses[i] / 2) as u16);
        }
    }
    Ok(0)
}

/// The word address that follows a line: it changes at instruction lines alone.
fn following_line(
    alloc: Global,
    lines: &[&[u8]],
    addresses: &[u32],
    i: usize,
    following: u16,
) -> Result<u16, AsmWhy>
    requires short { EachShort lines.now }
    requires same { length addresses.now ≡ length lines.now }
    requires below { All (λ a. a ≤ 65536) addresses.now }
    requires within { i < length lines.now }
    requires following { following ≡ following_address (drop i (mapped (λ line. line.now) lines.now)) (drop i addresses.now) }
    ensures { MatchResult result (λ n. n ≡ following_address (drop (i + 1) (mapped (λ line. line.now) lines.now))
        (drop (i + 1) addresses.now)) (λ why. why ≡ AsmWhy.Memory) }
{
    if is_instruction_line(alloc, lines[i])? {
        next_instruction(alloc, lines, addresses, i + 1)
    } else {
        Ok(following)
    }
}

/// Puts out lines at their addresses, the first of which has number 1, behind what is put out already.
fn put_each(
    alloc: Global,
    built: &mut Built,
    lines: &[&[u8]],
    addresses: &[u32],
    symbols: &Symbols,
) -> Result<(), AsmError>
    requires short { EachShort lines.now }
    requires few { length lines.now < 2 ^ 32 - 1 }
    requires same { length addresses.now ≡ length lines.now }
    requires below { All (λ a. a ≤ 65536) addresses.now }
    ensures built { GivesLayout (λ _. seen_built built.new) result
        (output_from 1 symbols.now (seen_built built.old) (mapped (λ line. line.now) lines.now) addresses.now) }
    ensures memory { IfErr result (λ e. e.why ≡ AsmWhy.Memory → e.line ≡ 0) }
{
    let mut following = match next_instruction(alloc, lines, addresses, 0) {
        Ok(following) => following,
        Err(why) => return Err(AsmError { line: 0, why }),
    };
    for (i, text) in lines.iter().enumerate() {
        match following_line(alloc, lines, addresses, i, following) {
            Ok(next) => following = next,
            Err(why) => return Err(AsmError { line: 0, why }),
        }
        let number = i as u32 + 1;
        let line = PlacedLine {
            text,
            number,
            address: addresses[i],
            following,
        };
        if let Err(why) = put_line(alloc, built, &line, symbols) {
            return Err(AsmError::in_line(number, why));
        }
    }
    Ok(())
}

/// Puts out all lines at their addresses, beside the cells that are taken.
fn put_lines(
    alloc: Global,
    lines: &[&[u8]],
    addresses: &[u32],
    symbols: &Symbols,
    taken: Image,
) -> Result<Built, AsmError>
    requires short { EachShort lines.now }
    requires few { length lines.now < 2 ^ 32 - 1 }
    requires same { length addresses.now ≡ length lines.now }
    requires below { All (λ a. a ≤ 65536) addresses.now }
    ensures built { GivesLayout seen_built result
        (output_from 1 symbols.now (over taken) (mapped (λ line. line.now) lines.now) addresses.now) }
    ensures flash { IfOk result (λ built. IsFlash built.image) }
    ensures memory { IfErr result (λ e. e.why ≡ AsmWhy.Memory → e.line ≡ 0) }
{
    let mut built = Built {
        image: taken,
        items: Vec::new(alloc),
        hints: Vec::new(alloc),
    };
    match put_each(alloc, &mut built, lines, addresses, symbols) {
        Ok(()) => {
            built.image.is_flash();
            Ok(built)
        }
        Err(error) => Err(error),
    }
}

/// Assembles a source where cells of the flash are taken already: the bytes of its lines go beside them, and the first
/// line one of whose bytes falls on a taken cell is refused with `Overlap`, as where an earlier line placed one.
pub fn assemble_over(alloc: Global, text: &[u8], taken: Image) -> Result<Built, AsmError>
    requires { length text.now < 2 ^ 32 - 1 }
    ensures built { GivesLayout seen_built result (assembly_over taken text.now) }
    ensures flash { IfOk result (λ built. IsFlash built.image) }
    ensures memory { IfErr result (λ e. e.why ≡ AsmWhy.Memory → e.line ≡ 0) }
{
    let lines = lines_of(alloc, text)?;
    let lines = lines.as_slice();
    let (addresses, symbols) = lay_out(alloc, lines)?;
    put_lines(alloc, lines, addresses.as_slice(), &symbols, taken)
}

/// Assembles a source as the definition in two passes says.
fn assemble_lines(alloc: Global, text: &[u8]) -> Result<Built, AsmError>
    requires { length text.now < 2 ^ 32 - 1 }
    ensures built { GivesLayout seen_built result (assembly text.now) }
    ensures flash { IfOk result (λ built. IsFlash built.image) }
    ensures memory { IfErr result (λ e. e.why ≡ AsmWhy.Memory → e.line ≡ 0) }
{
    let empty = Image::empty(alloc)?;
    assemble_over(alloc, text, empty)
}

/// Assembles a source: its image, its instruction lines and its hints, or its first fault.
///
/// A fault of addresses and names goes before those of operands and bytes; of such a kind the least line is named, and
/// of a line the fault that stands first in `AsmWhy`. Memory may come for any source, then with line 0.
pub fn assemble(alloc: Global, text: &[u8]) -> Result<Built, AsmError>
    requires { length text.now < 2 ^ 32 - 1 }
    ensures built { GivesLayout seen_built result (assembly text.now) }
    ensures memory { IfErr result (λ e. e.why ≡ AsmWhy.Memory → e.line ≡ 0) }

    // What stands in the image at each item's address is the item's instruction, and all of it lies in the flash.
    ensures decodes { IfOk result (λ built. All (IsDecoded built.image) built.items.items) }
    ensures in_flash { IfOk result (λ built. All IsInFlash built.items.items) }

    // Without the passes: each line's address, the symbols, the image, the items and the hints. Where some output is the
    // source's by this relation, it is what comes, unless memory runs out.
    ensures relation { IfOk result (λ built. IsAssembly text.now (seen_built built)) }
    ensures complete { (out : Output) → IsAssembly text.now out → GivesLayout seen_built result (Ok out) }

    // Refused exactly with the first fault: one of the first pass before those of the second, of the least line and number.
    ensures first { IfErr result (λ e. (e.why ≡ AsmWhy.Memory) ⊎ IsFirstFault text.now e.line e.why) }
    ensures faulty { (line : ℕ) (why : AsmWhy) → IsFirstFault text.now line why
        → GivesLayout seen_built result (Err (record { line = line; why = why })) }
{
    value_is_kept();
    name_gives_word_count();
    assemble_lines(alloc, text)
}
