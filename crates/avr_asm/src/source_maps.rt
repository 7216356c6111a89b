//! Where the labels of a source lie, and which lines its hints stand on.

ghost use Rattle.std.specs.Prelude.{◌≡◌, ◌<◌, ◌-◌, ◌^◌, ◌++◌, IfOk, MatchResult, OnOk, length, map as mapped};
ghost use Rattle.avr_asm.specs.Layout.{EachShort, layout_of};
ghost use Rattle.avr_asm.specs.Lines.{lines_of as lines_of_text};
ghost use Rattle.avr_asm.specs.SourceMap.{line_label, placed_labels as placed_labels_of, labels_by};
ghost use Rattle.avr_asm.specs.SourceMap.{labels_of as labels_of_text, hint_lines_of as hint_lines_of_text};
ghost use Rattle.avr_asm.specs.SourceMap.{is_hint_directive as is_directive_of_hint, is_hint_line as is_line_of_hint};
ghost use Rattle.avr_asm.specs.SourceMap.{hint_lines_from};

use crate::directives::Directive;
use crate::errors::AsmError;
use crate::labels::{Label, Labels};
use crate::layout::lay_out;
use crate::lines::{Action, action_of, body_of, content_of, label_of, lines_of};
use avr_text::AsmWhy;
use std::alloc::{AllocError, Global};
use uz_schedule::Sequence;

/// Where the labels of a source lie, and which lines its hints stand on.
#[derive(Drop)]
pub struct SourceMap {
    /// The labels.
    pub labels: Labels,
    /// The line of each hint, counted from 1, in the order of the hints.
    pub hint_lines: Vec<u32>,
}

/// Puts the label of a line behind others.
#[tactic(auto, unfolding(crate::specs::SourceMap::line_label))]
fn put_label(
    alloc: Global,
    labels: &mut Vec<Label>,
    line: &[u8],
    address: u32,
) -> Result<(), AllocError>
    requires { length line.now < 2 ^ 32 - 1 }
    ensures { OnOk result (labels.new.items ≡ labels.old.items ++ line_label address line.now) }
{
    match content_of(alloc, line) {
        Err(AsmWhy::Memory) => Err(AllocError),
        Err(_) => Ok(()),
        Ok(tokens) => {
            if let Some(name) = label_of(line, tokens.as_slice()) {
                let name = Sequence::from_vec(Vec::from_slice(alloc, name)?);
                labels.push(Label { name, address })?;
            }
            Ok(())
        }
    }
}

/// The labels of lines at their addresses, in the order of the lines.
fn placed_labels(
    alloc: Global,
    lines: &[&[u8]],
    addresses: &[u32],
) -> Result<Vec<Label>, AllocError>
    requires short { EachShort lines.now }
    requires same { length addresses.now ≡ length lines.now }
    ensures { IfOk result (λ labels. labels.items ≡ placed_labels_of (mapped (λ line. line.now) lines.now) addresses.now) }
{
    let mut labels = Vec::new(alloc);
    for (i, line) in lines.iter().enumerate() {
        put_label(alloc, &mut labels, line, addresses[i])?;
    }
    Ok(labels)
}

/// The labels of lines, sorted.
fn labels_of(alloc: Global, lines: &[&[u8]]) -> Result<Labels, AllocError>
    requires short { EachShort lines.now }
    requires few { length lines.now < 2 ^ 32 - 1 }
    ensures { IfOk result (λ labels. labels ≡ labels_by (mapped (λ line. line.now) lines.now)
        (layout_of (mapped (λ line. line.now) lines.now))) }
{
    match lay_out(alloc, lines) {
        Ok((addresses, _)) => Labels::of(placed_labels(alloc, lines, addresses.as_slice())?),
        Err(
            AsmError {
                why: AsmWhy::Memory,
                ..
            },
        ) => Err(AllocError),
        Err(_) => Ok(Labels::none(alloc)),
    }
}

/// Whether a directive is a hint.
fn is_hint_directive(directive: Directive) -> bool
    ensures { result ≡ is_directive_of_hint directive }
{
    match directive {
        Directive::Org | Directive::Db | Directive::Dw | Directive::Equ => false,
        _ => true,
    }
}

/// Whether a line is a hint's.
#[tactic(auto, unfolding(crate::specs::SourceMap::is_hint_line))]
fn is_hint_line(alloc: Global, line: &[u8]) -> Result<bool, AllocError>
    requires { length line.now < 2 ^ 32 - 1 }
    ensures { IfOk result (λ is. is ≡ is_line_of_hint line.now) }
{
    match content_of(alloc, line) {
        Err(AsmWhy::Memory) => Err(AllocError),
        Err(_) => Ok(false),
        Ok(tokens) => {
            let tokens = tokens.as_slice();
            match action_of(line, body_of(line.len(), tokens)) {
                Action::Directive(directive) => Ok(is_hint_directive(directive)),
                _ => Ok(false),
            }
        }
    }
}

/// The numbers of the lines that are a hint's, counted from 1.
fn hint_lines_of(alloc: Global, lines: &[&[u8]]) -> Result<Vec<u32>, AllocError>
    requires short { EachShort lines.now }
    requires few { length lines.now < 2 ^ 32 - 1 }
    ensures { IfOk result (λ numbers. numbers.items ≡ hint_lines_from 1 (mapped (λ line. line.now) lines.now)) }
{
    let mut numbers = Vec::new(alloc);
    for (i, line) in lines.iter().enumerate() {
        if is_hint_line(alloc, line)? {
            numbers.push(i as u32 + 1)?;
        }
    }
    Ok(numbers)
}

/// Where the labels of a source lie, and which lines its hints stand on. A source that has a fault of addresses and names has no
/// labels.
pub fn source_map(alloc: Global, text: &[u8]) -> Result<SourceMap, AllocError>
    requires { length text.now < 2 ^ 32 - 1 }
    ensures labels { IfOk result (λ map. map.labels ≡ labels_of_text text.now) }
    ensures hint_lines { IfOk result (λ map. map.hint_lines.items ≡ hint_lines_of_text text.now) }
{
    let lines = lines_of(alloc, text)?;
    let lines = lines.as_slice();
    let labels = labels_of(alloc, lines)?;
    let hint_lines = hint_lines_of(alloc, lines)?;
    Ok(SourceMap { labels, hint_lines })
}
