//! Where the blocks of one kind end, read from the last line back: the innermost block that ends further on is closed by
//! the next line that opens one.

ghost use Rattle.std.specs.Prelude.{◌≡◌, ◌+◌, ◌<◌, ◌≤◌, true, false, IfOk, IfSome, length, nat_lt, reverse, slice_get};
ghost use Rattle.std.specs.Option.{option_copied, option_map};
ghost use Rattle.std.specs.List.Sorted.{IsNonDecreasingBy, IsPartitionPoint};
ghost use Rattle.avr_macro.specs.AtSigns.{filled, line_in};
ghost use Rattle.avr_macro.specs.Directives.{directive_of as directive_of_line};
ghost use Rattle.avr_macro.specs.Ends.{blocks_before as blocks_before_line, blocks_from, closing_at};
ghost use Rattle.avr_macro.specs.Ends.{closing_here, closing_within, open_before as open_before_line, open_from};
ghost use Rattle.avr_macro.specs.Ends.{part_within, parted as parted_in};

use crate::arguments::Substitution;
use crate::directives::{Word, directive_of, same_word};
use crate::kept_lines::Lines;
use crate::readers::directive_in_call;
use std::alloc::{AllocError, Global};

/// Where a block ends.
#[derive(Clone, Copy)]
pub(crate) struct Closing {
    /// The line that closes it.
    pub end: usize,
    /// The first `.else` that lies in no further block of its kind.
    pub part: Option<usize>,
}

/// A block that is closed.
#[derive(Clone, Copy)]
pub(crate) struct Block {
    /// The line at which it begins.
    pub line: usize,
    pub closing: Closing,
}

/// An `.else` of the innermost block.
fn parted(pending: Vec<Closing>, at: usize) -> Result<Vec<Closing>, AllocError>
    ensures { IfOk result (λ more. reverse more.items ≡ parted_in at (reverse pending.items)) }
{
    let mut pending = pending;
    if let Some(closing) = pending.pop() {
        pending.push(Closing {
            end: closing.end,
            part: Some(at),
        })?;
    }
    Ok(pending)
}

/// The ends of the blocks that are open before a line, the innermost last.
fn open_before(
    pending: Vec<Closing>,
    word: Word,
    opens: Word,
    closes: Word,
    at: usize,
) -> Result<Vec<Closing>, AllocError>
    ensures { IfOk result (λ more. reverse more.items ≡ open_before_line word opens closes at (reverse pending.items)) }
{
    let mut pending = pending;
    if same_word(word, opens) {
        let _closing = pending.pop();
        Ok(pending)
    } else if same_word(word, closes) {
        pending.push(Closing {
            end: at,
            part: None,
        })?;
        Ok(pending)
    } else if same_word(word, Word::Else) {
        parted(pending, at)
    } else {
        Ok(pending)
    }
}

/// The blocks from a line on, the first one last.
fn blocks_before(
    blocks: Vec<Block>,
    pending: &[Closing],
    word: Word,
    opens: Word,
    at: usize,
) -> Result<Vec<Block>, AllocError>
    ensures { IfOk result (λ more. reverse more.items ≡ blocks_before_line word opens at (reverse pending.now) (reverse blocks.items)) }
{
    let mut blocks = blocks;
    if let [.., closing] = pending
        && same_word(word, opens)
    {
        blocks.push(Block {
            line: at,
            closing: *closing,
        })?;
    }
    Ok(blocks)
}

/// Which directive a line is, in a call or as it is.
fn word_of_line(
    alloc: Global,
    substitution: Option<&Substitution>,
    line: &[u8],
) -> Result<Word, AllocError>
    ensures { IfOk result (λ word. word ≡ directive_of_line (line_in (option_copied substitution.entry) line.now)) }
{
    match substitution {
        Some(substitution) => directive_in_call(alloc, substitution, line),
        None => Ok(directive_of(line)),
    }
}

/// The blocks of lines, in a call or as they are, that begin with one word and end with another, by their first lines.
pub(crate) fn blocks_of(
    alloc: Global,
    lines: &Lines,
    substitution: Option<&Substitution>,
    opens: Word,
    closes: Word,
) -> Result<Vec<Block>, AllocError>
    ensures { IfOk result (λ blocks. blocks.items
        ≡ blocks_from opens closes 0 (filled (option_copied substitution.entry) lines.now)) }
{
    let mut pending = Vec::new(alloc);
    let mut blocks = Vec::new(alloc);
    let mut n = lines.count();
    while n > 0 {
        n -= 1;
        let word = word_of_line(alloc, substitution, lines.line(n))?;
        blocks = blocks_before(blocks, pending.as_slice(), word, opens, n)?;
        pending = open_before(pending, word, opens, closes, n)?;
    }
    blocks.reverse();
    Ok(blocks)
}

/// The place of the first block that begins at a line or after it, found by halving.
fn first_from(blocks: &[Block], line: usize) -> usize
    requires { IsNonDecreasingBy (λ b. b.line) blocks.now }
    ensures bound { result ≤ length blocks.now }
    ensures place { IsPartitionPoint (λ b. nat_lt b.line line ≡ true) (λ b. nat_lt b.line line ≡ false) blocks.now result }
{
    blocks.partition_point(|b| b.line < line)
}

/// Where the block ends that stands at this place of a list, where it begins at this line.
fn closing_at_place(blocks: &[Block], place: usize, line: usize) -> Option<Closing>
    ensures { result ≡ closing_here line (slice_get blocks.now place) }
{
    match blocks.get(place) {
        Some(block) if block.line == line => Some(block.closing),
        _ => None,
    }
}

/// Where the block ends that begins at a line.
pub(crate) fn closing_of(blocks: &[Block], line: usize) -> Option<Closing>
    requires { IsNonDecreasingBy (λ b. b.line) blocks.now }
    ensures { result ≡ closing_at line blocks.now }
{
    let place = first_from(blocks, line);
    closing_at_place(blocks, place, line)
}

/// How many lines stand from a place on before an `.else`.
fn part_after(part: Option<usize>, start: usize) -> Option<usize>
    ensures { result ≡ part_within start part }
{
    match part {
        Some(part) if part >= start => Some(part - start),
        _ => None,
    }
}

/// How many lines stand from a place on before the end of a block and before its `.else`, where it ends before another
/// place.
pub(crate) fn closing_after(closing: Option<Closing>, start: usize, end: usize) -> Option<Closing>
    ensures { result ≡ closing_within start end closing }
{
    match closing {
        Some(closing) if closing.end >= start && closing.end < end => Some(Closing {
            end: closing.end - start,
            part: part_after(closing.part, start),
        }),
        _ => None,
    }
}

/// How many lines stand before the end of a block.
pub(crate) fn end_of(closing: Option<Closing>) -> Option<usize>
    ensures { result ≡ option_map (λ c. c.end) closing }
{
    match closing {
        Some(closing) => Some(closing.end),
        None => None,
    }
}
