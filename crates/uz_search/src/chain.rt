//! The facts of one place at one program counter, kept so that the first one that a range lies in is soon found.

ghost use Rattle.std.specs.Prelude.{◌≡◌, ◌<◌, ◌≤◌, [], ◌∷◌, length, OnOk};
ghost use Rattle.uz_schedule.specs.Ends.{is_within as lies_within};
ghost use Rattle.uz_search.specs.Places.{folded};
ghost use Rattle.uz_search.specs.Chains.{IsChain, IsNode, is_passed, ranges_below};

use std::alloc::{AllocError, Global};
use std::marker::Model;
use uz_schedule::Wide;

/// A fact, and what is known of a block of facts that it is the first of.
#[derive(Clone, Copy)]
pub(crate) struct Node {
    /// The range of the fact.
    range: Wide,
    /// What a range that lies in it becomes, by this fact and all after it.
    end: Wide,
    /// How many facts come after the block.
    rest: usize,
    /// The least lower end in the block.
    least: u16,
    /// The greatest upper end in the block.
    greatest: u16,
    /// The greatest distance of two ends in the block.
    longest: u16,
}

/// The ranges of facts, in their order. A range becomes the first of them that it lies in, then the first later one that this
/// one lies in, and so on; with each fact stands what comes of that in the end, so only the first is looked for. The facts are
/// kept in blocks of 1, 3, 7, 15 and so on, a block being a fact and two blocks of half the size, and a block is passed over
/// where its ends tell that no fact in it has the range. Where the ends tell it of each such block, a search meets some four
/// facts for each doubling of their number. The worst case is all facts: those with ends far apart and ranges short, in no
/// order.
#[derive(Drop)]
pub(crate) struct Chain {
    /// The facts, the last one first.
    nodes: Vec<Node>,
}

impl Model for Chain {
    ghost use Rattle.std.specs.Prelude.{List, length};
    ghost use Rattle.uz_schedule.specs.Ends.{Ends, ends_code};
    ghost use Rattle.std.specs.Coded.{coded_list};

    ghost Value = { List Ends };

    ghost coded = { coded_list ends_code };

    ghost use Rattle.uz_search.specs.Chains.{IsChain, ranges_below};

    ghost view = { λ c. ranges_below (length c.nodes.items) c.nodes.items };

    ghost invariant = { λ c. IsChain c.nodes.items };
}

/// Whether a range lies in another.
fn is_within(a: Wide, b: Wide) -> bool
    ensures { result ≡ lies_within a b }
{
    b.lo() <= a.lo() && a.hi() <= b.hi()
}

/// Whether the ends of a block tell that no fact in it has this range.
fn passes(node: &Node, range: Wide) -> bool
    ensures { result ≡ is_passed node.now range }
{
    range.lo() < node.least || node.greatest < range.hi() || node.longest < range.hi() - range.lo()
}

/// What a range becomes by the facts.
fn end_of(nodes: &[Node], range: Wide) -> Wide
    requires { IsChain nodes.now }
    ensures { result ≡ folded (ranges_below (length nodes.now) nodes.now) range }
{
    let mut left = nodes.len();
    'each: while left > 0 {
        let node = nodes[left - 1];
        if passes(&node, range) {
            left = node.rest;
        } else if is_within(range, node.range) {
            return node.end;
        } else {
            left -= 1;
        }
    }
    range
}

/// A fact before others, as a block of its own.
fn alone(nodes: &[Node], range: Wide) -> Node
    requires { IsChain nodes.now }
    ensures node { IsNode nodes.now (length nodes.now) result }
    ensures range { result.range ≡ range }
{
    let least = range.lo();
    let greatest = range.hi();
    let end = end_of(nodes, range);
    Node {
        range,
        end,
        rest: nodes.len(),
        least,
        greatest,
        longest: greatest - least,
    }
}

/// A block before others, with the next block taken into it where there is one.
fn with_next(nodes: &[Node], node: Node) -> Node
    requires chain { IsChain nodes.now }
    requires node { IsNode nodes.now (length nodes.now) node }
    ensures node { IsNode nodes.now (length nodes.now) result }
    ensures range { result.range ≡ node.range }
{
    if node.rest == 0 || node.rest > nodes.len() {
        return node;
    }
    let next = nodes[node.rest - 1];
    Node {
        range: node.range,
        end: node.end,
        rest: next.rest,
        least: node.least.min(next.least),
        greatest: node.greatest.max(next.greatest),
        longest: node.longest.max(next.longest),
    }
}

/// Whether the first two blocks are of one size.
fn begins_with_twins(nodes: &[Node]) -> bool {
    match nodes.last() {
        Some(first) => match nodes.get(first.rest.wrapping_sub(1)) {
            Some(second) => {
                nodes.len().saturating_sub(first.rest) == first.rest.saturating_sub(second.rest)
            }
            None => false,
        },
        None => false,
    }
}

/// The first block where a fact is put before others: with the first two where these are of one size.
fn first_block(nodes: &[Node], range: Wide) -> Node
    requires { IsChain nodes.now }
    ensures node { IsNode nodes.now (length nodes.now) result }
    ensures range { result.range ≡ range }
{
    let fact = alone(nodes, range);
    if begins_with_twins(nodes) {
        let two = with_next(nodes, fact);
        with_next(nodes, two)
    } else {
        fact
    }
}

impl Chain {
    /// No fact.
    pub(crate) fn new(alloc: Global) -> Self
        ensures { result ≡ [] }
    {
        Chain {
            nodes: Vec::new(alloc),
        }
    }

    /// Puts a fact before all others.
    pub(crate) fn put_first(&mut self, range: Wide) -> Result<(), AllocError>
        ensures { OnOk result (self.new ≡ range ∷ self.old) }
    {
        let node = first_block(self.nodes.as_slice(), range);
        self.nodes.push(node)?;
        Ok(())
    }

    /// What a range becomes by the facts.
    pub(crate) fn end(&self, range: Wide) -> Wide
        ensures { result ≡ folded self.now range }
    {
        end_of(self.nodes.as_slice(), range)
    }
}
