//! Labels in order of their addresses.

ghost use Rattle.std.specs.Prelude.{◌≡◌, ◌≤◌, true, false, [], IfOk, nat_lt, length};
ghost use Rattle.std.specs.List.Sorted.{IsNonDecreasingBy, IsPartitionPoint};
ghost use Rattle.std.specs.Option.{option_copied};
ghost use Rattle.avr_asm.specs.Labels.{by_address, nearest as nearest_label};

use std::alloc::{AllocError, Global};
use std::marker::Model;
use uz_schedule::Sequence;

/// A label of a source.
#[derive(Drop)]
pub struct Label {
    /// Its name, as the source writes it.
    pub name: Sequence<u8>,
    /// The byte address of its line, at most 65,536.
    pub address: u32,
}

/// The labels of a source in order of their addresses, those of one address in the order of its lines.
///
/// A clause sees the list of labels.
#[derive(Drop)]
pub struct Labels {
    labels: Vec<Label>,
}

impl Model for Labels {
    ghost use Rattle.std.specs.Prelude.{List};
    ghost use Rattle.std.specs.List.Sorted.{IsNonDecreasingBy};
    ghost use Rattle.avr_asm.specs.declared.labels.Label.{Label};

    ghost Value = { List Label };

    ghost view = { λ l. l.labels.items };

    ghost invariant = { λ l. IsNonDecreasingBy (λ label. label.address) l.labels.items };
}

/// The place of the first label whose address isn't below this one, found by halving.
fn first_from(labels: &[Label], address: u64) -> usize
    requires { IsNonDecreasingBy (λ l. l.address) labels.now }
    ensures bound { result ≤ length labels.now }
    ensures place { IsPartitionPoint (λ l. nat_lt l.address address ≡ true) (λ l. nat_lt l.address address ≡ false) labels.now result }
{
    labels.partition_point(|l| u64::from(l.address) < address)
}

/// The nearest label, found by halving.
fn nearest_of(labels: &[Label], address: u32) -> Option<&Label>
    requires { IsNonDecreasingBy (λ l. l.address) labels.now }
    ensures { option_copied result ≡ nearest_label address labels.now }
{
    let after = first_from(labels, u64::from(address) + 1);
    if after == 0 {
        return None;
    }
    let greatest = labels[after - 1].address;
    labels.get(first_from(labels, u64::from(greatest)))
}

/// Sorts labels by their addresses.
fn sorted(labels: Vec<Label>) -> Result<Vec<Label>, AllocError>
    ensures order { IfOk result (λ sorted. sorted.items ≡ by_address labels.items) }
    ensures rising { IfOk result (λ sorted. IsNonDecreasingBy (λ l. l.address) sorted.items) }
{
    let mut labels = labels;
    labels.sort_by_key(|l| l.address)?;
    Ok(labels)
}

impl Labels {
    /// No label.
    pub(crate) fn none(alloc: Global) -> Labels
        ensures { result ≡ [] }
    {
        Labels {
            labels: Vec::new(alloc),
        }
    }

    /// Labels in any order, sorted.
    pub(crate) fn of(labels: Vec<Label>) -> Result<Labels, AllocError>
        ensures { IfOk result (λ sorted. sorted ≡ by_address labels.items) }
    {
        let labels = sorted(labels)?;
        Ok(Labels { labels })
    }

    /// Of the labels at or before a byte address one with the greatest address, and of those of one address the first of
    /// the source; None exactly if there is none at or before it. Found by halving.
    pub fn nearest(&self, address: u32) -> Option<&Label>
        ensures { option_copied result ≡ nearest_label address self.now }
    {
        nearest_of(self.labels.as_slice(), address)
    }

    /// The labels, lent.
    pub fn as_slice(&self) -> &[Label]
        ensures { result.now ≡ self.now }
    {
        self.labels.as_slice()
    }
}
