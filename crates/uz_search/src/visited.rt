//! The instances that a search has reached, each once, and where each came from.

ghost use Rattle.std.specs.Prelude.{OnOk, Some, map};
ghost use Rattle.uz_search.specs.declared.program.Program.{Program};
ghost use Rattle.uz_search.specs.Following.{Flash};
ghost use Rattle.uz_search.specs.Visiting.{Adds, AddsAll, IsTree, ComeFrom};
ghost use Rattle.uz_search.specs.Widened.{widened};

use crate::program::{Program, widened_copy};
use crate::successors::Successors;
use indexmap::IndexSet;
use std::alloc::AllocError;
use uz_schedule::{Instance, equal_instances_are_one};

/// Adds an instance with its parent, unless it is there. Answers its place.
fn add(
    nodes: &mut IndexSet<Instance>,
    parents: &mut Vec<Option<u32>>,
    item: Instance,
    parent: Option<u32>,
) -> Result<usize, AllocError>
    ensures { OnOk result (Adds nodes.old.keys parents.old.items item parent nodes.new.keys parents.new.items) }
{
    equal_instances_are_one();
    let (place, added) = nodes.insert_full(item)?;
    if added {
        parents.push(parent)?;
    }
    Ok(place)
}

/// Adds each of these, which came from one parent or are starts.
pub(crate) fn add_all(
    nodes: &mut IndexSet<Instance>,
    parents: &mut Vec<Option<u32>>,
    items: Vec<Instance>,
    parent: Option<u32>,
) -> Result<(), AllocError>
    ensures { OnOk result ((image : Flash) (p : Program) →
        IsTree image p nodes.old.keys parents.old.items → ComeFrom image p nodes.old.keys parent items.items →
        AddsAll image p nodes.old.keys items.items nodes.new.keys parents.new.items) }
{
    'each: for item in items {
        add(nodes, parents, item, parent)?;
    }
    Ok(())
}

/// Adds each of these results of the instance of this number, loosened and widened by the facts of its program counter, and notes their
/// places. No list of them is made first: a search adds nearly all of its instances here.
pub(crate) fn add_widened(
    program: &Program,
    nodes: &mut IndexSet<Instance>,
    parents: &mut Vec<Option<u32>>,
    successors: &mut Successors,
    results: &[Instance],
    parent: u32,
) -> Result<(), AllocError>
    ensures { OnOk result ((image : Flash) (p : Program) →
        IsTree image p nodes.old.keys parents.old.items →
        ComeFrom image p nodes.old.keys (Some parent) (map (widened program.now) results.now) →
        AddsAll image p nodes.old.keys (map (widened program.now) results.now) nodes.new.keys parents.new.items) }
{
    'each: for at in results {
        let place = add(nodes, parents, widened_copy(program, at), Some(parent))?;
        successors.put(place)?;
    }
    Ok(())
}
