//! The trail to an instance.

ghost use Rattle.std.specs.Prelude.{◌≡◌, ◌<◌, ℕ, Some, IfOk, length, slice_get};
ghost use Rattle.uz_schedule.specs.declared.states.Instance.{Instance};
ghost use Rattle.uz_search.specs.declared.program.Program.{Program};
ghost use Rattle.uz_search.specs.Following.{Flash};
ghost use Rattle.uz_search.specs.Trails.{IsTrail, AreParents, ComeEarlier};

use std::alloc::{AllocError, Global};
use uz_schedule::{Instance, Sequence};
use uz_transfer::copied;

/// The node at a place.
pub(crate) fn node_at(nodes: &[Instance], at: usize) -> &Instance
    requires { at < length nodes.now }
    ensures { slice_get nodes.now at ≡ Some result.now }
{
    &nodes[at]
}

/// A copy of the node at a place.
fn copy_at(nodes: &[Instance], at: usize) -> Instance
    requires { at < length nodes.now }
    ensures { slice_get nodes.now at ≡ Some result }
{
    copied(&nodes[at])
}

/// The parent of the node at a place.
fn parent_at(parents: &[Option<u32>], at: usize) -> Option<u32>
    requires { at < length parents.now }
    ensures { slice_get parents.now at ≡ Some result }
{
    parents[at]
}

/// The instances from a start to the node of this number, which the parents tell.
pub(crate) fn trail_to(
    alloc: Global,
    nodes: &[Instance],
    parents: &[Option<u32>],
    node: u32,
) -> Result<Sequence<Instance>, AllocError>
    requires lengths { length parents.now ≡ length nodes.now }
    requires within { node < length nodes.now }
    requires earlier { ComeEarlier parents.now }
    ensures trail { IfOk result (λ trail. (image : Flash) (p : Program) (x : Instance) →
        AreParents image p nodes.now parents.now → slice_get nodes.now node ≡ Some x → IsTrail image p trail x) }
{
    let mut back = Vec::new(alloc);
    let mut at = node as usize;
    'climb: while let Some(parent) = parent_at(parents, at) {
        back.push(copy_at(nodes, at))?;
        at = parent as usize;
    }
    back.push(copy_at(nodes, at))?;
    back.reverse();
    Ok(Sequence::from_vec(back))
}
