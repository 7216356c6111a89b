//! The instances that a search without room for more hands back.

ghost use Rattle.std.specs.Prelude.{◌≡◌, ◌<◌, ◌^◌, length, take};
ghost use Rattle.uz_search.specs.Refusing.{AreDistinct};

use indexmap::IndexSet;
use std::marker::Model;
use uz_schedule::Instance;

/// Distinct instances, in the order in which a search reached them, fewer than 2^32. In contracts their list.
#[derive(Drop)]
pub struct Instances {
    nodes: IndexSet<Instance>,
}

impl Model for Instances {
    ghost use Rattle.std.specs.Prelude.{◌<◌, ◌^◌, List, length};
    ghost use Rattle.uz_schedule.specs.declared.states.Instance.{Instance as OneInstance};

    ghost Value = { List OneInstance };

    ghost view = { λ i. i.nodes.keys };

    ghost invariant = { λ i. length i.nodes.keys < 2 ^ 32 };
}

impl Instances {
    /// The first of these, so many of them. None is copied.
    pub(crate) fn first(nodes: IndexSet<Instance>, count: u32) -> Self
        ensures first { result ≡ take count nodes.keys }
        ensures distinct { AreDistinct result }
    {
        let mut nodes = nodes;
        nodes.truncate(count as usize);
        Instances { nodes }
    }

    /// How many there are.
    pub fn len(&self) -> usize
        ensures { result ≡ length self.now }
    {
        self.nodes.len()
    }

    /// The instances, lent.
    pub fn as_slice(&self) -> &[Instance]
        ensures value { result.now ≡ self.now }
        ensures few { length self.now < 2 ^ 32 }
    {
        self.nodes.as_slice()
    }
}
