//! What a search finds, and why it finds nothing.

use crate::instances::Instances;
use crate::marks::Mark;
use crate::returns::Return;
use crate::successors::Successors;
use indexmap::IndexSet;
use std::alloc::AllocError;
use uz_schedule::{Instance, Sequence};
use uz_transfer::Fail;

/// Why no certificate is found.
#[derive(Drop)]
pub enum NotFound {
    /// The trail's last instance can't be certified, for this reason.
    Stuck {
        trail: Sequence<Instance>,
        why: Fail,
    },
    /// The last instances of two trails return on one line at different clocks or with different cells, or pass one position of
    /// the frame and show otherwise there.
    Split {
        first: Sequence<Instance>,
        second: Sequence<Instance>,
    },
    /// These distinct instances lie on trails, as many as the search's limit.
    Full {
        instances: Instances,
    },
    /// The hint of this index, counted from 0, is at fault; or with the number of hints one is missing. Never an answer of `search`.
    Hint {
        index: u32,
    },
    /// So many instances lie on trails from a start in main, and the handler never returns.
    NoRest {
        count: u32,
    },
    /// Memory ran out.
    Memory,
}

impl From<AllocError> for NotFound {
    ghost use Rattle.std.specs.Prelude.{◌≡◌};
    ghost use Rattle.uz_search.specs.declared.found.NotFound.TheVariants.{Memory};

    ghost from_gives = { λ _ e. e ≡ Memory };

    fn from(_: AllocError) -> Self {
        NotFound::Memory
    }
}

/// What a search has found so far.
#[derive(Drop)]
pub struct Found {
    /// The instances that lie on trails, each once, in the order in which they came.
    pub nodes: IndexSet<Instance>,
    /// Of each instance the number of the one that it follows, None of a start.
    pub parents: Vec<Option<u32>>,
    /// By position what is shown there. Each line has as many positions as the longest one has clocks.
    pub marks: Vec<Mark>,
    /// By line where the handler returns.
    pub returns: Vec<Option<Return>>,
    /// Where each instance leads: a choice of speed, of which nothing is said.
    pub successors: Successors,
}
