//! What an ended search gives. Each function does nothing: its clauses are laws.

ghost use Rattle.std.specs.Prelude.{◌≡◌, ℕ};
ghost use Rattle.uz_schedule.specs.declared.states.Instance.{Instance};
ghost use Rattle.uz_search.specs.declared.found.Found.{Found};
ghost use Rattle.uz_search.specs.declared.program.Program.{Program};
ghost use Rattle.uz_search.specs.declared.returns.Return.{Return};
ghost use Rattle.uz_search.specs.Fitting.{ProgramFits, Stands};
ghost use Rattle.uz_search.specs.Following.{Among, Flash, Follows, ReturnsTo};
ghost use Rattle.uz_search.specs.Returning.{IsReturnOf, ReturnAt};
ghost use Rattle.uz_search.specs.Searching.{IsEnded};
ghost use Rattle.uz_search.specs.Trails.{OnTrail};

/// The instances of an ended search: each lies on a trail, what follows one is another, and each stands in the frame.
pub fn nodes_are_reached()
    ensures on_trail { (image : Flash) (p : Program) (s : Found) (x : Instance) → IsEnded image p s →
        Among s.nodes.keys x → OnTrail image p x }
    ensures closed { (image : Flash) (p : Program) (s : Found) (x y : Instance) → IsEnded image p s →
        Among s.nodes.keys x → Follows image p x y → Among s.nodes.keys y }
    ensures stand { (image : Flash) (p : Program) (s : Found) (x : Instance) → ProgramFits p → IsEnded image p s →
        Among s.nodes.keys x → Stands p x }
{}
