//! Laws of the abstract step, as functions that do nothing.

ghost use Rattle.uz_rules.specs.Example.{SomeInstructionBegins};
ghost use Rattle.uz_rules.specs.Inside.{PlaceTells, PlaceHolds, KnownInItself, InsideKeeps, StateInside, RestoredGives};
ghost use Rattle.uz_rules.specs.Limits.{LimitsGive};
ghost use Rattle.uz_rules.specs.Local.{OneLocal};
ghost use Rattle.uz_rules.specs.Successors.{LiesInPoint};
ghost use Rattle.uz_rules.specs.OneStep.{AloneContained, HandlerContained, MainContained};
ghost use Rattle.uz_rules.specs.NarrowingMeets.{NarrowingMeets};
ghost use Rattle.uz_rules.specs.CoverMeets.{CoverMeets};
ghost use Rattle.uz_rules.specs.Versions.{VersionTwoStays};

/// The law that the machine's step from a state that meets an instance which is alone lies in the abstract step. Does nothing.
pub fn alone_contained()
    ensures { AloneContained }
{}

/// The same of a handler's instance, which may write OCR1A. Does nothing.
pub fn handler_contained()
    ensures { HandlerContained }
{}

/// The same of an instance of main, where no interrupt is taken now. Does nothing.
pub fn main_contained()
    ensures { MainContained }
{}

/// The law that a core which meets an instance, and has a flag set or clear, meets what is left of it. Does nothing.
pub fn narrowing_meets()
    ensures { NarrowingMeets }
{}

/// The law that a state which meets a result that passes meets one that lies in an instance of a named successor: with its own value of
/// the register of a cover. Does nothing.
pub fn cover_meets()
    ensures { CoverMeets }
{}

/// The law that by the rules of version 2 no step tells of a comparison. Does nothing.
pub fn version_two_stays()
    ensures { VersionTwoStays }
{}

/// The law that containment isn't about nothing: of a flash that begins with NOP the state at reset meets an instance, whatever the
/// lines. Does nothing.
pub fn some_stand()
    ensures { SomeInstructionBegins }
{}

/// The law that instances which the test finds at one place have one kind, pc, line, clock, pending match and top. Does nothing.
pub fn place_tells()
    ensures { PlaceTells }
{}

/// The law that the test finds instances at one place that have these. Does nothing.
pub fn place_holds()
    ensures { PlaceHolds }
{}

/// The law that what is known in an instance lies in itself. Does nothing.
pub fn known_in_itself()
    ensures { KnownInItself }
{}

/// The law that a core and a memory that meet an instance meet each in which it lies. Does nothing.
pub fn inside_keeps()
    ensures { InsideKeeps }
{}

/// The law that a state which meets an instance meets each in which it lies, but for the level of sync. Does nothing.
pub fn state_inside()
    ensures { StateInside }
{}

/// The law that a core which meets a restored instance has the interrupted registers and flags. Does nothing.
pub fn restored_gives()
    ensures { RestoredGives }
{}

/// The law that the local rule has one answer. Does nothing.
pub fn local_is_unique()
    ensures { OneLocal }
{}

/// The law that an instance which the test finds in a point lies in an instance of it. Does nothing.
pub fn lies_in_point_tells()
    ensures { LiesInPoint }
{}

/// The law that a certificate's limits and orders give what containment takes of its header and instances. Does nothing.
pub fn limits_give()
    ensures { LimitsGive }
{}
