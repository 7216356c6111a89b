//! Which checkpoints stay.

ghost use Rattle.std.specs.Prelude.{◌<◌, ◌≤◌, All, IfSome, length, slice_index_or};
ghost use Rattle.uz_core.specs.PadLine.{PadHistory};
ghost use Rattle.uz_core.specs.Turn.{State};
ghost use Rattle.uz_debug.specs.Checkpoints.{IsCheckpointOf, turn_in};
ghost use Rattle.uz_debug.specs.declared.timeline.Checkpoint.{Checkpoint};

use crate::timeline::Checkpoint;

/// So many save states of one rank are kept, the latest ones.
const KEPT_OF_RANK: usize = 4;

/// Adds a save state, in place of the oldest of its rank where there are enough of them, and where memory is there for it.
pub(crate) fn add(saves: &mut Vec<Checkpoint>, kept: Checkpoint)
    ensures { (start : State PadHistory) → All (IsCheckpointOf start) saves.old.items → IsCheckpointOf start kept → All (IsCheckpointOf start) saves.new.items }
{
    make_room(saves, kept.rank());
    let _ = saves.push(kept); // without memory it isn't kept
}

/// Drops the oldest of a rank where there are enough of it.
fn make_room(saves: &mut Vec<Checkpoint>, rank: u32)
    ensures { (start : State PadHistory) → All (IsCheckpointOf start) saves.old.items → All (IsCheckpointOf start) saves.new.items }
{
    if let Some(at) = oldest(saves.as_slice(), rank) {
        let _ = saves.remove(at); // no longer needed
    }
}

/// The first of a rank where there are enough of it.
fn oldest(saves: &[Checkpoint], rank: u32) -> Option<usize>
    ensures { IfSome result (λ at. at < length saves.now) }
{
    let mut first = None;
    let mut count = 0;
    for (at, kept) in saves.iter().enumerate() {
        if kept.rank() == rank {
            if first.is_none() {
                first = Some(at);
            }
            count += 1;
        }
    }
    if count < KEPT_OF_RANK { None } else { first }
}

/// Whether a turn's state is kept.
pub(crate) fn is_kept(saves: &[Checkpoint], turn: u32) -> bool {
    saves.iter().any(|kept| kept.turn() == turn)
}

/// The place of the latest state that isn't behind a turn.
pub(crate) fn latest(saves: &[Checkpoint], target: u32) -> Option<usize>
    ensures { IfSome result (λ at. (at < length saves.now) × ((d : Checkpoint) → turn_in (slice_index_or saves.now at d) ≤ target)) }
{
    let mut found = None;
    let mut turn = 0;
    for (at, kept) in saves.iter().enumerate() {
        if kept.turn() <= target && kept.turn() >= turn {
            found = Some(at);
            turn = kept.turn();
        }
    }
    found
}
