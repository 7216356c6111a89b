//! The slots in which turns are kept.

ghost use Rattle.std.specs.Prelude.{◌≡◌, ◌<◌, ◌≤◌, IfSome};
ghost use Rattle.std.specs.FinMap as map;

use std::marker::Model;

/// Turn numbers in slots 0 to 9. A clause sees a finite map from slots to turn numbers.
#[derive(Drop)]
pub(crate) struct Slots {
    turns: [Option<u32>; 10],
}

impl Model for Slots {
    ghost use Rattle.std.specs.Prelude.{◌≡◌, ℕ, All, length};
    ghost use Rattle.std.specs.Ordering.{nat_cmp};
    ghost use Rattle.std.specs.Coded.{coded_ℕ};
    ghost use Rattle.std.specs.FinMap as map;
    ghost use Rattle.uz_hex.specs.Cells.{present};
    ghost use Rattle.uz_debug.specs.SlotTurns.{HoldsTurn};

    ghost Value = { map.FinMap nat_cmp ℕ };

    ghost coded = { map.code coded_ℕ coded_ℕ };

    ghost view = { λ s. present 0 s.turns };

    ghost invariant = { λ s. All HoldsTurn s.turns };
}

impl Slots {
    /// All slots empty.
    #[tactic(auto, using(uz_hex::proofs::CellsLemmas::cells))]
    pub(crate) fn empty() -> Slots
        ensures { result ≡ map.empty }
    {
        Slots { turns: [None; 10] }
    }

    /// Keeps a turn number in a slot.
    #[tactic(auto, using(uz_hex::proofs::CellsLemmas::cells))]
    pub(crate) fn keep(&mut self, slot: u8, turn: u32)
        requires slot { slot < 10 }
        requires limit { turn ≤ 100000000 }
        ensures { self.new ≡ map.insert self.old slot turn }
    {
        self.turns[slot as usize] = Some(turn);
    }

    /// The turn number that a slot keeps.
    #[tactic(auto, using(uz_hex::proofs::CellsLemmas::cells))]
    pub(crate) fn turn(&self, slot: u8) -> Option<u32>
        requires { slot < 10 }
        ensures turn { result ≡ map.get self.now slot }
        ensures limit { IfSome result (λ turn. turn ≤ 100000000) }
    {
        self.turns[slot as usize]
    }
}
