//! `dis HEX`.

ghost use Rattle.std.specs.Prelude.{◌≡◌, ◌≤◌, ◌⊎◌};
ghost use Rattle.uz_shelf.specs.Faults.{Rose};
ghost use Rattle.uz_files.specs.Answers.{NoPart, MayCome, outside};
ghost use Rattle.uz_program_commands.specs.DisCommand.{DisAnswers};
ghost use Rattle.uz_files.specs.Endings.{Gives};

use avr_dis::listing;
use std::alloc::Global;
use uz_files::{Ending, Failure, HexText, Status, finish, read_file};
use uz_shelf::{Shelf, Sink};

/// Reads the file, and lists its image.
fn list_file<H: Shelf>(alloc: Global, shelf: &mut H, hex: &str) -> Result<Ending, Failure>
    ensures gives { Gives (DisAnswers (H.files shelf.old) (Rose (H.load_faults shelf.old) (H.load_faults shelf.new)) hex.now) result }
    ensures files { H.files shelf.new ≡ H.files shelf.old }
    ensures load_faults { H.load_faults shelf.old ≤ H.load_faults shelf.new }
    ensures write_faults { H.write_faults shelf.new ≡ H.write_faults shelf.old }
{
    let image = read_file::<HexText, H>(alloc, shelf, hex)?;
    Ok(Ending {
        status: Status::Done,
        line: listing(alloc, &image)?,
    })
}

/// `dis HEX`.
pub fn run_dis<H: Shelf, K: Sink>(alloc: Global, hex: &str, shelf: &mut H, out: &mut K) -> Status
    ensures outcome { MayCome (DisAnswers (H.files shelf.old) (Rose (H.load_faults shelf.old) (H.load_faults shelf.new)) hex.now) NoPart
        (Rose (H.write_faults shelf.old) (H.write_faults shelf.new) ⊎ Rose (K.faults out.old) (K.faults out.new))
        result (outside (H.files shelf.old) (K.text out.old)) (outside (H.files shelf.new) (K.text out.new)) }
    ensures files { H.files shelf.new ≡ H.files shelf.old }
    ensures faults { K.faults out.old ≤ K.faults out.new }
{
    let listed = list_file(alloc, shelf, hex);
    finish(alloc, out, listed)
}
