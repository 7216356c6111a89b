//! The commands behind one call.

ghost use Rattle.std.specs.Prelude.{◌≤◌, ◌≡◌, ◌⊎◌, IfSome, Option};
ghost use Rattle.uz_shelf.specs.Faults.{Rose};
ghost use Rattle.uz_shelf.specs.Files.{FileMap};
ghost use Rattle.uz_files.specs.Answers.{AndTells, ComesOf, LoadFault, MayCome, WriteFault, one_line, outside};
ghost use Rattle.uz_top.specs.CommandValues.{value_of};
ghost use Rattle.uz_top.specs.Commands.{Answers, Certifies, CreatesNone, IsDecided, LacksRead, PartAnswers, StopTells, Succeeds};
ghost use Rattle.uz_top.specs.Topics.{usage_line};
ghost use Rattle.uz_top.specs.Words.{AreNoCommand, IfCommand, WritesApart};

use crate::command::{Command, parse};
use crate::usage_line;
use avr_macro::expansion_is_unique;
use std::alloc::Global;
use uz_certificate_commands::{
    CertifiedRun, Check, Report, Timing, reading_is_unique, run_certify, run_demo, run_find,
    run_migrate, run_on_pair, run_play, run_why,
};
use uz_files::{Status, end_done, end_fault, put_no_memory, readings_are_unique};
use uz_program_commands::{
    RunInput, run_asm, run_build, run_debug, run_dis, run_expand, run_hints, run_trace, run_wave,
};
use uz_shelf::{Shelf, Sink};

/// Prints the usage line.
fn end_usage<K: Sink>(alloc: Global, out: &mut K) -> Status
    ensures status { (result ≡ Status.Usage) ⊎ (result ≡ Status.NoMemory) }
    ensures comes { (files : Option FileMap) → ComesOf (one_line Status.Usage usage_line) (Rose (K.faults out.old) (K.faults out.new))
        result (outside files (K.text out.old)) (outside files (K.text out.new)) }
    ensures faults { K.faults out.old ≤ K.faults out.new }
{
    end_fault(alloc, out, Status::Usage, usage_line().as_bytes())
}

/// Runs a command.
fn run<H: Shelf, K: Sink>(
    alloc: Global,
    command: &Command<'_>,
    shelf: &mut H,
    out: &mut K,
) -> Status
    ensures outcome { MayCome (Answers (H.files shelf.old) (Rose (H.load_faults shelf.old) (H.load_faults shelf.new))
        (value_of command.now)) (PartAnswers (H.files shelf.old) (value_of command.now))
        (Rose (H.write_faults shelf.old) (H.write_faults shelf.new) ⊎ Rose (K.faults out.old) (K.faults out.new))
        result (outside (H.files shelf.old) (K.text out.old)) (outside (H.files shelf.new) (K.text out.new)) }
    ensures certified { result ≡ Status.Done → WritesApart (value_of command.now)
        → Certifies (H.files shelf.old) (H.files shelf.new) (value_of command.now) }
    ensures halted { result ≡ Status.Stopped → StopTells (H.files shelf.old) (value_of command.now) }
    ensures untouched { CreatesNone (value_of command.now) → H.files shelf.new ≡ H.files shelf.old }
    ensures faults { K.faults out.old ≤ K.faults out.new }
{
    match *command {
        Command::Check { hex, cert } => run_on_pair::<Check, H, K>(alloc, hex, cert, shelf, out),
        Command::Dis { hex } => run_dis(alloc, hex, shelf, out),
        Command::Asm { source, hex } => run_asm(alloc, source, hex, shelf, out),
        Command::Trace {
            hex,
            pads,
            irq,
            clocks,
        } => {
            let input = RunInput {
                hex,
                pads,
                irq,
                clocks,
            };
            run_trace(alloc, &input, shelf, out)
        }
        Command::Expand { source, flat } => run_expand(alloc, source, flat, shelf, out),
        Command::Build { source, hex } => run_build(alloc, source, hex, shelf, out),
        Command::Play {
            hex,
            cert,
            pads,
            clocks,
            frames,
        } => {
            let run = CertifiedRun {
                hex,
                cert,
                pads,
                clocks,
            };
            run_play(alloc, &run, frames, shelf, out)
        }
        Command::Debug {
            hex,
            pads,
            irq,
            script,
        } => run_debug(alloc, hex, pads, irq, script, shelf, out),
        Command::Certify {
            source,
            irq,
            hex,
            cert,
        } => run_certify(alloc, source, irq, hex, cert, shelf, out),
        Command::Demo { number } => run_demo(alloc, number, out),
        Command::Migrate { older, newer } => run_migrate(alloc, older, newer, shelf, out),
        Command::Report { hex, cert } => run_on_pair::<Report, H, K>(alloc, hex, cert, shelf, out),
        Command::Timing { hex, cert } => run_on_pair::<Timing, H, K>(alloc, hex, cert, shelf, out),
        Command::Wave {
            hex,
            pads,
            irq,
            clocks,
            wav,
        } => {
            let input = RunInput {
                hex,
                pads,
                irq,
                clocks,
            };
            run_wave(alloc, &input, wav, shelf, out)
        }
        Command::Prints { text } => end_done(alloc, out, text.as_bytes()),
        Command::Find {
            hex,
            hints,
            irq,
            cert,
        } => run_find(alloc, hex, hints, irq, cert, shelf, out),
        Command::Hints {
            hex,
            pads,
            irq,
            clocks,
            hints,
        } => {
            let input = RunInput {
                hex,
                pads,
                irq,
                clocks,
            };
            run_hints(alloc, &input, hints, shelf, out)
        }
        Command::Why { hex, hints, irq } => run_why(alloc, hex, hints, irq, shelf, out),
    }
}

/// Runs the command that the words are. The line that tells want of memory is the caller's.
fn answer<H: Shelf, K: Sink>(alloc: Global, words: &[String], shelf: &mut H, out: &mut K) -> Status
    ensures usage { result ≡ Status.Usage → AreNoCommand words.now }
    ensures no_command { AreNoCommand words.now → (result ≡ Status.Usage) ⊎ (result ≡ Status.NoMemory) }
    ensures usage_line { AreNoCommand words.now → ComesOf (one_line Status.Usage usage_line) (Rose (K.faults out.old) (K.faults out.new))
        result (outside (H.files shelf.old) (K.text out.old)) (outside (H.files shelf.new) (K.text out.new)) }
    ensures usage_files { AreNoCommand words.now → H.files shelf.new ≡ H.files shelf.old }
    ensures answered { IfCommand words.now (λ c.
        MayCome (Answers (H.files shelf.old) (LoadFault (H.load_faults shelf.old) (H.load_faults shelf.new)) c)
        (PartAnswers (H.files shelf.old) c)
        (WriteFault (H.write_faults shelf.old) (H.write_faults shelf.new) (K.faults out.old) (K.faults out.new))
        result (outside (H.files shelf.old) (K.text out.old)) (outside (H.files shelf.new) (K.text out.new))) }
    ensures exact { IfCommand words.now (λ c. IfSome (H.files shelf.old) (λ files.
        (result ≡ Status.NoMemory)
        ⊎ (LoadFault (H.load_faults shelf.old) (H.load_faults shelf.new)
        ⊎ (((result ≡ Status.Unwritten) × WriteFault (H.write_faults shelf.old) (H.write_faults shelf.new)
        (K.faults out.old) (K.faults out.new))
        ⊎ IsDecided (H.files shelf.old) (WriteFault (H.write_faults shelf.old) (H.write_faults shelf.new)
        (K.faults out.old) (K.faults out.new)) c
        result (outside (H.files shelf.old) (K.text out.old)) (outside (H.files shelf.new) (K.text out.new)))))) }
    ensures unread { result ≡ Status.Unread → IfCommand words.now (λ c.
        LoadFault (H.load_faults shelf.old) (H.load_faults shelf.new) ⊎ LacksRead (H.files shelf.old) c) }
    ensures unwritten { result ≡ Status.Unwritten →
        WriteFault (H.write_faults shelf.old) (H.write_faults shelf.new) (K.faults out.old) (K.faults out.new) }
    ensures complete { IfCommand words.now (λ c. IfSome (H.files shelf.old) (λ files.
        Succeeds (H.files shelf.old) c
        → (LoadFault (H.load_faults shelf.old) (H.load_faults shelf.new) → ⊥)
        → (WriteFault (H.write_faults shelf.old) (H.write_faults shelf.new) (K.faults out.old) (K.faults out.new) → ⊥)
        → (result ≡ Status.Done) ⊎ (result ≡ Status.NoMemory))) }
    ensures certified { result ≡ Status.Done → IfCommand words.now (Certifies (H.files shelf.old) (H.files shelf.new)) }
    ensures halted { result ≡ Status.Stopped → IfCommand words.now (StopTells (H.files shelf.old)) }
    ensures untouched { IfCommand words.now (λ c. CreatesNone c → H.files shelf.new ≡ H.files shelf.old) }
    ensures faults { K.faults out.old ≤ K.faults out.new }
{
    expansion_is_unique();
    readings_are_unique();
    reading_is_unique();
    match parse(words) {
        Some(command) => run(alloc, &command, shelf, out),
        None => end_usage(alloc, out),
    }
}

/// Runs the command that the words are, without the program's name, over a shelf of files and a sink of
/// printed text.
///
/// The words are decided first. Then each file that is read is loaded and read, in the order of the words,
/// one before the next; then comes the command's work, and then each write in its turn.
pub fn uzebox<H: Shelf, K: Sink>(
    alloc: Global,
    words: &[String],
    shelf: &mut H,
    out: &mut K,
) -> Status
    // The words are no command exactly where the status is Usage, unless memory is lacking. Then the usage line is printed: whole,
    // unless the sink's count of faults rose or memory was lacking.
    ensures usage { result ≡ Status.Usage → AreNoCommand words.now }
    ensures no_command { AreNoCommand words.now → (result ≡ Status.Usage) ⊎ (result ≡ Status.NoMemory) }
    ensures usage_line { AreNoCommand words.now → AndTells (ComesOf (one_line Status.Usage usage_line) (Rose (K.faults out.old) (K.faults out.new))
        result (outside (H.files shelf.old) (K.text out.old))) result (Rose (K.faults out.old) (K.faults out.new) ⊎ K.may_lack)
        (outside (H.files shelf.new) (K.text out.new)) }
    ensures usage_files { AreNoCommand words.now → H.files shelf.new ≡ H.files shelf.old }

    // The status, what was printed and what was written come of an answer that the words and the loaded bytes give. Where memory was
    // lacking, the line that says so is printed last: whole, unless the sink's count of faults rose, or the sink lacked memory for it.
    ensures answered { IfCommand words.now (λ c. AndTells
        (MayCome (Answers (H.files shelf.old) (LoadFault (H.load_faults shelf.old) (H.load_faults shelf.new)) c)
        (PartAnswers (H.files shelf.old) c)
        (WriteFault (H.write_faults shelf.old) (H.write_faults shelf.new) (K.faults out.old) (K.faults out.new))
        result (outside (H.files shelf.old) (K.text out.old))) result (Rose (K.faults out.old) (K.faults out.new) ⊎ K.may_lack)
        (outside (H.files shelf.new) (K.text out.new))) }

    // Where the shelf tells its files, they alone decide the answer, for `certify`, `find`, `why` and `demo` with what the search answered,
    // for `hints` with what is proposed: unless memory is lacking or a fault came.
    ensures exact { IfCommand words.now (λ c. IfSome (H.files shelf.old) (λ files.
        (result ≡ Status.NoMemory)
        ⊎ (LoadFault (H.load_faults shelf.old) (H.load_faults shelf.new)
        ⊎ (((result ≡ Status.Unwritten) × WriteFault (H.write_faults shelf.old) (H.write_faults shelf.new)
        (K.faults out.old) (K.faults out.new))
        ⊎ IsDecided (H.files shelf.old) (WriteFault (H.write_faults shelf.old) (H.write_faults shelf.new)
        (K.faults out.old) (K.faults out.new)) c
        result (outside (H.files shelf.old) (K.text out.old)) (outside (H.files shelf.new) (K.text out.new)))))) }

    // When each fault from outside comes.
    ensures unread { result ≡ Status.Unread → IfCommand words.now (λ c.
        LoadFault (H.load_faults shelf.old) (H.load_faults shelf.new) ⊎ LacksRead (H.files shelf.old) c) }
    ensures unwritten { result ≡ Status.Unwritten →
        WriteFault (H.write_faults shelf.old) (H.write_faults shelf.new) (K.faults out.old) (K.faults out.new) }

    // Where the files are told and all is well with them, and no fault came, the command is done unless memory is lacking; of `hints`
    // nothing is said here, for which hints there are is a choice.
    ensures complete { IfCommand words.now (λ c. IfSome (H.files shelf.old) (λ files.
        Succeeds (H.files shelf.old) c
        → (LoadFault (H.load_faults shelf.old) (H.load_faults shelf.new) → ⊥)
        → (WriteFault (H.write_faults shelf.old) (H.write_faults shelf.new) (K.faults out.old) (K.faults out.new) → ⊥)
        → (result ≡ Status.Done) ⊎ (result ≡ Status.NoMemory))) }

    // What a command that is done is worth: after `asm` and `build` the written file is Intel HEX of the image that the source
    // assembles to, after `migrate` it is a text of the very certificate that was read; `check` and `timing` certify the image and
    // the certificate that their files spell, `certify` those that the written files spell, `find` the image that is read and the
    // certificate that is written, and after `why` there is one to the image that is read; after `report` the clocks that are printed
    // are those that main has; after `wave` the written file is the sound of the run; after `hints` it is a source of hints that the
    // assembler takes, and for which it puts out no byte; and a run that is played, by `play` or
    // `demo`, keeps to the schedule once a state of it has entered. One that is stopped never entered.
    ensures certified { result ≡ Status.Done → IfCommand words.now (Certifies (H.files shelf.old) (H.files shelf.new)) }
    ensures halted { result ≡ Status.Stopped → IfCommand words.now (StopTells (H.files shelf.old)) }
    ensures untouched { IfCommand words.now (λ c. CreatesNone c → H.files shelf.new ≡ H.files shelf.old) }
{
    match answer(alloc, words, shelf, out) {
        Status::NoMemory => {
            put_no_memory(alloc, out);
            Status::NoMemory
        }
        status => status,
    }
}
