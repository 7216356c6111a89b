//! `demo NUMBER`, up to its run.

ghost use Rattle.std.specs.Prelude.{◌≡◌, ◌<◌, ◌^◌, IfOk, length};
ghost use Rattle.avr_asm.specs.Assembly.{seen_built};
ghost use Rattle.uz_certificate_commands.specs.DemoCommand.{Assembles};
ghost use Rattle.uz_certificate_commands.specs.DemoValues.{IsPrepared, IsSearched, IsStart};
ghost use Rattle.uz_schedule.specs.WellFormed.{WellFormed};

use crate::search_lines::not_found_line;
use crate::verdict_lines::accepted_line;
use avr_asm::{Built, assemble};
use std::alloc::{AllocError, Global};
use uz_console::{Console, reset_is_in_range};
use uz_demo::demo_source;
use uz_hex::Image;
use uz_paths::{NotFound, find};
use uz_schedule::{Cert, Response};

/// What a demo begins with.
#[derive(Drop)]
pub(crate) enum Start {
    /// A certificate is found: a console at reset, the certificate, and the line of its frame.
    Ready {
        console: Console,
        cert: Cert,
        line: Vec<u8>,
    },
    /// None is found, and this line ends the command.
    Refusal {
        line: Vec<u8>,
    },
}

/// The assembled source of a demo. That each of these sources has an assembly isn't proved: where one had none, the
/// answer would be want of memory.
#[tactic(auto, using(uz_files::proofs::HintCount::few_hints))]
fn assemble_demo(alloc: Global, number: u16) -> Result<Built, AllocError>
    ensures assembles { IfOk result (λ built. Assembles number (seen_built built)) }
    ensures few { IfOk result (λ built. length built.hints.items < 2 ^ 32) }
{
    let text = demo_source(alloc, number)?;
    match assemble(alloc, text.as_slice()) {
        Ok(built) => Ok(built),
        Err(_) => Err(AllocError),
    }
}

/// Resets a console with an image, and makes the line of its certificate.
fn reset_demo(alloc: Global, image: Image, cert: Cert) -> Result<Start, AllocError>
    requires { WellFormed cert }
    ensures { IfOk result (IsPrepared image cert) }
{
    image.is_flash();
    reset_is_in_range();
    let line = match accepted_line(alloc, &cert) {
        Ok(line) => line,
        Err(error) => {
            drop(image);
            drop(cert);
            return Err(error);
        }
    };
    match Console::reset(alloc, image, Vec::new(alloc), Response::Four) {
        Ok(console) => Ok(Start::Ready {
            console,
            cert,
            line,
        }),
        Err(error) => {
            drop(cert);
            Err(error)
        }
    }
}

/// Searches for a certificate of an assembled source.
fn search(alloc: Global, built: Built) -> Result<Start, AllocError>
    requires { length built.hints.items < 2 ^ 32 }
    ensures { IfOk result (IsSearched built.image built.hints.items) }
{
    match find(alloc, &built.image, built.hints.as_slice(), Response::Four) {
        Ok(cert) => reset_demo(alloc, built.image, cert),
        Err(NotFound::Memory) => {
            drop(built);
            Err(AllocError)
        }
        Err(why) => {
            let line = not_found_line(alloc, &why);
            drop(why);
            drop(built);
            Ok(Start::Refusal { line: line? })
        }
    }
}

/// Makes the source of a demo, assembles it, and searches for its certificate.
pub(crate) fn start_demo(alloc: Global, number: u16) -> Result<Start, AllocError>
    ensures { IfOk result (IsStart number) }
{
    let built = assemble_demo(alloc, number)?;
    search(alloc, built)
}
