//! What is told of a refusal.

ghost use Rattle.std.specs.Prelude.{◌≡◌, ◌++◌, IfOk, OnOk};
ghost use Rattle.uz_explanations.specs.Readings.{Reading, IsReading};
ghost use Rattle.uz_explanations.specs.Crowds.{crowds_text};
ghost use Rattle.uz_explanations.specs.Explanations.{explanation};

use crate::crowd_text;
use crate::ways::{add_way, add_ways};
use avr_asm::Labels;
use std::alloc::{AllocError, Global};
use uz_hex::Image;
use uz_search::{Instances, NotFound};

/// Adds the places with most instances of a search that is full.
fn add_full(alloc: Global, text: &mut Vec<u8>, instances: &Instances) -> Result<(), AllocError>
    ensures { OnOk result (text.new.items ≡ text.old.items ++ crowds_text instances.now) }
{
    let crowds = crowd_text(alloc, instances.as_slice())?;
    text.extend_from_slice(crowds.as_slice())?;
    Ok(())
}

/// Adds what is told of a refusal.
fn add_explanation(
    alloc: Global,
    text: &mut Vec<u8>,
    image: &Image,
    why: &NotFound,
    labels: &Labels,
) -> Result<(), AllocError>
    ensures { OnOk result ((read : Reading) → IsReading image.now read
        → text.new.items ≡ text.old.items ++ explanation image.now read labels.now why.now) }
{
    match why {
        NotFound::Stuck { trail, .. } => add_way(alloc, text, image, labels, trail.as_slice()),
        NotFound::Split { first, second } => add_ways(
            alloc,
            text,
            image,
            labels,
            first.as_slice(),
            second.as_slice(),
        ),
        NotFound::Full { instances } => add_full(alloc, text, instances),
        NotFound::Hint { .. } => Ok(()),
        NotFound::NoRest { .. } => Ok(()),
        NotFound::Memory => Ok(()),
    }
}

/// Why a search of this image finds no certificate, besides the line that names the refusal: of an instance that is refused the way to
/// it, of two trails that differ both ways, each from the last instance on that both share, of a search that is full the places with
/// most instances and what differs there (`uz_crowds`), and else nothing.
///
/// An instance is a line: its kind, and outside main its line of the frame and the clock of it; its program counter; the words and the
/// text of its instruction as a listing has them; and the nearest label at or before its byte address, with the bytes between. A stretch
/// of at most 64 instances whose program counters come again is one line. Behind the last instance stands what is known of what its
/// instruction reads, in the words of a certificate, and of both ways what it shows and at which clock. The one error is want of memory;
/// the time is linear in the trails' lengths.
pub fn explain(
    alloc: Global,
    image: &Image,
    why: &NotFound,
    labels: &Labels,
) -> Result<Vec<u8>, AllocError>
    ensures { IfOk result (λ text. (read : Reading) → IsReading image.now read
        → text.items ≡ explanation image.now read labels.now why.now) }
{
    let mut text = Vec::new(alloc);
    add_explanation(alloc, &mut text, image, why, labels)?;
    Ok(text)
}
