//! The law of the formats.

ghost use Rattle.uz_files.specs.Formats.{Readings};

use avr_asm::{assembly_is_unique, source_or_fault};
use uz_cert::text_or_fault;
use uz_hex::hex_or_fault;
use uz_pads::reading_is_unique;

/// The law that a text of each format spells one thing or has one first fault, and never both. Does nothing.
pub fn readings_are_unique()
    ensures { Readings }
{
    assembly_is_unique();
    source_or_fault();
    hex_or_fault();
    text_or_fault();
    reading_is_unique();
}
