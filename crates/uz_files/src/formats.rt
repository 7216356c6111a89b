//! The formats of the files that several commands read.

use crate::format::Format;
use crate::loading::{CERTIFICATE_LIMIT, TEXT_LIMIT};
use crate::text_fault::TextFault;
use avr_asm::{AsmError, AsmWhy, Built, assemble};
use std::alloc::Global;
use uz_cert::{Cert, CertError, CertWhy, read_cert, read_cert_1};
use uz_hex::{HexError, HexWhy, Image, read_hex};
use uz_pads::{Pad, PadError, PadWhy, read_pads};

/// Source text of the assembler.
pub struct Source;

impl Format for Source {
    ghost use Rattle.std.specs.Prelude.{◌<◌, ◌^◌, length};
    ghost use Rattle.avr_asm.specs.Assembly.{seen_built};
    ghost use Rattle.avr_asm.specs.Relation.{IsAssembly};
    ghost use Rattle.uz_files.specs.Formats.{RefusesSource};
    ghost use Rattle.uz_files.specs.Reading.{text_limit};

    type Value = Built;

    const LIMIT: u32 = TEXT_LIMIT;

    ghost LIMIT = { text_limit };

    ghost spells = { λ text built. IsAssembly text (seen_built built) };

    ghost refuses = { RefusesSource };

    ghost formed = { λ built. length built.hints.items < 2 ^ 32 };

    fn read(alloc: Global, text: &[u8]) -> Result<Built, TextFault> {
        match assemble(alloc, text) {
            Ok(built) => Ok(built),
            Err(
                AsmError {
                    why: AsmWhy::Memory,
                    ..
                },
            ) => Err(TextFault::Memory),
            Err(AsmError { line, why }) => Err(TextFault::At {
                line,
                why: why.name(),
            }),
        }
    }
}

/// Intel HEX.
pub struct HexText;

impl Format for HexText {
    ghost use Rattle.uz_hex.specs.HexText.{IsHexOf};
    ghost use Rattle.uz_files.specs.Formats.{RefusesHex};
    ghost use Rattle.uz_files.specs.Reading.{text_limit};

    type Value = Image;

    const LIMIT: u32 = TEXT_LIMIT;

    ghost LIMIT = { text_limit };

    ghost spells = { IsHexOf };

    ghost refuses = { RefusesHex };

    ghost formed = { λ _. Unit {0} };

    fn read(alloc: Global, text: &[u8]) -> Result<Image, TextFault> {
        match read_hex(alloc, text) {
            Ok(image) => Ok(image),
            Err(
                HexError {
                    why: HexWhy::Memory,
                    ..
                },
            ) => Err(TextFault::Memory),
            Err(HexError { line, why }) => Err(TextFault::At {
                line,
                why: why.name(),
            }),
        }
    }
}

/// The text of a certificate in version 2 or 3.
pub struct CertificateText;

impl Format for CertificateText {
    ghost use Rattle.uz_schedule.specs.WellFormed.{WellFormed};
    ghost use Rattle.uz_files.specs.Formats.{RefusesCertificate, SpellsCertificate};
    ghost use Rattle.uz_files.specs.Reading.{certificate_limit};

    type Value = Cert;

    const LIMIT: u32 = CERTIFICATE_LIMIT;

    ghost LIMIT = { certificate_limit };

    ghost spells = { SpellsCertificate };

    ghost refuses = { RefusesCertificate };

    ghost formed = { WellFormed };

    fn read(alloc: Global, text: &[u8]) -> Result<Cert, TextFault> {
        match read_cert(alloc, text) {
            Ok(certificate) => Ok(certificate),
            Err(
                CertError {
                    why: CertWhy::Memory,
                    ..
                },
            ) => Err(TextFault::Memory),
            Err(CertError { line, why }) => Err(TextFault::At {
                line,
                why: why.name(),
            }),
        }
    }
}

/// The text of a certificate in version 1.
pub struct OldCertificateText;

impl Format for OldCertificateText {
    ghost use Rattle.uz_schedule.specs.WellFormed.{WellFormed};
    ghost use Rattle.uz_files.specs.Formats.{RefusesOldCertificate, SpellsOldCertificate};
    ghost use Rattle.uz_files.specs.Reading.{certificate_limit};

    type Value = Cert;

    const LIMIT: u32 = CERTIFICATE_LIMIT;

    ghost LIMIT = { certificate_limit };

    ghost spells = { SpellsOldCertificate };

    ghost refuses = { RefusesOldCertificate };

    ghost formed = { WellFormed };

    fn read(alloc: Global, text: &[u8]) -> Result<Cert, TextFault> {
        match read_cert_1(alloc, text) {
            Ok(certificate) => Ok(certificate),
            Err(
                CertError {
                    why: CertWhy::Memory,
                    ..
                },
            ) => Err(TextFault::Memory),
            Err(CertError { line, why }) => Err(TextFault::At {
                line,
                why: why.name(),
            }),
        }
    }
}

/// Pairs of pad words.
pub struct PadWords;

impl Format for PadWords {
    ghost use Rattle.uz_files.specs.Formats.{RefusesPads, SpellsPads};
    ghost use Rattle.uz_files.specs.Reading.{text_limit};

    type Value = Vec<Pad>;

    const LIMIT: u32 = TEXT_LIMIT;

    ghost LIMIT = { text_limit };

    ghost spells = { λ text pads. SpellsPads text pads.items };

    ghost refuses = { RefusesPads };

    ghost formed = { λ _. Unit {0} };

    fn read(alloc: Global, text: &[u8]) -> Result<Vec<Pad>, TextFault> {
        match read_pads(alloc, text) {
            Ok(pads) => Ok(pads),
            Err(
                PadError {
                    why: PadWhy::Memory,
                    ..
                },
            ) => Err(TextFault::Memory),
            Err(PadError { line, why }) => Err(TextFault::At {
                line,
                why: why.name(),
            }),
        }
    }
}
