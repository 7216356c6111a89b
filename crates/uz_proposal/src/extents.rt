//! The least and the greatest byte that is stored at each address of RAM.

ghost use Rattle.std.specs.Prelude.{◌≡◌, ◌<◌, ◌-◌, IfOk, length, replicate, slice_index_or, Some, None};
ghost use Rattle.uz_proposal.specs.Extents.{after_store, is_in_ram, with_byte};

use crate::stores::Stored;
use std::alloc::{AllocError, Global};
use uz_core::address::RAM_END;

/// The first data address of RAM (ATmega644 data sheet).
pub(crate) const RAM_BEGIN: u16 = 256;

/// The bytes of RAM.
const RAM_BYTES: usize = 4096;

/// The least and the greatest of some bytes.
#[derive(Clone, Copy)]
pub(crate) struct Extent {
    pub least: u8,
    pub greatest: u8,
}

/// The extent of one more byte.
fn include(value: u8, extent: Option<Extent>) -> Extent
    ensures { result ≡ with_byte value extent }
{
    match extent {
        None => Extent {
            least: value,
            greatest: value,
        },
        Some(extent) => Extent {
            least: if value < extent.least {
                value
            } else {
                extent.least
            },
            greatest: if extent.greatest < value {
                value
            } else {
                extent.greatest
            },
        },
    }
}

/// Whether a data address lies in RAM.
fn is_ram(at: u16) -> bool
    ensures { result ≡ is_in_ram at }
{
    RAM_BEGIN <= at && at <= RAM_END
}

/// No byte is stored at any address.
pub(crate) fn no_extents(alloc: Global) -> Result<Vec<Option<Extent>>, AllocError>
    ensures { IfOk result (λ extents. extents.items ≡ replicate 4096 None) }
{
    Ok(vec![in alloc; None; RAM_BYTES]?)
}

/// Adds a byte to the extents by address.
pub(crate) fn add_store(extents: &mut [Option<Extent>], store: Option<Stored>)
    requires { length extents.old ≡ 4096 }
    ensures { extents.new ≡ after_store extents.old store }
{
    if let Some(stored) = store {
        add_byte(extents, stored);
    }
}

fn add_byte(extents: &mut [Option<Extent>], stored: Stored)
    requires { length extents.old ≡ 4096 }
    ensures { extents.new ≡ after_store extents.old (Some stored) }
{
    if is_ram(stored.at) {
        let place = usize::from(stored.at - RAM_BEGIN);
        let old = extents[place];
        extents[place] = Some(include(stored.value, old));
    }
}
