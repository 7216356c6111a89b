//! The files that a run changed.

ghost use Rattle.std.specs.Prelude.{◌≡◌, ◌++◌, OnOk, option_map};
ghost use Rattle.uzebox_c.specs.Changes.{if_news, is_news, news_of};
ghost use Rattle.uzebox_c.specs.Held.{bytes_of, files_of, given_files};
ghost use Rattle.uzebox_c.specs.Packed.{as_texts, packed};

use crate::held::{Given, Held, bytes_under};
use crate::packed::put;
use std::alloc::AllocError;

/// The bytes of the first file of that name, as it was handed in.
fn given_under<'a>(given: &[Given<'a>], name: &[u8]) -> Option<&'a [u8]>
    ensures { option_map (λ bytes. bytes.now) result ≡ bytes_of (given_files given.now) name.now }
{
    for file in given {
        if name == file.name {
            return Some(file.bytes);
        }
    }
    None
}

/// Whether a file is the newest of its name, and isn't as it was handed in.
fn is_news(given: &[Given<'_>], newer: &[Held], file: &Held) -> bool
    ensures { result ≡ is_news (given_files given.now) (files_of newer.now) (file.now.name.items, file.now.bytes.items) }
{
    let name = file.name.as_slice();
    if bytes_under(newer, name).is_some() {
        return false;
    }
    match given_under(given, name) {
        Some(bytes) => bytes != file.bytes.as_slice(),
        None => true,
    }
}

/// Adds a file's name and its bytes, if it is news.
fn put_if_news(
    bytes: &mut Vec<u8>,
    given: &[Given<'_>],
    newer: &[Held],
    file: &Held,
) -> Result<(), AllocError>
    ensures { OnOk result (bytes.new.items ≡ bytes.old.items ++ packed (as_texts
        (if_news (given_files given.now) (files_of newer.now) (file.now.name.items, file.now.bytes.items)))) }
{
    if !is_news(given, newer, file) {
        return Ok(());
    }
    put(bytes, file.name.as_slice())?;
    put(bytes, file.bytes.as_slice())?;
    Ok(())
}

/// Adds the files that aren't as they were handed in.
pub(crate) fn put_news(
    bytes: &mut Vec<u8>,
    given: &[Given<'_>],
    files: &[Held],
) -> Result<(), AllocError>
    ensures { OnOk result (bytes.new.items ≡ bytes.old.items ++ packed (as_texts (news_of (given_files given.now) (files_of files.now)))) }
{
    for index in 0..files.len() {
        put_if_news(bytes, given, &files[..index], &files[index])?;
    }
    Ok(())
}
