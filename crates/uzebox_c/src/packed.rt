//! Texts in one row of bytes, each behind its length.

ghost use Rattle.std.specs.Prelude.{◌≡◌, ◌<◌, ◌+◌, ◌^◌, ◌++◌, ℕ, List, IfNone, IfOk, IfSome, IsErrOf, OnOk, length, map, string_bytes};
ghost use Rattle.uzebox_c.specs.Held.{given_files};
ghost use Rattle.uzebox_c.specs.Packed.{AreFiles, AreWords, NamedFile, field};

use crate::held::Given;
use crate::refusal::Refusal;
use std::alloc::{AllocError, Global};

/// The first text, and what comes after it.
fn cut(bytes: &[u8]) -> Option<(&[u8], &[u8])>
    ensures cut { IfSome result (λ parts. bytes.now ≡ field parts.0.now ++ parts.1.now) }
    ensures fits { IfSome result (λ parts. length parts.0.now + length parts.1.now < 2 ^ 64) }
    ensures none { IfNone result ((text rest : List ℕ) → bytes.now ≡ field text ++ rest → ⊥) }
{
    let Some((head, rest)) = bytes.split_first_chunk::<8>() else {
        return None;
    };
    let length = u64::from_le_bytes(*head) as usize;
    if rest.len() < length {
        return None;
    }
    Some(rest.split_at(length))
}

/// The words that the bytes hold.
pub(crate) fn read_words(alloc: Global, bytes: &[u8]) -> Result<Vec<String>, Refusal>
    ensures words { IfOk result (λ words. AreWords bytes.now (map string_bytes words.items)) }
    ensures malformed { IsErrOf result Refusal.Malformed → (words : List (List ℕ)) → AreWords bytes.now words → ⊥ }
{
    let mut words = Vec::new(alloc);
    let mut rest = bytes;
    while !rest.is_empty() {
        let Some((word, more)) = cut(rest) else {
            return Err(Refusal::Malformed);
        };
        let Ok(word) = std::str::from_utf8(word) else {
            return Err(Refusal::Malformed);
        };
        words.push(String::from_str(alloc, word)?)?;
        rest = more;
    }
    Ok(words)
}

/// The first file, and what comes after it.
fn cut_file(bytes: &[u8]) -> Option<(Given<'_>, &[u8])>
    ensures cut { IfSome result (λ parts. bytes.now ≡ field parts.0.name.now ++ (field parts.0.bytes.now ++ parts.1.now)) }
    ensures name_fits { IfSome result (λ parts. length parts.0.name.now + length (field parts.0.bytes.now ++ parts.1.now) < 2 ^ 64) }
    ensures bytes_fit { IfSome result (λ parts. length parts.0.bytes.now + length parts.1.now < 2 ^ 64) }
    ensures none { IfNone result ((name text rest : List ℕ) → bytes.now ≡ field name ++ (field text ++ rest) → ⊥) }
{
    let (name, more) = cut(bytes)?;
    let (text, more) = cut(more)?;
    Some((Given { name, bytes: text }, more))
}

/// The files that the bytes hold.
pub(crate) fn read_files(alloc: Global, bytes: &[u8]) -> Result<Vec<Given<'_>>, Refusal>
    ensures files { IfOk result (λ files. AreFiles bytes.now (given_files files.items)) }
    ensures malformed { IsErrOf result Refusal.Malformed → (files : List NamedFile) → AreFiles bytes.now files → ⊥ }
{
    let mut files = Vec::new(alloc);
    let mut rest = bytes;
    while !rest.is_empty() {
        let Some((file, more)) = cut_file(rest) else {
            return Err(Refusal::Malformed);
        };
        files.push(file)?;
        rest = more;
    }
    Ok(files)
}

/// Adds a text.
pub(crate) fn put(bytes: &mut Vec<u8>, text: &[u8]) -> Result<(), AllocError>
    ensures { OnOk result (bytes.new.items ≡ bytes.old.items ++ field text.now) }
{
    bytes.extend_from_slice(&(text.len() as u64).to_le_bytes())?;
    bytes.extend_from_slice(text)?;
    Ok(())
}
