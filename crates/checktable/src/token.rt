// The tokens of a case: pairs of hexadecimal digits, and how often these bytes stand.
ghost use Rattle.std.specs.Prelude.{◌≡◌, ◌++◌, OnOk};
ghost use Rattle.std.specs.Char.{is_ascii_digit, is_ascii_hexdigit, is_ascii_uppercase};
ghost use Rattle.std.specs.List.{list_any, list_all, repeat, slice_split};
ghost use Rattle.checktable.specs.Cases.{is_space, hex_bytes, count_of, token_bytes, tokens_bytes, file_bytes};
ghost use Rattle.checktable.specs.Gives.{Gives, Adds};

use crate::fault::CaseFault;
use reader::MAX_LEN;
use std::alloc::{AllocError, Global};

// One byte more than the longest file has.
const MOST: usize = MAX_LEN + 1;

fn has_capitals(text: &str) -> bool
    ensures { result ≡ list_any is_ascii_uppercase text.now }
{
    text.bytes().any(|byte| byte.is_ascii_uppercase())
}

// Whether a text has digits alone. It is asked before memory is taken for their bytes.
fn is_hex(text: &str) -> bool
    ensures { result ≡ list_all is_ascii_hexdigit text.now }
{
    text.bytes().all(|byte| byte.is_ascii_hexdigit())
}

// The bytes of pairs of digits, with lower case letters.
fn decoded(heap: Global, text: &str) -> Result<Vec<u8>, CaseFault>
    ensures { Gives (hex_bytes text.now) result }
{
    if has_capitals(text) {
        return Err(CaseFault::Malformed);
    }
    if !is_hex(text) {
        return Err(CaseFault::Malformed);
    }
    let mut bytes = vec![in heap; 0u8; text.len() / 2]?;
    hex::decode_to_slice(text, bytes.as_mut_slice()).map_err(|_| CaseFault::Malformed)?;
    Ok(bytes)
}

fn is_decimal(text: &str) -> bool
    ensures { result ≡ list_all is_ascii_digit text.now }
{
    text.bytes().all(|byte| byte.is_ascii_digit())
}

// How often a token's bytes stand.
fn count(text: &str) -> Option<usize>
    ensures { result ≡ count_of text.now }
{
    if !is_decimal(text) {
        return None;
    }
    let count = text.parse().ok()?;
    (1..=MOST).contains(&count).then_some(count)
}

// Adds these bytes so many times. A loop, since a `repeat` of its own would stand beside the file.
fn add(file: &mut Vec<u8>, bytes: &[u8], count: usize) -> Result<(), AllocError>
    ensures { OnOk result (file.new.items ≡ file.old.items ++ repeat count bytes.now) }
{
    for _done in 0..count {
        file.extend_from_slice(bytes)?;
    }
    Ok(())
}

// Adds the bytes of a token.
fn add_token(heap: Global, file: &mut Vec<u8>, text: &str) -> Result<(), CaseFault>
    ensures { Adds (token_bytes text.now) file.old.items result file.new.items }
{
    let (digits, count) = match text.split_once('*') {
        Some((digits, times)) => (digits, count(times).ok_or(CaseFault::Malformed)?),
        None => (text, 1),
    };
    if digits.is_empty() {
        return Err(CaseFault::Malformed);
    }
    let bytes = decoded(heap, digits)?;
    Ok(add(file, bytes.as_slice(), count)?)
}

// The bytes of tokens with a space between each two.
fn tokens(heap: Global, text: &str) -> Result<Vec<u8>, CaseFault>
    ensures { Gives (tokens_bytes (slice_split is_space text.now)) result }
{
    let mut file = Vec::new(heap);
    for part in text.split(' ') {
        add_token(heap, &mut file, part)?;
    }
    Ok(file)
}

// The file of a case: nothing, or tokens with a space before each.
pub(crate) fn file(heap: Global, text: &str) -> Result<Vec<u8>, CaseFault>
    ensures { Gives (file_bytes text.now) result }
{
    if text.is_empty() {
        return Ok(Vec::new(heap));
    }
    tokens(heap, text.strip_prefix(' ').ok_or(CaseFault::Malformed)?)
}
