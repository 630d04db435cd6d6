//! Parts of scripts, to be joined.

use planning::answering::answer;
use std::alloc::{AllocError, Global};

pub const N2: &[u8] = b"N\x02";

pub const L: &[u8] = b"L\0\0\0\xff\xff\xff\xff\xff";

pub const P10: &[u8] = b"P\x01\0\0\0\0\0\0\0\0\0\0\0\0\0\0\0";

pub const P01: &[u8] = b"P\x02\0\0\0\0\0\0\0\0\0\0\0\0\0\0\0";

pub const C0: &[u8] = b"C\0\0\0\0\0\0\0\0\x05";

pub const C1: &[u8] = b"C\x01\xff\xff\xff\xff\xff\xff\xff\xfd";

pub const S10: &[u8] = b"S\x01\0\0\0\0\0\0\0\0\0\0\0\0\0\0\0";

pub const Z: &[u8] = b"Z";

/// The parts, one after the other.
pub fn joined(heap: Global, parts: &[&[u8]]) -> Result<Vec<u8>, AllocError> {
    let mut script = Vec::new(heap);
    for part in parts {
        script.extend_from_slice(part)?;
    }
    Ok(script)
}

/// The number and the place of the E that a script is answered, if it is no plan.
pub fn refusal(script: &[u8]) -> Option<(u8, u32)> {
    let [_, number, a, b, c, d] = answer(script).err()?;
    Some((number, u32::from_be_bytes([a, b, c, d])))
}

/// The same for a script of parts.
pub fn refused(heap: Global, parts: &[&[u8]]) -> Result<Option<(u8, u32)>, AllocError> {
    let script = joined(heap, parts)?;
    Ok(refusal(script.as_slice()))
}
