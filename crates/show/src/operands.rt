//! The parts of operands. A reader's operands are whole; zeros stand in for what one might lack.

ghost use Rattle.std.specs.Prelude.{◌≡◌, ◌<◌, ◌≤◌, length, MatchOption, slice_index};

use commands::numbers::number;
use rows::packed::Packed;
use rows::points::{LARGEST_DIMENSION, mark_at as byte};

/// The number from an index on.
pub fn number_from(operand: &[u8], i: usize) -> u64 {
    number(&operand[i.min(operand.len())..])
}

/// The signed number of eight bytes from an index on.
pub fn signed_from(operand: &[u8], i: usize) -> i64 {
    number_from(operand, i).cast_signed()
}

/// The signed number of the byte at an index.
pub fn signed_byte(operand: &[u8], i: usize) -> i8 {
    byte(operand, i).cast_signed()
}

/// The number of four bytes from an index on.
pub fn units_from(operand: &[u8], i: usize) -> u32 {
    u32::try_from(number_from(operand, i)).unwrap_or(u32::MAX)
}

/// The dimension that an operand gives, unless it is above 128.
pub fn dimension(operand: &[u8]) -> Option<usize>
    ensures { MatchOption result (128 < slice_index operand.now 0) (λ n. (n ≡ slice_index operand.now 0) × (n ≤ 128)) }
{
    let n = usize::from(byte(operand, 0));
    (n <= LARGEST_DIMENSION).then_some(n)
}

/// The packed point of an operand.
pub fn packed(operand: &[u8]) -> Packed
    ensures { length operand.now ≡ 16 → result ≡ operand.now }
{
    <&Packed>::try_from(operand).copied().unwrap_or([0; 16])
}
