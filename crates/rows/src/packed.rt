ghost use Rattle.std.specs.Prelude.{◌≡◌, ℕ, ◌<◌, ◌≤◌, length, MatchOption, slice_index};
ghost use Rattle.rows.specs.Points.{Point};
ghost use Rattle.rows.specs.Packed.{bit_at, unpacked, digit, byte_of, packed, ClearFrom, StrayBit};

use crate::points::{LARGEST_DIMENSION, mark_at};

/// A packed point: coordinate i is the bit of value 2^(i mod 8) in byte i div 8.
pub type Packed = [u8; 16];

/// The bit of a coordinate, 0 beyond the packed point's end.
fn bit_at(bytes: &Packed, i: usize) -> u8
    ensures { result ≡ bit_at bytes.now i }
{
    match bytes.get(i / 8) {
        Some(byte) => (byte >> (i % 8)) % 2,
        None => 0,
    }
}

/// A mark as a binary digit.
fn digit(mark: u8) -> u8
    ensures { result ≡ digit mark }
{
    u8::from(mark != 0)
}

/// One byte of a packed point: eight coordinates, the lowest bit first.
fn byte_of(row: &[u8], byte: usize) -> u8
    requires { byte < 16 }
    ensures { result ≡ byte_of row.now byte }
{
    // by places: an iterator is no plainer, since a row that ends within the byte would first be filled up with zeros
    let mut sum = 0u8;
    for j in (0..8).rev() {
        sum = 2 * sum + digit(mark_at(row, 8 * byte + j));
    }
    sum
}

/// A row of marks packed. Any byte but 0 is a one, and coordinates from 128 on are left out.
pub fn pack(row: &[u8]) -> Packed
    ensures is { result ≡ packed row.now }
    ensures inverse { (n : ℕ) → n ≤ 128 → Point n row.now → unpacked n result ≡ row.now }
{
    let mut bytes = [0u8; 16];
    for (b, byte) in bytes.iter_mut().enumerate() {
        *byte = byte_of(row, b);
    }
    bytes
}

/// The coordinates of a packed point, as many as the row has; 0 from coordinate 128 on.
pub fn unpack(bytes: &Packed, row: &mut [u8])
    ensures is { row.new ≡ unpacked (length row.old) bytes.now }
    ensures inverse { ClearFrom (length row.old) bytes.now → packed row.new ≡ bytes.now }
{
    for (i, mark) in row.iter_mut().enumerate() {
        *mark = bit_at(bytes, i);
    }
}

/// The first coordinate from `n` on whose bit is set, if there is one.
pub fn stray_bit(bytes: &Packed, n: usize) -> Option<usize>
    ensures { MatchOption result (ClearFrom n bytes.now) (λ i. StrayBit n bytes.now i) }
{
    (n..LARGEST_DIMENSION).find(|i| bit_at(bytes, *i) == 1)
}
