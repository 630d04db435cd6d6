//! Packed points as text.

use reports::marks::Marks;
use rows::packed::{Packed, stray_bit, unpack};
use rows::points::LARGEST_DIMENSION;
use std::fmt;

/// A packed point: it prints as its marks where the dimension is known, else as its bytes.
#[derive(Clone, Copy)]
pub struct Point {
    pub bytes: Packed,
    pub known: Option<usize>,
}

impl fmt::Display for Point {
    fn fmt<W: fmt::Write>(&self, f: &mut fmt::Formatter<W>) -> fmt::Result {
        match self.known {
            Some(n) => write_marks(f, &self.bytes, n),
            None => write!(
                f,
                "{:032X} (bytes in hexadecimal, as no dimension of at most 128 is known)",
                u128::from_be_bytes(self.bytes)
            ),
        }
    }
}

/// Writes the marks of the first n coordinates, and which bits are set beyond them.
fn write_marks<W: fmt::Write>(f: &mut fmt::Formatter<W>, bytes: &Packed, n: usize) -> fmt::Result {
    let mut row = [0; LARGEST_DIMENSION];
    unpack(bytes, &mut row);
    if n == 0 {
        f.write_str("of no coordinates")?;
    } else {
        write!(f, "{}", Marks(&row[..n.min(LARGEST_DIMENSION)]))?;
    }
    if stray_bit(bytes, n).is_some() {
        f.write_str(", and bits beyond the dimension at")?;
    }
    for (i, mark) in row.iter().enumerate().skip(n) {
        if *mark == 1 {
            write!(f, " {i}")?;
        }
    }
    Ok(())
}
