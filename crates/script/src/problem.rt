ghost use Rattle.std.specs.Prelude.{◌≤◌};

use rows::packed::Packed;
use rows::packed_rows::PackedRows;
use rows::points::Padded;

/// What a script describes: a listed set, prices and a start.
#[derive(Drop)]
pub struct Problem {
    pub dimension: u8,
    pub reach: u64,
    /// the listed rows
    pub rows: PackedRows,
    /// the prices by coordinate, 0 from the dimension on, in fixed memory since nothing allocates
    pub prices: Padded<i64>,
    pub start: Packed,
    ghost small: { dimension ≤ 128 },
}
