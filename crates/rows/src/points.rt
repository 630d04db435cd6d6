ghost use Rattle.std.specs.Prelude.{◌≡◌, ℕ, ◌<◌, ◌≤◌, ◌++◌, length, take, replicate, slice_index, Decides, MatchOption};
ghost use Rattle.rows.specs.Points.{UpTo, FirstAbove, Marks, BadMark, Point};

/// The largest dimension.
pub const LARGEST_DIMENSION: usize = 128;

/// A row of at most the largest dimension, at the start of an array of that length.
pub type Padded<T> = [T; LARGEST_DIMENSION];

/// The index of the first byte above `most`, if there is one.
pub fn first_above(row: &[u8], most: u8) -> Option<usize>
    ensures { MatchOption result (UpTo most row.now) (λ i. FirstAbove most row.now i) }
{
    row.iter().position(|b| *b > most)
}

/// The index of the first byte that is no mark, as it is above 1, if there is one.
pub fn bad_mark(row: &[u8]) -> Option<usize>
    ensures { MatchOption result (Marks row.now) (λ i. BadMark row.now i) }
{
    first_above(row, 1)
}

/// The mark of a coordinate, 0 beyond the row's end.
pub fn mark_at(row: &[u8], i: usize) -> u8
    ensures { result ≡ slice_index row.now i }
{
    row.get(i).copied().unwrap_or(0)
}

/// Whether a row is a point of dimension `n`.
pub fn is_point(row: &[u8], n: usize) -> bool
    ensures { Decides result (Point n row.now) }
{
    row.len() == n && bad_mark(row).is_none()
}

/// A row at the start of an array, followed by `fill`; entries that the array has no place for are left out.
pub fn padded<T: Copy, const N: usize>(row: &[T], fill: T) -> [T; N]
    ensures { result ≡ take N (row.now ++ replicate N fill) }
{
    let mut r = [fill; N];
    let n = row.len().min(N);
    r[..n].copy_from_slice(&row[..n]);
    r
}
