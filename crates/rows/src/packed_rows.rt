ghost use Rattle.std.specs.Prelude.{◌≡◌, ◌<◌, ◌≤◌, [], ◌∷◌, ◌++◌, length, take, MatchOption, MatchResult};
ghost use Rattle.rows.specs.declared.refusals.Fault.TheVariants.{Full};

use crate::packed::Packed;
use crate::points::padded;
use crate::refusals::Fault;

/// The most rows of a list.
pub const MOST_ROWS: usize = 256;

/// A list of packed points, with room for all of them from the start, since nothing allocates.
///
/// Clauses name the list as the first `count` of `slots`: a `Model` would, but a type that is `Copy` can have none.
#[derive(Clone, Copy)]
pub struct PackedRows {
    count: usize,
    slots: [Packed; MOST_ROWS],
    ghost few: { count ≤ 256 },
}

impl PackedRows {
    /// A list of no rows.
    pub fn new() -> PackedRows
        ensures { take result.count result.slots ≡ [] }
    {
        PackedRows {
            count: 0,
            slots: [[0; 16]; MOST_ROWS],
        }
    }

    /// A list of these rows, unless there are too many.
    pub fn of(rows: &[Packed]) -> Option<PackedRows>
        ensures { MatchOption result (256 < length rows.now) (λ l. (length rows.now ≤ 256) × (take l.count l.slots ≡ rows.now)) }
    {
        if rows.len() > MOST_ROWS {
            return None;
        }
        Some(PackedRows {
            count: rows.len(),
            slots: padded(rows, [0; 16]),
        })
    }

    /// Adds a row, if there is room for one more.
    pub fn push(&mut self, row: Packed) -> Result<(), Fault>
        ensures { MatchResult result (λ _. (self.old.count < 256) × (take self.new.count self.new.slots ≡ take self.old.count self.old.slots ++ row ∷ [])) (λ f. (f ≡ Full) × (length (take self.old.count self.old.slots) ≡ 256) × (self.old.count ≡ 256) × (self.new ≡ self.old)) }
    {
        if self.count >= MOST_ROWS {
            return Err(Fault::Full);
        }
        self.slots[self.count] = row;
        self.count += 1;
        Ok(())
    }

    /// The rows, in the order of adding.
    pub fn as_slice(&self) -> &[Packed]
        ensures { result.now ≡ take self.now.count self.now.slots }
    {
        &self.slots[..self.count]
    }
}
