//! One listed set, three layers, and what the six orders of piling them give.

ghost use Rattle.std.specs.Prelude.{◌≤◌};

use augmenter::Augmenter;
use listed::Listed;
use pinned::Pinned;
use renumbered::Renumbered;
use rows::packed::pack;
use rows::refusals::Refusal;
use turned::Turned;

/// The reach of the listed sets.
const REACH: u64 = 1000;

const MARKS: [u8; 4] = [0, 0, 1, 1];

const PINS: [u8; 4] = [2, 2, 2, 1];

const NUMBERS: [u8; 4] = [1, 3, 0, 2];

/// The listed set below the piles.
const ROWS: [[u8; 4]; 8] = [
    [1, 0, 1, 0],
    [0, 0, 1, 0],
    [1, 1, 1, 1],
    [0, 1, 1, 0],
    [0, 0, 0, 1],
    [1, 1, 0, 1],
    [1, 0, 0, 1],
    [1, 1, 0, 0],
];

/// The prices above the piles.
pub const PRICES: [i64; 4] = [-9, 5, 6, -7];

/// What a pile should be: its layers, its members, translated by hand, and a dear one to start at.
#[derive(Clone, Copy)]
pub struct Expected {
    pub layers: &'static str,
    pub members: [[u8; 4]; 4],
    pub start: [u8; 4],
}

pub const TURNED_PINNED_RENUMBERED: Expected = Expected {
    layers: "turned over pinned over renumbered",
    members: [[0, 0, 0, 0], [0, 0, 1, 0], [1, 0, 1, 0], [1, 1, 0, 0]],
    start: [0, 0, 1, 0],
};

pub const TURNED_RENUMBERED_PINNED: Expected = Expected {
    layers: "turned over renumbered over pinned",
    members: [[0, 1, 0, 1], [0, 1, 1, 1], [1, 1, 0, 0], [1, 1, 0, 1]],
    start: [0, 1, 1, 1],
};

pub const PINNED_TURNED_RENUMBERED: Expected = Expected {
    layers: "pinned over turned over renumbered",
    members: [[0, 1, 0, 1], [0, 1, 1, 1], [1, 0, 0, 1], [1, 1, 0, 1]],
    start: [0, 1, 1, 1],
};

pub const PINNED_RENUMBERED_TURNED: Expected = Expected {
    layers: "pinned over renumbered over turned",
    members: [[0, 0, 0, 1], [0, 0, 1, 1], [1, 0, 1, 1], [1, 1, 1, 1]],
    start: [0, 0, 1, 1],
};

pub const RENUMBERED_TURNED_PINNED: Expected = Expected {
    layers: "renumbered over turned over pinned",
    members: [[0, 0, 0, 1], [0, 0, 1, 1], [1, 0, 1, 0], [1, 0, 1, 1]],
    start: [0, 0, 1, 1],
};

pub const RENUMBERED_PINNED_TURNED: Expected = Expected {
    layers: "renumbered over pinned over turned",
    members: [[0, 1, 0, 0], [0, 1, 1, 0], [1, 1, 0, 0], [1, 1, 1, 1]],
    start: [0, 1, 1, 0],
};

/// The listed set of some rows.
fn set<const N: usize>(rows: [[u8; 4]; N]) -> Result<Listed, Refusal>
    requires { N ≤ 256 }
{
    Listed::new(4, REACH, &rows.map(|row| pack(&row)))
}

/// The listed set below the piles.
pub fn bottom() -> Result<Listed, Refusal> {
    set(ROWS)
}

/// The listed set of a pile's members.
pub fn listed(expected: &Expected) -> Result<Listed, Refusal> {
    set(expected.members)
}

pub fn turned<A: Augmenter + Drop>(below: A) -> Result<Turned<A>, Refusal> {
    Turned::new(below, &MARKS)
}

pub fn pinned<A: Augmenter + Drop>(below: A) -> Result<Pinned<A>, Refusal> {
    Pinned::new(below, &PINS)
}

pub fn renumbered<A: Augmenter + Drop>(below: A) -> Result<Renumbered<A>, Refusal> {
    Renumbered::new(below, &NUMBERS)
}
