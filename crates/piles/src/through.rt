//! A planning through three layers, and that its plan has the kind letter of the set at the bottom.

ghost use Rattle.std.specs.Prelude.{◌≡◌, IfOk, slice_index};

use listed::Listed;
use pinned::Pinned;
use renumbered::Renumbered;
use rows::refusals::Refusal;
use runs::planning::plan;
use turned::Turned;

/// Plans through three layers over a listed set. The plan's kind letter, its second byte, is L.
pub fn plan_through(
    pile: Turned<Pinned<Renumbered<Listed>>>,
    number: u32,
    start: &[u8],
    prices: &[i64],
) -> Result<[u8; plans::LENGTH], Refusal>
    ensures { IfOk result (λ u. slice_index u 1 ≡ 76) }
{
    plan(pile, number, start, prices)
}
