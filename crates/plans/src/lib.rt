//! Plans: what a loader is handed, and its 46 bytes.
#![tactic(auto)]

ghost use Rattle.std.specs.Prelude.{◌≡◌, ◌≤◌, [], ◌∷◌, ◌++◌, length, drop, map, MatchResult};
ghost use Rattle.rows.specs.Bytes.{big_endian, signed_bytes};
ghost use Rattle.rows.specs.Refusals.{ask, RefusedBy};
ghost use Rattle.rows.specs.declared.refusals.Fault.TheVariants.{ShortBuffer};
ghost use Rattle.commands.specs.Commands.{said};
ghost use Rattle.plans.specs.Bytes.{plan_bytes};

use commands::command::Command;
use commands::writer::write_run;
use rows::packed::Packed;
use rows::refusals::Refusal;

/// The length of a plan in bytes.
pub const LENGTH: usize = 46;

/// What a plan says. Of the price the low 64 bits are written.
#[derive(Clone, Copy)]
pub struct Plan {
    /// the kind letter of the augmenter, any byte as there
    pub kind: u8,
    pub dimension: u8,
    /// the job number
    pub number: u32,
    pub point: Packed,
    /// the price of the point at the present row
    pub price: i128,
    /// questions asked since the job's making
    pub asked: u32,
    /// improvements since the job's making
    pub improved: u32,
}

/// The low eight bytes of a signed number, the high one first. By a pattern, as `as i64` would ask that the number fits.
fn low_bytes(price: i128) -> [u8; 8]
    ensures { result ≡ signed_bytes 8 price }
{
    let [_, _, _, _, _, _, _, _, a, b, c, d, e, f, g, h] = price.to_be_bytes();
    [a, b, c, d, e, f, g, h]
}

/// The operands of a plan's commands, in bytes.
#[derive(Drop)]
struct Operands {
    kind: [u8; 1],
    dimension: [u8; 1],
    number: [u8; 4],
    point: Packed,
    price: [u8; 8],
    asked: [u8; 4],
    improved: [u8; 4],
}

impl Operands {
    fn commands(&self) -> [Command<'_>; 8]
        ensures { map said result ≡ (75, self.now.kind) ∷ (78, self.now.dimension) ∷ (74, self.now.number) ∷ (88, self.now.point) ∷ (77, self.now.price) ∷ (81, self.now.asked) ∷ (73, self.now.improved) ∷ (90, []) ∷ [] }
    {
        [
            Command::Kind(&self.kind),
            Command::Dimension(&self.dimension),
            Command::JobNumber(&self.number),
            Command::Point(&self.point),
            Command::Cost(&self.price),
            Command::Asked(&self.asked),
            Command::Improved(&self.improved),
            Command::End,
        ]
    }
}

impl Plan {
    fn operands(&self) -> Operands
        ensures bytes { (result.kind ≡ self.now.kind ∷ []) × (result.dimension ≡ self.now.dimension ∷ []) × (result.point ≡ self.now.point) }
        ensures numbers { (result.number ≡ big_endian 4 self.now.number) × (result.price ≡ signed_bytes 8 self.now.price) × (result.asked ≡ big_endian 4 self.now.asked) × (result.improved ≡ big_endian 4 self.now.improved) }
    {
        Operands {
            kind: [self.kind],
            dimension: [self.dimension],
            number: self.number.to_be_bytes(),
            point: self.point,
            price: low_bytes(self.price),
            asked: self.asked.to_be_bytes(),
            improved: self.improved.to_be_bytes(),
        }
    }

    /// Writes the plan to a buffer's start; the rest keeps its bytes.
    pub fn write(&self, buffer: &mut [u8]) -> Result<(), Refusal>
        ensures { MatchResult result (λ _. (46 ≤ length buffer.old) × (buffer.new ≡ plan_bytes self.now ++ drop 46 buffer.old)) (λ e. RefusedBy (ask ShortBuffer (46 ≤ length buffer.old) ∷ []) e × (buffer.new ≡ buffer.old)) }
    {
        write_run(&self.operands().commands(), buffer)?;
        Ok(())
    }
}
