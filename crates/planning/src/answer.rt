ghost use Rattle.std.specs.Prelude.{◌≡◌};
ghost use Rattle.planning.specs.Bytes.{answer_bytes};

/// What a script is answered: the plan, eight commands, or a refusal, one command E.
/// A refusal is its bytes already, since the loader is handed bytes in both cases, and the theorem is about these bytes.
pub type Answer = Result<[u8; plans::LENGTH], [u8; 6]>;

/// The bytes of an answer.
pub fn bytes(answer: &Answer) -> &[u8]
    ensures { result.now ≡ answer_bytes answer.now }
{
    match answer {
        Ok(plan) => plan,
        Err(refusal) => refusal,
    }
}
