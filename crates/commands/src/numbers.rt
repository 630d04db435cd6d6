ghost use Rattle.std.specs.Prelude.{◌≡◌, ◌-◌, ◌*◌, ◌^◌, ◌<◌, ◌≤◌, length, drop};
ghost use Rattle.std.specs.Int.Digits.{number_from_digits};

/// The number that bytes write, the high one first; of more than eight bytes only the last eight count.
pub fn number(bytes: &[u8]) -> u64
    ensures value { result ≡ number_from_digits 256 (drop (length bytes.now - 8) bytes.now) }
    ensures short { length bytes.now ≤ 8 → result ≡ number_from_digits 256 bytes.now }
    ensures small { result < 2 ^ (8 * length bytes.now) }
{
    let last = &bytes[bytes.len().saturating_sub(8)..];
    let mut n = 0;
    for byte in last {
        n = n * 256 + u64::from(*byte);
    }
    n
}
