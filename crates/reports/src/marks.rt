ghost use Rattle.std.specs.Prelude.{◌≡◌, ◌+◌, ◌≤◌, length, take, Some};
ghost use Rattle.rows.specs.Packed.{digit};
ghost use Rattle.reports.specs.Marks.{digits};

use std::fmt;

/// How many marks are written at a time: a write for each took longer than all else that shows a row.
const PIECE: usize = 64;

/// A row of marks, which prints as a 0 or a 1 for each.
#[derive(Clone, Copy)]
pub struct Marks<'a>(pub &'a [u8]);

/// The character of a mark.
fn digit_of(mark: u8) -> u8
    ensures { result ≡ 48 + digit mark }
{
    if mark == 0 { b'0' } else { b'1' }
}

/// The digits of a piece of a row, at the start of an array.
fn digits_of(piece: &[u8]) -> [u8; PIECE]
    requires { length piece.now ≤ 64 }
    ensures { take (length piece.now) result ≡ digits piece.now }
{
    let mut text = [b'0'; PIECE];
    // an index for the row that is written: of an `iter_mut` that is zipped nothing is known after the loop
    for (i, mark) in piece.iter().enumerate() {
        text[i] = digit_of(*mark);
    }
    text
}

impl fmt::Display for Marks<'_> {
    ghost output = { λ m. Some (digits m.0.now) };

    fn fmt<W: fmt::Write>(&self, f: &mut fmt::Formatter<W>) -> fmt::Result {
        for piece in self.0.chunks(PIECE) {
            let text = digits_of(piece);
            f.write_str(str::from_utf8(&text[..piece.len()]).unwrap())?;
        }
        Ok(())
    }
}
