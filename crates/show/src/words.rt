//! Letters and numbers in words.

use std::fmt;

/// The kind of set that a letter of a plan names, if there is one. No type stands for kinds, as their letters are open.
pub fn kind_name(letter: char) -> Option<&'static str> {
    match letter {
        'L' => Some("a listed set"),
        'F' => Some("unit flows"),
        'B' => Some("bases"),
        _ => None,
    }
}

/// A byte where a letter was expected: in hexadecimal, and as it looks in print.
#[derive(Clone, Copy)]
pub struct Letter(pub u8);

impl fmt::Display for Letter {
    fn fmt<W: fmt::Write>(&self, f: &mut fmt::Formatter<W>) -> fmt::Result {
        let byte = self.0;
        if byte.is_ascii_graphic() {
            write!(f, "{} (byte {byte:02X} in hexadecimal)", char::from(byte))
        } else {
            write!(f, "of byte {byte:02X} in hexadecimal")
        }
    }
}

/// So many of something, with the words for one and for many.
#[derive(Clone, Copy)]
pub struct Count(pub u64, pub &'static str, pub &'static str);

impl fmt::Display for Count {
    fn fmt<W: fmt::Write>(&self, f: &mut fmt::Formatter<W>) -> fmt::Result {
        let Count(n, one, many) = *self;
        write!(f, "{n} {}", if n == 1 { one } else { many })
    }
}
