ghost use Rattle.std.specs.Prelude.{◌≡◌, ◌*◌, pos, Some};
ghost use Rattle.rows.specs.Classes.{Classified, days as kept_days, name};

use crate::refusals::Fault;
use std::fmt;

/// What a line or store keeps, and so for how many days.
#[derive(Clone, Copy, PartialEq, Eq, Debug)]
pub enum Class {
    /// seven years of door events
    DoorEvents,
    KeypadErrors,
    Heartbeats,
}

/// The class of a letter; any other letter is an unknown class.
impl TryFrom<char> for Class {
    type Error = Fault;

    ghost try_from_gives = { Classified };

    fn try_from(letter: char) -> Result<Self, Fault> {
        match letter {
            'd' => Ok(Class::DoorEvents),
            'k' => Ok(Class::KeypadErrors),
            'h' => Ok(Class::Heartbeats),
            _ => Err(Fault::UnknownClass),
        }
    }
}

impl Class {
    /// The days for which a unit is kept.
    pub fn days(self) -> u32
        ensures { result ≡ kept_days self }
    {
        match self {
            Class::DoorEvents => 2555,
            Class::KeypadErrors => 90,
            Class::Heartbeats => 7,
        }
    }

    /// The price of so many units: units times days.
    pub fn price(self, units: u32) -> i64
        ensures { result ≡ pos (units * kept_days self) }
    {
        i64::from(units) * i64::from(self.days())
    }
}

impl fmt::Display for Class {
    ghost output = { λ c. Some (name c) };

    fn fmt<W: fmt::Write>(&self, f: &mut fmt::Formatter<W>) -> fmt::Result {
        f.write_str(match self {
            Class::DoorEvents => "door events",
            Class::KeypadErrors => "keypad errors",
            Class::Heartbeats => "heartbeats",
        })
    }
}
