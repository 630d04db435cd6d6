ghost use Rattle.std.specs.Prelude.{◌≡◌, Some};
ghost use Rattle.rows.specs.Refusals.{number as numbered, Numbers, reason, refusal_text};

use std::fmt;

/// Why a call is refused. As a `u8` each has its number in the table of refusals.
#[derive(Clone, Copy, PartialEq, Eq, Debug)]
pub enum Fault {
    /// a length is not the dimension
    Length,
    /// a byte of a row of marks is above 1
    Mark,
    /// the weight of the price row is above the reach
    Weight,
    /// the point is not a member
    NotMember,
    /// the dimension is above 128
    Dimension,
    /// there are more entries than a making takes
    TooMany,
    /// the reach is above 2^40 − 1
    Reach,
    /// a number is not below its count, or a packed point has a bit from the dimension on
    OutOfRange,
    /// the reach below is less than the number of pins
    Pins,
    /// an entry of a renumbering is not below the dimension, or was seen earlier
    Numbering,
    /// the job has begun already
    Begun,
    /// the job has not begun
    NotBegun,
    /// the job has as many rows as a job accepts
    RowLimit,
    /// the job is not finished
    NotFinished,
    /// a ticket is out for the present row, or its plan is written
    Ticketed,
    /// the ticket is not the one that the job has out
    WrongTicket,
    /// the buffer is too short
    ShortBuffer,
    /// there is no place for one more entry
    Full,
    /// no command has this letter
    UnknownLetter,
    /// an operand is cut short or has another width, or the script is too long
    Width,
    /// a command is not in its place, the end of a script is missing, or something follows it
    Order,
    /// no class of records has this letter
    UnknownClass,
}

/// The fault's number in the table of refusals.
impl From<Fault> for u8 {
    ghost from_gives = { λ f n. n ≡ numbered f };

    fn from(fault: Fault) -> u8 {
        match fault {
            Fault::Length => 1,
            Fault::Mark => 2,
            Fault::Weight => 3,
            Fault::NotMember => 4,
            Fault::Dimension => 5,
            Fault::TooMany => 6,
            Fault::Reach => 7,
            Fault::OutOfRange => 8,
            Fault::Pins => 9,
            Fault::Numbering => 10,
            Fault::Begun => 11,
            Fault::NotBegun => 12,
            Fault::RowLimit => 13,
            Fault::NotFinished => 14,
            Fault::Ticketed => 15,
            Fault::WrongTicket => 16,
            Fault::ShortBuffer => 17,
            Fault::Full => 18,
            Fault::UnknownLetter => 19,
            Fault::Width => 20,
            Fault::Order => 21,
            Fault::UnknownClass => 22,
        }
    }
}

/// A number that the table of refusals does not have.
#[derive(Clone, Copy, PartialEq, Eq, Debug)]
pub struct UnknownNumber(pub u8);

impl TryFrom<u8> for Fault {
    type Error = UnknownNumber;

    ghost try_from_gives = { Numbers };

    fn try_from(number: u8) -> Result<Self, UnknownNumber> {
        match number {
            1 => Ok(Fault::Length),
            2 => Ok(Fault::Mark),
            3 => Ok(Fault::Weight),
            4 => Ok(Fault::NotMember),
            5 => Ok(Fault::Dimension),
            6 => Ok(Fault::TooMany),
            7 => Ok(Fault::Reach),
            8 => Ok(Fault::OutOfRange),
            9 => Ok(Fault::Pins),
            10 => Ok(Fault::Numbering),
            11 => Ok(Fault::Begun),
            12 => Ok(Fault::NotBegun),
            13 => Ok(Fault::RowLimit),
            14 => Ok(Fault::NotFinished),
            15 => Ok(Fault::Ticketed),
            16 => Ok(Fault::WrongTicket),
            17 => Ok(Fault::ShortBuffer),
            18 => Ok(Fault::Full),
            19 => Ok(Fault::UnknownLetter),
            20 => Ok(Fault::Width),
            21 => Ok(Fault::Order),
            22 => Ok(Fault::UnknownClass),
            _ => Err(UnknownNumber(number)),
        }
    }
}

impl Fault {
    /// The refusal by this fault, at a place.
    pub fn at(self, place: usize) -> Refusal
        ensures { result ≡ record { fault = self; place = place } }
    {
        Refusal { fault: self, place }
    }
}

/// A refused call: why, and where; the place is 0 unless the table of refusals names one.
#[derive(Clone, Copy, PartialEq, Eq, Debug)]
pub struct Refusal {
    pub fault: Fault,
    pub place: usize,
}

/// The reason in words.
impl fmt::Display for Fault {
    ghost output = { λ f. Some (reason f) };

    fn fmt<W: fmt::Write>(&self, f: &mut fmt::Formatter<W>) -> fmt::Result {
        f.write_str(match self {
            Fault::Length => "a length is not the dimension",
            Fault::Mark => "a byte of a row of marks is above 1",
            Fault::Weight => "the weight of the prices is above the reach",
            Fault::NotMember => "the point is not a legal layout",
            Fault::Dimension => "the dimension is above 128",
            Fault::TooMany => "there are more entries than a set takes",
            Fault::Reach => "the reach is above 2^40 - 1",
            Fault::OutOfRange =>
                "a number is not below its count, or a packed point has a bit beyond the dimension",
            Fault::Pins => "the reach below is less than the number of pins",
            Fault::Numbering =>
                "a number of a renumbering is not below the dimension, or was seen earlier",
            Fault::Begun => "the job has begun already",
            Fault::NotBegun => "the job has not begun",
            Fault::RowLimit => "the job has as many rows of prices as a job accepts",
            Fault::NotFinished => "the job is not finished",
            Fault::Ticketed =>
                "a ticket is out for the present row of prices, or its plan is written",
            Fault::WrongTicket => "the ticket is not the one that the job has out",
            Fault::ShortBuffer => "the buffer is too short",
            Fault::Full => "there is no place for one more entry",
            Fault::UnknownLetter => "no command has this letter",
            Fault::Width =>
                "an operand is cut short or has another width, or the script is too long",
            Fault::Order =>
                "a command is out of its order, the end of the script is missing, or something follows it",
            Fault::UnknownClass => "no class of records has this letter",
        })
    }
}

impl fmt::Display for Refusal {
    ghost output = { λ e. Some (refusal_text e) };

    fn fmt<W: fmt::Write>(&self, f: &mut fmt::Formatter<W>) -> fmt::Result {
        write!(
            f,
            "Refused by {} at place {}.",
            u8::from(self.fault),
            self.place
        )
    }
}
