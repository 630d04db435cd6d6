ghost use Rattle.std.specs.Prelude.{◌≡◌, length, Some};
ghost use Rattle.commands.specs.Commands.{width_of, said};

/// A command. Each case borrows its operand from the script that it was read from, or from whoever writes it.
#[derive(Clone, Copy)]
pub enum Command<'a> {
    /// N: the dimension, 1 byte
    Dimension(&'a [u8]),
    /// L: a listed set with this reach, 8 bytes
    Reach(&'a [u8]),
    /// P: a listed row, a packed point of 16 bytes
    ListedRow(&'a [u8]),
    /// F: unit flows over this many nodes, 1 byte
    FlowNodes(&'a [u8]),
    /// G: bases of a graph with this many nodes, 1 byte
    GraphNodes(&'a [u8]),
    /// A: an arc or edge, tail 1 byte, head 1 byte
    Arc(&'a [u8]),
    /// D: a balance, node 1 byte, signed balance 1 byte
    Balance(&'a [u8]),
    /// H: bases by class, with this many classes, 1 byte
    Classes(&'a [u8]),
    /// U: the class of the next coordinate, 1 byte
    Class(&'a [u8]),
    /// V: a capacity, class 1 byte, capacity 1 byte
    Capacity(&'a [u8]),
    /// C: a price, coordinate 1 byte, signed price 8 bytes
    Price(&'a [u8]),
    /// Y: a price by class of records, coordinate 1 byte, class letter 1 byte, units 4 bytes
    Units(&'a [u8]),
    /// S: the start, a packed point of 16 bytes
    Start(&'a [u8]),
    /// Z: the end, no operand
    End,
    /// K: the kind letter of the set, 1 byte
    Kind(&'a [u8]),
    /// J: the job number, 4 bytes
    JobNumber(&'a [u8]),
    /// X: the chosen point, packed, 16 bytes
    Point(&'a [u8]),
    /// M: the price of the chosen point, signed, 8 bytes
    Cost(&'a [u8]),
    /// Q: questions asked, 4 bytes
    Asked(&'a [u8]),
    /// I: improvements, 4 bytes
    Improved(&'a [u8]),
    /// E: a refusal, number 1 byte, place 4 bytes
    Refused(&'a [u8]),
}

/// How many operand bytes follow a letter, if a command has it.
pub fn operand_width(letter: char) -> Option<usize>
    ensures { result ≡ width_of letter }
{
    match letter {
        'N' | 'F' | 'G' | 'H' | 'U' | 'K' => Some(1),
        'A' | 'D' | 'V' => Some(2),
        'J' | 'Q' | 'I' => Some(4),
        'E' => Some(5),
        'Y' => Some(6),
        'L' | 'M' => Some(8),
        'C' => Some(9),
        'P' | 'S' | 'X' => Some(16),
        'Z' => Some(0),
        _ => None,
    }
}

/// The command of a letter with its operand.
pub(crate) fn with_operand<'a>(letter: char, operand: &'a [u8]) -> Command<'a>
    requires { width_of letter ≡ Some (length operand.now) }
    ensures { said result ≡ (letter, operand.now) }
{
    match letter {
        'N' => Command::Dimension(operand),
        'L' => Command::Reach(operand),
        'P' => Command::ListedRow(operand),
        'F' => Command::FlowNodes(operand),
        'G' => Command::GraphNodes(operand),
        'A' => Command::Arc(operand),
        'D' => Command::Balance(operand),
        'H' => Command::Classes(operand),
        'U' => Command::Class(operand),
        'V' => Command::Capacity(operand),
        'C' => Command::Price(operand),
        'Y' => Command::Units(operand),
        'S' => Command::Start(operand),
        'Z' => Command::End,
        'K' => Command::Kind(operand),
        'J' => Command::JobNumber(operand),
        'X' => Command::Point(operand),
        'M' => Command::Cost(operand),
        'Q' => Command::Asked(operand),
        'I' => Command::Improved(operand),
        'E' => Command::Refused(operand),
        // no other letter has a width
        _ => unreachable(),
    }
}

impl<'a> Command<'a> {
    /// The letter and the operand.
    pub fn parts(&self) -> (u8, &'a [u8])
        ensures { (result.0, result.1.now) ≡ said self.now }
    {
        match *self {
            Command::Dimension(operand) => (b'N', operand),
            Command::Reach(operand) => (b'L', operand),
            Command::ListedRow(operand) => (b'P', operand),
            Command::FlowNodes(operand) => (b'F', operand),
            Command::GraphNodes(operand) => (b'G', operand),
            Command::Arc(operand) => (b'A', operand),
            Command::Balance(operand) => (b'D', operand),
            Command::Classes(operand) => (b'H', operand),
            Command::Class(operand) => (b'U', operand),
            Command::Capacity(operand) => (b'V', operand),
            Command::Price(operand) => (b'C', operand),
            Command::Units(operand) => (b'Y', operand),
            Command::Start(operand) => (b'S', operand),
            Command::End => (b'Z', &[]),
            Command::Kind(operand) => (b'K', operand),
            Command::JobNumber(operand) => (b'J', operand),
            Command::Point(operand) => (b'X', operand),
            Command::Cost(operand) => (b'M', operand),
            Command::Asked(operand) => (b'Q', operand),
            Command::Improved(operand) => (b'I', operand),
            Command::Refused(operand) => (b'E', operand),
        }
    }
}
