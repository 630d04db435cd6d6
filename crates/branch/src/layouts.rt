//! The branch: its lines and stores with what they cost, its legal layouts, and where it starts.

use rows::classes::Class;

/// What a line or store costs over the contract.
#[derive(Clone, Copy)]
pub enum Charge {
    /// so many units of a class, for the days that the class is kept
    Kept(Class, u32),
    /// money back
    Credit(u32),
}

impl Charge {
    /// The price over the contract.
    pub fn price(self) -> i64 {
        match self {
            Charge::Kept(class, units) => class.price(units),
            Charge::Credit(amount) => -i64::from(amount),
        }
    }
}

#[derive(Clone, Copy)]
pub struct Part {
    pub name: &'static str,
    pub charge: Charge,
}

/// The lines and stores, in coordinate order.
pub const PARTS: [Part; 8] = [
    Part {
        name: "vault line A, door events, 3 units",
        charge: Charge::Kept(Class::DoorEvents, 3),
    },
    Part {
        name: "vault line B, door events, 2 units",
        charge: Charge::Kept(Class::DoorEvents, 2),
    },
    Part {
        name: "standby line, heartbeats, 40 units",
        charge: Charge::Kept(Class::Heartbeats, 40),
    },
    Part {
        name: "keypad store, keypad errors, 12 units",
        charge: Charge::Kept(Class::KeypadErrors, 12),
    },
    Part {
        name: "shared store, keypad errors, 30 units",
        charge: Charge::Kept(Class::KeypadErrors, 30),
    },
    Part {
        name: "event store on the ground floor, door events, 1 unit",
        charge: Charge::Kept(Class::DoorEvents, 1),
    },
    Part {
        name: "event store in the cellar, door events, 4 units",
        charge: Charge::Kept(Class::DoorEvents, 4),
    },
    Part {
        name: "store handed back, a credit",
        charge: Charge::Credit(1500),
    },
];

/// The legal layouts, as rows of marks.
pub const LAYOUTS: [[u8; 8]; 5] = [
    [1, 1, 0, 1, 0, 1, 1, 0],
    [1, 0, 1, 0, 1, 1, 0, 0],
    [0, 1, 1, 0, 1, 0, 1, 1],
    [1, 0, 0, 1, 1, 1, 0, 1],
    [0, 1, 1, 1, 0, 1, 0, 0],
];

/// The layout that the branch has today.
pub const START: [u8; 8] = [1, 1, 0, 1, 0, 1, 1, 0];
