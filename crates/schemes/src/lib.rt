// Lists of schemes, sets of their places, and the choice. An own list is its octets, 16 a scheme.
#![tactic(auto)]

pub mod choosing;
pub mod list;
pub mod offer;
pub mod reply;
pub mod set;

// How many schemes an own list has at the most: a set has a bit for each.
pub const MOST: usize = 16;

// The own places of the reply's schemes, in the reply's order, with zeros behind them. An array with a count, here and in `Schemes`: memory is fixed, no heap.
#[derive(Clone, Copy)]
pub struct Kept {
    pub places: [u8; 16],
    pub count: u32,
}

// The lowest own place left, and how many were left; zeros where none was: an `Option` would say by `None` what a count of 0 says.
#[derive(Clone, Copy)]
pub struct Left {
    pub place: u32,
    pub left: u32,
}

// Schemes as octets, 16 each, with zeros behind them.
#[derive(Clone, Copy)]
pub struct Schemes {
    pub octets: [u8; 256],
    pub count: u32,
}
