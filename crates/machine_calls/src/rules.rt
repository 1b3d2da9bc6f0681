// The rules of the tables, by their numbers: the order in which a store is tested at opening.

/// One record of settings and one of marks, and the marks in bounds.
pub const MARKS: u8 = 1;

pub const NODES: u8 = 2;

pub const CUSTOMERS: u8 = 3;

pub const SEGMENTS: u8 = 4;

pub const SETTLED: u8 = 5;

pub const TALLIES: u8 = 6;

pub const STATEMENTS: u8 = 7;
/// The open plans of an audit, a recheck and a repair.
pub const PLANS: u8 = 8;

pub const CONTAINMENTS: u8 = 9;

pub const KEPT: u8 = 10;
/// The open plan of an exit.
pub const EXIT_PLAN: u8 = 11;
/// The nodes that left.
pub const LEFT: u8 = 12;

pub const TARIFFS: u8 = 13;
