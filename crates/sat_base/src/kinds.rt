// The kinds of records, as the byte that each row of a store begins with.

pub const SETTINGS: u8 = 1;

pub const MARKS: u8 = 2;

pub const NODE: u8 = 3;

pub const CUSTOMER: u8 = 4;

pub const SEGMENT: u8 = 5;

pub const SETTLED_ROW: u8 = 6;

pub const TALLY: u8 = 7;

pub const STATEMENT: u8 = 8;

pub const AUDIT_PLAN: u8 = 9;

pub const RECHECK_PLAN: u8 = 10;

pub const REPAIR_PLAN: u8 = 11;

pub const CONTAINMENT: u8 = 12;

pub const KEPT: u8 = 13;

pub const EXIT_PLAN: u8 = 14;

pub const LEFT: u8 = 15;

pub const TARIFF: u8 = 16;
