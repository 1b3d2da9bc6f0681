//! Cases of the ground, of orders, of the tables, of placement, of pay and of a drill's nodes: months at their borders, schemes, numbers in
//! digits, what the outside's forms in memory answer, worked examples, rows that come in any order, and a plain placement to
//! compare with. They stand here, so that the crates below are proved once and not again with their tests.
#![tactic(auto)]

#[cfg(test)]
mod balances;
#[cfg(test)]
mod closings;
#[cfg(test)]
mod commits;
#[cfg(test)]
mod consoles;
#[cfg(test)]
mod drills;
#[cfg(test)]
mod index;
#[cfg(test)]
mod keepers;
#[cfg(test)]
mod mixed_rows;
#[cfg(test)]
mod nodes;
#[cfg(test)]
mod numbers;
#[cfg(test)]
mod orders;
#[cfg(test)]
mod outside;
#[cfg(test)]
mod placing;
#[cfg(test)]
mod plain_placing;
#[cfg(test)]
mod reputation;
#[cfg(test)]
mod sample;
#[cfg(test)]
mod segments;
#[cfg(test)]
mod sheets;
#[cfg(test)]
mod slots;
#[cfg(test)]
mod sorted_rows;
#[cfg(test)]
mod statements;
#[cfg(test)]
mod thousand;
#[cfg(test)]
mod uses;
