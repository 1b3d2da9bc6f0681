//! Cases of asking storage nodes: gathers, readings, and asks over loopback. The nodes
//! of the cases are listeners in threads of their own, at ports that the system picks.
//!
//! Expected values are those of the formats, by hand.
#![tactic(auto)]

#[cfg(test)]
mod deliveries;
#[cfg(test)]
mod gathers;
#[cfg(test)]
mod node;
#[cfg(test)]
mod nodes;
#[cfg(test)]
mod patience;
#[cfg(test)]
mod readings;
#[cfg(test)]
mod requests;
#[cfg(test)]
mod storage;
