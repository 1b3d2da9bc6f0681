//! Cases of coding and of what plans ask of nodes, from the field's products up to a repair's end: worked examples, the
//! shares of another library, a search through all codewords, stripes beside the plain decoding of their columns, verdicts,
//! bad pieces, windows beside the whole, and nodes in memory that are honest, altered, missing or silent. They stand here, so
//! that `gf256`, `gf_linear`, `rs_stripe`, `bw_decode`, `audit_core`, `repair_core` and `node_asks` are proved once and not
//! again with their tests.
#![tactic(auto)]

#[cfg(test)]
mod asked_audits;
#[cfg(test)]
mod asked_repairs;
#[cfg(test)]
mod columns;
#[cfg(test)]
mod encoding;
#[cfg(test)]
mod endings;
#[cfg(test)]
mod errors;
#[cfg(test)]
mod field;
#[cfg(test)]
mod judging;
#[cfg(test)]
mod places;
#[cfg(test)]
mod plain;
#[cfg(test)]
mod random;
#[cfg(test)]
mod repairs;
#[cfg(test)]
mod schemes;
#[cfg(test)]
mod spreads;
#[cfg(test)]
mod stripes;
#[cfg(test)]
mod systems;
#[cfg(test)]
mod vectors;
#[cfg(test)]
mod whole;
#[cfg(test)]
mod windows;
#[cfg(test)]
mod windows_of_whole;
