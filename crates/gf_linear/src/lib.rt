//! Linear systems over the field of 256 elements, and the laws of polynomials over it.
//!
//! - [`solve`] is exact both ways: a solution of the system as it stood at entry, with 0 at every unknown without a
//!   pivot, or none exactly where no list solves it. It takes no memory, and uses up the entries of its [`Matrix`].
//! - [`one_polynomial`]: values at k distinct points fix one polynomial below degree k, and there is one for any
//!   values.
//! - [`few_roots`]: a polynomial below degree k that isn't zero has fewer than k roots.
//!
//! [`Matrix`] is a plain table of bytes.
//!
//! Not promised: which solution is found where an unknown is free, other than that it is 0 there.
#![tactic(auto)]

mod elimination;
mod laws;
mod matrix;

pub use elimination::{Solved, solve};
pub use laws::{few_roots, one_polynomial};
pub use matrix::Matrix;
