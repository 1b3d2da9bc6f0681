//! The field of 256 elements over which Reed-Solomon codes are computed.
//!
//! A byte stands for the polynomial over the two-element field in which its bit k is the coefficient of x^k. The sum
//! of two bytes is that of the polynomials, which is their bitwise exclusive or. The product is that of the
//! polynomials modulo x^8 + x^4 + x^3 + x^2 + 1, whose coefficients are the bits of 0x11D. Each byte but 0 is a power
//! of 2.
//!
//! Single bytes go by [`add`], [`mul`], [`inv`] and [`pow`]: the field's, by tables that the prover itself compares
//! with the carry-less product, reduced. Slices go by [`mul_add`] and [`same`], 32 bytes a step, and equal the plain
//! definition for every length. [`split`] cuts bytes into halves, and [`combine`] writes the sum of rows, each times
//! its weight, from them.
//!
//! The laws of the field are the clauses of [`field_laws`]: associative, commutative, distributive, inverses, no zero
//! divisors. Nothing here takes memory.
//!
//! Not promised: that the time of a call tells nothing of its bytes. [`same`] stops at the first difference.
#![tactic(auto)]

mod field;
mod halves;
mod lanes;
mod tables;

pub use field::{add, field_laws, inv, mul, pow};
pub use halves::{combine, split};
pub use lanes::{mul_add, same};
