//! The words of a command line, as pairs of a name and a value in any order, and what the values say.
//!
//! - [`has_form`] says whether the words behind the command are such pairs, each name out of the command's table and none
//!   twice. [`value`] is the value of a name.
//! - [`number_in`], [`number_or_in`], [`secret_in`] and [`secret_or_none_in`] read a value, exactly where it is within its
//!   bounds.
//!
//! `specs/Pairs.antt` has the form, `specs/Values.antt` the values. None of it takes memory.
#![tactic(auto)]

mod pairs;
mod values;

pub use pairs::{has_form, value};
pub use values::{number_in, number_or_in, secret_in, secret_or_none_in};
