//! What workers at one desk did, one thing after another, whatever their calls, replies and base are. Contracts speak of
//! workers in these words:
//!
//! - `Entered`: what calls leave of a pass, and `Does`: one thing that was done, with the entries that it made.
//! - `Runs`: a list of these, each from where the one before it ended, so that a loop keeps one fact. Over the history
//!   that the pass has seen, or any that begins with it, it is `Acts`; and `HasDone` says it of the one number in the
//!   history of a pass into which the worker's was joined.
//! - `Gathered`: a pass that was split for workers and joined again has all its rights and nothing new of its own.
//! - `Apart`, `Covers` and `times_named`: which workers' numbers stand in a history.
//!
//! The laws are [`entered_calls_add_up`], [`joined_passes_keep`], [`workers_are_gathered`] and
//! [`each_place_is_named_once`]. What is told of a list of things (`proofs/Running.antt`, `Doing.antt`) are lemmas for
//! the contracts of workers, since it is stated over whatever a worker tells.
#![tactic(auto)]

mod laws;

pub use laws::{
    each_place_is_named_once, entered_calls_add_up, joined_passes_keep, workers_are_gathered,
};
