//! Systematic Reed-Solomon coding of stripes over the field of 256 elements.
//!
//! Share j of k data bytes is the value at point j of the one polynomial below degree k whose values at 0 up to k - 1
//! are the data (Reed and Solomon, "Polynomial Codes over Certain Finite Fields", 1960), so that the first k shares
//! are the data.
//!
//! A segment is padded with zeros to whole stripes. A stripe is k rows, each as long as a share, and byte c of its
//! share j is share j of column c, the bytes c of the rows. A piece is the shares of one index of all stripes, in
//! order.
//!
//! - [`encode_column`] and [`interpolate`] give values of the polynomial through the points, in the textbook's words
//!   of coefficient lists and by Lagrange's formula.
//! - [`encode_share`] and [`encode_piece`] give exactly the share of a stripe and the piece of a segment.
//! - [`encode_pieces`] gives the pieces of many indexes, by an [`Encoder`]: the weights of all shares are found once,
//!   and the bytes of a stripe are cut into halves once for all its shares.
//! - [`share_is_data`] and [`one_share`]: the first k shares are the data, and a share is one.
//!
//! What is encoded or interpolated again and again goes by divisors that are found once ([`find_divisors`],
//! [`find_share_divisors`]). Only pieces and an encoder take memory.
//!
//! Not promised: anything of shares that come from elsewhere. That is `bw_decode`.
#![tactic(auto)]

mod encoder;
mod encoding;
mod interpolation;
mod laws;
mod pieces;
mod weights;

pub use encoder::Encoder;
pub use encoding::{
    encode_column, encode_column_with, encode_piece, encode_share, encode_share_with,
};
pub use interpolation::interpolate;
pub use laws::{one_share, share_is_data};
pub use pieces::encode_pieces;
pub use weights::{find_divisors, find_share_divisors, find_weights, interpolate_with};
