//! Unique decoding of Reed-Solomon codewords, in columns and in stripes, after Berlekamp and Welch
//! ("Error correction for algebraic block codes", US patent 4633470, 1986; Justesen and Høholdt, "A
//! Course in Error-Correcting Codes").
//!
//! # A column
//!
//! There are r values y, each at its own point x of the field, and k data bytes are sought whose
//! codeword differs from the values at no more than e = (r - k) div 2 points. The codeword is a
//! polynomial f below degree k.
//!
//! - **What is solved.** An error locator is a polynomial l of degree e with the leading
//!   coefficient 1 that is 0 at each wrong point. With q = f l, the equation q(x) = y l(x) then
//!   holds at each point: where the value is right as y = f(x), and else as both sides are 0. As q
//!   is below degree k + e, the equations of the first k + e points say what it is, by
//!   interpolation, whatever l is. So the unknowns are the coefficients of l below its leading
//!   one, and each other point, of which there are e or e + 1, gives a linear equation
//!   ([`gf_linear::solve`]): what y l(x) is off the polynomial through the first ones. Where a
//!   near codeword exists, the system has a solution, and where it has none, nothing is near.
//! - **Why a solution gives the codeword.** Let f be near, l any solution, and q the polynomial
//!   that goes with it. At the right points, of which there are at least r - e, and so at least
//!   k + e, q and f l agree. Both are below degree k + e, so they are one polynomial. At each
//!   point where l is not 0, y l(x) = q(x) = f(x) l(x), so y = f(x). As l has at most e roots,
//!   there are at least r - e, and so at least k such points, and any k of them give f by
//!   interpolation.
//! - **Why nothing else is near.** Two codewords that are near the same values differ at no more
//!   than e + e points, agree at r - 2 e or more, which is at least k, and so are the same.
//!
//! A solution is found also where nothing is near. So the values that the polynomial read off
//! differs from are counted, and it is taken only where there are at most e.
//!
//! # A stripe
//!
//! A stripe is near r answers where at most e = (r - k) div 2 of them are altered: their bytes are
//! not the stripe's share at their index, or not as many. There is one near stripe at most
//! ([`one_near_stripe`]). To solve a system for each column would find it. But mostly few answers
//! are altered, so that a few systems do:
//!
//! 1. Some answers are known to be altered: at first those of wrong length. Where they are more
//!    than e, no stripe is near.
//! 2. The first k of the others predict the whole stripe, by sums of whole rows. Where the others
//!    are all its shares, it is near, as only the known ones are altered, and it is found.
//! 3. Else some other answer differs from the prediction in some column. Then one column of values is
//!    decoded: mostly a combination of all columns, the sum of each answer's bytes times factors, one
//!    factor for each column. The factors are the powers of one of four elements of the field. As
//!    encoding is linear, a combination of a stripe's shares is a codeword, that of the combination
//!    of its rows. So an answer that is altered in whatever column is off it, unless its alterations
//!    cancel. Only a combination is taken in which some other answer differs from the prediction, and
//!    where none of the four is one, the single column is. An answer of wrong length counts as a 0
//!    there. Where nothing is near, no stripe is, as a near stripe's values are near too. Else the
//!    codeword that is near is that of every near stripe, and each answer off it is known to be
//!    altered from then on. One more at least is: had all the others the codeword's values, then
//!    those that predicted would have predicted it, and none had differed. Then 1 again.
//!
//! So the count of solved systems, which [`Scratch`] keeps, rises by at most e + 1, and not at all below
//! k answers. That nothing is solved beside the count is not a clause.
//!
//! Only [`Scratch::new`] takes memory. Not promised: what was the stripe where more than e answers are
//! altered. Then another may be near, or none.
#![tactic(auto)]

mod answers;
pub mod column;
mod combination;
mod decoding;
mod laws;
mod outcome;
mod prediction;
mod scratch;
pub mod stripe;

pub use laws::one_near_stripe;
pub use outcome::{Column, Nearness};
pub use scratch::Scratch;
