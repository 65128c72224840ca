// A book of segments as a whole: the answer about it alone, and where its entries start. Every function
// answers for any bytes: what lies past the book's end reads as 0.
#![tactic(auto)]

mod answer;
mod body;
mod marks;
mod numbers;
mod offsets;
mod single_pass;
mod sizes;
mod twice;

pub use answer::{open, verdict};
pub use offsets::PLACES;
