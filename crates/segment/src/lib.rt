// The readers of a book of segments, over its bytes where they lie: sizes, heads, entries and peers.
// `spec` has the definitions that the contracts cite. Every function answers for any bytes: what lies
// past the book's end reads as 0.
#![tactic(auto)]

mod entries;
mod heads;

pub use entries::{entry_size, isd_asn};
pub use heads::{body_length, body_offset, entry_count, id, segment_count, sizes, timestamp};
