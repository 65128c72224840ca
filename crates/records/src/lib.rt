// The parts of solution and path records: read in a record's bytes, and as bytes. Every function answers for any
// bytes: what lies past a record's end reads as 0.
#![tactic(auto)]

mod path_record;
mod solution_record;

pub use path_record::{info, info_octets, interface, path_head, put_head};
pub use solution_record::{bit, cost, edge, edge_count, solution, solution_octets};
