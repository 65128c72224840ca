// Values of a standard path's hops: how long one lives, and how its MAC changes the segment id. Names follow the Rust's
// proto/dataplane_path/standard.
#![tactic(auto)]

pub mod mac;
pub mod types;
