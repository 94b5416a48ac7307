// The static library: each call of the bench, for C and Rust. A call returns the refusal's number, 0 for none, and
// writes its values through references, unless it is refused.
#![tactic(auto)]

mod campaigns;
mod crossing;
mod files;
mod lists;
mod pair_lists;
mod tariffs;
