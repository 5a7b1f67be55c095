// A scan of the old program and of the moved one, side by side: what came of each, whether they are alike, and the inputs that both are given. It does
// not scan; the pair of scans stands in the crate memory_scans.
#![tactic(auto)]

pub mod images;
pub mod turn;
