// The luma motion searches of VP8: SADs, the small diamond, half and quarter refinement.
#![tactic(auto)]

mod diamond;
pub mod motion_search;
mod refinement;
mod refusals;
mod sads;
mod targets;
mod vectors;
