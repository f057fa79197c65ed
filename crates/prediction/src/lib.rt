// Vectors and samples; and, under specs/, the definitions of VP8's luma prediction. The filters' code stands in the crates `sixtap`
// and `bilinear`, the fetches' in `fetch`.
#![tactic(auto)]

pub mod ceiling;
pub mod inverse_transform;
pub mod motion_comp;
pub mod motion_vector;
