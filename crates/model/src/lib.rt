// The model's calls with the numbers that C gets: each call of the table in docs/MODEL.md, section 7, under a name that begins
// with vp8model. The crate model_c exports them.
#![tactic(auto)]

pub mod allowance_calls;
pub mod denoiser_calls;
pub mod fetch_calls;
mod filled;
pub mod prediction_calls;
pub mod search_calls;
