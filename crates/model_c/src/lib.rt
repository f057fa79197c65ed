// The calls of `model`, exported for C: each under its name there, with its clauses. include/vp8model.h declares them.
#![tactic(auto)]

pub mod allowance_calls;
pub mod denoiser_calls;
pub mod fetch_calls;
pub mod prediction_calls;
pub mod search_calls;
