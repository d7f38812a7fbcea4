//! The light client for programs in C: each function of `kothaysu.h`, over `light_client`.
//!
//! Inputs are lent for the call, outputs are the caller's buffers, nothing is kept between calls, and calls may run on
//! any threads at once. Each call fills an [`Answer`] and returns its code; an output is written only if the code is 0.
#![tactic(auto)]

mod answer;
mod blaming;
mod buffers;
mod certificates;
mod chains;
mod digests;
mod finality;
mod listing;
mod version;
