//! The judge for a caller in C, while what it judges still runs. `include/mqjudge.h` declares each
//! exported function, and says what a caller must keep.
#![tactic(auto)]

mod about;
mod answer;
mod asking;
mod calls;
mod event;
mod exports;
mod fault;
mod handle;
mod laws;
mod live;
mod loose;
mod pointer;
mod taking;
mod turn;
mod version;
mod writing;
