//! What tasks write to both outputs, and their status, without and with failures.

mod commands;
mod inquiring;
mod large;
mod meter;
mod reviewing;
