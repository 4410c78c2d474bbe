//! `mqjudge` judges the log of one end of an MQTT 5.0 session.
#![tactic(auto)]

use mq_host::{Failure, Outlet, System};
use mq_tasks::{Meter, run};
use std::io::{BufWriter, IsTerminal};
use std::process::ExitCode;

// Gives the program the system, its streams and a meter. Without memory for the output's buffer it
// only says so, and fails.
fn main(rt: HostRuntime) -> ExitCode {
    let alloc = rt.alloc();
    let mut system = System { rt: &rt };
    let mut error = rt.stderr();
    let mut progress = Meter::new(rt.stderr(), rt.stderr().is_terminal());
    let status = match BufWriter::new(alloc, rt.stdout()) {
        Ok(output) => run(
            alloc,
            &mut system,
            &mut Outlet::new(output),
            &mut error,
            &mut progress,
        ),
        Err(_) => Failure::Memory.report(&mut error),
    };
    ExitCode::from(status)
}
