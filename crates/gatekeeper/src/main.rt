//! The program `gatekeeper`: runs `gatekeeper_runner` with the words, files and streams of the system.
#![tactic(auto)]

use gatekeeper_runner::exit_code;
use host::on_this_system;
use std::process::ExitCode;

fn main(rt: HostRuntime) -> ExitCode {
    on_this_system!(exit_code, rt)
}
