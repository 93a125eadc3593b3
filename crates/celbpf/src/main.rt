//! The program `celbpf`: runs `review_runner` with the words, files and streams of the system.
#![tactic(auto)]

use host::on_this_system;
use review_runner::exit_code;
use std::process::ExitCode;

fn main(rt: HostRuntime) -> ExitCode {
    on_this_system!(exit_code, rt)
}
