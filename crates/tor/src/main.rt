//! The program `tor`: all that it does is in `tor_cli`.
#![tactic(auto)]

use std::process::ExitCode;
use tor_cli::program::run_program;

fn main(rt: HostRuntime) -> ExitCode {
    run_program(&rt, &rt)
}
