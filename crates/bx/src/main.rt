//! The program: its words and the standard streams, handed to `run_program`.
#![tactic(auto)]

use bx_cli::run_program;
use std::process::ExitCode;

fn main(rt: HostRuntime) -> ExitCode {
    ExitCode::from(run_program(&rt))
}
