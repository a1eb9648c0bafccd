//! Reads a script of calls, performs them, and prints an account of them.
#![tactic(auto)]

use journal_console::session::Session;
use running::station;
use std::process::ExitCode;

fn main(rt: HostRuntime) -> ExitCode {
    station::<Session, HostRuntime>(&rt)
}
