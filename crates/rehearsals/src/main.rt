//! Runs scripts of which each has a store of its own, one after the other, and prints their accounts.
#![tactic(auto)]

use console::session::Session;
use running::rehearse;
use std::process::ExitCode;

const SCRIPTS: [&str; 3] = ["store.script", "faults.script", "late.script"];

fn main(rt: HostRuntime) -> ExitCode {
    rehearse::<Session, HostRuntime>(&rt, &SCRIPTS)
}
