//! Runs scripts of which each has a store of its own, one after the other, and prints their accounts.
#![tactic(auto)]

use journal_console::session::Session;
use running::rehearse;
use std::process::ExitCode;

const SCRIPTS: [&str; 9] = [
    "store.script",
    "faults.script",
    "late.script",
    "tables.script",
    "tail.script",
    "marks.script",
    "unsteady.script",
    "openings.script",
    "fences.script",
];

fn main(rt: HostRuntime) -> ExitCode {
    rehearse::<Session, HostRuntime>(&rt, &SCRIPTS)
}
