// Replays a list of the oracle's answers on the library's routines, so that the gate needs no Rust: each case prints the routine, the refusal's number and
// what was written. `stdout` holds what the original, or the exact steps written independently, gave for the same arguments: oracle/replay.py made both
// from `oracle/run sample` (a case of each routine, at the sets least and halves) and, for the published sets, from the original's text.
#![tactic(auto)]

mod key_cases;
mod published_cases;
mod rotation_cases;
mod show;
mod tlwe_cases;
mod trgsw_cases;
mod trlwe_cases;

use std::io;

fn main(rt: HostRuntime) -> io::Result<()> {
    published_cases::run(&rt)?;
    tlwe_cases::run(&rt)?;
    trlwe_cases::run(&rt)?;
    key_cases::run(&rt)?;
    rotation_cases::run(&rt)?;
    trgsw_cases::run(&rt)
}
