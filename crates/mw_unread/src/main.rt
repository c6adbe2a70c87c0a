//! The program again, for a stored run that is a refusal.
#![tactic(auto)]

use mw_cli::{mw_process, words_of};
use mw_io::{RealHost, RealSink};
use std::process::ExitCode;

fn main(rt: HostRuntime) -> ExitCode {
    let mut host = RealHost::new(&rt);
    let mut out = RealSink::new(rt.stdout());
    let mut err = RealSink::new(rt.stderr());
    mw_process(rt.alloc(), words_of(&rt), &mut host, &mut out, &mut err)
}
