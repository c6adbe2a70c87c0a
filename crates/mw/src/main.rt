//! The program: makes the real host and streams, and does what the words ask for.
#![tactic(auto)]

use mw_cli::{mw_process, words_of};
use mw_io::{RealHost, RealSink};
use std::process::ExitCode;

fn main(rt: HostRuntime) -> ExitCode {
    let mut host = RealHost::new(&rt);
    let mut out = RealSink::new(rt.stdout());
    let mut err = RealSink::new(rt.stderr());
    mw_process(rt.alloc(), words_of(&rt), &mut host, &mut out, &mut err)
}
