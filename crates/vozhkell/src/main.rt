//! The program: hands its arguments, standard input, output and error to `run_program`, and ends with its code.
#![tactic(auto)]

use std::env;
use std::process::ExitCode;
use vms_io::{StdSink, StdSource};
use vms_tool::{Histories, OpenGate, run_program};

fn main(rt: HostRuntime) -> ExitCode {
    let mut src = StdSource::make(rt.stdin());
    let mut out = StdSink::make(rt.stdout());
    let mut notes = StdSink::make(rt.stderr());
    let mut histories = Histories::make(rt.alloc());
    run_program(
        &rt,
        rt.alloc(),
        env::args(&rt),
        &mut src,
        &mut out,
        &mut notes,
        &OpenGate,
        &mut histories,
    )
}
