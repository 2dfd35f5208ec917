//! Answers questions on a time zone: lines from standard input, a line of answer to each on
//! standard output.
#![tactic(auto)]

use std::io::BufWriter;
use std::process::ExitCode;
use zoneq_lib::{RunError, Watched, report, run};

// Room for the answers to a block of input, so that a block's answers mostly leave in one write.
const OUTPUT: usize = 65536;

fn main(rt: HostRuntime) -> ExitCode {
    let ended = answer_all(&rt);
    let mut errors = Watched::new(rt.stderr());
    ExitCode::from(report(ended, &mut errors))
}

fn answer_all(rt: &HostRuntime) -> Result<(), RunError> {
    let Ok(output) = BufWriter::with_capacity(rt.alloc(), OUTPUT, rt.stdout()) else {
        return Err(RunError::Memory);
    };
    let mut reader = Watched::new(rt.stdin());
    let mut writer = Watched::new(output);
    run(rt.alloc(), &mut reader, &mut writer)
}
