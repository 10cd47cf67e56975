//! PlanarMap: closes blossoming trees into rooted planar maps.
//!
//! The words behind the program's name are a command; it reads standard input, writes its answer to standard output and,
//! where there is none, a line to standard error.
#![tactic(auto)]

#[cfg(test)]
mod limit_tests;
#[cfg(test)]
mod tests;

use pm_io::{StdSinkErr, StdSinkOut, StdSource};
use std::process::ExitCode;
use std::rt::Env;
use std::{env, io};

// The words behind the program's name.
fn words(rt: &(impl Env + AllocGlobal)) -> io::Result<Vec<String>> {
    let mut words = Vec::new(rt.alloc());
    for word in env::args(rt)?.skip(1) {
        words.push(word)?;
    }
    Ok(words)
}

fn main(rt: HostRuntime) -> ExitCode {
    let Ok(words) = words(&rt) else {
        return ExitCode::FAILURE;
    };
    if words.len() > u32::MAX as usize {
        return ExitCode::FAILURE;
    }
    let mut input = StdSource::new(rt.stdin());
    let mut out = StdSinkOut::new(rt.stdout());
    let mut err = StdSinkErr::new(rt.stderr());
    let status = pm_cli::run(rt.alloc(), &words, &mut input, &mut out, &mut err);
    ExitCode::from(status)
}
