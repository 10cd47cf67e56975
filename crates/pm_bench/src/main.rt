//! Runs one call of the libraries on an input that is made by arithmetic, and prints a checksum of the answer, so that
//! the call can be measured from outside.
//!
//! The words behind the program's name are the call, `code`, `arrange`, `parts`, `choices`, `tree`, `grow` or `ungrow`,
//! then the size of its input, and for the last four a shape, `drawn` or `path`. With other words the status is 1, and a
//! line goes to standard error.
#![tactic(auto)]

mod inputs;
mod orders;
#[cfg(test)]
mod tests;
mod work;

use orders::Order;
use std::process::ExitCode;
use std::rt::Env;
use std::{env, io};

// The words behind the program's name.
fn words(rt: &(impl Env + AllocGlobal)) -> io::Result<Vec<String>> {
    let mut words = Vec::new(rt.alloc());
    for word in env::args(rt)?.skip(1) {
        words.push(word)?;
    }
    Ok(words)
}

fn main(rt: HostRuntime) -> ExitCode {
    let Ok(words) = words(&rt) else {
        return ExitCode::FAILURE;
    };
    let Some(order) = Order::of_words(&words) else {
        let _ = eprintln!(rt;
            "pm_bench: words: code N, arrange N, parts N, or choices, tree, grow or ungrow with N SHAPE"
        );
        return ExitCode::FAILURE;
    };
    let Ok(sum) = work::run(rt.alloc(), &order) else {
        let _ = eprintln!(rt; "pm_bench: memory");
        return ExitCode::FAILURE;
    };
    let Ok(()) = println!(rt; "{sum}") else {
        return ExitCode::FAILURE;
    };
    ExitCode::SUCCESS
}
