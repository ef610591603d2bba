//! The command-line program: renders a template over a JSON context, or tells the names that it uses.
#![tactic(auto)]

use std::process::ExitCode;
use std::{env, io};
use template_program_run::{refuse_arguments, start};

fn main(rt: HostRuntime) -> ExitCode {
    match run(&rt) {
        Ok(status) => ExitCode::from(status),
        Err(error) => ExitCode::from(refuse_arguments(&error, &mut rt.stderr())),
    }
}

// Hands the words, the streams and the files to the program's body.
fn run(rt: &HostRuntime) -> io::Result<u8> {
    let given: Vec<String> = env::args(rt)?.skip(1).collect(rt.alloc())?;
    let mut words = Vec::new(rt.alloc());
    for word in &given {
        words.push(word.as_str())?;
    }
    let (status, _stdout) = start(
        rt,
        words.as_slice(),
        &mut rt.stdin(),
        rt.stdout(),
        &mut rt.stderr(),
    );
    Ok(status)
}
