//! The program: the words of the command line, standard input and output, and the exit code.
#![tactic(auto)]

use law_cli::{code, run};
use law_io::{StdSink, StdSource};
use std::alloc::AllocError;
use std::env;
use std::io::ErrorKind;
use std::process::ExitCode;
use std::rt::Env;

/// The exit code where memory runs out before the call.
const OUT_OF_MEMORY: u8 = 9;

fn main(rt: HostRuntime) -> ExitCode {
    let Ok(words) = words(&rt) else {
        return ExitCode::from(OUT_OF_MEMORY);
    };
    let mut input = StdSource::new(rt.stdin());
    let mut out = StdSink::new(rt.stdout());
    let status = run(rt.alloc(), words.as_slice(), &mut input, &mut out);
    ExitCode::from(code(&status))
}

/// The words after the program's own name; none where one of them isn't text.
fn words<R: Env + AllocGlobal>(rt: &R) -> Result<Vec<String>, AllocError> {
    let mut words = Vec::new(rt.alloc());
    match env::args(rt) {
        Ok(all) => {
            for word in all.skip(1) {
                words.push(word)?;
            }
        }
        Err(error) => {
            if error.kind() == ErrorKind::OutOfMemory {
                return Err(AllocError);
            }
        }
    }
    Ok(words)
}
