// Runs a script of listings on standard input, and prints what its runs come to.
#![tactic(auto)]

use script::{Fault, perform};
use std::error::Error;
use std::io::ErrorKind;
use std::process::ExitCode;
use std::{fmt, io};

// Why a script is not carried out to its end.
#[derive(Debug, Drop)]
enum Failure {
    Input(io::Error),
    Output(io::Error),
    Script(Fault),
}

impl fmt::Display for Failure {
    fn fmt<W: fmt::Write>(&self, f: &mut fmt::Formatter<W>) -> fmt::Result {
        match self {
            Failure::Input(error) => match error.kind() {
                ErrorKind::InvalidData => f.write_str("the script is not text in UTF-8"),
                ErrorKind::OutOfMemory => f.write_str("there is not enough memory for the script"),
                _ => write!(f, "the script cannot be read: {error}"),
            },
            Failure::Output(error) => write!(f, "the output cannot be written: {error}"),
            Failure::Script(fault) => write!(f, "{fault}"),
        }
    }
}

impl Error for Failure {}

// What a script prints before a fault is written too.
fn carry_out(rt: &HostRuntime) -> Result<(), Failure> {
    let text = io::read_to_string(rt.alloc(), rt.stdin()).map_err(Failure::Input)?;
    let transcript = perform(rt.alloc(), text.as_str());
    rt.print(transcript.output.as_str())
        .map_err(Failure::Output)?;
    transcript
        .fault
        .map_or(Ok(()), |fault| Err(Failure::Script(fault)))
}

fn main(rt: HostRuntime) -> ExitCode {
    match carry_out(&rt) {
        Ok(()) => ExitCode::SUCCESS,
        Err(failure) => {
            let _ = eprintln!(rt; "cma: {failure}");
            ExitCode::FAILURE
        }
    }
}
