// The program: the desk of the machine, the words of its command line, and the status that it ends with.
#![tactic(auto)]

use dp_command::run;
use dp_desk::HostDesk;
use dp_pool::Open;
use std::alloc::{AllocError, Global};
use std::env;
use std::io::ErrorKind;
use std::process::ExitCode;

// The status where an allocation was refused.
const OUT_OF_MEMORY: u8 = 7;

fn main(rt: HostRuntime) -> ExitCode {
    let alloc = rt.alloc();
    let mut desk = HostDesk::new(&rt);
    let status = match env::args(&rt) {
        Ok(arguments) => {
            let arguments: Result<Vec<String>, AllocError> = arguments.skip(1).collect(alloc);
            match arguments {
                Ok(arguments) => match words_of(alloc, &arguments) {
                    Ok(words) => run(&rt, alloc, words.as_slice(), &mut desk, &Open),
                    Err(AllocError) => OUT_OF_MEMORY,
                },
                Err(AllocError) => OUT_OF_MEMORY,
            }
        }
        Err(error) if error.kind() == ErrorKind::OutOfMemory => OUT_OF_MEMORY,
        // An argument that is no text is no word of any command.
        Err(_) => run(&rt, alloc, &[], &mut desk, &Open),
    };
    ExitCode::from(status)
}

// The words that the arguments are.
fn words_of(alloc: Global, arguments: &[String]) -> Result<Vec<&str>, AllocError> {
    let mut words = Vec::new(alloc);
    for argument in arguments {
        words.push(argument.as_str())?;
    }
    Ok(words)
}
