//! The program `banthruy`: the commands over real files and outputs.
#![tactic(auto)]

use dy_build::run_words;
use dy_io::{HostFiles, HostSink};
use std::alloc::Global;
use std::env;
use std::io::{self, ErrorKind};
use std::process::ExitCode;

/// The words after the program's name.
fn words(rt: &HostRuntime, alloc: Global) -> io::Result<Vec<String>> {
    let mut words = Vec::new(alloc);
    for word in env::args(rt)?.skip(1) {
        words.push(word)?;
    }
    Ok(words)
}

fn main(rt: HostRuntime) -> ExitCode {
    let alloc = rt.alloc();
    match words(&rt, alloc) {
        Ok(words) => {
            let mut files = HostFiles::new(&rt);
            let mut out = HostSink::new(rt.stdout());
            let mut err = HostSink::new(rt.stderr());
            ExitCode::from(run_words(alloc, &words, &mut files, &mut out, &mut err))
        }
        Err(error) if error.kind() == ErrorKind::OutOfMemory => ExitCode::from(6),
        Err(_) => ExitCode::from(8),
    }
}
