//! The program `diag`.
#![tactic(auto)]

use device_files::{Refusal, tell};
use diag_cli::{FileShelf, StdSink, StdSource, diag};
use std::io;
use std::process::ExitCode;
use system_edge::words_of;

fn main(rt: HostRuntime) -> ExitCode {
    let alloc = rt.alloc();
    let mut out = StdSink::new(io::writer(&rt));
    let mut input = StdSource::new(rt.reader());
    let Ok(words) = words_of(&rt, alloc) else {
        return ExitCode::from(tell(&mut out, Refusal::Memory).number());
    };
    let mut shelf = FileShelf::new(rt);
    ExitCode::from(diag(alloc, &words, &mut shelf, &mut input, &mut out))
}
