//! The program: its words, the files of the system, standard output and standard error.
#![tactic(auto)]

use host_run::host;
use outside_kit::{FileStore, StreamSink};
use std::process::ExitCode;
use std::rt::Env;
use std::{env, io};

/// The exit status where the words can't be had.
const NO_WORDS: u8 = 217;

fn main(rt: HostRuntime) -> ExitCode {
    let Ok(words) = words_of(&rt) else {
        return ExitCode::from(NO_WORDS);
    };
    let alloc = rt.alloc();
    let mut out = StreamSink::new(rt.stdout());
    let mut err = StreamSink::new(rt.stderr());
    let mut store = FileStore::new(rt);
    ExitCode::from(host(alloc, &words, &mut store, &mut out, &mut err))
}

/// The words of the call, without the program's name.
fn words_of(rt: &(impl Env + AllocGlobal)) -> io::Result<Vec<String>> {
    let mut words = Vec::new(rt.alloc());
    for word in env::args(rt)?.skip(1) {
        words.push(word)?;
    }
    Ok(words)
}
