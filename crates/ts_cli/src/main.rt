//! The program. Its `main` gives the words, the system's files and the standard output to
//! `ts_top::run`, and ends with the status that this answers. Where that says nothing whole on
//! standard output, it tells the cause on standard error.
#![tactic(auto)]

mod noted;
mod request;
mod say;
#[cfg(test)]
mod tests;
mod trouble;

use noted::Noted;
use request::{Request, request_of};
use say::say;
use spec_output::Status;
use std::alloc::AllocError;
use std::env;
use std::io::ErrorKind;
use std::process::ExitCode;
use std::rt::Env;
use std::sync::Wait;
use std::thread::Threads;
use trouble::tell;
use ts_io::{Folder, FreeGate, OsFolder, OutSink, Sink};
use ts_lines::number;
use ts_query_syntax::Builder;
use ts_top::AsciiHost;

const HELP: &str = "\
hemshale parses texts by Tree-sitter grammars, and replays or runs clients that edit and query
texts.

  hemshale parse GRAMMAR TEXT           print the tree of the file TEXT by the grammar GRAMMAR
  hemshale compile GRAMMAR              write the language file of the grammar GRAMMAR
  hemshale replay GRAMMAR SCRIPT ORDER  run the clients' steps in the file SCRIPT in this order of
                                        clients, as 0,1,0, and print each version and each reply
  hemshale run GRAMMAR SCRIPT           run the clients in the file SCRIPT at once, each on a
                                        thread of its own, and print each version and each reply
  hemshale --help                       print this
  hemshale --version                    print the version

Status: 0 done, 1 usage, 2 read fault, 3 write fault, 4 out of memory, 5 grammar, 6 query,
        7 script, 8 no such file, 9 text. At 2, 3 and 4 a line on standard error says more.
";

const VERSION: &str = "hemshale 0.1.0\n";

fn main(rt: HostRuntime) -> ExitCode {
    let mut sink = OutSink::new(&rt);
    let mut folder = Noted::new(OsFolder::new(&rt));
    let status = match words(&rt) {
        Ok(words) => match request_of(words.as_slice()) {
            Request::Help => number(say(&mut sink, HELP)),
            Request::Version => number(say(&mut sink, VERSION)),
            Request::Command => command(&rt, words.as_slice(), &mut folder, &mut sink),
        },
        Err(AllocError) => number(Status::OutOfMemory),
    };
    tell(&rt, status, folder.failed());
    ExitCode::from(status)
}

/// Runs the words with a host that has the predicate `ascii?`, and with clients that no gate holds,
/// and answers the number of a status.
fn command<R: AllocGlobal + Threads + Wait + Sync, F: Folder, S: Sink>(
    rt: &R,
    words: &[String],
    folder: &mut F,
    sink: &mut S,
) -> u8 {
    let mut patterns = Builder::new(rt.alloc(), Vec::new(rt.alloc()));
    match AsciiHost::new(rt.alloc()) {
        Ok(hosts) => ts_top::run(rt, words, folder, sink, &FreeGate, &hosts, &mut patterns),
        Err(AllocError) => number(Status::OutOfMemory),
    }
}

/// The words after the program's name. Where one of them is no text there are none, and so no
/// command.
fn words<R: Env + AllocGlobal>(rt: &R) -> Result<Vec<String>, AllocError> {
    match env::args(rt) {
        Ok(args) => args.skip(1).collect(rt.alloc()),
        Err(error) if error.kind() == ErrorKind::OutOfMemory => Err(AllocError),
        Err(_) => Ok(Vec::new(rt.alloc())),
    }
}
