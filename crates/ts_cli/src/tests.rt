//! What one word asks for, what a sink is told in pieces and at a fault, and what a folder notes.
use crate::noted::Noted;
use crate::request::{Request, request_of};
use crate::say::say;
use spec_output::Status;
use std::alloc::AllocError;
use ts_io::{Folder, Found, MemFolder, MemSink, ReadFault};

#[test]
fn asks_by_one_word(rt: HostRuntime) -> Result<(), AllocError> {
    for (line, want) in [
        ("--help", Request::Help),
        ("--version", Request::Version),
        ("", Request::Command),
        ("--help --help", Request::Command),
        ("parse --help t", Request::Command),
    ] {
        let mut words = Vec::new(rt.alloc());
        for word in line.split_whitespace() {
            words.push(String::from_str(rt.alloc(), word)?)?;
        }
        assert_eq!(rt; request_of(words.as_slice()), want, "at {line}");
    }
    Ok(())
}

#[test]
fn says_a_text(rt: HostRuntime) -> Result<(), AllocError> {
    let mut sink = MemSink::new(rt.alloc(), 3, Vec::new(rt.alloc()))?;
    assert_eq!(rt; say(&mut sink, "hemshale\n"), Status::Done);
    assert_eq!(rt; sink.bytes(), b"hemshale\n".as_slice());
    let mut failing = MemSink::new(rt.alloc(), 3, vec![in rt.alloc(); 1]?)?;
    assert_eq!(rt; say(&mut failing, "hemshale\n"), Status::WriteFault);
    assert_eq!(rt; failing.bytes(), b"hem".as_slice());
    Ok(())
}

#[test]
fn notes_the_path_of_a_failed_read(rt: HostRuntime) -> Result<(), AllocError> {
    let alloc = rt.alloc();
    let failing = vec![in alloc; 1, 2]?;
    let mut folder = Noted::new(MemFolder::new(Vec::new(alloc), failing));
    assert_eq!(rt; folder.read(alloc, "a", 9), Ok(Found::Absent));
    assert_eq!(rt; folder.failed(), None);
    assert_eq!(rt; folder.read(alloc, "b", 9), Err(ReadFault::Failed));
    assert_eq!(rt; folder.failed(), Some("b"));
    assert_eq!(rt; folder.read(alloc, "c", 9), Err(ReadFault::Failed));
    assert_eq!(rt; folder.read(alloc, "d", 9), Ok(Found::Absent));
    assert_eq!(rt; folder.failed(), Some("c"));
    Ok(())
}
