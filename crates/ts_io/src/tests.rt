//! Each folder and each sink on its happy path and at a fault, those of the system among them. That
//! the standard output has the bytes that were put shows in the stored run of the program.
use crate::{Folder, Found, MemFolder, MemSink, OsFolder, OutSink, ReadFault, WriteFault, put};
use std::alloc::{AllocError, Global};
use std::fs;
use std::test::Fail;

fn bytes(alloc: Global, text: &str) -> Result<Vec<u8>, AllocError> {
    Vec::from_slice(alloc, text.as_bytes())
}

fn file(alloc: Global, path: &str, text: &str) -> Result<(String, Vec<u8>), AllocError> {
    Ok((String::from_str(alloc, path)?, bytes(alloc, text)?))
}

#[test]
fn reads_the_first_of_equal_paths(rt: HostRuntime) -> Result<(), Fail> {
    let alloc = rt.alloc();
    let files = vec![in alloc;
        file(alloc, "g", "abc")?,
        file(alloc, "g", "d")?,
        file(alloc, "t", "")?,
    ]?;
    let mut folder = MemFolder::new(files, vec![in alloc; 5]?);
    assert_eq!(rt;
        folder.read(alloc, "g", 3),
        Ok(Found::Bytes(bytes(alloc, "abc")?))
    );
    assert_eq!(rt; folder.read(alloc, "g", 2), Ok(Found::Over));
    assert_eq!(rt;
        folder.read(alloc, "t", 0),
        Ok(Found::Bytes(bytes(alloc, "")?))
    );
    assert_eq!(rt; folder.read(alloc, "tt", 9), Ok(Found::Absent));
    assert_eq!(rt; folder.read(alloc, "", 9), Ok(Found::Absent));
    assert_eq!(rt; folder.read(alloc, "g", 3), Err(ReadFault::Failed));
    assert_eq!(rt;
        folder.read(alloc, "g", 3),
        Ok(Found::Bytes(bytes(alloc, "abc")?))
    );
    Ok(())
}

#[test]
fn puts_all_by_pieces_of_three(rt: HostRuntime) -> Result<(), Fail> {
    let alloc = rt.alloc();
    let mut sink = MemSink::new(alloc, 3, vec![in alloc; 3]?)?;
    assert_eq!(rt; put(&mut sink, b"tree-sit"), Ok(()));
    assert_eq!(rt; sink.bytes(), b"tree-sit".as_slice());
    assert_eq!(rt; put(&mut sink, b"ter"), Err(WriteFault::Failed));
    assert_eq!(rt; sink.bytes(), b"tree-sit".as_slice());
    assert_eq!(rt; put(&mut sink, b"ter"), Ok(()));
    assert_eq!(rt; sink.bytes(), b"tree-sitter".as_slice());
    Ok(())
}

#[test]
fn keeps_what_was_put_before_a_fault(rt: HostRuntime) -> Result<(), Fail> {
    let alloc = rt.alloc();
    let mut sink = MemSink::new(alloc, 1, vec![in alloc; 5]?)?;
    assert_eq!(rt; put(&mut sink, b"{\"nodes\":[]}"), Err(WriteFault::Failed));
    assert_eq!(rt; sink.bytes(), b"{\"nod".as_slice());
    Ok(())
}

#[test]
fn reads_a_real_file(rt: HostRuntime) -> Result<(), Fail> {
    let alloc = rt.alloc();
    let long = vec![in alloc; 7_u8; 10_000]?;
    fs::write(&rt, "long", long.as_slice())?;
    fs::write(&rt, "empty", "")?;
    let mut folder = OsFolder::new(rt.clone()?);
    assert_eq!(rt;
        folder.read(alloc, "empty", 0),
        Ok(Found::Bytes(Vec::new(alloc)))
    );
    assert_eq!(rt; folder.read(alloc, "long", 9_999), Ok(Found::Over));
    let found = folder.read(alloc, "long", 10_000);
    assert!(rt; found == Ok(Found::Bytes(long)));
    assert_eq!(rt; folder.read(alloc, "none", 10), Ok(Found::Absent));
    assert_eq!(rt; folder.read(alloc, ".", 10), Err(ReadFault::Failed));
    Ok(())
}

#[test]
fn writes_the_standard_output(rt: HostRuntime) -> Result<(), Fail> {
    let mut sink = OutSink::new(rt.clone()?);
    assert_eq!(rt; put(&mut sink, b"written\n"), Ok(()));
    Ok(())
}
