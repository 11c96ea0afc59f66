//! Files and sinks in memory, and their calls that fail.
use diag_edge::{LoadError, MemShelf, MemSink, Sink, TallySink, WriteFailed, load, put_line};
use std::alloc::{AllocError, Global};
use std::test::Fail;

// A name, the limit, the number of the call that fails (0 if none does), and the file.
const LOADS: [(&str, usize, u64, Result<&str, LoadError>); 6] = [
    ("a", 3, 0, Ok("abc")),
    ("empty", 0, 0, Ok("")),
    ("a", 2, 0, Err(LoadError::Long { limit: 2 })),
    ("a", 3, 1, Err(LoadError::Failed)),
    ("a", 3, 3, Err(LoadError::Failed)),
    ("b", 3, 0, Err(LoadError::Failed)),
];

/// Of two files with one name, the first is loaded. A file that is too long or a call that fails is an error.
#[test]
fn loads_files(rt: HostRuntime) -> Result<(), Fail> {
    let alloc = rt.alloc();
    for (name, limit, failing, want) in LOADS {
        let mut files = Vec::new(alloc);
        for (name, text) in [("a", "abc"), ("empty", ""), ("a", "another")] {
            let bytes = Vec::from_slice(alloc, text.as_bytes())?;
            files.push((String::from_str(alloc, name)?, bytes))?;
        }
        let mut shelf = MemShelf::new(files, vec![in alloc; failing]?);
        assert!(rt; limit < 10);
        match (load(alloc, &mut shelf, name, limit), want) {
            (Ok(file), Ok(text)) => assert_eq!(rt; file.as_slice(), text.as_bytes()),
            (Err(error), Err(want)) => assert_eq!(rt; error, want),
            _ => assert!(rt; false, "{name} at {limit}"),
        }
    }
    Ok(())
}

// Returns `count` letters x.
fn letters(alloc: Global, count: usize) -> Result<Vec<u8>, AllocError> {
    vec![in alloc; b'x'; count]
}

/// A sink keeps what fits, even of a write that fails. A line is put whole, even if its words are longer than a chunk.
#[test]
fn puts_lines(rt: HostRuntime) -> Result<(), Fail> {
    let alloc = rt.alloc();
    let mut sink = MemSink::new(alloc, 8, vec![in alloc; 2]?, 2)?;
    for (text, want) in [
        ("abc", Ok(())),
        ("defg", Err(WriteFailed)),
        ("fg", Ok(())),
        ("hi", Err(WriteFailed)),
    ] {
        assert_eq!(rt; sink.put(text.as_bytes()), want, "{text}");
    }
    assert_eq!(rt; sink.as_slice(), "abcdefgh".as_bytes());
    let long = letters(alloc, 5000)?;
    let mut tally = TallySink::new();
    assert_eq!(rt; put_line(&mut tally, &[b"a", &long, &long, b"b"]), Ok(()));
    assert_eq!(rt; tally.count(), 10_006);
    Ok(())
}
