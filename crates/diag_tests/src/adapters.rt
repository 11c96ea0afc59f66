use diag_edge::{Sink, Source};
use std::io;
use std::io::{ErrorKind, Read, Write};
use std::test::Fail;
use system_edge::{StdSink, StdSource};

/// Moves at most three bytes a call. Every other call is interrupted.
#[derive(Drop)]
struct Slow<T> {
    inner: T,
    is_interrupted: bool,
}

impl<T> Slow<T> {
    fn new(inner: T) -> Self {
        Slow {
            inner,
            is_interrupted: false,
        }
    }

    fn turn(&mut self, len: usize) -> io::Result<usize> {
        self.is_interrupted = !self.is_interrupted;
        if self.is_interrupted {
            return Err(io::Error::from(ErrorKind::Interrupted));
        }
        Ok(len.min(3))
    }
}

impl<T: Read> Read for Slow<T> {
    fn read(&mut self, into: &mut [u8]) -> io::Result<usize> {
        let len = self.turn(into.len())?.min(into.len());
        self.inner.read(&mut into[..len])
    }
}

impl<T: Write> Write for Slow<T> {
    fn write(&mut self, bytes: &[u8]) -> io::Result<usize> {
        let len = self.turn(bytes.len())?.min(bytes.len());
        self.inner.write(&bytes[..len])
    }

    fn flush(&mut self) -> io::Result<()> {
        Ok(())
    }
}

#[test]
fn writes_all_that_is_put(rt: HostRuntime) -> Result<(), Fail> {
    let mut kept = Vec::new(rt.alloc());
    {
        let mut out = StdSink::new(Slow::new(&mut kept));
        assert_eq!(rt; out.put(b"S min 1 "), Ok(()));
        assert_eq!(rt; out.put(b""), Ok(()));
        assert_eq!(rt; out.put(b"10\n"), Ok(()));
    }
    assert_eq!(rt; kept.as_slice(), "S min 1 10\n".as_bytes());
    Ok(())
}

#[test]
fn reads_all_that_comes(rt: HostRuntime) -> Result<(), Fail> {
    let mut input = StdSource::new(Slow::new(b"open S".as_slice()));
    let mut into = [0u8; 8];
    let first = input.read(&mut into)?;
    assert_eq!(rt; &into[..first], "ope".as_bytes());
    let second = input.read(&mut into)?;
    assert_eq!(rt; &into[..second], "n S".as_bytes());
    assert_eq!(rt; input.read(&mut into), Ok(0));
    Ok(())
}
