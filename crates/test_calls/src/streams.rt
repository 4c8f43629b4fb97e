//! Readers and writers of std as the program's input and output (docs/rules/memory.md).
use eh_port::{Failed, HostSink, HostSource, Sink, Source, put_all};
use std::alloc::Global;
use std::io;
use std::io::{Cursor, ErrorKind, Read, Write};

/// Takes at most `most` bytes of each write, and keeps them.
#[derive(Drop)]
struct Slow {
    most: usize,
    kept: Vec<u8>,
}

impl Write for Slow {
    fn write(&mut self, buf: &[u8]) -> io::Result<usize> {
        let count = self.most.min(buf.len());
        self.kept.extend_from_slice(&buf[..count])?;
        Ok(count)
    }

    fn flush(&mut self) -> io::Result<()> {
        Ok(())
    }
}

/// A reader that gives one byte, and then fails.
#[derive(Drop)]
struct Broken {
    given: bool,
}

impl Read for Broken {
    fn read(&mut self, buf: &mut [u8]) -> io::Result<usize> {
        if self.given || buf.is_empty() {
            return Err(io::Error::from(ErrorKind::Other));
        }
        self.given = true;
        buf[0] = b'A';
        Ok(1)
    }
}

#[test]
fn an_input_is_read_to_its_end_and_once_more(rt: HostRuntime) {
    let mut input = HostSource {
        reader: Cursor::new(b"ABCDE".as_slice()),
        faults: 0,
    };
    for want in [b"AB".as_slice(), b"CD", b"E", b"", b""] {
        let mut buf = [0u8; 2];
        let taken = input.take(&mut buf);
        assert_eq!(rt; taken, Ok(want.len()));
        assert_eq!(rt; buf[..want.len().min(2)], *want);
    }
    assert_eq!(rt; input.faults, 0);
}

#[test]
fn a_byte_before_a_read_that_fails(rt: HostRuntime) {
    let mut input = HostSource {
        reader: Broken { given: false },
        faults: 0,
    };
    let mut buf = [0u8; 1];
    assert_eq!(rt; input.take(&mut buf), Ok(1));
    assert_eq!(rt; buf, *b"A");
    assert_eq!(rt; input.faults, 0);
}

#[test]
fn a_read_that_fails_is_a_fault_each_time(rt: HostRuntime) {
    let mut input = HostSource {
        reader: Broken { given: false },
        faults: 0,
    };
    let mut buf = [0u8; 1];
    let _first = input.take(&mut buf);
    for faults in [1u64, 2] {
        assert_eq!(rt; input.take(&mut buf), Err(Failed));
        assert_eq!(rt; input.faults, faults);
    }
}

/// An output that takes at most `most` bytes of each write.
fn sink_of(alloc: Global, most: usize) -> HostSink<Slow> {
    HostSink {
        writer: Slow {
            most,
            kept: Vec::new(alloc),
        },
        faults: 0,
    }
}

#[test]
fn an_output_may_take_a_byte_a_call(rt: HostRuntime) {
    let mut out = sink_of(rt.alloc(), 1);
    let whole = put_all(&mut out, b"Hello");
    let part = out.put(b"!?");
    assert_eq!(rt; (whole, part), (Ok(()), Ok(1)));
    assert_eq!(rt; out.writer.kept.as_slice(), b"Hello!".as_slice());
    assert_eq!(rt; out.faults, 0);
}

#[test]
fn nothing_is_put_without_a_fault(rt: HostRuntime) {
    let mut out = sink_of(rt.alloc(), 0);
    assert_eq!(rt; put_all(&mut out, b""), Ok(()));
    assert_eq!(rt; out.faults, 0);
}

#[test]
fn an_output_that_takes_nothing_is_a_fault(rt: HostRuntime) {
    let mut out = sink_of(rt.alloc(), 0);
    assert_eq!(rt; put_all(&mut out, b"A"), Err(Failed));
    assert_eq!(rt; out.faults, 1);
}
