//! Tests of the sources that read from readers, and of the sinks that write to writers.
use kd_desk::{FileFault, ReaderSource, WriterSink};
use kd_tables::{Failed, Sink, Source};
use std::io::{self, ErrorKind, Read, Write};
use std::process::Abort;

/// A reader whose first read fails, and which then gives two bytes at a time.
#[derive(Drop)]
struct Failing {
    first: Option<ErrorKind>,
}

impl Read for Failing {
    fn read(&mut self, buffer: &mut [u8]) -> io::Result<usize> {
        if let Some(kind) = self.first {
            self.first = None;
            return Err(io::Error::from(kind));
        }
        let count = buffer.len().min(2);
        buffer[..count].fill(b'A');
        Ok(count)
    }
}

/// A writer that takes `room` bytes, and then none.
#[derive(Drop)]
struct Full {
    room: usize,
}

impl Write for Full {
    fn write(&mut self, bytes: &[u8]) -> io::Result<usize> {
        let count = bytes.len().min(self.room);
        self.room -= count;
        Ok(count)
    }

    fn flush(&mut self) -> io::Result<()> {
        Ok(())
    }
}

/// The size of the buffer for a get, what the get returns, and whether a get has failed by then.
type Get = (usize, Result<&'static [u8], Failed>, bool);

/// Gets from a reader of the bytes ENIGMA.
static GETS: [Get; 6] = [
    (1, Ok(b"E"), false),
    (0, Ok(b""), false),
    (1, Ok(b"N"), false),
    (4096, Ok(b"IGMA"), false),
    (4096, Ok(b""), false),
    (1, Ok(b""), false),
];

/// Gets from the reader whose first read fails.
static GETS_OF_FAILING: [Get; 4] = [
    (4096, Err(Failed), true),
    (4096, Ok(b"AA"), true),
    (1, Ok(b"A"), true),
    (0, Ok(b""), true),
];

/// Checks `gets`, one after another, on a source that reads from `reader`, and its fault after them.
fn are_got<R: Read + Drop>(rt: &impl Abort, reader: R, gets: &[Get], fault: Option<FileFault>) {
    let mut source = ReaderSource::new(reader);
    let mut buffer = [0; 4096];
    for (size, got, failed) in gets {
        match (source.get(&mut buffer[..(*size).min(4096)]), got) {
            (Ok(count), Ok(due)) => assert!(rt; buffer.get(..count) == Some(*due)),
            (answer, due) => assert!(rt; answer.is_err() && due.is_err()),
        }
        assert_eq!(rt; source.failed(), *failed);
    }
    assert_eq!(rt; source.fault(), fault);
}

/// A read that is interrupted fails, and so does one that finds no memory.
#[test]
fn readers_give_what_they_have_or_fail(rt: HostRuntime) {
    are_got(&rt, b"ENIGMA".as_slice(), &GETS, None);
    for (kind, fault) in [
        (ErrorKind::Interrupted, FileFault::Device),
        (ErrorKind::OutOfMemory, FileFault::NoMemory),
    ] {
        let reader = Failing { first: Some(kind) };
        are_got(&rt, reader, &GETS_OF_FAILING, Some(fault));
    }
}

/// Puts into a writer with room for 1,103 bytes: the size, the answer, and whether a put has failed.
static PUTS: [(usize, Result<usize, Failed>, bool); 7] = [
    (0, Ok(0), false),
    (1100, Ok(1100), false),
    (8, Ok(3), false),
    (0, Ok(0), false),
    (5, Err(Failed), true),
    (1, Err(Failed), true),
    (0, Ok(0), true),
];

#[test]
fn a_write_that_takes_nothing_fails(rt: HostRuntime) {
    let mut sink = WriterSink::new(Full { room: 1103 });
    let bytes = [b'A'; 1100];
    for (size, taken, failed) in &PUTS {
        assert_eq!(rt; sink.put(&bytes[..(*size).min(1100)]), *taken);
        assert_eq!(rt; sink.failed(), *failed);
    }
}
