use std::io;
use std::io::{ErrorKind, Read, Write};
use vms_io::{Failed, Sink, Source, StdSink, StdSource};

/// Interrupts, gives two bytes, breaks, and is at its end.
#[derive(Drop)]
struct Fitful {
    calls: u8,
}

impl Read for Fitful {
    fn read(&mut self, buf: &mut [u8]) -> io::Result<usize> {
        self.calls = self.calls.saturating_add(1);
        match self.calls {
            1 => Err(io::Error::from(ErrorKind::Interrupted)),
            2 if buf.len() >= 2 => {
                buf[..2].copy_from_slice(b"ab");
                Ok(2)
            }
            3 => Err(io::Error::from(ErrorKind::Other)),
            _ => Ok(0),
        }
    }
}

#[test]
fn interrupted_reads_are_tried_again(rt: HostRuntime) {
    let mut src = StdSource::make(Fitful { calls: 0 });
    let mut buf = [0; 4];
    assert_eq!(rt; src.read(&mut buf), Ok(2));
    assert_eq!(rt; &buf[..2], b"ab".as_slice());
    assert_eq!(rt; src.read(&mut buf), Err(Failed));
    assert_eq!(rt; src.read(&mut buf), Ok(0));
}

/// Interrupts, takes two bytes, takes bytes that it cannot flush, and takes none.
#[derive(Drop)]
struct Clogged {
    writes: u8,
}

impl Write for Clogged {
    fn write(&mut self, buf: &[u8]) -> io::Result<usize> {
        self.writes = self.writes.saturating_add(1);
        match self.writes {
            1 => Err(io::Error::from(ErrorKind::Interrupted)),
            2 | 3 => Ok(buf.len().min(2)),
            _ => Ok(0),
        }
    }

    fn flush(&mut self) -> io::Result<()> {
        if self.writes == 3 {
            return Err(io::Error::from(ErrorKind::Other));
        }
        Ok(())
    }
}

#[test]
fn flushes_that_fail_are_failed_writes(rt: HostRuntime) {
    let mut out = StdSink::make(Clogged { writes: 0 });
    for result in [Ok(2), Err(Failed), Err(Failed)] {
        assert_eq!(rt; out.write(b"abc"), result);
    }
}
