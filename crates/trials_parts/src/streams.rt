// The adapters of readers and writers, and calls that the system interrupts.

use hk_io::{Failed, Sink, Source, StdIn, StdOut, WriteFault, read_all, write_all};
use std::io;
use std::io::{ErrorKind, Read, Write};
use std::test::Fail;

const TEXT: &'static [u8; 48] = b"hydra 1\nlimit 8\nprocess a code\nend\nmore words\n..";

#[test]
fn adapts_readers_and_writers(rt: HostRuntime) -> Result<(), Fail> {
    let mut source = StdIn::new(TEXT.as_slice());
    let bytes = read_all(rt.alloc(), &mut source, 48)?;
    assert_eq!(rt; bytes.as_slice(), TEXT.as_slice());

    let mut room = [0u8; 40];
    let mut sink = StdOut::new(room.as_mut_slice());
    assert_eq!(rt; write_all(&mut sink, TEXT), Err(WriteFault { sent: 40 }));
    assert_eq!(rt; room.as_slice(), &TEXT[..40]);
    Ok(())
}

/// A stream whose next calls, so many of them, the system interrupts; each call behind them passes a byte.
#[derive(Drop)]
struct Interrupted {
    calls: u32,
}

impl Read for Interrupted {
    fn read(&mut self, buf: &mut [u8]) -> io::Result<usize> {
        if self.calls > 0 {
            self.calls -= 1;
            return Err(io::Error::from(ErrorKind::Interrupted));
        }
        Ok(buf.len().min(1))
    }
}

impl Write for Interrupted {
    fn write(&mut self, buf: &[u8]) -> io::Result<usize> {
        if self.calls > 0 {
            self.calls -= 1;
            return Err(io::Error::from(ErrorKind::Interrupted));
        }
        Ok(buf.len().min(1))
    }

    fn flush(&mut self) -> io::Result<()> {
        Ok(())
    }
}

#[test]
fn reads_again_where_the_system_interrupts(rt: HostRuntime) -> Result<(), Fail> {
    let mut buf = [0u8; 4];
    let mut source = StdIn::new(Interrupted { calls: 3 });
    assert_eq!(rt; source.read(&mut buf), Ok(1));
    let mut source = StdIn::new(Interrupted { calls: 1_048_576 });
    assert_eq!(rt; source.read(&mut buf), Err(Failed));
    assert_eq!(rt; source.read(&mut buf), Ok(1));
    Ok(())
}

#[test]
fn writes_again_where_the_system_interrupts(rt: HostRuntime) -> Result<(), Fail> {
    let mut sink = StdOut::new(Interrupted { calls: 3 });
    assert_eq!(rt; sink.write(TEXT), Ok(1));
    let mut sink = StdOut::new(Interrupted { calls: 1_048_576 });
    assert_eq!(rt; sink.write(TEXT), Err(Failed));
    assert_eq!(rt; sink.write(TEXT), Ok(1));
    Ok(())
}
