//! A source over a reader and a sink over a writer. They tell their faults and no content.

ghost use Rattle.std.specs.Prelude.{◌≡◌, ℕ};
ghost use Rattle.wires.specs.Silent.{silent_sink, silent_source};

use std::io::{Read, Write};
use wires::Failed;
use wires::sink::Sink;
use wires::source::Source;

/// The bytes of a reader. Each read of it is one read of the reader.
#[derive(Drop)]
pub struct InSource<R: Read> {
    reader: R,
    faults: u64,
}

impl<R: Read> InSource<R> {
    /// The bytes of this reader. No fault was counted yet.
    pub fn over(reader: R) -> InSource<R>
        ensures { result.faults ≡ 0 }
    {
        InSource { reader, faults: 0 }
    }
}

impl<R: Read> Source for InSource<R> {
    ghost state = { λ s. silent_source s.faults };

    fn take(&mut self, into: &mut [u8]) -> Result<usize, Failed> {
        match self.reader.read(into) {
            Ok(n) => Ok(n),
            Err(_) => {
                self.faults = self.faults.saturating_add(1);
                Err(Failed)
            }
        }
    }
}

/// What a writer is given. Each piece is written before `put` returns.
#[derive(Drop)]
pub struct OutSink<W: Write> {
    writer: W,
    faults: u64,
}

impl<W: Write> OutSink<W> {
    /// What this writer is given. No fault was counted yet.
    pub fn over(writer: W) -> OutSink<W>
        ensures { result.faults ≡ 0 }
    {
        OutSink { writer, faults: 0 }
    }
}

impl<W: Write> Sink for OutSink<W> {
    ghost state = { λ s. silent_sink s.faults };

    fn put(&mut self, piece: &[u8]) -> Result<(), Failed> {
        match self.writer.write_all(piece) {
            Ok(()) => Ok(()),
            Err(_) => {
                self.faults = self.faults.saturating_add(1);
                Err(Failed)
            }
        }
    }
}

#[cfg(test)]
mod tests {
    use super::{InSource, OutSink};
    use std::io;
    use std::io::{ErrorKind, Read, Write};
    use std::test::Fail;
    use wires::Failed;
    use wires::sink::Sink;
    use wires::source::Source;

    /// A stream that is broken.
    #[derive(Drop)]
    struct Broken;

    impl Read for Broken {
        fn read(&mut self, _into: &mut [u8]) -> io::Result<usize> {
            Err(io::Error::from(ErrorKind::BrokenPipe))
        }
    }

    impl Write for Broken {
        fn write(&mut self, _buf: &[u8]) -> io::Result<usize> {
            Err(io::Error::from(ErrorKind::BrokenPipe))
        }

        fn flush(&mut self) -> io::Result<()> {
            Ok(())
        }
    }

    #[test]
    fn a_broken_stream_fails(rt: HostRuntime) {
        let mut into = [0; 4];
        assert_eq!(rt; InSource::over(Broken).take(&mut into), Err(Failed));
        assert_eq!(rt; OutSink::over(Broken).put(b"ID="), Err(Failed));
    }

    #[test]
    fn a_whole_stream_carries_its_bytes(rt: HostRuntime) -> Result<(), Fail> {
        let mut input = InSource::over(b"ab".as_slice());
        let mut into = [0; 4];
        assert_eq!(rt; input.take(&mut into), Ok(2));
        assert_eq!(rt; into, *b"ab\0\0");
        assert_eq!(rt; input.take(&mut into), Ok(0));
        let mut kept = Vec::new(rt.alloc());
        assert!(rt; OutSink::over(&mut kept).put(b"ID=").is_ok());
        assert_eq!(rt; kept.as_slice(), b"ID=".as_slice());
        Ok(())
    }
}
