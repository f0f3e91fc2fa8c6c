//! Readers and writers of std, and what their failures come to.
use plant_io::{Failed, ReadEnd, Sink, Source, StdSink, StdSource, read_all, write_all};
use std::io;
use std::test::Fail;

// Moves three bytes at a time. Every third call is interrupted.
#[derive(Drop)]
struct Halting<T> {
    inner: T,
    calls: u8,
}

impl<T> Halting<T> {
    fn turn(&mut self, len: usize) -> io::Result<usize> {
        self.calls = self.calls % 3 + 1;
        if self.calls == 3 {
            return Err(io::Error::from(io::ErrorKind::Interrupted));
        }
        Ok(len.min(3))
    }
}

impl<T: io::Read> io::Read for Halting<T> {
    fn read(&mut self, buf: &mut [u8]) -> io::Result<usize> {
        let len = self.turn(buf.len())?.min(buf.len());
        self.inner.read(&mut buf[..len])
    }
}

impl<T: io::Write> io::Write for Halting<T> {
    fn write(&mut self, buf: &[u8]) -> io::Result<usize> {
        let len = self.turn(buf.len())?.min(buf.len());
        self.inner.write(&buf[..len])
    }

    fn flush(&mut self) -> io::Result<()> {
        Ok(())
    }
}

#[test]
fn a_reader_of_std_is_read(rt: HostRuntime) -> Result<(), Fail> {
    let alloc = rt.alloc();
    let inner = b"abcdefgh".as_slice();
    let mut source = StdSource::new(Halting { inner, calls: 0 });
    assert_eq!(rt; read_all(alloc, &mut source, 8), Err(ReadEnd::Fault));
    assert_eq!(rt;
        read_all(alloc, &mut source, 8)?.as_slice(),
        b"gh".as_slice()
    );
    Ok(())
}

#[test]
fn a_writer_of_std_is_written(rt: HostRuntime) -> Result<(), Fail> {
    let mut room = [b'.'; 8];
    let inner = room.as_mut_slice();
    let mut sink = StdSink::new(Halting { inner, calls: 0 });
    assert_eq!(rt; write_all(&mut sink, b"abcdefgh"), Err(Failed));
    // The room is full after two bytes, and then no more is taken.
    assert_eq!(rt; write_all(&mut sink, b"ghi"), Err(Failed));
    let _ = sink;
    assert_eq!(rt; room.as_slice(), b"abcdefgh".as_slice());
    Ok(())
}

// Tells how often it was called: a read gives the number of its call, and a write takes so many
// bytes. Every third call fails, and the fifth write takes nothing.
#[derive(Drop)]
struct Telling {
    calls: u8,
}

impl Telling {
    fn tell(&mut self) -> io::Result<u8> {
        self.calls = self.calls.saturating_add(1);
        if self.calls % 3 == 0 {
            return Err(io::Error::from(io::ErrorKind::Other));
        }
        Ok(self.calls)
    }
}

impl io::Read for Telling {
    fn read(&mut self, buf: &mut [u8]) -> io::Result<usize> {
        let number = self.tell()?;
        let Some(first) = buf.first_mut() else {
            return Ok(0);
        };
        *first = number;
        Ok(1)
    }
}

impl io::Write for Telling {
    fn write(&mut self, buf: &[u8]) -> io::Result<usize> {
        let number = self.tell()?;
        let count = if number == 5 { 0 } else { usize::from(number) };
        Ok(count.min(buf.len()))
    }

    fn flush(&mut self) -> io::Result<()> {
        Ok(())
    }
}

#[test]
fn a_read_calls_once_and_fails_only_where_the_reader_did(rt: HostRuntime) -> Result<(), Fail> {
    let mut source = StdSource::new(Telling { calls: 0 });
    for call in [1u8, 2, 3, 4, 5, 6, 7] {
        let mut buffer = [0u8; 2];
        let read = source.read(&mut buffer);
        let fails = call % 3 == 0;
        assert_eq!(rt; read, if fails { Err(Failed) } else { Ok(1) });
        assert_eq!(rt; buffer[0], if fails { 0 } else { call });
    }
    Ok(())
}

#[test]
fn a_write_calls_once_and_fails_only_where_the_writer_did(rt: HostRuntime) -> Result<(), Fail> {
    let mut sink = StdSink::new(Telling { calls: 0 });
    let taken = [
        Ok(1),
        Ok(2),
        Err(Failed),
        Ok(4),
        Err(Failed),
        Err(Failed),
        Ok(7),
    ];
    for wanted in taken {
        assert_eq!(rt; sink.write(b"abcdefgh"), wanted);
    }
    Ok(())
}
