//! What no clause says: that calls succeed, and what is met over real readers and writers.
use crate::*;
use std::alloc::{AllocError, Global};
use std::io;
use std::io::{ErrorKind, Read, Write};
use std::test::Fail;

#[test]
fn a_port_in_memory(rt: HostRuntime) -> Result<(), Fail> {
    let alloc = rt.alloc();
    let mut script = Vec::new(alloc);
    script.push(Said::Line(Bytes::new(Vec::from_slice(alloc, b"aeiok")?)))?;
    let too_long = vec![in alloc; b'x'; LINE_LIMIT + 1]?;
    script.push(Said::Line(Bytes::new(too_long)))?;
    let mut port = MemPort::new(alloc, script, Vec::from_slice(alloc, &[2])?);
    let mut line = Vec::new(alloc);
    port.send(b"aei")?;
    assert_eq!(rt; port.receive(&mut line), Err(PortFault::Failed));
    assert_eq!(rt; port.receive(&mut line), Ok(Heard::Line));
    assert_eq!(rt; line.as_slice(), b"aeiok".as_slice());
    assert_eq!(rt; port.receive(&mut line), Ok(Heard::Long));
    assert_eq!(rt; port.receive(&mut line), Ok(Heard::Ended));
    assert_eq!(rt; port.sent(0), Some(b"aei".as_slice()));
    assert_eq!(rt; port.sent(1), None);
    Ok(())
}

#[test]
fn a_spawner_and_a_clock_in_memory(rt: HostRuntime) -> Result<(), Fail> {
    let alloc = rt.alloc();
    let mut ports = Vec::new(alloc);
    ports.push(MemPort::new(alloc, Vec::new(alloc), Vec::new(alloc)))?;
    ports.push(MemPort::new(alloc, Vec::new(alloc), Vec::new(alloc)))?;
    let mut spawner = MemSpawner::new(alloc, ports, Vec::new(alloc))?;
    let gold = spawner.open("gold")?;
    let silver = spawner.open("silver")?;
    spawner.close(gold);
    spawner.close(silver);
    assert_eq!(rt; spawner.open("third").err(), Some(PortFault::Failed));
    let mut clock = MemClock::new(Vec::from_slice(alloc, &[5, 9])?);
    assert_eq!(rt; (clock.moment(), clock.moment(), clock.moment()), (5, 9, 9));
    Ok(())
}

// Gives one byte, and then fails.
#[derive(Drop)]
struct Broken(u8);

impl Read for Broken {
    fn read(&mut self, buf: &mut [u8]) -> io::Result<usize> {
        if self.0 == 0 || buf.is_empty() {
            return Err(ErrorKind::Other.into());
        }
        self.0 -= 1;
        buf[0] = 7;
        Ok(1)
    }
}

#[test]
fn a_real_input(rt: HostRuntime) -> Result<(), Fail> {
    let alloc = rt.alloc();
    let text: &[u8] = b"start 2g";
    let read = read_all(alloc, &mut StdSource::new(text))?;
    assert_eq!(rt; read.as_slice(), b"start 2g".as_slice());
    let read = read_all(alloc, &mut StdSource::new(Broken(1)));
    assert_eq!(rt; read.map(|bytes| bytes.len()), Err(ReadAll::Fault));
    Ok(())
}

// Moves a byte at its first call, fails at its second, and goes on after that.
#[derive(Drop)]
struct FailsOnce {
    calls: u8,
    kind: ErrorKind,
}

impl FailsOnce {
    fn new(kind: ErrorKind) -> FailsOnce {
        FailsOnce { calls: 0, kind }
    }

    // How many bytes of so many are moved.
    fn moves(&mut self, size: usize) -> io::Result<usize> {
        self.calls = self.calls.saturating_add(1);
        if self.calls == 2 {
            return Err(self.kind.into());
        }
        Ok(if size > 0 && self.calls < 9 { 1 } else { 0 })
    }
}

impl Read for FailsOnce {
    fn read(&mut self, buf: &mut [u8]) -> io::Result<usize> {
        let count = self.moves(buf.len())?;
        if count > 0 && !buf.is_empty() {
            buf[0] = 7;
            return Ok(1);
        }
        Ok(0)
    }
}

impl Write for FailsOnce {
    fn write(&mut self, bytes: &[u8]) -> io::Result<usize> {
        let count = self.moves(bytes.len())?;
        Ok(count.min(bytes.len()))
    }

    fn flush(&mut self) -> io::Result<()> {
        Ok(())
    }
}

// A fault is answered as one, also where the next call would go well, and whatever kind it is of.
#[test]
fn a_fault_in_between(rt: HostRuntime) -> Result<(), Fail> {
    let alloc = rt.alloc();
    for kind in [
        ErrorKind::Other,
        ErrorKind::Interrupted,
        ErrorKind::WouldBlock,
    ] {
        let mut source = StdSource::new(FailsOnce::new(kind));
        let mut buf = [0; 4];
        assert_eq!(rt; source.read(&mut buf), Ok(1));
        assert_eq!(rt; source.read(&mut buf), Err(Failed));
        assert_eq!(rt; source.read(&mut buf), Ok(1));
        let read = read_all(alloc, &mut StdSource::new(FailsOnce::new(kind)));
        assert_eq!(rt; read.map(|bytes| bytes.len()), Err(ReadAll::Fault));
        let mut sink = StdSink::new(FailsOnce::new(kind));
        assert_eq!(rt; sink.write(b"no"), Ok(1));
        assert_eq!(rt; sink.write(b"o"), Err(Failed));
        assert_eq!(rt; sink.write(b"o"), Ok(1));
        assert!(rt; write_all(&mut StdSink::new(FailsOnce::new(kind)), b"no\n").is_err());
    }
    Ok(())
}

// Takes nothing.
#[derive(Drop)]
struct Full;

impl Write for Full {
    fn write(&mut self, _bytes: &[u8]) -> io::Result<usize> {
        Ok(0)
    }

    fn flush(&mut self) -> io::Result<()> {
        Ok(())
    }
}

#[test]
fn a_real_output(rt: HostRuntime) -> Result<(), Fail> {
    let mut out = Vec::new(rt.alloc());
    write_all(&mut StdSink::new(&mut out), b"no\n")?;
    assert_eq!(rt; out.as_slice(), b"no\n".as_slice());
    assert!(rt; write_all(&mut StdSink::new(Full), b"no\n").is_err());
    write_all(&mut StdSink::new(Full), b"")?;
    Ok(())
}

// Lines with each end, a line as long as one may be, one that is longer, and the last without an
// end.
#[test]
fn a_real_port(rt: HostRuntime) -> Result<(), Fail> {
    let alloc = rt.alloc();
    let mut said = Vec::from_slice(alloc, b"aei\r\n\nisready\n")?;
    said.extend_from_slice(&vec![in alloc; b'x'; LINE_LIMIT]?)?;
    said.extend_from_slice(b"\r\nquit\r")?;
    let mut out = Vec::new(alloc);
    let mut line = Vec::new(alloc);
    let mut port = StdPort::new(said.as_slice(), &mut out);
    for heard in [b"aei".as_slice(), b"".as_slice(), b"isready".as_slice()] {
        assert_eq!(rt; port.receive(&mut line), Ok(Heard::Line));
        assert_eq!(rt; line.as_slice(), heard);
    }
    port.send(b"readyok")?;
    assert_eq!(rt; port.receive(&mut line), Ok(Heard::Line));
    assert_eq!(rt; line.len(), LINE_LIMIT);
    assert_eq!(rt; port.receive(&mut line), Ok(Heard::Line));
    assert_eq!(rt; line.as_slice(), b"quit\r".as_slice());
    assert_eq!(rt; port.receive(&mut line), Ok(Heard::Ended));
    port.send(b"log end")?;
    assert_eq!(rt; out.as_slice(), b"readyok\nlog end\n".as_slice());
    let too_long = vec![in alloc; b'x'; LINE_LIMIT + 1]?;
    let mut port = StdPort::new(too_long.as_slice(), Full);
    assert_eq!(rt; port.receive(&mut line), Ok(Heard::Long));
    assert_eq!(rt; port.send(b"no"), Err(PortFault::Failed));
    let mut port = StdPort::new(Broken(1), Full);
    assert_eq!(rt; port.receive(&mut line), Err(PortFault::Failed));
    Ok(())
}

#[test]
fn words_and_a_status(rt: HostRuntime) -> Result<(), Fail> {
    let mut words = CommandWords::new(rt.alloc());
    assert!(rt; words.is_empty());
    words.push("prove")?;
    words.push("gold")?;
    assert_eq!(rt; words.len(), 2);
    assert_eq!(rt; words.get(1), Some("gold"));
    assert_eq!(rt; words.get(2), None);
    assert_eq!(rt; Status::TooLong.code(), 9);
    Ok(())
}
