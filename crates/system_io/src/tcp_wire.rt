//! Connections over TCP as a wire. It tells its faults and no content.

ghost use Rattle.std.specs.Prelude.{◌≡◌, ℕ};
ghost use Rattle.wires.specs.Silent.{silent_wire};

use std::io;
use std::io::{Read, Write};
use std::net::{Net, OpenListener, OpenStream, Shutdown, TcpListener, TcpStream};
use wires::Failed;
use wires::wire::Wire;

/// A listener, and the stream that is open. Each `hear` is one read of the stream. A stream sends what is said at once (TCP's
/// no-delay).
#[derive(Drop)]
pub struct TcpWire<R: Net + Drop> {
    rt: R,
    listener: Option<R::Listener>,
    stream: Option<R::Stream>,
    gate: u64,
    hear: u64,
    say: u64,
    hang: u64,
}

impl<R: Net + Drop> TcpWire<R> {
    /// A wire over this system. No fault was counted yet, nothing is waited for, and no connection is open.
    pub fn over(rt: R) -> TcpWire<R>
        ensures { (result.gate ≡ 0) × (result.hear ≡ 0) × (result.say ≡ 0) × (result.hang ≡ 0) }
    {
        TcpWire {
            rt,
            listener: None,
            stream: None,
            gate: 0,
            hear: 0,
            say: 0,
            hang: 0,
        }
    }

    /// Waits for the next connection.
    fn accept(&self) -> io::Result<R::Stream> {
        let Some(listener) = &self.listener else {
            return Err(io::Error::from(io::ErrorKind::NotConnected));
        };
        let (stream, _) = listener.accept()?;
        stream.set_nodelay(true)?;
        Ok(stream)
    }

    /// Connects to an address.
    fn connect(&self, at: &str) -> io::Result<R::Stream> {
        let stream = TcpStream::connect(&self.rt, at)?;
        stream.set_nodelay(true)?;
        Ok(stream)
    }
}

impl<R: Net + Drop> Wire for TcpWire<R> {
    ghost state = { λ w. silent_wire (record { gate = w.gate; hear = w.hear; say = w.say; hang = w.hang }) };

    fn listen(&mut self, at: &str) -> Result<(), Failed> {
        match TcpListener::bind(&self.rt, at) {
            Ok(listener) => {
                self.listener = Some(listener);
                Ok(())
            }
            Err(_) => {
                self.gate = self.gate.saturating_add(1);
                Err(Failed)
            }
        }
    }

    fn next(&mut self) -> Result<bool, Failed> {
        self.stream = None;
        match self.accept() {
            Ok(stream) => {
                self.stream = Some(stream);
                Ok(true)
            }
            Err(_) => {
                self.gate = self.gate.saturating_add(1);
                Err(Failed)
            }
        }
    }

    fn dial(&mut self, at: &str) -> Result<(), Failed> {
        self.stream = None;
        match self.connect(at) {
            Ok(stream) => {
                self.stream = Some(stream);
                Ok(())
            }
            Err(_) => {
                self.gate = self.gate.saturating_add(1);
                Err(Failed)
            }
        }
    }

    fn hear(&mut self, into: &mut [u8]) -> Result<usize, Failed> {
        if let Some(stream) = &mut self.stream
            && let Ok(n) = stream.read(into)
        {
            return Ok(n);
        }
        self.hear = self.hear.saturating_add(1);
        Err(Failed)
    }

    fn say(&mut self, piece: &[u8]) -> Result<(), Failed> {
        if let Some(stream) = &mut self.stream
            && stream.write_all(piece).is_ok()
        {
            return Ok(());
        }
        self.say = self.say.saturating_add(1);
        Err(Failed)
    }

    fn hang_up(&mut self) -> Result<(), Failed> {
        if let Some(stream) = self.stream.take()
            && stream.shutdown(Shutdown::Both).is_ok()
        {
            return Ok(());
        }
        self.hang = self.hang.saturating_add(1);
        Err(Failed)
    }
}

#[cfg(test)]
mod tests {
    use super::TcpWire;
    use std::io::{Read, Write};
    use std::net::{OpenListener, TcpStream};
    use std::test::Fail;
    use wires::wire::Wire;

    /// A whole session on loopback, one step after another: the caller's bytes wait in the system.
    #[test]
    fn hears_and_says_on_loopback(rt: HostRuntime) -> Result<(), Fail> {
        let mut wire = TcpWire::over(&rt);
        assert!(rt; wire.listen("127.0.0.1:0").is_ok());
        let at = wire.listener.as_ref().ok_or("no listener")?.local_addr()?;
        let mut caller = TcpStream::connect(&rt, at)?;
        caller.write_all(b"hello\r")?;
        assert_eq!(rt; wire.next(), Ok(true));
        let mut into = [0u8; 64];
        assert_eq!(rt; wire.hear(&mut into), Ok(6));
        assert_eq!(rt; &into[..6], b"hello\r".as_slice());
        assert!(rt; wire.say(b"ID=").is_ok());
        assert!(rt; wire.say(b"\x06\r").is_ok());
        assert!(rt; wire.hang_up().is_ok());
        assert!(rt; wire.hang_up().is_err());
        let mut replies = Vec::new(rt.alloc());
        caller.read_to_end(&mut replies)?;
        assert_eq!(rt; replies.as_slice(), b"ID=\x06\r".as_slice());
        Ok(())
    }

    /// The caller hangs up first: the wire hears the end, and saying fails in the end without a signal.
    #[test]
    fn a_caller_that_is_gone(rt: HostRuntime) -> Result<(), Fail> {
        let mut wire = TcpWire::over(&rt);
        assert!(rt; wire.next().is_err());
        assert!(rt; wire.listen("127.0.0.1:0").is_ok());
        let at = wire.listener.as_ref().ok_or("no listener")?.local_addr()?;
        let mut caller = TcpWire::over(&rt);
        let at = format!(in rt.alloc(); "{at}")?;
        assert!(rt; caller.dial(at.as_str()).is_ok());
        assert_eq!(rt; wire.next(), Ok(true));
        assert!(rt; wire.say(b"unread").is_ok());
        assert!(rt; caller.hang_up().is_ok());
        let mut into = [0u8; 8];
        let _ = wire.hear(&mut into);
        let mut failed = false;
        for _ in 0..100 {
            failed = failed || wire.say(b"more").is_err();
        }
        assert!(rt; failed);
        Ok(())
    }
}
