//! Datagrams that are sent until something comes back.

use crate::error::{CheckError, CheckStep};
use crate::messages::{Login, MESSAGE_BYTES, RequestKind, is_of, peer_of_data, write_request};
use rand::Rng;
use std::io::ErrorKind;
use std::net::{Net, SocketAddr, UdpSocket};
use std::rt::Clock;
use std::time::Duration;

/// How many milliseconds it is waited for an answer, each time that something is sent (RFC 8489, section 6.2.1).
const WAITS: [u64; 4] = [500, 1_000, 2_000, 4_000];

/// The most other datagrams that are passed over while it is waited.
const MOST_OTHERS: usize = 1_000;

/// What came back, and after how long.
#[derive(Drop)]
pub(crate) struct ReceivedMessage {
    bytes: [u8; MESSAGE_BYTES],
    len: usize,
    pub(crate) took: Duration,
}

impl ReceivedMessage {
    /// Returns the bytes of the datagram.
    pub(crate) fn as_bytes(&self) -> &[u8] {
        self.bytes.get(..self.len).unwrap_or(&[])
    }
}

/// A datagram that is waited for.
#[derive(Clone, Copy)]
pub(crate) struct Wanted<'a> {
    pub(crate) step: CheckStep,
    /// The address that it comes from.
    pub(crate) from: SocketAddr,
    pub(crate) is: What<'a>,
}

/// What a datagram has to be.
#[derive(Clone, Copy)]
pub(crate) enum What<'a> {
    /// A message of a transaction.
    Response([u8; 12]),
    /// A Data indication of these bytes.
    Data(&'a [u8]),
    /// These bytes.
    Bytes(&'a [u8]),
}

impl Wanted<'_> {
    /// Returns whether a datagram from an address is what is waited for.
    fn is_met_by(&self, datagram: &[u8], from: SocketAddr) -> bool {
        from == self.from
            && match self.is {
                What::Response(tx) => is_of(datagram, tx),
                What::Data(bytes) => peer_of_data(datagram, bytes).is_some(),
                What::Bytes(bytes) => datagram == bytes,
            }
    }
}

/// A client's socket, and the server that it talks to.
#[derive(Drop)]
pub(crate) struct Exchange<'a, R: Clock, G: Rng> {
    rt: &'a R,
    rng: &'a mut G,
    socket: UdpSocket,
    pub(crate) server: SocketAddr,
}

impl<'a, R: Clock + Net, G: Rng> Exchange<'a, R, G> {
    /// Binds a socket for a server.
    ///
    /// # Errors
    /// Where the system has none.
    pub(crate) fn new(
        rt: &'a R,
        rng: &'a mut G,
        server: SocketAddr,
    ) -> Result<Exchange<'a, R, G>, CheckError> {
        let any = if server.is_ipv4() {
            "0.0.0.0:0"
        } else {
            "[::]:0"
        };
        match UdpSocket::bind(rt, any) {
            Ok(socket) => Ok(Exchange {
                rt,
                rng,
                socket,
                server,
            }),
            Err(_) => Err(CheckError::Socket),
        }
    }

    /// Returns the time since an arbitrary start.
    fn now(&self) -> Result<Duration, CheckError> {
        self.rt.monotonic().map_err(|_| CheckError::Clock)
    }

    /// Draws a transaction id.
    pub(crate) fn draw(&mut self) -> [u8; 12] {
        let mut tx = [0; 12];
        self.rng.fill_bytes(&mut tx);
        tx
    }

    /// Receives a datagram, if one comes within a time.
    fn receive(
        &self,
        wait: Duration,
        into: &mut [u8],
    ) -> Result<Option<(usize, SocketAddr)>, CheckError> {
        if self.socket.set_read_timeout(Some(wait)).is_err() {
            return Err(CheckError::Socket);
        }
        match self.socket.recv_from(into) {
            Ok(came) => Ok(Some(came)),
            Err(error) if error.kind() == ErrorKind::WouldBlock => Ok(None),
            Err(error) if error.kind() == ErrorKind::TimedOut => Ok(None),
            // the process was stopped, and continues
            Err(error) if error.kind() == ErrorKind::Interrupted => Ok(None),
            // what was sent before didn't come to the server
            Err(error) if error.kind() == ErrorKind::ConnectionRefused => Ok(None),
            Err(_) => Err(CheckError::Socket),
        }
    }

    /// Waits for a datagram until a moment, and returns its length, if it comes.
    fn wait(
        &self,
        wanted: &Wanted<'_>,
        until: Duration,
        into: &mut [u8],
    ) -> Result<Option<usize>, CheckError> {
        for _ in 0..MOST_OTHERS {
            let left = until.saturating_sub(self.now()?);
            if left.is_zero() {
                return Ok(None);
            }
            if let Some((len, from)) = self.receive(left, into)?
                && wanted.is_met_by(into.get(..len).unwrap_or(&[]), from)
            {
                return Ok(Some(len));
            }
        }
        Ok(None)
    }

    /// Sends a datagram to an address, again and again, until what is wanted comes.
    ///
    /// # Errors
    /// `NoAnswer` where it doesn't, and where the system refuses to send to another address than the server's, which
    /// the server has given; `Socket` and `Clock`.
    pub(crate) fn send_until(
        &self,
        datagram: &[u8],
        to: SocketAddr,
        wanted: &Wanted<'_>,
    ) -> Result<ReceivedMessage, CheckError> {
        let mut bytes = [0; MESSAGE_BYTES];
        for wait in WAITS {
            let (sent, wait) = (self.now()?, Duration::from_millis(wait));
            if self.socket.send_to(datagram, to).is_err() {
                return Err(if to == self.server {
                    CheckError::Socket
                } else {
                    CheckError::NoAnswer(wanted.step)
                });
            }
            if let Some(len) = self.wait(wanted, sent.saturating_add(wait), &mut bytes)? {
                let took = self.now()?.saturating_sub(sent);
                return Ok(ReceivedMessage { bytes, len, took });
            }
        }
        Err(CheckError::NoAnswer(wanted.step))
    }

    /// Sends a request of a step until its response comes.
    ///
    /// # Errors
    /// Those of [`send_until`](Exchange::send_until), and `Long`.
    pub(crate) fn ask(
        &mut self,
        step: CheckStep,
        ask: RequestKind,
        login: Option<&Login<'_>>,
    ) -> Result<ReceivedMessage, CheckError> {
        let tx = self.draw();
        let mut request = [0; MESSAGE_BYTES];
        let Ok(len) = write_request(ask, login, tx, &mut request) else {
            return Err(CheckError::Long);
        };
        let wanted = Wanted {
            step,
            from: self.server,
            is: What::Response(tx),
        };
        let request = request.get(..len).unwrap_or(&[]);
        self.send_until(request, self.server, &wanted)
    }
}
