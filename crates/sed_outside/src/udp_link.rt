//! The edge over a UDP socket of 127.0.0.1, which tells nothing of what comes and goes.
ghost use Rattle.std.specs.Prelude.{◌≡◌, ◌≤◌, ◌+◌, None, IsErr, IfOk};
ghost use Rattle.sed_outside.specs.Cause.{HasCause};
ghost use Rattle.sed_outside.specs.Link.{IsShort, KeepsUnlessGot};

use crate::Addr;
use crate::link::{Link, LinkFault, Polled};
use sed_value::limits::LONGEST_DATAGRAM;
use std::io::{self, ErrorKind};
use std::net::{IpAddr, Ipv4Addr, Net, SocketAddr, UdpSocket};

/// A UDP socket of 127.0.0.1, on the port that was asked for last. Where none was taken, at first and after a bind that
/// failed, each call fails.
#[derive(Drop)]
pub struct UdpLink<'a, R> {
    rt: &'a R,
    socket: Option<UdpSocket>,
    polls: u64,
    faults: u64,
}

impl<'a, R: Net> UdpLink<'a, R> {
    /// No port yet, no fault and no poll.
    pub fn new(rt: &'a R) -> UdpLink<'a, R>
        ensures faults { ⟦<UdpLink<'a, R> as Link>⟧.faults result ≡ 0 }
        ensures polled { ⟦<UdpLink<'a, R> as Link>⟧.polled result ≡ 0 }
    {
        UdpLink {
            rt,
            socket: None,
            polls: 0,
            faults: 0,
        }
    }
}

// Takes a port of 127.0.0.1. No call of the socket waits.
fn open_port<R: Net>(rt: &R, port: u16) -> io::Result<UdpSocket> {
    let socket = UdpSocket::bind(rt, SocketAddr::new(IpAddr::V4(Ipv4Addr::LOCALHOST), port))?;
    socket.set_nonblocking(true)?;
    Ok(socket)
}

// What a call says where no port is taken.
fn not_bound() -> io::Error {
    io::Error::from(ErrorKind::NotConnected)
}

// Takes a datagram that came, which may be one byte too long, and its sender.
fn receive(socket: &Option<UdpSocket>, into: &mut [u8; 513]) -> io::Result<(usize, SocketAddr)>
    ensures { IfOk result (λ came. came.0 ≤ 513) }
{
    match socket {
        Some(socket) => socket.recv_from(into),
        None => Err(not_bound()),
    }
}

// Hands a datagram to the system, which takes it whole.
fn hand_over(socket: &Option<UdpSocket>, to: Addr, bytes: &[u8]) -> io::Result<()> {
    let Some(socket) = socket else {
        return Err(not_bound());
    };
    let ip = IpAddr::V4(Ipv4Addr::from_octets(to.ip));
    if socket.send_to(bytes, SocketAddr::new(ip, to.port))? < bytes.len() {
        return Err(io::Error::from(ErrorKind::WriteZero));
    }
    Ok(())
}

// What came of a poll, with the bytes of a datagram in front of `into`.
fn polled(socket: &Option<UdpSocket>, into: &mut [u8; 512]) -> Polled
    ensures short { IsShort result }
    ensures kept { KeepsUnlessGot result into.old into.new }
{
    let mut came = [0; 513];
    match receive(socket, &mut came) {
        Ok((len, SocketAddr::V4(from))) if len <= LONGEST_DATAGRAM => {
            into[..len].copy_from_slice(&came[..len]);
            let (ip, port) = (from.ip().octets(), from.port());
            Polled::Got {
                from: Addr { ip, port },
                len,
            }
        }
        Ok(_) => Polled::Nothing,
        Err(error) if error.kind() == ErrorKind::WouldBlock => Polled::Nothing,
        Err(_) => Polled::Failed,
    }
}

// What the system answered, where an error is a fault that is counted.
fn answered<T>(answer: io::Result<T>, faults: &mut u64) -> Result<T, LinkFault>
    ensures cause { HasCause faults.old faults.new (IsErr result) }
    ensures by_one { faults.new ≤ faults.old + 1 }
{
    match answer {
        Ok(value) => Ok(value),
        Err(_) => {
            *faults = faults.saturating_add(1);
            Err(LinkFault::Failed)
        }
    }
}

impl<'a, R: Net> Link for UdpLink<'a, R> {
    ghost polls = { λ _. None };

    ghost offered = { λ _. None };

    ghost polled = { λ link. link.polls };

    ghost bound = { λ _. None };

    ghost faults = { λ link. link.faults };

    fn bind(&mut self, port: u16) -> Result<(), LinkFault> {
        self.socket = None;
        let socket = answered(open_port(self.rt, port), &mut self.faults)?;
        self.socket = Some(socket);
        Ok(())
    }

    fn poll(&mut self, into: &mut [u8; 512]) -> Polled {
        self.polls = self.polls.saturating_add(1);
        let polled = polled(&self.socket, into);
        if polled == Polled::Failed {
            self.faults = self.faults.saturating_add(1);
        }
        polled
    }

    fn send(&mut self, to: Addr, bytes: &[u8]) -> Result<(), LinkFault> {
        answered(hand_over(&self.socket, to, bytes), &mut self.faults)
    }
}
