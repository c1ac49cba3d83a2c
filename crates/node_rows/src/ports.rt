//! The port of a link of the system.
use rows::{Case, CaseFault};
use sed_outside::{Link, UdpLink};
use std::io;
use std::net::{IpAddr, Ipv4Addr, Net, SocketAddr, UdpSocket};

/// Binds a link of the system to a port, and says of each address of the row whether that port is free there then.
pub fn ports<R: Net>(case: &mut Case, rt: &R) {
    let addresses = case.text();
    let Ok(port) = free_port(rt) else {
        return case.fail(CaseFault::BadInput);
    };
    let mut link = UdpLink::new(rt);
    case.show(&link.bind(port));
    for address in addresses.split_whitespace() {
        let last: u8 = case.parsed(address);
        let ip = IpAddr::V4(Ipv4Addr::new(127, 0, 0, last));
        case.put(b" ");
        case.show(&UdpSocket::bind(rt, SocketAddr::new(ip, port)).is_ok());
    }
}

// A port that is free.
fn free_port<R: Net>(rt: &R) -> io::Result<u16> {
    let socket = UdpSocket::bind(rt, SocketAddr::new(IpAddr::V4(Ipv4Addr::LOCALHOST), 0))?;
    Ok(socket.local_addr()?.port())
}
