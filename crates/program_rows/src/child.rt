//! A child process: this program again, with words; and a client that speaks to it.
use rows::Case;
use std::alloc::Global;
use std::fs::Files;
use std::net::{IpAddr, Ipv4Addr, Net, SocketAddr, UdpSocket};
use std::process::{Child, Command, Processes, Stdio};
use std::time::Duration;
use std::{env, io};

// How often an answer is read for at most, how many milliseconds a read waits, and after how many reads in vain a
// message is sent again: the child may not have its port yet.
const MOST_READS: u32 = 200;

const READ_WAIT: u64 = 50;

const READS_OF_A_MESSAGE: u32 = 20;

// A socket of 127.0.0.1 with a port that was free.
fn socket<R: Net>(rt: &R) -> io::Result<UdpSocket> {
    UdpSocket::bind(rt, SocketAddr::new(IpAddr::V4(Ipv4Addr::LOCALHOST), 0))
}

// Starts this program with words, of which `PORT` is this one.
fn started<R: Alloc<A = Global> + Files + Processes>(
    rt: &R,
    words: &str,
    port: u16,
) -> io::Result<Child<R::Started>> {
    let port = format!(in rt.alloc(); "{port}")?;
    let mut command = Command::new(rt.alloc(), env::current_exe(rt)?)?;
    for word in words.split_whitespace() {
        command.arg(if word == "PORT" { port.as_str() } else { word })?;
    }
    command.stdout(Stdio::piped()).spawn(rt)
}

// Sends a message, and gives the bytes that come next. A message that is heard twice is answered twice, so what came
// last is passed over.
fn asked(
    alloc: Global,
    socket: &UdpSocket,
    at: SocketAddr,
    message: &[u8],
    last: &[u8],
) -> Vec<u8> {
    let mut into = [0; 512];
    for read in 0..MOST_READS {
        if read % READS_OF_A_MESSAGE == 0 {
            let _ = socket.send_to(message, at);
        }
        if let Ok((len, _)) = socket.recv_from(&mut into) {
            let answer = into.get(..len).unwrap_or(&[]);
            if answer != last {
                return Vec::from_slice(alloc, answer).unwrap_or(Vec::new(alloc));
            }
        }
    }
    Vec::new(alloc)
}

// Starts the child, asks it with messages, sends one that has no answer, and says how the child ended.
fn talk<R: Alloc<A = Global> + Files + Net + Processes>(rt: &R, case: &mut Case) -> io::Result<()> {
    let (words, messages, farewell) = (case.text(), case.text(), case.bytes());
    let (client, at) = (socket(rt)?, socket(rt)?.local_addr()?);
    client.set_read_timeout(Some(Duration::from_millis(READ_WAIT)))?;
    let child = started(rt, &words, at.port())?;
    let mut last = Vec::new(rt.alloc());
    for message in messages.split_terminator(';') {
        last = asked(rt.alloc(), &client, at, &case.bytes_in(message, 0), &last);
        case.hex(&last);
        case.put(b"; ");
    }
    client.send_to(&farewell, at)?;
    let ended = child.wait_with_output(rt.alloc())?;
    case.show(&ended.status.code());
    for line in str::from_utf8(&ended.stdout).unwrap_or("no text").lines() {
        if !line.starts_with("in ") && !line.starts_with("out ") {
            case.put(b"\n");
            case.put(line.as_bytes());
        }
    }
    Ok(())
}

/// The table of children: the words, the messages that a client sends, and one that it sends last. What comes is each
/// answer, the child's status, and what it put but for how many datagrams it heard and sent, which is not the same in
/// each run.
pub fn child<R: Alloc<A = Global> + Files + Net + Processes>(rt: &R, case: &mut Case) {
    if let Err(error) = talk(rt, case) {
        case.say(&error);
    }
}
