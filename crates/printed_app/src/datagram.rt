//! The line of a datagram that is sent.
ghost use Rattle.std.specs.Prelude.{◌≡◌, ◌≤◌, ◌+◌, ◌*◌, ◌++◌, length, map};
ghost use Rattle.std.specs.Fmt.{decimal};
ghost use Rattle.std.specs.List.{join_with_byte};
ghost use Rattle.arrayvec.specs.ArrayVec.{array_vec_len};
ghost use Rattle.hex.specs.Hex.{encode_lower};
ghost use Rattle.printed_app.specs.Datagram.{address_text, datagram_text, dot};

use arrayvec::ArrayVec;
use itoa::Buffer;
use sed_outside::Addr;

/// The line of a datagram. It has room for one of 512 bytes: `> `, an address of at most 21 bytes, a space, two
/// digits for each byte, and the newline.
pub type DatagramLine = ArrayVec<u8, 1049>;

// The digits of 512 bytes.
const MOST_DIGITS: usize = 1024;

/// The line `> A.B.C.D:PORT HEX` of a datagram of at most 512 bytes that is sent to an address: its bytes are two
/// lower-case hexadecimal digits each. Takes no memory.
pub fn datagram_line(to: Addr, bytes: &[u8]) -> DatagramLine
    requires { length bytes.now ≤ 512 }
    ensures { result.items ≡ datagram_text to bytes.now }
{
    let mut line = ArrayVec::new();
    put(&mut line, b"> ");
    put_address(&mut line, to);
    put(&mut line, b" ");
    put_digits(&mut line, bytes);
    put(&mut line, b"\n");
    line
}

// Puts an address behind what stands in a line: at most 21 bytes.
fn put_address(line: &mut DatagramLine, to: Addr)
    requires { array_vec_len line.old + 21 ≤ 1049 }
    ensures text { line.new.items ≡ line.old.items ++ address_text to }
    ensures short { array_vec_len line.new ≤ array_vec_len line.old + 21 }
{
    put_host(line, &to.ip);
    put(line, b":");
    put_port(line, to.port);
}

// Puts the four bytes of a host's address, each in decimal, with dots between them: at most 15 bytes.
fn put_host(line: &mut DatagramLine, ip: &[u8; 4])
    requires { array_vec_len line.old + 15 ≤ 1049 }
    ensures text { line.new.items ≡ line.old.items ++ join_with_byte dot (map decimal ip.now) }
    ensures short { array_vec_len line.new ≤ array_vec_len line.old + 15 }
{
    put_part(line, ip[0]);
    put(line, b".");
    put_part(line, ip[1]);
    put(line, b".");
    put_part(line, ip[2]);
    put(line, b".");
    put_part(line, ip[3]);
}

// Puts a byte of an address in decimal: at most 3 digits.
fn put_part(line: &mut DatagramLine, part: u8)
    requires { array_vec_len line.old + 3 ≤ 1049 }
    ensures text { line.new.items ≡ line.old.items ++ decimal part }
    ensures short { array_vec_len line.new ≤ array_vec_len line.old + 3 }
{
    let mut digits = Buffer::new();
    put(line, digits.format(part).as_bytes());
}

// Puts a port in decimal: at most 5 digits.
fn put_port(line: &mut DatagramLine, port: u16)
    requires { array_vec_len line.old + 5 ≤ 1049 }
    ensures text { line.new.items ≡ line.old.items ++ decimal port }
    ensures short { array_vec_len line.new ≤ array_vec_len line.old + 5 }
{
    let mut digits = Buffer::new();
    put(line, digits.format(port).as_bytes());
}

// Puts two hexadecimal digits for each of at most 512 bytes.
fn put_digits(line: &mut DatagramLine, bytes: &[u8])
    requires few { length bytes.now ≤ 512 }
    requires room { array_vec_len line.old + 2 * length bytes.now ≤ 1049 }
    ensures text { line.new.items ≡ line.old.items ++ encode_lower bytes.now }
    ensures len { array_vec_len line.new ≡ array_vec_len line.old + 2 * length bytes.now }
{
    let mut room = [0; MOST_DIGITS];
    let digits = &mut room[..2 * bytes.len()];
    match hex::encode_to_slice(bytes, digits) {
        Ok(()) => put(line, digits),
        Err(_) => unreachable!(),
    }
}

// Puts bytes for which there is room behind what stands in a line.
fn put(line: &mut DatagramLine, bytes: &[u8])
    requires { array_vec_len line.old + length bytes.now ≤ 1049 }
    ensures text { line.new.items ≡ line.old.items ++ bytes.now }
    ensures len { array_vec_len line.new ≡ array_vec_len line.old + length bytes.now }
{
    match line.try_extend_from_slice(bytes) {
        Ok(()) => {}
        Err(_) => unreachable!(),
    }
}
