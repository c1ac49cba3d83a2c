//! Bytes as a row writes them.
use std::fmt::{self, Write};

/// Bytes, printed as a field of a row writes them.
#[derive(Clone, Copy)]
pub struct Written<'a>(pub &'a [u8]);

impl fmt::Display for Written<'_> {
    fn fmt<W: fmt::Write>(&self, f: &mut fmt::Formatter<W>) -> fmt::Result {
        let bytes = self.0;
        let mut behind_space = false;
        for (i, byte) in bytes.iter().enumerate() {
            // A space at an end would be none of the field, and a bar behind a space would end it.
            let at_end = i == 0 || bytes.len() - i == 1;
            match *byte {
                b'\n' => f.write_str("\\n")?,
                b'\r' => f.write_str("\\r")?,
                b'\t' => f.write_str("\\t")?,
                b'\\' => f.write_str("\\\\")?,
                b'|' if behind_space => f.write_str("\\|")?,
                b' ' if at_end => f.write_str("\\x20")?,
                b' '..=b'~' => f.write_char(char::from(*byte))?,
                other => write!(f, "\\x{other:02x}")?,
            }
            behind_space = *byte == b' ';
        }
        Ok(())
    }
}
