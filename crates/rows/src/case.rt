//! A case: its inputs, read one after another, and what comes of them.
use crate::words::put_bytes;
use std::alloc::Global;
use std::fmt::{Debug, Display};
use std::io::Write;
use std::str::FromStr;
use thiserror::Error;

/// Why nothing can be said of a case.
#[derive(Clone, Copy, Debug, PartialEq, Eq, Error)]
pub enum CaseFault {
    /// An input that can't be read: it is missing, left over, no UTF-8, no number or no bytes.
    #[error("an input that can't be read")]
    BadInput,
    /// Memory was wanted.
    #[error("out of memory")]
    Memory,
}

/// A case of a table. What its inputs can't give is empty or the default, and the case then has a fault, which stays:
/// so a function from a case to its outcome needs no test of its inputs.
#[derive(Drop)]
pub struct Case {
    alloc: Global,
    inputs: Vec<Vec<u8>>,
    read: usize,
    out: Vec<u8>,
    fault: Option<CaseFault>,
}

impl Case {
    /// The case of these inputs, of which none is read and nothing has come yet.
    pub fn new(alloc: Global, inputs: Vec<Vec<u8>>) -> Case {
        Case {
            alloc,
            inputs,
            read: 0,
            out: Vec::new(alloc),
            fault: None,
        }
    }

    /// The allocator of whatever the case makes.
    pub fn alloc(&self) -> Global {
        self.alloc
    }

    /// The next input, as it stands.
    pub fn input(&mut self) -> Vec<u8> {
        let index = self.read;
        self.read = index.saturating_add(1);
        let alloc = self.alloc;
        let copied = match self.inputs.get(index) {
            Some(input) => Vec::from_slice(alloc, input.as_slice()),
            None => {
                self.fail(CaseFault::BadInput);
                return Vec::new(alloc);
            }
        };
        match copied {
            Ok(input) => input,
            Err(_) => {
                self.fail(CaseFault::Memory);
                Vec::new(alloc)
            }
        }
    }

    /// The next input as a text.
    pub fn text(&mut self) -> String {
        let input = self.input();
        match String::from_utf8(input) {
            Ok(text) => text,
            Err(_) => {
                self.fail(CaseFault::BadInput);
                String::new(self.alloc)
            }
        }
    }

    /// The next input as a number, or whatever else a text is parsed to.
    pub fn number<N: FromStr + Default + Drop>(&mut self) -> N
    where
        <N as FromStr>::Err: Drop,
    {
        let text = self.text();
        self.parsed(text.as_str())
    }

    /// What a text is parsed to.
    pub fn parsed<N: FromStr + Default + Drop>(&mut self, text: &str) -> N
    where
        <N as FromStr>::Err: Drop,
    {
        match text.parse() {
            Ok(number) => number,
            Err(_) => {
                self.fail(CaseFault::BadInput);
                N::default()
            }
        }
    }

    /// The bytes that the next input writes, as `bytes_in` reads them.
    pub fn bytes(&mut self) -> Vec<u8> {
        let text = self.text();
        self.bytes_in(text.as_str(), 0)
    }

    /// The bytes that words write one behind the other, with so many such texts before them.
    pub fn bytes_in(&mut self, words: &str, before: u32) -> Vec<u8> {
        let mut bytes = Vec::new(self.alloc);
        if let Err(fault) = put_bytes(self.alloc, words, before, &mut bytes) {
            self.fail(fault);
        }
        bytes
    }

    /// Puts a value behind what has come, as `{}` writes it.
    pub fn say<T: Display>(&mut self, value: &T) {
        if write!(self.out, "{value}").is_err() {
            self.fail(CaseFault::Memory);
        }
    }

    /// Puts a value behind what has come, as `{:?}` writes it.
    pub fn show<T: Debug>(&mut self, value: &T) {
        if write!(self.out, "{value:?}").is_err() {
            self.fail(CaseFault::Memory);
        }
    }

    /// Puts bytes behind what has come, as pairs of hexadecimal digits.
    pub fn hex(&mut self, bytes: &[u8]) {
        for byte in bytes {
            let byte = *byte;
            if write!(self.out, "{byte:02x}").is_err() {
                self.fail(CaseFault::Memory);
            }
        }
    }

    /// Puts bytes behind what has come, as they stand.
    pub fn put(&mut self, bytes: &[u8]) {
        if self.out.extend_from_slice(bytes).is_err() {
            self.fail(CaseFault::Memory);
        }
    }

    /// Notes that an input can't be read, or that memory was wanted. Of several faults the first stays.
    pub fn fail(&mut self, fault: CaseFault) {
        if self.fault.is_none() {
            self.fault = Some(fault);
        }
    }

    /// What has come, if each input was read.
    pub fn outcome(self) -> Result<Vec<u8>, CaseFault> {
        if let Some(fault) = self.fault {
            return Err(fault);
        }
        if self.read != self.inputs.len() {
            return Err(CaseFault::BadInput);
        }
        Ok(self.out)
    }
}
