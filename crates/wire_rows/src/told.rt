//! What several tables tell, and are given.
use rows::{Case, CaseFault};
use sed_outside::Addr;
use std::fmt::Debug;

/// Tells a value, and puts a blank behind it.
pub fn tell<T: Debug>(case: &mut Case, value: &T) {
    case.show(value);
    case.put(b" ");
}

/// As many bytes as words write.
pub fn array<const N: usize>(case: &mut Case, words: &str) -> [u8; N] {
    let bytes = case.bytes_in(words, 0);
    if bytes.len() != N {
        case.fail(CaseFault::BadInput);
    }
    bytes.as_slice().try_into().unwrap_or([0; N])
}

/// What each word of the next input gives.
pub fn list<T: Drop, F: Fn(&mut Case, &str) -> T>(case: &mut Case, of: F) -> Vec<T>
    requires { F.IsAlwaysCallable of }
{
    let text = case.text();
    let mut all = Vec::new(case.alloc());
    for word in text.as_str().split_whitespace() {
        if all.push(of(case, word)).is_err() {
            case.fail(CaseFault::Memory);
        }
    }
    all
}

/// What has come of a case within another.
pub fn outcome_of(case: &mut Case, inner: Case) -> Vec<u8> {
    match inner.outcome() {
        Ok(came) => came,
        Err(fault) => {
            case.fail(fault);
            Vec::new(case.alloc())
        }
    }
}

/// The address of a port of this host.
pub fn here(port: u16) -> Addr {
    let ip = [127, 0, 0, 1];
    Addr { ip, port }
}
