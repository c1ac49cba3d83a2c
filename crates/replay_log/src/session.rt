//! The two sessions of a generated record.
ghost use Rattle.std.specs.Prelude.{◌≡◌};
ghost use Rattle.replay_log.specs.Session as sessions;

use sed_outside::Addr;

/// One of the two sessions.
#[derive(Clone, Copy)]
pub(crate) enum Session {
    A,
    B,
}

impl Session {
    // The session whose turn it is: A has the even numbers.
    pub(crate) fn in_turn(number: u32) -> Session
        ensures { result ≡ sessions.in_turn number }
    {
        if number % 2 == 0 {
            Session::A
        } else {
            Session::B
        }
    }

    pub(crate) fn address(self) -> Addr
        ensures { result ≡ sessions.address_of self }
    {
        let port = match self {
            Session::A => 2001,
            Session::B => 2002,
        };
        Addr {
            ip: [127, 0, 0, 1],
            port,
        }
    }

    pub(crate) fn remote_id(self) -> u16
        ensures { result ≡ sessions.remote_id_of self }
    {
        match self {
            Session::A => 1,
            Session::B => 2,
        }
    }

    pub(crate) fn node_id(self) -> u16
        ensures { result ≡ sessions.node_id_of self }
    {
        match self {
            Session::A => 0,
            Session::B => 17,
        }
    }
}
