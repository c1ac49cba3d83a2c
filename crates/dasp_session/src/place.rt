//! A place for a session.
ghost use Rattle.std.specs.Prelude.{◌≡◌, true, false, IfOk};
ghost use Rattle.dasp_session.specs.Keeping.{Like, begun};

use dasp_msg::{LONGEST_USER, Receiver, Sender};
use sed_outside::Addr;
use sed_value::{InPlace, Memory};
use std::alloc::Global;

/// A place, and the session that lives in it. Its memory stays when the session ends, for the next one.
#[derive(Drop)]
pub(crate) struct Place {
    // Whether a session lives here. If none does, the rest says nothing.
    pub(crate) live: bool,
    pub(crate) id: u16,
    // Where the client is, and its own id of the session.
    pub(crate) address: Addr,
    pub(crate) remote_id: u16,
    pub(crate) nonce: [u8; 10],
    // Whom the client showed to be, if it did.
    pub(crate) user: Option<InPlace<LONGEST_USER>>,
    // The moment of the last hearing, in nanoseconds.
    pub(crate) heard: i64,
    pub(crate) receiver: Receiver,
    // Whether an acknowledgement is owed.
    pub(crate) owed: bool,
    pub(crate) sender: Sender,
}

/// What a session begins with.
#[derive(Drop)]
pub(crate) struct Start {
    pub(crate) id: u16,
    pub(crate) address: Addr,
    pub(crate) remote_id: u16,
    pub(crate) nonce: [u8; 10],
    pub(crate) moment: i64,
}

impl Place {
    // A place in which no session lives. Takes its memory here.
    pub(crate) fn free(alloc: Global) -> Result<Place, Memory>
        ensures { IfOk result (λ place. place.live ≡ false) }
    {
        Ok(Place {
            live: false,
            id: 0,
            address: Addr {
                ip: [0; 4],
                port: 0,
            },
            remote_id: 0,
            nonce: [0; 10],
            user: None,
            heard: 0,
            receiver: Receiver::new(),
            owed: false,
            sender: Sender::new(alloc)?,
        })
    }

    // A session begins here.
    pub(crate) fn begin(&mut self, start: &Start)
        ensures live { self.new.live ≡ true }
        ensures like { Like self.new (begun start.now) }
    {
        self.live = true;
        self.id = start.id;
        self.address = start.address;
        self.remote_id = start.remote_id;
        self.nonce = start.nonce;
        self.user = None;
        self.heard = start.moment;
        self.receiver = Receiver::new();
        self.owed = false;
        self.sender.restart();
    }
}
