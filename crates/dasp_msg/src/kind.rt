//! The kinds of messages.
ghost use Rattle.std.specs.Prelude.{◌≡◌, IfSome, IfNone};
ghost use Rattle.dasp_msg.specs.declared.kind.MsgKind.{MsgKind as Kind};
ghost use Rattle.dasp_msg.specs.Kind.{number_of_kind};

/// What a message is for.
#[derive(Clone, Copy, Debug, PartialEq, Eq)]
pub enum MsgKind {
    /// A client asks for a session.
    Hello,
    /// The node answers with what the client's digest is made of.
    Challenge,
    /// The client shows who it is.
    Authenticate,
    /// The node takes the session up.
    Welcome,
    /// Only says what was taken, or that its sender is there.
    KeepAlive,
    /// Carries a request, a reply or an event.
    Datagram,
    /// Ends the session.
    Close,
}

impl MsgKind {
    /// Its number, from 1 to 7.
    pub fn number(self) -> u8
        ensures { result ≡ number_of_kind self }
    {
        self as u8 + 1
    }

    // The kind of a number, and none where no kind has it.
    pub(crate) fn of_number(number: u8) -> Option<MsgKind>
        ensures found { IfSome result (λ kind. number_of_kind kind ≡ number) }
        ensures none { IfNone result ((kind : Kind) → number_of_kind kind ≡ number → ⊥) }
    {
        match number {
            1 => Some(MsgKind::Hello),
            2 => Some(MsgKind::Challenge),
            3 => Some(MsgKind::Authenticate),
            4 => Some(MsgKind::Welcome),
            5 => Some(MsgKind::KeepAlive),
            6 => Some(MsgKind::Datagram),
            7 => Some(MsgKind::Close),
            _ => None,
        }
    }
}
