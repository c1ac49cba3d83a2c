//! What a request asks of the node.

use sed_value::Id;

/// What is to be done once a request was served, besides sending its reply.
#[derive(Clone, Copy, Debug, PartialEq, Eq)]
pub enum Served {
    /// Nothing more: the reply says it all.
    Replied,
    /// The application is to be saved, and then there is a reply.
    SaveAsked,
    /// The session is to be told of these parts of the component. The reply says that it is.
    Subscribe { id: Id, mask: u8 },
    /// It is to be told of these parts no more. The reply says that it is not.
    Unsubscribe { id: Id, mask: u8 },
    /// Components are gone, and with them what was subscribed of them. The reply says so.
    Deleted,
}
