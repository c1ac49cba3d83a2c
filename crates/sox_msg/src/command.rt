//! What a request asks for.
use sed_value::Id;

/// A request: its number, which the reply carries, and what it asks for.
#[derive(Clone, Copy, Debug, PartialEq, Eq)]
pub struct Request<'a> {
    /// Chosen by the client.
    pub number: u8,
    /// What is asked for.
    pub command: Command<'a>,
}

/// What a request asks for. It borrows the bytes of the request.
#[derive(Clone, Copy, Debug, PartialEq, Eq)]
pub enum Command<'a> {
    /// Letter `a`: a new component, as the last child of `parent`.
    Add {
        /// The component that it is to stand under.
        parent: Id,
        /// The kit of its type.
        kit: u8,
        /// The number of its type in the kit.
        kind: u8,
        /// Its name, without the 0 that ends it.
        name: &'a [u8],
        /// The values of its config properties, in slot order.
        config: &'a [u8],
    },
    /// Letter `c`: one part of what is known of a component.
    ReadPart {
        /// The component.
        id: Id,
        /// One of the letters `t`, `c`, `r`, `l` and `f`.
        part: u8,
    },
    /// Letter `d`: a component and all below it go.
    Delete {
        /// The component.
        id: Id,
    },
    /// Letter `i`: an action runs.
    Invoke {
        /// The component.
        id: Id,
        /// The action.
        slot: u8,
        /// The action's argument.
        arg: &'a [u8],
    },
    /// Letter `l`, then `a`: a new link.
    Link {
        /// The component that it leads from.
        from: Id,
        /// The slot that it leads from.
        from_slot: u8,
        /// The component that it leads to.
        to: Id,
        /// The slot that it leads to.
        to_slot: u8,
    },
    /// Letter `l`, then `d`: a link goes.
    Unlink {
        /// The component that it leads from.
        from: Id,
        /// The slot that it leads from.
        from_slot: u8,
        /// The component that it leads to.
        to: Id,
        /// The slot that it leads to.
        to_slot: u8,
    },
    /// Letter `n`: a component has another name.
    Rename {
        /// The component.
        id: Id,
        /// The name, without the 0 that ends it.
        name: &'a [u8],
    },
    /// Letter `o`: the children of a component stand in another order.
    Reorder {
        /// The component.
        id: Id,
        /// Two bytes for each child, in the new order.
        children: &'a [u8],
    },
    /// Letter `r`: the value of a property.
    ReadSlot {
        /// The component.
        id: Id,
        /// The property.
        slot: u8,
    },
    /// Letter `s`: events for parts of a component.
    Subscribe {
        /// The component.
        id: Id,
        /// 1 for `t`, 2 for `c`, 4 for `r`, 8 for `l`, or a sum of these.
        mask: u8,
    },
    /// Letter `u`: no more events for parts of a component.
    Unsubscribe {
        /// The component.
        id: Id,
        /// As in `Subscribe`.
        mask: u8,
    },
    /// Letter `v`: the kits and their checksums.
    Version,
    /// Letter `w`: a property gets a value.
    Write {
        /// The component.
        id: Id,
        /// The property.
        slot: u8,
        /// The value.
        value: &'a [u8],
    },
    /// Letter `x`: a component's fault is 0 again.
    Clear {
        /// The component.
        id: Id,
    },
}
