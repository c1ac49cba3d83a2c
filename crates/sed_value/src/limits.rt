//! The platform's limits that crates go by.

/// The sessions that a node keeps at once, and so the places for them.
pub const MOST_SESSIONS: usize = 16;

/// The components of an application, the App among them. Their ids are below this.
pub const MOST_COMPONENTS: usize = 4096;

/// The children of a component.
pub const MOST_CHILDREN: usize = 200;

/// How many components stand above one, the App among them.
pub const GREATEST_DEPTH: usize = 16;

/// The links of an application.
pub const MOST_LINKS: usize = 8192;

/// The links at a component, from it and to it; one from it to itself counts once.
pub const MOST_LINKS_AT_COMPONENT: usize = 60;

/// The bytes of a datagram.
pub const LONGEST_DATAGRAM: usize = 512;

/// The bytes of a message that is posted, a reply or an event: with its header and fields it fits a datagram.
pub const LONGEST_MESSAGE: usize = 498;

/// The bytes of what a reply or an event tells of a part of a component.
pub const LONGEST_PART: usize = 438;

/// The bytes of what a reply tells of the kits of a schema.
pub const LONGEST_SCHEMA: usize = 465;

/// The turns of a call's budget.
pub const MOST_TURNS: u32 = 1_000_000;

/// The greatest limit of an application's data: the bytes that its components have together, by their classes' sizes.
pub const MOST_DATA: u32 = 4_194_304;

/// The bytes of a payload for which a slot of a store has room.
pub const LARGEST_SLOT: u64 = 4_194_304;

/// The bytes of a store: two slots, each with its gate and header.
pub const LARGEST_STORE: u64 = 8_388_620;

/// The bytes of a file that is read.
pub const LARGEST_FILE: usize = 16_777_216;
