//! A store of one payload in two slots, which a power cut never leaves half.
//!
//! A save writes the slot that isn't newest behind a closed gate, and opens the gate last. At each moment of it a crash
//! leaves a whole store that opens to what it opened to before, or to the payload of this save; once it is answered Ok
//! every crash leaves a store that opens to it. The same is said of many saves in one run, whether they fail or not.
//! It promises this over any `Disk`; that the system's file is one is presumed. The node saves its application here.
#![tactic(auto)]

mod laws;
mod load;
mod making;
mod opening;
mod pages;
mod refusal;
mod save;
mod slots;
mod store;

pub use laws::stores_open_to_one;
pub use making::make;
pub use opening::open;
pub use refusal::SaveRefusal;
pub use store::Store;
