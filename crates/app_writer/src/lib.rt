//! Writing the application file, and the text of a new store.
//!
//! `write_app` puts the text of an application into a slice that it is lent, exactly as the file's definitions have it,
//! or says how many bytes that takes where there are fewer. It takes no memory and changes nothing but the slice.
//!
//! `text_of_alone` makes an application of the App alone and its text, and measures that against a slot. It knows no
//! disk: so want of memory, and a slot that is too small, are told before anything is asked of one. `make` of app_save
//! then makes a store with that text as its first payload, and by a law a store that opens to that text opens to what a
//! file keeps of the App alone.
#![tactic(auto)]

mod alone;
mod front;
mod full;
mod ids;
mod laws;
mod measure;
mod refusal;
mod row;
mod writing;

pub use alone::text_of_alone;
pub use full::AppFull;
pub use laws::{new_stores_open_to_the_app, texts_alone_are_alike, the_app_is_small};
pub use refusal::NewRefusal;
pub use writing::write_app;
