//! What commands print.
ghost use Rattle.std.specs.Prelude.{◌≡◌, IfOk};
ghost use Rattle.link_prop.specs.Linked.{application_of};
ghost use Rattle.printed_app.specs.Application as printed;
ghost use Rattle.sedona_cli.specs.Steps as steps;

use link_prop::App;
use printed_app::{Collected, put_application};
use sed_engine::Engine;
use sed_value::{Items, Memory};
use std::alloc::{AllocError, Global};

/// `ok`, where a command has nothing else to say.
pub fn done_text(alloc: Global) -> Result<Items<u8>, AllocError>
    ensures { IfOk result (λ text. text ≡ steps.done_text) }
{
    Ok(Items::new(Vec::from_slice(alloc, b"ok\n")?))
}

/// The text of an application, in memory.
pub fn application_text<E: Engine>(alloc: Global, app: &App<E>) -> Result<Items<u8>, Memory>
    ensures { IfOk result (λ text.
        text ≡ printed.application_text (E.meaning app.now.tree.engine) (application_of E.Engine app.now)) }
{
    let mut text = Collected::new(alloc);
    match put_application(app, &mut text) {
        Ok(()) => Ok(Items::new(text.into_bytes())),
        Err(_) => Err(Memory),
    }
}
