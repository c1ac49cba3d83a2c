//! Generating a record.
ghost use Rattle.std.specs.Prelude.{◌≡◌, ◌≤◌, ◌<◌, ◌+◌, ◌∷◌, [], length, IsTrue, IfOk, OnOk, OnErr};
ghost use Rattle.dasp_msg.specs.UserName.{is_user_name};
ghost use Rattle.replay_log.specs.Generated as generated;
ghost use Rattle.replay_log.specs.Generated.{IsGenerated, MayGenerate, PutsRecord};
ghost use Rattle.replay_log.specs.Making.{Does, PutsSteps};
ghost use Rattle.replay_log.specs.Step.{greeting};

use crate::gen_spec::GenSpec;
use crate::making::{Making, Next, put_message};
use crate::session::Session;
use crate::steps::{add_components, add_links, edit_at_ticks};
use dasp_msg::Msg;
use sed_value::Memory;
use std::alloc::Global;

/// Puts the record that is generated of the specification behind the bytes of `into`, which takes the memory. After a
/// refusal `into` holds what it held.
pub fn generate_record(spec: &GenSpec, into: &mut Vec<u8>) -> Result<(), Memory>
    requires { MayGenerate spec.now }
    ensures ok { OnOk result (PutsRecord spec.now into.old.items into.new.items) }
    ensures err { OnErr result (into.new.items ≡ into.old.items) }
{
    // It is made apart, so that `into` stays as it was where memory is refused.
    let text = generated_text(*into.allocator(), spec)?;
    into.extend_from_slice(&text)?;
    Ok(())
}

// The record that is generated.
fn generated_text(alloc: Global, spec: &GenSpec) -> Result<Vec<u8>, Memory>
    requires { MayGenerate spec.now }
    ensures { IfOk result (λ text. IsGenerated spec.now text.items) }
{
    let mut text = Vec::new(alloc);
    put_greetings(&mut text, spec)?;
    let mut making = Making {
        last: spec.seed,
        next: Next { a: 0, b: 0 },
        text,
    };
    do_acts(&mut making, spec)?;
    making.text.push(b'z')?;
    Ok(making.text)
}

// Both sessions greet.
fn put_greetings(text: &mut Vec<u8>, spec: &GenSpec) -> Result<(), Memory>
    requires { MayGenerate spec.now }
    ensures { OnOk result (PutsSteps (generated.greetings spec.now) text.old.items text.new.items) }
{
    greet(text, Session::A, spec.user.as_slice(), &spec.digests[0])?;
    greet(text, Session::B, spec.user.as_slice(), &spec.digests[1])?;
    Ok(())
}

// A session says hello and who it is.
fn greet(text: &mut Vec<u8>, who: Session, user: &[u8], digest: &[u8; 20]) -> Result<(), Memory>
    requires { IsTrue (is_user_name user.now) }
    ensures { OnOk result (PutsSteps (greeting who user.now digest.now) text.old.items text.new.items) }
{
    put_message(text, who, &Msg::hello(who.remote_id()))?;
    put_message(text, who, &Msg::authenticate(who.node_id(), user, digest))?;
    Ok(())
}

// The sessions do all that they do.
fn do_acts(making: &mut Making, spec: &GenSpec) -> Result<(), Memory>
    requires may { MayGenerate spec.now }
    requires seed { making.old.last ≡ spec.now.seed }
    ensures { OnOk result (Does (generated.acts spec.now) making.old making.new) }
{
    let places = add_components(making, spec)?;
    add_links(making, spec, &places)?;
    edit_at_ticks(making, spec)?;
    making.ask(Session::A, b'i', &[0, 0, 1])?;
    Ok(())
}
