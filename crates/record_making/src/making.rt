//! Generating the record of a code.
ghost use Rattle.std.specs.Prelude.{◌≡◌, ◌≤◌, ◌↔◌, None, IfOk, IsErrOf};
ghost use Rattle.std.specs.FinMap as map;
ghost use Rattle.dasp_session.specs.UsersFile.{AreUsers, credential_of};
ghost use Rattle.replay_log.specs.Bounds.{IsAllowed};
ghost use Rattle.replay_log.specs.Generated.{IsGenerated, MayGenerate};
ghost use Rattle.record_making.specs.Spec.{IsRecordOf, spec_with, wanted_digests};

use crate::refusal::RecordRefusal;
use crate::types::drawn_types;
use dasp_session::{Users, digest, nonce};
use replay_log::{GenAsked, GenSpec, GenType, generate_record};
use sed_engine::Engine;
use sed_value::{Items, Memory};
use std::alloc::Global;

/// The record that is generated for a code as a user, for a node with these users and this secret whose application is
/// the App alone: its components are of the code's types, and its digests are those that the node wants of the first
/// and of the second session that it makes. The code is that of an engine without live places that has room for one
/// object of any class, each of which has less than 65,536 bytes of data.
///
/// `NoUser` comes exactly where no user of that name is among the users, and `Memory` where memory was wanted.
pub fn generated<E: Engine>(
    alloc: Global,
    engine: E,
    users: &Users,
    user: &[u8],
    secret: &[u8; 20],
    asked: &GenAsked,
) -> Result<Items<u8>, RecordRefusal>
    requires bare { E.live engine ≡ map.empty }
    requires room { 65536 ≤ E.limit engine }
    requires users { AreUsers users.now }
    requires asked { IsAllowed asked.now }
    ensures made { IfOk result (IsRecordOf (E.meaning engine) users.now user.now secret.now asked.now) }
    ensures no_user { IsErrOf result RecordRefusal.NoUser ↔ (credential_of users.now user.now ≡ None) }
{
    let Some(credential) = users.credential(user) else {
        return Err(RecordRefusal::NoUser);
    };
    let mut engine = engine;
    let _whole = engine.schema();
    let types = drawn_types(alloc, &mut engine)?;
    let digests = wanted_digests(secret, &credential);
    let spec = spec_with(asked, user_name(alloc, user)?, digests, types);
    Ok(record_of(alloc, &spec)?)
}

// The digests that a node wants of a user in the first two sessions that it makes.
fn wanted_digests(secret: &[u8; 20], credential: &[u8; 20]) -> [[u8; 20]; 2]
    ensures { result ≡ wanted_digests secret.now credential.now }
{
    [
        digest(credential, &nonce(secret, 0)),
        digest(credential, &nonce(secret, 1)),
    ]
}

// The name of a user as a list of its own.
fn user_name(alloc: Global, user: &[u8]) -> Result<Items<u8>, Memory>
    ensures { IfOk result (λ name. name ≡ user.now) }
{
    Ok(Items::new(Vec::from_slice(alloc, user)?))
}

// What is asked, with a user, digests and types.
fn spec_with(
    asked: &GenAsked,
    user: Items<u8>,
    digests: [[u8; 20]; 2],
    types: Items<GenType>,
) -> GenSpec
    ensures { result ≡ spec_with asked.now user digests types }
{
    GenSpec {
        seed: asked.seed,
        components: asked.components,
        links: asked.links,
        ticks: asked.ticks,
        user,
        digests,
        types,
    }
}

// The record of a specification.
fn record_of(alloc: Global, spec: &GenSpec) -> Result<Items<u8>, Memory>
    requires { MayGenerate spec.now }
    ensures { IfOk result (λ bytes. IsGenerated spec.now bytes) }
{
    let mut bytes = Vec::new(alloc);
    generate_record(spec, &mut bytes)?;
    Ok(Items::new(bytes))
}
