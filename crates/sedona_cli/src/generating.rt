//! `gen`: the record of a generated run, written into a file.
ghost use Rattle.std.specs.Prelude.{◌≡◌, IfErr, IfOk, IsSome, OnOk};
ghost use Rattle.dasp_session.specs.UsersFile.{AreUsers, credential_of};
ghost use Rattle.sed_outside.specs.Reads.{HasReads};
ghost use Rattle.sed_outside.specs.Steps.{UnlessFree};
ghost use Rattle.replay_log.specs.Bounds.{IsAllowed};
ghost use Rattle.record_making.specs.Spec.{IsRecordOf};
ghost use Rattle.sed_engine.specs.Program.{meaning_of};
ghost use Rattle.sedona_words.specs.Asked.{asked_record, IsMeantRecord};
ghost use Rattle.sedona_words.specs.Command as words_of;
ghost use Rattle.sedona_cli.specs.Gen.{IsAmong, LeavesRecord, RecordInputsRead, UsersWith};
ghost use Rattle.sedona_cli.specs.Outside.{of_reads};
ghost use Rattle.sedona_cli.specs.Program.{ComesOrWants};
ghost use Rattle.sedona_cli.specs.Refusals.{is_want};
ghost use Rattle.sedona_cli.specs.Writing.{HasOutput};

use crate::inputs::{node_program, node_secret, node_users};
use crate::refusal::Refusal;
use crate::writing::write_output;
use dasp_session::Users;
use record_making::{RecordRefusal, generated};
use replay_log::GenAsked;
use scode_compile::Compiled;
use sed_outside::Files;
use sed_value::{Items, Memory};
use sedona_words::GenWords;
use std::alloc::Global;

// A class has less bytes of data.
const ROOM: u32 = 65_536;

/// What a record is generated from beside its numbers: the program of its kits, the users of the node, and its secret.
#[derive(Drop)]
pub struct RecordInputs {
    pub program: Compiled,
    pub users: Users,
    pub secret: [u8; 20],
}

// The users, where this one is among them.
fn with_user(users: Users, user: &str) -> Result<Users, Refusal>
    ensures { IsAmong user.now users result }
{
    match users.credential(user.as_bytes()) {
        Some(_) => Ok(users),
        None => Err(Refusal::BadUsers),
    }
}

// The users of a users file, with this one among them.
fn users_with<F: Files>(
    alloc: Global,
    name: &str,
    user: &str,
    files: &mut F,
) -> Result<Users, Refusal>
    ensures read { HasReads F.Files files.old files.new
        (λ reads. UnlessFree is_want (UsersWith name.now user.now (of_reads reads)) result) }
    ensures users { IfOk result AreUsers }
    ensures among { IfOk result (λ users. IsSome (credential_of users user.now)) }
{
    match node_users(alloc, name, files) {
        Ok(users) => with_user(users, user),
        Err(refusal) => Err(refusal),
    }
}

// What a record is generated from. The files are read in the order of the words; the first refusal counts.
fn record_inputs<F: Files>(
    alloc: Global,
    words: GenWords<'_>,
    files: &mut F,
) -> Result<RecordInputs, Refusal>
    requires { IsMeantRecord words }
    ensures read { HasReads F.Files files.old files.new
        (λ reads. UnlessFree is_want (RecordInputsRead (asked_record words.entry) (of_reads reads)) result) }
    ensures users { IfOk result (λ inputs. AreUsers inputs.users) }
    ensures among { IfOk result (λ inputs. IsSome (credential_of inputs.users words.entry.user.now)) }
{
    let program = match node_program(alloc, words.kits, files) {
        Ok(program) => program,
        Err(refusal) => return Err(refusal),
    };
    let users = match users_with(alloc, words.users, words.user, files) {
        Ok(users) => users,
        Err(refusal) => {
            drop(program);
            return Err(refusal);
        }
    };
    match node_secret(alloc, words.secret, files) {
        Ok(secret) => Ok(RecordInputs {
            program,
            users,
            secret,
        }),
        Err(refusal) => {
            drop(program);
            Err(refusal)
        }
    }
}

// The bytes of the record, as a user who is among the users.
fn record_bytes(
    alloc: Global,
    inputs: RecordInputs,
    user: &str,
    numbers: &GenAsked,
) -> Result<Items<u8>, Refusal>
    requires users { AreUsers inputs.users }
    requires among { IsSome (credential_of inputs.users user.now) }
    requires numbers { IsAllowed numbers.now }
    ensures made { IfOk result
        (IsRecordOf (meaning_of inputs.program) inputs.users user.now inputs.secret numbers.now) }
    ensures refused { IfErr result (λ refusal. refusal ≡ Refusal.Memory) }
{
    let RecordInputs {
        program,
        users,
        secret,
    } = inputs;
    let engine = match program.machine(alloc, ROOM) {
        Ok(engine) => engine,
        Err(Memory) => return Err(Refusal::Memory),
    };
    match generated(alloc, engine, &users, user.as_bytes(), &secret, numbers) {
        Ok(bytes) => Ok(bytes),
        Err(RecordRefusal::NoUser) => unreachable!(),
        Err(RecordRefusal::Memory) => Err(Refusal::Memory),
    }
}

/// What `gen` prints: the record is generated and written into the output file, once, where nothing was refused before.
pub fn generate<F: Files>(
    alloc: Global,
    words: GenWords<'_>,
    files: &mut F,
) -> Result<Items<u8>, Refusal>
    requires { IsMeantRecord words }
    ensures asks { HasOutput F.Files words.entry.out.now files.old files.new
        (λ asks. ComesOrWants (words_of.Gen (asked_record words.entry)) asks result) }
    ensures leaves { OnOk result (LeavesRecord F.Files (asked_record words.entry) files.old files.new) }
{
    let inputs = match record_inputs(alloc, words, files) {
        Ok(inputs) => inputs,
        Err(refusal) => return Err(refusal),
    };
    match record_bytes(alloc, inputs, words.user, &words.numbers) {
        Ok(bytes) => write_output(alloc, words.out, bytes.as_slice(), files),
        Err(refusal) => Err(refusal),
    }
}
