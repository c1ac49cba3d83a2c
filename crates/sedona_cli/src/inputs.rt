//! What a node is run from beside its store, read.
ghost use Rattle.std.specs.Prelude.{◌≤◌, IfOk, IsTrue, length};
ghost use Rattle.sed_outside.specs.Reads.{HasReads};
ghost use Rattle.sed_outside.specs.Steps.{UnlessFree};
ghost use Rattle.input_files.specs.Inputs.{HasEntries};
ghost use Rattle.scode_code.specs.Image.{meaning_of};
ghost use Rattle.sedona_words.specs.Asked.{asked_code, asked_node, IsMeantCode, IsMeantNode};
ghost use Rattle.sedona_words.specs.Command as words_of;
ghost use Rattle.sedona_cli.specs.Given.{ended_as, given_of, given_record};
ghost use Rattle.sedona_cli.specs.Outside.{of_reads};
ghost use Rattle.sedona_cli.specs.Refusals as meaning;
ghost use Rattle.sedona_cli.specs.Replay.{InputsRead};
ghost use Rattle.sedona_cli.specs.Run.{RunInputsRead};
ghost use Rattle.sedona_cli.specs.Steps.{AfterCode, AfterImage, AfterKits, AfterRecord, AfterSecret, AfterUsers};

use crate::loading::kits_program;
use crate::refusal::{Refusal, of_inputs};
use dasp_session::Users;
use input_files::{read_code, read_record, read_secret, read_users};
use scode_compile::Compiled;
use scode_verify::Verified;
use sed_outside::Files;
use sed_value::Items;
use sedona_words::{CodeWords, NodeWords, names_in};
use std::alloc::Global;

/// What a node is run from beside its store: the verified image of its code, its users, its secret, and the bytes of a
/// record.
#[derive(Drop)]
pub struct Inputs {
    pub code: Verified,
    pub users: Users,
    pub secret: [u8; 20],
    pub text: Items<u8>,
}

/// What a node is run from beside its store and its link: the verified image of its code, its users, and its secret.
#[derive(Drop)]
pub struct NodeInputs {
    pub code: Verified,
    pub users: Users,
    pub secret: [u8; 20],
}

/// The program of kits, whose manifests have these names with commas between them.
pub fn node_program<F: Files>(alloc: Global, kits: &str, files: &mut F) -> Result<Compiled, Refusal>
    requires { IsTrue (words_of.are_manifests (words_of.names_within kits.now)) }
    ensures { HasReads F.Files files.old files.new (λ reads. UnlessFree meaning.is_want
        (AfterKits (words_of.names_within kits.now) (of_reads reads)) result) }
{
    let names = match names_in(alloc, kits) {
        Ok(names) => names,
        Err(_) => return Err(Refusal::Memory),
    };
    kits_program(alloc, &names, files)
}

// The image in a file, which breaks no rule.
fn node_image<F: Files>(alloc: Global, name: &str, files: &mut F) -> Result<Verified, Refusal>
    ensures { HasReads F.Files files.old files.new
        (λ reads. UnlessFree meaning.is_want (AfterImage name.now (of_reads reads)) result) }
{
    match read_code(alloc, name, files) {
        Ok(code) => Ok(code),
        Err(refusal) => Err(of_inputs(refusal)),
    }
}

// The image that is made of kits.
fn kits_code<F: Files>(alloc: Global, kits: &str, files: &mut F) -> Result<Verified, Refusal>
    requires { IsTrue (words_of.are_manifests (words_of.names_within kits.now)) }
    ensures { HasReads F.Files files.old files.new (λ reads. UnlessFree meaning.is_want
        (AfterCode (words_of.OfKits (words_of.names_within kits.now)) (of_reads reads)) (ended_as meaning_of result)) }
{
    match node_program(alloc, kits, files) {
        Ok(program) => Ok(program.into_verified()),
        Err(refusal) => Err(refusal),
    }
}

// The code of a node: the image that is made of its kits, or the one in its file.
fn node_code<F: Files>(
    alloc: Global,
    code: CodeWords<'_>,
    files: &mut F,
) -> Result<Verified, Refusal>
    requires { IsMeantCode code }
    ensures { HasReads F.Files files.old files.new (λ reads. UnlessFree meaning.is_want
        (AfterCode (asked_code code.entry) (of_reads reads)) (ended_as meaning_of result)) }
{
    match code {
        CodeWords::Kits(kits) => kits_code(alloc, kits, files),
        CodeWords::Image(name) => node_image(alloc, name, files),
    }
}

/// The users of a users file.
pub fn node_users<F: Files>(alloc: Global, name: &str, files: &mut F) -> Result<Users, Refusal>
    ensures { HasReads F.Files files.old files.new
        (λ reads. UnlessFree meaning.is_want (AfterUsers name.now (of_reads reads)) result) }
{
    match read_users(alloc, name, files) {
        Ok(users) => Ok(users),
        Err(refusal) => Err(of_inputs(refusal)),
    }
}

/// The secret of a secret file.
pub fn node_secret<F: Files>(alloc: Global, name: &str, files: &mut F) -> Result<[u8; 20], Refusal>
    ensures { HasReads F.Files files.old files.new
        (λ reads. UnlessFree meaning.is_want (AfterSecret name.now (of_reads reads)) result) }
{
    match read_secret(alloc, name, files) {
        Ok(secret) => Ok(secret),
        Err(refusal) => Err(of_inputs(refusal)),
    }
}

// The bytes of a record.
fn record_text<F: Files>(alloc: Global, name: &str, files: &mut F) -> Result<Items<u8>, Refusal>
    ensures read { HasReads F.Files files.old files.new
        (λ reads. UnlessFree meaning.is_want (AfterRecord name.now (of_reads reads)) result) }
    ensures entries { IfOk result HasEntries }
{
    match read_record(alloc, name, files) {
        Ok(text) => Ok(text),
        Err(refusal) => Err(of_inputs(refusal)),
    }
}

/// What the words of a node name beside its store, and the record of this name. The files are read in the order of the
/// words; the first refusal counts.
pub fn read_inputs<F: Files>(
    alloc: Global,
    words: NodeWords<'_>,
    file: &str,
    files: &mut F,
) -> Result<Inputs, Refusal>
    requires { IsMeantNode words }
    ensures read { HasReads F.Files files.old files.new (λ reads. UnlessFree meaning.is_want
        (InputsRead (asked_node words.entry) file.now (of_reads reads)) (ended_as given_record result)) }
    ensures entries { IfOk result (λ inputs. HasEntries inputs.text) }
{
    let code = match node_code(alloc, words.code, files) {
        Ok(code) => code,
        Err(refusal) => return Err(refusal),
    };
    let users = match node_users(alloc, words.users, files) {
        Ok(users) => users,
        Err(refusal) => {
            drop(code);
            return Err(refusal);
        }
    };
    let secret = match node_secret(alloc, words.secret, files) {
        Ok(secret) => secret,
        Err(refusal) => {
            drop(code);
            return Err(refusal);
        }
    };
    match record_text(alloc, file, files) {
        Ok(text) => Ok(Inputs {
            code,
            users,
            secret,
            text,
        }),
        Err(refusal) => {
            drop(code);
            Err(refusal)
        }
    }
}

/// What the words of a node name beside its store. The files are read in the order of the words; the first refusal
/// counts.
pub fn node_inputs<F: Files>(
    alloc: Global,
    words: NodeWords<'_>,
    files: &mut F,
) -> Result<NodeInputs, Refusal>
    requires { IsMeantNode words }
    ensures { HasReads F.Files files.old files.new (λ reads. UnlessFree meaning.is_want
        (RunInputsRead (asked_node words.entry) (of_reads reads)) (ended_as given_of result)) }
{
    let code = match node_code(alloc, words.code, files) {
        Ok(code) => code,
        Err(refusal) => return Err(refusal),
    };
    let users = match node_users(alloc, words.users, files) {
        Ok(users) => users,
        Err(refusal) => {
            drop(code);
            return Err(refusal);
        }
    };
    match node_secret(alloc, words.secret, files) {
        Ok(secret) => Ok(NodeInputs {
            code,
            users,
            secret,
        }),
        Err(refusal) => {
            drop(code);
            Err(refusal)
        }
    }
}
