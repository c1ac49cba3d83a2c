//! The rows of a file that hold together.
ghost use Rattle.std.specs.Prelude.{◌≡◌, ℕ, IfOk, IfErr};
ghost use Rattle.sed_engine.specs.Code.{Meaning};
ghost use Rattle.comp_tree.specs.Application.{Application};
ghost use Rattle.app_file.specs.Reading.{IsRefusedFor, StandsFor};
ghost use Rattle.app_front.specs.Rows.{AreRows};
ghost use Rattle.app_reader.specs.Tells.{Tells};
ghost use Rattle.app_reader.specs.Ready.{HoldTogether, application_told};

use crate::holding::{formed, tree_of};
use crate::told_laws::{
    bytes_that_stand_are_rows, files_that_tell_are_formed, formed_files_tell, rows_that_tell_stand,
};
use app_file::AppRefusal;
use app_front::{FileRows, read_rows};
use row_tree::{TreeRefusal, TreeRow};
use sed_engine::Engine;
use sed_value::Items;
use std::alloc::Global;

// Rows and links of a file that hold together, what the rows tell of the tree, and the places of the children of each.
#[derive(Drop)]
pub(crate) struct FormedRows {
    pub(crate) file: FileRows,
    pub(crate) tree: Items<TreeRow>,
    pub(crate) lists: Items<Items<usize>>,
}

// The rows and links of a file which hold together, whatever limit they pass, or why bytes are no file of the code.
pub(crate) fn formed_rows<E: Engine>(
    alloc: Global,
    engine: &E,
    bytes: &[u8],
) -> Result<FormedRows, AppRefusal>
    ensures formed { IfOk result (HoldTogether (E.meaning engine.now) (E.limit engine.now)) }
    ensures stands { IfOk result (λ rows. StandsFor (E.meaning engine.now) (E.limit engine.now) bytes.now
        (application_told (E.meaning engine.now) (E.limit engine.now) rows)) }
    ensures refused { IfErr result (λ refusal.
        IsRefusedFor (E.meaning engine.now) (E.limit engine.now) bytes.now refusal) }
{
    let _whole = engine.schema();
    files_that_tell_are_formed();
    formed_files_tell();
    rows_that_tell_stand();
    let file = match file_rows(alloc, engine, bytes) {
        Ok(file) => file,
        Err(refusal) => return Err(refusal),
    };
    let tree = match tree_of(alloc, file.rows.as_slice()) {
        Ok(tree) => tree,
        Err(_) => return Err(AppRefusal::Memory),
    };
    let lists = match formed(alloc, engine, &file, tree.as_slice()) {
        Ok(lists) => lists,
        Err(TreeRefusal::NoTree) => return Err(AppRefusal::NotAnApp { at: bytes.len() }),
        Err(TreeRefusal::Memory) => return Err(AppRefusal::Memory),
    };
    Ok(FormedRows { file, tree, lists })
}

// The rows and links that bytes are; they tell each application that the bytes stand for.
fn file_rows<E: Engine>(alloc: Global, engine: &E, bytes: &[u8]) -> Result<FileRows, AppRefusal>
    ensures rows { IfOk result (λ file. AreRows (E.meaning engine.now) bytes.now file) }
    ensures only { IfOk result (λ file. (limit : ℕ) (a : Application)
        → StandsFor (E.meaning engine.now) limit bytes.now a → Tells (E.meaning engine.now) limit file a) }
    ensures refused { IfErr result (λ refusal. (limit : ℕ)
        → IsRefusedFor (E.meaning engine.now) limit bytes.now refusal) }
{
    let schema = engine.schema();
    bytes_that_stand_are_rows();
    read_rows(alloc, schema, bytes)
}
