//! Images: what commands leave in a file, and the first bytes of that.
use crate::world::{World, held};
use rows::Case;
use sed_outside::Files;

// A text in which so many copies of a piece stand in the place of `@@`.
fn filled(case: &mut Case, text: &str, count: u32, piece: &str) -> String {
    let mut all = String::new(case.alloc());
    let (front, back) = text.split_once("@@").unwrap_or((text, ""));
    held(case, all.push_str(front));
    for _ in 0..count {
        held(case, all.push_str(piece));
    }
    held(case, all.push_str(back));
    all
}

/// Commands that are done one behind the other, each with its status; what they put; and the first bytes of a file.
pub fn images(case: &mut Case) {
    let (words, count, piece) = (case.text(), case.number(), case.text());
    let (name, shown, plan) = (case.text(), case.number(), case.text());
    let text = case.text();
    let files = filled(case, &text, count, &piece);
    let mut bytes = Vec::new(case.alloc());
    let Some(mut world) = World::new(case, &plan, &files, &[], "") else {
        return;
    };
    for command in words.split(';') {
        let status = world.does(case, command);
        case.say(&status);
        case.put(b" ");
    }
    case.put(world.text().as_bytes());
    match world.files.read(&name, &mut bytes) {
        Ok(()) => case.hex(bytes.get(..shown).unwrap_or(&bytes)),
        Err(_) => case.put(b"no file"),
    }
}
