//! The body of a command, letter by letter.
ghost use Rattle.std.specs.Prelude.{◌≡◌};
ghost use Rattle.std.specs.Option.{option_map};
ghost use Rattle.sox_msg.specs.Command as commands;
ghost use Rattle.sox_msg.specs.Forms as forms;
ghost use Rattle.sox_msg.specs.View.{asked_of};

use crate::command::Command;
use crate::text::{id_of, read_text};

// The command of a letter whose body this is.
#[tactic(auto, unfolding(crate::specs::Forms::command_at))]
pub(crate) fn read_command<'a>(letter: u8, body: &'a [u8]) -> Option<Command<'a>>
    ensures { option_map asked_of result ≡ forms.command_at letter body.now }
{
    match letter {
        b'a' => add(body),
        b'c' => read_part(body),
        b'd' => delete(body),
        b'i' => invoke(body),
        b'l' => link(body),
        b'n' => rename(body),
        b'o' => reorder(body),
        b'r' => read_slot(body),
        b's' => subscribe(body),
        b'u' => unsubscribe(body),
        b'v' => version(body),
        b'w' => write(body),
        b'x' => clear(body),
        _ => None,
    }
}

#[tactic(auto, unfolding(crate::specs::Forms::add_at))]
fn add<'a>(body: &'a [u8]) -> Option<Command<'a>>
    ensures { option_map asked_of result ≡ forms.add_at body.now }
{
    match body {
        [high, low, kit, kind, rest @ ..] => {
            let (name, config) = read_text(rest)?;
            Some(Command::Add {
                parent: id_of(*high, *low),
                kit: *kit,
                kind: *kind,
                name,
                config,
            })
        }
        _ => None,
    }
}

#[tactic(auto, unfolding(crate::specs::Forms::part_at))]
fn read_part<'a>(body: &'a [u8]) -> Option<Command<'a>>
    ensures { option_map asked_of result ≡ forms.part_at body.now }
{
    match body {
        [high, low, part] if is_part(*part) => {
            Some(Command::ReadPart {
                id: id_of(*high, *low),
                part: *part,
            })
        }
        _ => None,
    }
}

// Whether a part has this letter.
fn is_part(letter: u8) -> bool
    ensures { result ≡ commands.is_part letter }
{
    matches!(letter, b't' | b'c' | b'r' | b'l' | b'f')
}

#[tactic(auto, unfolding(crate::specs::Forms::delete_at))]
fn delete<'a>(body: &'a [u8]) -> Option<Command<'a>>
    ensures { option_map asked_of result ≡ forms.delete_at body.now }
{
    match body {
        [high, low] => Some(Command::Delete {
            id: id_of(*high, *low),
        }),
        _ => None,
    }
}

#[tactic(auto, unfolding(crate::specs::Forms::invoke_at))]
fn invoke<'a>(body: &'a [u8]) -> Option<Command<'a>>
    ensures { option_map asked_of result ≡ forms.invoke_at body.now }
{
    match body {
        [high, low, slot, arg @ ..] => {
            Some(Command::Invoke {
                id: id_of(*high, *low),
                slot: *slot,
                arg,
            })
        }
        _ => None,
    }
}

#[tactic(auto, unfolding(crate::specs::Forms::link_at))]
fn link<'a>(body: &'a [u8]) -> Option<Command<'a>>
    ensures { option_map asked_of result ≡ forms.link_at body.now }
{
    match body {
        [way, a, b, from_slot, c, d, to_slot] => {
            let (from, from_slot, to, to_slot) = (
                id_of(*a, *b),
                *from_slot,
                id_of(*c, *d),
                *to_slot,
            );
            match *way {
                b'a' => Some(Command::Link {
                    from,
                    from_slot,
                    to,
                    to_slot,
                }),
                b'd' => Some(Command::Unlink {
                    from,
                    from_slot,
                    to,
                    to_slot,
                }),
                _ => None,
            }
        }
        _ => None,
    }
}

#[tactic(auto, unfolding(crate::specs::Forms::rename_at))]
fn rename<'a>(body: &'a [u8]) -> Option<Command<'a>>
    ensures { option_map asked_of result ≡ forms.rename_at body.now }
{
    match body {
        [high, low, rest @ ..] => {
            let (name, behind) = read_text(rest)?;
            if behind.len() == 0 {
                Some(Command::Rename {
                    id: id_of(*high, *low),
                    name,
                })
            } else {
                None
            }
        }
        _ => None,
    }
}

#[tactic(auto, unfolding(crate::specs::Forms::reorder_at))]
fn reorder<'a>(body: &'a [u8]) -> Option<Command<'a>>
    ensures { option_map asked_of result ≡ forms.reorder_at body.now }
{
    match body {
        [high, low, count, children @ ..] => {
            if children.len() == 2 * usize::from(*count) {
                Some(Command::Reorder {
                    id: id_of(*high, *low),
                    children,
                })
            } else {
                None
            }
        }
        _ => None,
    }
}

#[tactic(auto, unfolding(crate::specs::Forms::slot_at))]
fn read_slot<'a>(body: &'a [u8]) -> Option<Command<'a>>
    ensures { option_map asked_of result ≡ forms.slot_at body.now }
{
    match body {
        [high, low, slot] => Some(Command::ReadSlot {
            id: id_of(*high, *low),
            slot: *slot,
        }),
        _ => None,
    }
}

#[tactic(auto, unfolding(crate::specs::Forms::subscribe_at))]
fn subscribe<'a>(body: &'a [u8]) -> Option<Command<'a>>
    ensures { option_map asked_of result ≡ forms.subscribe_at body.now }
{
    match body {
        [high, low, mask] if *mask < 16 => {
            Some(Command::Subscribe {
                id: id_of(*high, *low),
                mask: *mask,
            })
        }
        _ => None,
    }
}

#[tactic(auto, unfolding(crate::specs::Forms::unsubscribe_at))]
fn unsubscribe<'a>(body: &'a [u8]) -> Option<Command<'a>>
    ensures { option_map asked_of result ≡ forms.unsubscribe_at body.now }
{
    match body {
        [high, low, mask] if *mask < 16 => {
            Some(Command::Unsubscribe {
                id: id_of(*high, *low),
                mask: *mask,
            })
        }
        _ => None,
    }
}

#[tactic(auto, unfolding(crate::specs::Forms::version_at))]
fn version<'a>(body: &'a [u8]) -> Option<Command<'a>>
    ensures { option_map asked_of result ≡ forms.version_at body.now }
{
    match body {
        [] => Some(Command::Version),
        _ => None,
    }
}

#[tactic(auto, unfolding(crate::specs::Forms::write_at))]
fn write<'a>(body: &'a [u8]) -> Option<Command<'a>>
    ensures { option_map asked_of result ≡ forms.write_at body.now }
{
    match body {
        [high, low, slot, value @ ..] => {
            Some(Command::Write {
                id: id_of(*high, *low),
                slot: *slot,
                value,
            })
        }
        _ => None,
    }
}

#[tactic(auto, unfolding(crate::specs::Forms::clear_at))]
fn clear<'a>(body: &'a [u8]) -> Option<Command<'a>>
    ensures { option_map asked_of result ≡ forms.clear_at body.now }
{
    match body {
        [high, low] => Some(Command::Clear {
            id: id_of(*high, *low),
        }),
        _ => None,
    }
}
