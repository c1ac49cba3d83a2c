//! The users of a node.
ghost use Rattle.std.specs.Prelude.{◌≡◌, ◌≤◌, List, nat_eq, IfOk, OnSome, length};
ghost use Rattle.std.specs.Cmp.Lexicographic.{pointwise};
ghost use Rattle.std.specs.List.{list_any};
ghost use Rattle.dasp_session.specs.declared.user.User.{User as Entry};
ghost use Rattle.dasp_session.specs.UsersFile.{IsUsersFile, credential_of};

use crate::line::first_line;
use crate::refusal::UsersRefusal;
use crate::user::User;
use std::alloc::Global;
use std::marker::Model;

/// How many users there are at most.
pub const MOST_USERS: usize = 64;

/// The users of a node. Contracts see their list.
#[derive(Debug, Drop)]
pub struct Users {
    all: Vec<User>,
}

impl Model for Users {
    ghost use Rattle.std.specs.Prelude.{List};
    ghost use Rattle.dasp_session.specs.declared.user.User.{User};

    ghost Value = { List User };

    ghost view = { λ users. users.all.items };
}

impl Users {
    /// The users that a text lists: up to 64 lines, each a name of 1 to 16 bytes from 0x21 to 0x7e without a colon, a
    /// colon, the credential in 40 lower-case hexadecimal digits, and a line's end 0x0a; no two names are equal.
    /// `BadUsers` comes exactly where the text is no such file.
    pub fn read(alloc: Global, text: &[u8]) -> Result<Users, UsersRefusal>
        ensures found { IfOk result (λ users. IsUsersFile users text.now) }
        ensures bad { result ≡ Err UsersRefusal.BadUsers → (users : List Entry) → IsUsersFile users text.now → ⊥ }
        ensures only { (users : List Entry) → IsUsersFile users text.now → IfOk result (λ read. read ≡ users) }
    {
        let mut all = Vec::with_capacity(alloc, MOST_USERS)?;
        let mut left = text;
        while !left.is_empty() {
            let line = match first_line(left) {
                Some(line) => line,
                None => return Err(UsersRefusal::BadUsers),
            };
            if all.len() == MOST_USERS {
                return Err(UsersRefusal::BadUsers);
            }
            if is_among(&all, line.user.name.as_bytes()) {
                return Err(UsersRefusal::BadUsers);
            }
            all.push_reserved(line.user);
            left = line.behind;
        }
        Ok(Users { all })
    }

    /// The credential of the user of this name, and none exactly where it is not among the users. A user's name has at
    /// most 16 bytes.
    pub fn credential(&self, user: &[u8]) -> Option<[u8; 20]>
        ensures value { result ≡ credential_of self.now user.now }
        ensures short { OnSome result (length user.now ≤ 16) }
    {
        find_credential(&self.all, user)
    }
}

fn find_credential(users: &[User], user: &[u8]) -> Option<[u8; 20]>
    ensures value { result ≡ credential_of users.now user.now }
    ensures short { OnSome result (length user.now ≤ 16) }
{
    for known in users {
        let name = known.name.as_bytes();
        if is_same(name, user) {
            return Some(known.credential);
        }
    }
    None
}

fn is_same(name: &[u8], other: &[u8]) -> bool
    ensures { result ≡ pointwise nat_eq name.now other.now }
{
    name == other
}

// Whether one of the users has this name.
fn is_among(users: &[User], name: &[u8]) -> bool
    ensures { result ≡ list_any (λ user. pointwise nat_eq user.name name.now) users.now }
{
    users.iter().any(|user| user.name.as_bytes() == name)
}
