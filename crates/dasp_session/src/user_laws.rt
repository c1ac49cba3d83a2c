//! Laws of users files. Each is the contract of a function that does nothing.
ghost use Rattle.std.specs.Prelude.{◌≡◌, ℕ, List};
ghost use Rattle.dasp_session.specs.declared.user.User.{User};
ghost use Rattle.dasp_session.specs.UsersFile.{IsUsersFile};

/// A text is the users file of one list of users at most.
pub fn users_files_are_one()
    ensures { (users others : List User) (text : List ℕ) → IsUsersFile users text → IsUsersFile others text
        → users ≡ others }
{}
