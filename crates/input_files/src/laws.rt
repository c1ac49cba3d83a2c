//! Laws of what is read of input files. Each is the contract of a function that does nothing.
ghost use Rattle.std.specs.Prelude.{◌≡◌, ℕ, List, Result};
ghost use Rattle.sed_outside.specs.Steps.{Read, Agree};
ghost use Rattle.sed_outside.specs.Reads.{failed_names};
ghost use Rattle.dasp_session.specs.declared.user.User.{User};
ghost use Rattle.scode_image.specs.declared.image.Image.{Image as AnyImage};
ghost use Rattle.input_files.specs.declared.refusal.InputRefusal.{InputRefusal};
ghost use Rattle.input_files.specs.Refusals.{failed_in};
ghost use Rattle.input_files.specs.Inputs.{CodeRead, UsersRead, SecretRead, RecordRead};

use dasp_session::users_files_are_one;
use replay_log::refusals_are_one;
use scode_code::first_broken_is_least;
use scode_image::{bytes_are_an_image_or_fault, images_have_one_text};

/// What the same reads give is one: where two rows of reads give the same wherever they read one name at one place,
/// they are the same reads, and the ends are the same.
pub fn inputs_agree()
    ensures of_users { (name : List ℕ) (reads others : List Read) (end other : Result (List User) InputRefusal)
        → UsersRead name reads end → UsersRead name others other → Agree reads others
        → (reads ≡ others) × (end ≡ other) }
    ensures of_secret { (name : List ℕ) (reads others : List Read) (end other : Result (List ℕ) InputRefusal)
        → SecretRead name reads end → SecretRead name others other → Agree reads others
        → (reads ≡ others) × (end ≡ other) }
    ensures of_record { (name : List ℕ) (reads others : List Read) (end other : Result (List ℕ) InputRefusal)
        → RecordRead name reads end → RecordRead name others other → Agree reads others
        → (reads ≡ others) × (end ≡ other) }
    ensures of_code { (name : List ℕ) (reads others : List Read) (end other : Result AnyImage InputRefusal)
        → CodeRead name reads end → CodeRead name others other → Agree reads others
        → (reads ≡ others) × (end ≡ other) }
{
    users_files_are_one();
    refusals_are_one();
    images_have_one_text();
    bytes_are_an_image_or_fault();
    first_broken_is_least();
}

/// The reads that failed are those of the file that the end names as one that could not be read.
pub fn failed_inputs_are_told()
    ensures of_users { (name : List ℕ) (reads : List Read) (end : Result (List User) InputRefusal)
        → UsersRead name reads end → failed_names reads ≡ failed_in end }
    ensures of_secret { (name : List ℕ) (reads : List Read) (end : Result (List ℕ) InputRefusal)
        → SecretRead name reads end → failed_names reads ≡ failed_in end }
    ensures of_record { (name : List ℕ) (reads : List Read) (end : Result (List ℕ) InputRefusal)
        → RecordRead name reads end → failed_names reads ≡ failed_in end }
    ensures of_code { (name : List ℕ) (reads : List Read) (end : Result AnyImage InputRefusal)
        → CodeRead name reads end → failed_names reads ≡ failed_in end }
{}
