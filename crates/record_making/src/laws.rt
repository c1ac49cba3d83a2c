//! Laws of the records that are generated for codes. Each is the contract of a function that does nothing.
ghost use Rattle.std.specs.Prelude.{◌≡◌, ℕ, List, Some, IsTrue};
ghost use Rattle.sed_engine.specs.Code.{Meaning};
ghost use Rattle.dasp_session.specs.declared.user.User.{User};
ghost use Rattle.dasp_session.specs.Digest.{nonce_of};
ghost use Rattle.dasp_session.specs.UsersFile.{credential_of};
ghost use Rattle.dasp_session.specs.Hearing.{is_proof};
ghost use Rattle.dasp_session.specs.Receive.{id_of};
ghost use Rattle.replay_log.specs.declared.asked.GenAsked.{GenAsked};
ghost use Rattle.record_making.specs.Spec.{IsRecordOf, wanted_digest};

use replay_log::generated_records_are_one;

/// One record at most is generated for a code, for users, a user, a secret and what is asked.
pub fn generated_records_of_codes_are_one()
    ensures { (m : Meaning) (users : List User) (user secret : List ℕ) (asked : GenAsked) (bytes others : List ℕ)
        → IsRecordOf m users user secret asked bytes → IsRecordOf m users user secret asked others
        → bytes ≡ others }
{
    generated_records_are_one();
}

/// The digests are what a node asks for: in the session before which so many were made, the digest proves the user to
/// it. The record is for the first two sessions that a node makes, in its first two places: their ids are 0 and 17.
pub fn digests_are_proofs()
    ensures proofs { (users : List User) (user secret credential : List ℕ) (made : ℕ)
        → credential_of users user ≡ Some credential
        → IsTrue (is_proof users (nonce_of secret made) (Some user) (Some (wanted_digest secret credential made))) }
    ensures first { id_of 0 0 ≡ 0 }
    ensures second { id_of 1 1 ≡ 17 }
{}
