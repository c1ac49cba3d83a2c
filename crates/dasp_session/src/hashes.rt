//! What a client shows that it knows a user's password by.
ghost use Rattle.std.specs.Prelude.{◌≡◌, ◌↔◌, IsTrue};
ghost use Rattle.dasp_session.specs.Digest.{credential_made_of, digest_of, nonce_of};

use sha1::Sha1;

/// The nonce of the session before which `made` sessions were made: the first ten bytes of SHA-1 of the node's secret
/// and `made` as four bytes, the highest first.
pub fn nonce(secret: &[u8; 20], made: u32) -> [u8; 10]
    ensures { result ≡ nonce_of secret.now made }
{
    let mut hasher = Sha1::new();
    hasher.update(secret);
    hasher.update(&made.to_be_bytes());
    let hash = hasher.finalize();
    let mut nonce = [0; 10];
    nonce.copy_from_slice(&hash[..10]);
    nonce
}

/// The credential that a users file has of a user: SHA-1 of the user's name, a colon and the password.
pub fn credential(user: &[u8], password: &[u8]) -> [u8; 20]
    ensures { result ≡ credential_made_of user.now password.now }
{
    let mut hasher = Sha1::new();
    hasher.update(user);
    hasher.update(b":");
    hasher.update(password);
    hasher.finalize()
}

/// The digest by which a client shows that it knows a user's credential: SHA-1 of the credential and the session's
/// nonce.
pub fn digest(credential: &[u8; 20], nonce: &[u8; 10]) -> [u8; 20]
    ensures { result ≡ digest_of credential.now nonce.now }
{
    let mut hasher = Sha1::new();
    hasher.update(credential);
    hasher.update(nonce);
    hasher.finalize()
}

/// Whether a digest that was shown is the one that is wanted. One of another length is not; else the loop goes over all
/// bytes, wherever they differ. No clause says how long it takes.
pub fn is_same_digest(wanted: &[u8; 20], shown: &[u8]) -> bool
    ensures { IsTrue result ↔ (wanted.now ≡ shown.now) }
{
    if shown.len() != wanted.len() {
        return false;
    }
    let mut differing = 0;
    for place in 0..wanted.len() {
        differing |= wanted[place] ^ shown[place];
    }
    differing == 0
}
