//! HMAC with SHA-256 (RFC 2104).
ghost use Rattle.std.specs.Prelude.{◌≡◌, ◌++◌, ◌≤◌, drop, length};
ghost use Rattle.sha2.specs.Sha256.{sha256};
ghost use Rattle.test_signer.specs.Hmac.{hmac_sha256, key_block, masked, padded};

use sha2::{Digest, Sha256};

// The bytes of a block (FIPS 180-4, section 1).
const BLOCK: usize = 64;

const INNER_PAD: u8 = 0x36;

const OUTER_PAD: u8 = 0x5c;

/// HMAC with SHA-256 (RFC 2104) under a key of any length. Allocates nothing.
#[tactic(auto, unfolding(crate::specs::Hmac::hmac_sha256))]
pub fn hmac_sha256(key: &[u8], message: &[u8]) -> [u8; 32]
    ensures { result ≡ hmac_sha256 key.now message.now }
{
    let block = key_block(key);
    let inner = digest_of_both(&masked(INNER_PAD, &block), message);
    digest_of_both(&masked(OUTER_PAD, &block), &inner)
}

fn digest_of_both(front: &[u8], behind: &[u8]) -> [u8; 32]
    ensures { result ≡ sha256 (front.now ++ behind.now) }
{
    let mut hasher = Sha256::new();
    hasher.update(front);
    hasher.update(behind);
    hasher.finalize()
}

fn key_block(key: &[u8]) -> [u8; 64]
    ensures { result ≡ key_block key.now }
{
    if key.len() <= BLOCK {
        padded(key)
    } else {
        padded(&Sha256::digest(key))
    }
}

fn padded(key: &[u8]) -> [u8; 64]
    requires { length key.now ≤ 64 }
    ensures { result ≡ padded key.now }
{
    let mut block = [0; BLOCK];
    put_front(&mut block, key);
    block
}

fn put_front(block: &mut [u8], key: &[u8])
    requires { length key.now ≤ length block.old }
    ensures { block.new ≡ key.now ++ drop (length key.now) block.old }
{
    block[..key.len()].copy_from_slice(key);
}

fn masked(pad: u8, block: &[u8; 64]) -> [u8; 64]
    ensures { result ≡ masked pad block.now }
{
    let mut bytes = *block;
    for byte in bytes.iter_mut() {
        *byte ^= pad;
    }
    bytes
}
