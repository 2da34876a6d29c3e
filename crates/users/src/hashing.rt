//! PBKDF2 (RFC 8018, section 5.2) over HMAC (RFC 2104) with SHA-512 (FIPS 180-4).
ghost use Rattle.std.specs.Prelude.{◌≡◌, ◌++◌, ◌≤◌, ◌-◌, ℕ, List, bytes_eq, length, replicate};
ghost use Rattle.users.specs.Hashing.{hmac_sha512, key_block, masked, pbkdf2_sha512, xor_bytes};
ghost use Rattle.users.specs.Keyed.{IsKeyed};

use sha2::{Digest, Sha512};

/// HMAC under one key: the hasher that has taken in the key's block under each of the two masks.
#[derive(Drop)]
struct Mac {
    inner: Sha512,
    outer: Sha512,
}

/// HMAC under this key.
fn mac_of(key: &[u8]) -> Mac
    ensures { IsKeyed result key.now }
{
    let block = key_block(key);
    let mut inner = Sha512::new();
    inner.update(masked(&block, 0x36));
    let mut outer = Sha512::new();
    outer.update(masked(&block, 0x5C));
    Mac { inner, outer }
}

impl Mac {
    ghost use Rattle.users.specs.Keyed.{IsKeyed};

    /// The digest of two pieces taken as one text.
    fn digest(&self, first: &[u8], last: &[u8]) -> [u8; 64]
        ensures { (key : List ℕ) → IsKeyed self.now key
            → result ≡ hmac_sha512 key (first.now ++ last.now) }
    {
        let mut inner = copy_of(&self.inner);
        inner.update(first);
        inner.update(last);
        let mut outer = copy_of(&self.outer);
        outer.update(inner.finalize());
        outer.finalize()
    }
}

/// The same hasher. A copy of one takes no memory, so it is always made.
fn copy_of(hasher: &Sha512) -> Sha512
    ensures { result ≡ hasher.now }
{
    match hasher.clone() {
        Ok(copy) => copy,
        Err(_) => unreachable!(),
    }
}

/// The block of a key: the key, or where it is longer than a block its digest, and zeros (RFC 2104, section 2).
fn key_block(key: &[u8]) -> [u8; 128]
    ensures { result ≡ key_block key.now }
{
    if key.len() > 128 {
        block_of(&Sha512::digest(key))
    } else {
        block_of(key)
    }
}

/// The bytes, and zeros that make up a block.
fn block_of(bytes: &[u8]) -> [u8; 128]
    requires { length bytes.now ≤ 128 }
    ensures { result ≡ bytes.now ++ replicate (128 - length bytes.now) 0 }
{
    let mut block = [0; 128];
    'bytes: for at in 0..bytes.len() {
        block[at] = bytes[at];
    }
    block
}

/// Each byte of a block xor the mask.
fn masked(block: &[u8; 128], mask: u8) -> [u8; 128]
    ensures { result ≡ masked mask block.now }
{
    let mut masked = *block;
    'bytes: for at in 0..128 {
        masked[at] ^= mask;
    }
    masked
}

/// The hash of a password under a salt by so many iterations, at least one (RFC 8018, section 5.2). What it takes is two blocks of SHA-512 an
/// iteration.
pub(crate) fn pbkdf2(password: &[u8], salt: &[u8], iterations: u32) -> [u8; 64]
    ensures { result ≡ pbkdf2_sha512 password.now salt.now iterations }
{
    let mac = mac_of(password);
    let mut link = mac.digest(salt, &[0, 0, 0, 1]);
    let mut hash = link;
    'iterations: for _ in 1..iterations {
        link = mac.digest(&link, &[]);
        add(&mut hash, &link);
    }
    hash
}

/// Makes each byte of a hash that byte xor the link's.
fn add(hash: &mut [u8; 64], link: &[u8; 64])
    ensures { hash.new ≡ xor_bytes hash.old link.now }
{
    'bytes: for at in 0..64 {
        hash[at] ^= link[at];
    }
}

/// Whether two hashes are the same. Each byte of both is looked at, so that how long it takes does not tell where they differ.
pub(crate) fn is_same(hash: &[u8; 64], other: &[u8; 64]) -> bool
    ensures { result ≡ bytes_eq hash.now other.now }
{
    let mut difference = 0;
    'bytes: for at in 0..64 {
        difference |= hash[at] ^ other[at];
    }
    difference == 0
}
