//! The sum of a content that comes in pieces.
ghost use Rattle.std.specs.Prelude.{◌≡◌, ◌+◌, ◌<◌, ◌^◌, ◌++◌, List, [], ℕ, length};
ghost use Rattle.key_verify.specs.Digests.{digest_bytes, digest_of, key_method};
ghost use Rattle.key_verify.specs.Sums.{HasTaken, Hashes, bytes_taken, sum_of};

use crate::method::{Method, method_of};
use annex_key::Key;
use md5::{Digest as Md5Digest, Md5};
use sha2::{Digest as Sha2Digest, Sha224, Sha256, Sha384, Sha512};

/// The digest of a content, where its key's backend asks for one (RFC 1321; FIPS 180-4).
#[derive(Clone, Copy, Debug, PartialEq, Eq)]
pub enum Digest {
    /// The size alone is looked at.
    SizeOnly,
    Md5([u8; 16]),
    Sha224([u8; 28]),
    Sha256([u8; 32]),
    Sha384([u8; 48]),
    Sha512([u8; 64]),
}

impl Digest {
    /// The digest's bytes, none where there is no digest.
    pub fn bytes(&self) -> &[u8]
        ensures { result.now ≡ digest_bytes self.now }
    {
        match self {
            Digest::SizeOnly => &[],
            Digest::Md5(bytes) => bytes,
            Digest::Sha224(bytes) => bytes,
            Digest::Sha256(bytes) => bytes,
            Digest::Sha384(bytes) => bytes,
            Digest::Sha512(bytes) => bytes,
        }
    }
}

/// The size of a content in bytes, and its digest.
#[derive(Clone, Copy, Debug, PartialEq, Eq)]
pub struct Sum {
    pub size: u64,
    pub digest: Digest,
}

#[derive(Drop)]
enum Hasher {
    SizeOnly,
    Md5(Md5),
    Sha224(Sha224),
    Sha256(Sha256),
    Sha384(Sha384),
    Sha512(Sha512),
}

/// Takes a key's content piece by piece.
#[derive(Drop)]
pub struct Digester {
    size: u64,
    hasher: Hasher,
}

fn hasher_of(method: Method) -> Hasher
    ensures { Hashes result method [] }
{
    match method {
        Method::SizeOnly => Hasher::SizeOnly,
        Method::Md5 => Hasher::Md5(<Md5 as Md5Digest>::new()),
        Method::Sha224 => Hasher::Sha224(Sha224::new()),
        Method::Sha256 => Hasher::Sha256(Sha256::new()),
        Method::Sha384 => Hasher::Sha384(Sha384::new()),
        Method::Sha512 => Hasher::Sha512(Sha512::new()),
    }
}

impl Digester {
    /// A digester for the content of this key, which has taken nothing.
    pub fn new(key: &Key) -> Digester
        ensures taken { HasTaken result key.now [] }
        ensures count { bytes_taken result ≡ 0 }
    {
        Digester {
            size: 0,
            hasher: hasher_of(method_of(key.backend())),
        }
    }

    /// A digester for a content whose SHA256E key is to be made, which has taken nothing.
    pub fn for_made_key() -> Digester
        ensures taken { (key : List ℕ) → key_method key ≡ Method.Sha256 → HasTaken result key [] }
        ensures count { bytes_taken result ≡ 0 }
    {
        Digester {
            size: 0,
            hasher: hasher_of(Method::Sha256),
        }
    }

    /// Takes the next piece.
    pub fn update(&mut self, piece: &[u8])
        requires { bytes_taken self.old + length piece.now < 2 ^ 64 }
        ensures taken { (key bytes : List ℕ) → HasTaken self.old key bytes → HasTaken self.new key (bytes ++ piece.now) }
        ensures count { bytes_taken self.new ≡ bytes_taken self.old + length piece.now }
    {
        self.size += piece.len() as u64;
        feed(&mut self.hasher, piece);
    }

    /// The sum of what was taken.
    pub fn finish(self) -> Sum
        ensures { (key bytes : List ℕ) → HasTaken self key bytes → result ≡ sum_of key bytes }
    {
        Sum {
            size: self.size,
            digest: digest_in(self.hasher),
        }
    }
}

fn feed(hasher: &mut Hasher, piece: &[u8])
    ensures { (method : Method) (bytes : List ℕ) → Hashes hasher.old method bytes → Hashes hasher.new method (bytes ++ piece.now) }
{
    match hasher {
        Hasher::SizeOnly => {}
        Hasher::Md5(h) => Md5Digest::update(h, piece),
        Hasher::Sha224(h) => h.update(piece),
        Hasher::Sha256(h) => h.update(piece),
        Hasher::Sha384(h) => h.update(piece),
        Hasher::Sha512(h) => h.update(piece),
    }
}

fn digest_in(hasher: Hasher) -> Digest
    ensures { (method : Method) (bytes : List ℕ) → Hashes hasher method bytes → result ≡ digest_of method bytes }
{
    match hasher {
        Hasher::SizeOnly => Digest::SizeOnly,
        Hasher::Md5(h) => Digest::Md5(Md5Digest::finalize(h)),
        Hasher::Sha224(h) => Digest::Sha224(h.finalize()),
        Hasher::Sha256(h) => Digest::Sha256(h.finalize()),
        Hasher::Sha384(h) => Digest::Sha384(h.finalize()),
        Hasher::Sha512(h) => Digest::Sha512(h.finalize()),
    }
}
