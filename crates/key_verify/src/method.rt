//! Which digest a key asks for, and what its name tells of it.
ghost use Rattle.std.specs.Prelude.{◌≡◌};
ghost use Rattle.std.specs.List.{position_or_len};
ghost use Rattle.std.specs.Option.{option_copied};
ghost use Rattle.key_verify.specs.Digests.{is_either, method_of, has_extension, is_dot, told_digest, wanted_digest};

use annex_key::Key;

/// How a backend says which content is its key's (git-annex backends).
#[derive(Clone, Copy, Debug, PartialEq, Eq)]
pub enum Method {
    /// By the size alone.
    SizeOnly,
    Md5,
    Sha224,
    Sha256,
    Sha384,
    Sha512,
}

fn is_either(word: &[u8], first: &[u8], second: &[u8]) -> bool
    ensures { result ≡ is_either word.now first.now second.now }
{
    word == first || word == second
}

/// The method of a backend.
pub(crate) fn method_of(backend: &[u8]) -> Method
    ensures { result ≡ method_of backend.now }
{
    if is_either(backend, b"MD5", b"MD5E") {
        Method::Md5
    } else if is_either(backend, b"SHA224", b"SHA224E") {
        Method::Sha224
    } else if is_either(backend, b"SHA256", b"SHA256E") {
        Method::Sha256
    } else if is_either(backend, b"SHA384", b"SHA384E") {
        Method::Sha384
    } else if is_either(backend, b"SHA512", b"SHA512E") {
        Method::Sha512
    } else {
        Method::SizeOnly
    }
}

fn has_extension(backend: &[u8]) -> bool
    ensures { result ≡ has_extension backend.now }
{
    match backend.last() {
        Some(last) => *last == b'E',
        None => false,
    }
}

fn word_len(name: &[u8]) -> usize
    ensures { result ≡ position_or_len is_dot name.now }
{
    name.iter().take_while(|b| **b != b'.').count()
}

// The digest in a name: all of it, or what stands before the extension.
fn told_digest<'a>(backend: &[u8], name: &'a [u8]) -> &'a [u8]
    ensures { result.now ≡ told_digest backend.now name.now }
{
    if has_extension(backend) {
        let end = word_len(name);
        name.split_at(end).0
    } else {
        name
    }
}

/// The digest that the key tells, where its backend is one of the ten.
pub(crate) fn wanted_digest(key: &Key) -> Option<&[u8]>
    ensures { option_copied result ≡ wanted_digest key.now }
{
    if key.is_digest_backend() {
        Some(told_digest(key.backend(), key.name()))
    } else {
        None
    }
}
