// A digest of numbers and bytes. Its modulus is a prime, so that lists of bytes that differ in one place have two digests.
ghost use Rattle.std.specs.Prelude.{◌≡◌};
ghost use Rattle.lines.specs.Digest.{digest_next, digest_of};

// The digest with one number more.
pub fn put(d: u32, n: u32) -> u32
    ensures { result ≡ digest_next d n }
{
    ((u64::from(d) * 65_599 + u64::from(n) + 1) % 4_294_967_291) as u32
}

// The digest with all bytes of a part more.
pub fn put_bytes(start: u32, bytes: &[u8]) -> u32
    ensures { result ≡ digest_of start bytes.now }
{
    bytes.iter().fold(start, |d, b| put(d, u32::from(*b)))
}
