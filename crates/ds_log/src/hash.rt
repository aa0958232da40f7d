//! The hash by which entity groups are spread over shards.
ghost use Rattle.std.specs.Prelude.{◌≡◌};
ghost use Rattle.ds_log.specs.Shards.{fnv1a};

/// What the hash of no bytes is.
const OFFSET_BASIS: u64 = 14_695_981_039_346_656_037;

/// What each step multiplies by.
const PRIME: u64 = 1_099_511_628_211;

/// FNV-1a, 64 bits wide, the hash of Fowler, Noll and Vo: each byte is mixed in by exclusive or, and the whole is multiplied
/// modulo 2^64. It takes no memory.
pub fn fnv1a(bytes: &[u8]) -> u64
    ensures { result ≡ fnv1a bytes.now }
{
    let mut hash = OFFSET_BASIS;
    for byte in bytes {
        hash = (hash ^ u64::from(*byte)).wrapping_mul(PRIME);
    }
    hash
}
