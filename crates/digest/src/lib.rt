// SHA-256 (FIPS 180-4) of a slice of bytes: the padding, and the hash of the whole. The contracts cite sha256/specs/Sha256.antt.
#![tactic(auto)]

ghost use Rattle.std.specs.Prelude.{◌≡◌, ◌+◌, ◌-◌, ◌*◌, ◌%◌, ◌<◌, ◌≤◌, ◌∷◌, ◌++◌, length, take, drop, replicate};
ghost use Rattle.sha256.specs.Sha256.{big64, padding, hashed, limit, digest, hash_after};

use sha256::{HashError, LIMIT};

// What stands in s from `from` on, then 128, then zeros.
fn rest(s: &[u8], from: usize) -> [u8; 128]
    requires { (from ≤ length s.now) × (length s.now < from + 64) }
    ensures { result ≡ drop from s.now ++ (128 ∷ replicate (127 - (length s.now - from)) 0) }
{
    let n = s.len() - from;
    let mut b = [0; 128];
    b[..n].copy_from_slice(&s[from..]);
    b[n] = 128;
    b
}

// The length in bits, as eight bytes at `at`.
fn with_length(b: [u8; 128], at: usize, bits: u64) -> [u8; 128]
    requires { at ≤ 120 }
    ensures { result ≡ take at b ++ (big64 bits ++ drop (at + 8) b) }
{
    let mut r = b;
    let eight = bits.to_be_bytes();
    r[at..at + 8].copy_from_slice(&eight);
    r
}

// The state after s and the padding, where `done` bytes went before. The padding takes one block or two.
fn finish(state: [u32; 8], done: u64, s: &[u8]) -> [u32; 8]
    requires { (done % 64 ≡ 0) × (done + length s.now < limit) }
    ensures { result ≡ hashed state (s.now ++ padding (done + length s.now)) }
{
    let h = sha256::whole_blocks(state, s);
    let left = s.len() % 64;
    let b = rest(s, s.len() - left);
    let bits = (done + s.len() as u64) * 8;
    if left < 56 {
        let c = with_length(b, 56, bits);
        sha256::whole_blocks(h, &c[..64])
    } else {
        let c = with_length(b, 120, bits);
        sha256::whole_blocks(h, &c)
    }
}

// The hash of m.
pub fn sha256(m: &[u8]) -> Result<[u8; 32], HashError>
    ensures { result ≡ digest m.now }
{
    if (m.len() as u64) < LIMIT {
        let state = finish(sha256::initial_state(), 0, m);
        Ok(sha256::state_bytes(state))
    } else {
        Err(HashError::TooLong)
    }
}

// The state after m and the padding, where `n` blocks went before.
pub fn hash_after(state: [u32; 8], n: u64, m: &[u8]) -> Result<[u32; 8], HashError>
    ensures { result ≡ hash_after state n m.now }
{
    if n < LIMIT / 64 && (m.len() as u64) < LIMIT - n * 64 {
        return Ok(finish(state, n * 64, m));
    }
    Err(HashError::TooLong)
}
