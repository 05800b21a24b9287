// HMAC-SHA-256 (RFC 2104): the code over a few words from a prepared key, and the code of a message. The contracts cite hmac/specs/Hmac.antt.
#![tactic(auto)]

ghost use Rattle.std.specs.Prelude.{◌≡◌, ◌+◌, ◌-◌, ◌*◌, ◌^◌, ◌≤◌, [], ◌∷◌, ◌++◌, length, replicate};
ghost use Rattle.hmac.specs.Hmac.{code_of, closed, short_code};

use hmac::Prepared;
use sha256::{HashError, LIMIT};

// The words of the last block, where one block went before: the message's words, the bit 1, zeros, and the length in bits.
fn last_block(ws: &[u32]) -> [u32; 16]
    requires { length ws.now ≤ 13 }
    ensures { result ≡ ws.now ++ (2 ^ 31 ∷ (replicate (14 - length ws.now) 0 ++ ((64 + length ws.now * 4) * 8 ∷ []))) }
{
    let n = ws.len();
    let mut b = [0; 16];
    b[..n].copy_from_slice(ws);
    b[n] = 1 << 31;
    b[15] = ((64 + n * 4) * 8) as u32;
    b
}

// The state after the words of a message of one last block.
fn close(s: [u32; 8], ws: &[u32]) -> [u32; 8]
    requires { length ws.now ≤ 13 }
    ensures { result ≡ closed s ws.now }
{
    block::compress(s, last_block(ws))
}

// The code over at most 13 words, in two compressions.
pub fn code_words(key: Prepared, ws: &[u32]) -> Result<[u32; 8], HashError>
    ensures { result ≡ short_code key ws.now }
{
    if ws.len() <= 13 {
        let inner = close(key.inner, ws);
        Ok(close(key.outer, &inner))
    } else {
        Err(HashError::TooManyWords)
    }
}

// The code of m under k. Where an input is too long nothing is hashed.
pub fn hmac(k: &[u8], m: &[u8]) -> Result<[u8; 32], HashError>
    ensures { result ≡ code_of k.now m.now }
{
    if (m.len() as u64) < LIMIT - 64 {
        let key = hmac::prepare(k)?;
        // m is short enough: zeros never stand here
        let inner = digest::hash_after(key.inner, 1, m).unwrap_or([0; 8]);
        let outer = close(key.outer, &inner);
        Ok(sha256::state_bytes(outer))
    } else {
        Err(HashError::TooLong)
    }
}
