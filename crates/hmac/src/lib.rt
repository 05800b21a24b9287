// The key of HMAC-SHA-256 (RFC 2104), prepared: the states after its two blocks. The contracts cite specs/Hmac.antt.
#![tactic(auto)]

ghost use Rattle.std.specs.Prelude.{◌≡◌, ◌≤◌, length, ltb, Ok, Err};
ghost use Rattle.laws.specs.Pick.{pick};
ghost use Rattle.compression.specs.Compression.{compressed};
ghost use Rattle.sha256.specs.Sha256.{words, initial, limit};
ghost use Rattle.sha256.specs.declared.HashError.TheVariants.{TooLong};
ghost use Rattle.hmac.specs.Hmac.{zero_filled, key_block, masked, keyed};

use sha256::HashError;

// A key's two states: after the block of the key with ipad, and after that with opad.
#[derive(Clone, Copy)]
pub struct Prepared {
    pub inner: [u32; 8],
    pub outer: [u32; 8],
}

// The bytes with zeros behind them.
fn zero_fill(k: &[u8]) -> [u8; 64]
    requires { length k.now ≤ 64 }
    ensures { result ≡ zero_filled k.now }
{
    let mut b = [0; 64];
    b[..k.len()].copy_from_slice(k);
    b
}

// The key as one block: with zeros behind it, or its hash where it is longer.
fn block_of(k: &[u8]) -> Result<[u8; 64], HashError>
    ensures { result ≡ pick (ltb (length k.now) limit) (Ok (key_block k.now)) (Err TooLong) }
{
    if k.len() <= 64 {
        return Ok(zero_fill(k));
    }
    let hash = digest::sha256(k)?;
    Ok(zero_fill(&hash))
}

// Each byte of the block with p.
fn mask(k: [u8; 64], p: u8) -> [u8; 64]
    ensures { result ≡ masked p k }
{
    let mut r = k;
    for b in r.iter_mut() {
        *b ^= p;
    }
    r
}

// The state after the block of the key with p.
fn key_state(b: [u8; 64], p: u8) -> [u32; 8]
    ensures { result ≡ compressed initial (words (masked p b)) }
{
    block::compress(sha256::initial_state(), sha256::block_words(mask(b, p)))
}

// The key's two states.
pub fn prepare(k: &[u8]) -> Result<Prepared, HashError>
    ensures { result ≡ keyed k.now }
{
    let b = block_of(k)?;
    let inner = key_state(b, 0x36);
    let outer = key_state(b, 0x5c);
    Ok(Prepared { inner, outer })
}
