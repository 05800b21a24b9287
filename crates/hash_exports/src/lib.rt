// The hash and the code for programs in C or Rust (`rt lib` in this crate). Each function hands on to one of the crates below and
// writes what it answers through its last references. A slice is passed as a pointer and a length, a reference to an array as a pointer.
#![tactic(auto)]

ghost use Rattle.std.specs.Prelude.{◌≡◌};
ghost use Rattle.std.specs.Result.{result_unwrap_or};
ghost use Rattle.compression.specs.Compression.{compressed};
ghost use Rattle.sha256.specs.Sha256.{words, digest};
ghost use Rattle.hmac.specs.Hmac.{keyed, short_code, code_of};
ghost use Rattle.hash_exports.specs.Answers.{number_in, bytes_in, words_in, states_in};

use hmac::Prepared;
use sha256::HashError;

// The state after one block of 64 bytes, in its place.
#[unsafe(no_mangle)]
pub extern "C" fn hash_exports_block(state: &mut [u32; 8], block: &[u8; 64])
    ensures { state.new ≡ compressed state.old (words block.now) }
{
    let next = block::compress(*state, sha256::block_words(*block));
    *state = next;
}

// Writes what a call answered, or what stands for a refusal, and returns its number.
fn hand_out<T: Copy>(answer: Result<T, HashError>, refused: T, out: &mut T) -> u32
    ensures value { result ≡ number_in answer }
    ensures out_after { out.new ≡ result_unwrap_or answer refused }
{
    match answer {
        Ok(x) => {
            *out = x;
            0
        }
        Err(e) => {
            *out = refused;
            e.number()
        }
    }
}

// The hash of m: 0 and the digest, or 3 and zeros.
#[unsafe(no_mangle)]
pub extern "C" fn hash_exports_sha256(m: &[u8], out: &mut [u8; 32]) -> u32
    ensures value { result ≡ number_in (digest m.now) }
    ensures out_after { out.new ≡ bytes_in (digest m.now) }
{
    hand_out(digest::sha256(m), [0; 32], out)
}

// The code of m under k: 0 and the code, or 3 and zeros.
#[unsafe(no_mangle)]
pub extern "C" fn hash_exports_hmac(k: &[u8], m: &[u8], out: &mut [u8; 32]) -> u32
    ensures value { result ≡ number_in (code_of k.now m.now) }
    ensures out_after { out.new ≡ bytes_in (code_of k.now m.now) }
{
    hand_out(codes::hmac(k, m), [0; 32], out)
}

// A key's two states: 0 and these, or 3 and zeros.
#[unsafe(no_mangle)]
pub extern "C" fn hash_exports_prepare(k: &[u8], inner: &mut [u32; 8], outer: &mut [u32; 8]) -> u32
    ensures value { result ≡ number_in (keyed k.now) }
    ensures inner_after { inner.new ≡ (states_in (keyed k.now)).inner }
    ensures outer_after { outer.new ≡ (states_in (keyed k.now)).outer }
{
    match hmac::prepare(k) {
        Ok(key) => {
            let i = key.inner;
            let o = key.outer;
            *inner = i;
            *outer = o;
            0
        }
        Err(e) => {
            *inner = [0; 8];
            *outer = [0; 8];
            e.number()
        }
    }
}

// The code over words from a key's two states: 0 and the code's words, or 3 and zeros.
#[unsafe(no_mangle)]
pub extern "C" fn hash_exports_code(
    inner: &[u32; 8],
    outer: &[u32; 8],
    ws: &[u32],
    out: &mut [u32; 8],
) -> u32
    ensures value { result ≡ number_in (short_code (record { inner = inner.now; outer = outer.now }) ws.now) }
    ensures out_after { out.new ≡ words_in (short_code (record { inner = inner.now; outer = outer.now }) ws.now) }
{
    let (i, o) = (*inner, *outer);
    let key = Prepared { inner: i, outer: o };
    hand_out(codes::code_words(key, ws), [0; 8], out)
}
