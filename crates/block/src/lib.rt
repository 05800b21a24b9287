// The compression of one block by SHA-256 (FIPS 180-4): sixty-four rounds. The contracts cite compression/specs/.
#![tactic(auto)]

ghost use Rattle.std.specs.Prelude.{◌≡◌, take, drop};
ghost use Rattle.compression.specs.Compression.{extended, rounds_from, compressed};
ghost use Rattle.compression.specs.Steps.{onward, listed};

use compression::Working;

// After forty-eight rounds: the whole schedule, and the working variables.
#[derive(Clone, Copy)]
struct Half {
    words: [u32; 64],
    v: Working,
}

// 4.2.2: the round constants.
const K: [u32; 64] = [
    0x428a2f98, 0x71374491, 0xb5c0fbcf, 0xe9b5dba5, 0x3956c25b, 0x59f111f1, 0x923f82a4, 0xab1c5ed5,
    0xd807aa98, 0x12835b01, 0x243185be, 0x550c7dc3, 0x72be5d74, 0x80deb1fe, 0x9bdc06a7, 0xc19bf174,
    0xe49b69c1, 0xefbe4786, 0x0fc19dc6, 0x240ca1cc, 0x2de92c6f, 0x4a7484aa, 0x5cb0a9dc, 0x76f988da,
    0x983e5152, 0xa831c66d, 0xb00327c8, 0xbf597fc7, 0xc6e00bf3, 0xd5a79147, 0x06ca6351, 0x14292967,
    0x27b70a85, 0x2e1b2138, 0x4d2c6dfc, 0x53380d13, 0x650a7354, 0x766a0abb, 0x81c2c92e, 0x92722c85,
    0xa2bfe8a1, 0xa81a664b, 0xc24b8b70, 0xc76c51a3, 0xd192e819, 0xd6990624, 0xf40e3585, 0x106aa070,
    0x19a4c116, 0x1e376c08, 0x2748774c, 0x34b0bcb5, 0x391c0cb3, 0x4ed8aa4a, 0x5b9cca4f, 0x682e6ff3,
    0x748f82ee, 0x78a5636f, 0x84c87814, 0x8cc70208, 0x90befffa, 0xa4506ceb, 0xbef9a3f7, 0xc67178f2,
];

// The block's sixteen words, and room for forty-eight more.
fn opened(block: [u32; 16]) -> [u32; 64]
    ensures { take 16 result ≡ block }
{
    let mut w = [0; 64];
    w[..16].copy_from_slice(&block);
    w
}

// Forty-eight rounds, and with each one more word of the schedule: a processor does the two side by side.
fn first_rounds(k: [u32; 64], s: Working, block: [u32; 16]) -> Half
    ensures { (result.words ≡ extended 48 block) × (onward (drop 48 k) (drop 48 result.words) result.v ≡ onward k (extended 48 block) s) }
{
    let mut w = opened(block);
    let mut v = s;
    for i in 0..48 {
        v = compression::round(v, k[i], w[i]);
        w[i + 16] = compression::word(w[i + 14], w[i + 9], w[i + 1], w[i]);
    }
    Half { words: w, v }
}

// The last sixteen rounds.
fn last_rounds(k: [u32; 64], w: [u32; 64], s: Working) -> Working
    ensures { listed result ≡ onward (drop 48 k) (drop 48 w) s }
{
    let mut v = s;
    for i in 48..64 {
        v = compression::round(v, k[i], w[i]);
    }
    v
}

// The sixty-four rounds. The table is copied once, since each use of a constant array copies it.
fn all_rounds(s: [u32; 8], block: [u32; 16]) -> [u32; 8]
    ensures { result ≡ rounds_from (extended 48 block) s }
{
    let k = K;
    let [a, b, c, d, e, f, g, h] = s;
    let start = Working {
        a,
        b,
        c,
        d,
        e,
        f,
        g,
        h,
    };
    let half = first_rounds(k, start, block);
    let v = last_rounds(k, half.words, half.v);
    [v.a, v.b, v.c, v.d, v.e, v.f, v.g, v.h]
}

// The state after one block.
pub fn compress(s: [u32; 8], block: [u32; 16]) -> [u32; 8]
    ensures { result ≡ compressed s block }
{
    let mut sums = all_rounds(s, block);
    for i in 0..8 {
        sums[i] = s[i].wrapping_add(sums[i]);
    }
    sums
}
