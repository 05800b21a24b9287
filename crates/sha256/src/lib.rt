// The blocks of SHA-256 (FIPS 180-4): their words, the state after them, the first state, a state's bytes. The contracts cite specs/Sha256.antt.
#![tactic(auto)]

ghost use Rattle.std.specs.Prelude.{◌≡◌, ◌+◌, ◌*◌, ◌/◌, ◌^◌, ◌≤◌, length, take, drop};
ghost use Rattle.sha256.specs.Sha256.{words, bytes, initial, blocks, error_number};

// A hashed input has fewer bytes than this.
pub const LIMIT: u64 = 1 << 61;

// Why a hash or a code is refused: a hashed input would reach the limit, or there are more words than a last block has room for.
#[derive(Clone, Copy, Debug, PartialEq, Eq)]
pub enum HashError {
    TooLong,
    TooManyWords,
}

impl HashError {
    // The returned number that stands for it.
    pub fn number(self) -> u32
        ensures { result ≡ error_number self }
    {
        match self {
            HashError::TooLong | HashError::TooManyWords => 3,
        }
    }
}

// The sixteen words of the block at `at`.
fn load(s: &[u8], at: usize) -> [u32; 16]
    requires { at + 64 ≤ length s.now }
    ensures { result ≡ words (take 64 (drop at s.now)) }
{
    let mut w = [0; 16];
    for j in 0..16 {
        let p = at + j * 4;
        w[j] = u32::from_be_bytes([s[p], s[p + 1], s[p + 2], s[p + 3]]);
    }
    w
}

// The sixteen words of a block.
pub fn block_words(b: [u8; 64]) -> [u32; 16]
    ensures { result ≡ words b }
{
    load(&b, 0)
}

// The state after the whole blocks of s.
pub fn whole_blocks(state: [u32; 8], s: &[u8]) -> [u32; 8]
    ensures { result ≡ blocks (length s.now / 64) state s.now }
{
    let mut h = state;
    for i in 0..s.len() / 64 {
        let next = block::compress(h, load(s, i * 64));
        h = next;
    }
    h
}

// The bytes of a state, the top byte first.
pub fn state_bytes(h: [u32; 8]) -> [u8; 32]
    ensures { result ≡ bytes h }
{
    let mut r = [0; 32];
    for i in 0..8 {
        let [a, b, c, d] = h[i].to_be_bytes();
        r[i * 4..i * 4 + 4].copy_from_slice(&[a, b, c, d]);
    }
    r
}

// 5.3.3: the initial hash value.
pub fn initial_state() -> [u32; 8]
    ensures { result ≡ initial }
{
    [
        0x6a09e667, 0xbb67ae85, 0x3c6ef372, 0xa54ff53a, 0x510e527f, 0x9b05688c, 0x1f83d9ab,
        0x5be0cd19,
    ]
}
