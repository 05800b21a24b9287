// Prints the digests and codes of the published examples (FIPS 180-4, RFC 4231) and of every length around a block's boundaries, one a line,
// in hex. The expected lines come from another implementation (tests/hash_vectors.py).
#![tactic(auto)]

use hmac::Prepared;
use sha256::HashError;
use std::io;

// A line of hex digits, two for each byte.
fn show(rt: &impl Print, d: &[u8]) -> io::Result<()> {
    for byte in d {
        print!(rt; "{byte:02x}")?;
    }
    println!(rt)
}

// A line of hex digits, eight for each word.
fn show_words(rt: &impl Print, ws: [u32; 8]) -> io::Result<()> {
    for word in &ws {
        print!(rt; "{word:08x}")?;
    }
    println!(rt)
}

// The line of a call that was refused.
fn refused(rt: &impl Print, e: HashError) -> io::Result<()> {
    println!(rt; "refused {}", e.number())
}

// The first n bytes of a digest, where there is one.
fn show_digest(rt: &impl Print, d: Result<[u8; 32], HashError>, n: usize) -> io::Result<()> {
    match d {
        Ok(bytes) => show(rt, &bytes[..n.min(32)]),
        Err(e) => refused(rt, e),
    }
}

fn show_code(rt: &impl Print, c: Result<[u32; 8], HashError>) -> io::Result<()> {
    match c {
        Ok(words) => show_words(rt, words),
        Err(e) => refused(rt, e),
    }
}

fn hash(rt: &impl Print, m: &[u8]) -> io::Result<()> {
    show_digest(rt, digest::sha256(m), 32)
}

fn code(rt: &impl Print, k: &[u8], m: &[u8]) -> io::Result<()> {
    show_digest(rt, codes::hmac(k, m), 32)
}

// FIPS 180-4's examples.
fn fips(rt: &impl Print) -> io::Result<()> {
    hash(rt, b"")?;
    hash(rt, b"abc")?;
    hash(
        rt,
        b"abcdbcdecdefdefgefghfghighijhijkijkljklmklmnlmnomnopnopq",
    )?;
    hash(
        rt,
        b"abcdefghbcdefghicdefghijdefghijkefghijklfghijklmghijklmnhijklmnoijklmnopjklmnopqklmnopqrlmnopqrsmnopqrstnopqrstu",
    )
}

fn hash_million(rt: &impl Print, m: [u8; 1000000]) -> io::Result<()> {
    hash(rt, &m)
}

// RFC 4231's test cases 1 to 4.
fn rfc_first(rt: &impl Print) -> io::Result<()> {
    let key1 = [0x0bu8; 20];
    code(rt, &key1, b"Hi There")?;
    code(rt, b"Jefe", b"what do ya want for nothing?")?;
    let key3 = [0xaau8; 20];
    let data3 = [0xddu8; 50];
    code(rt, &key3, &data3)?;
    let data4 = [0xcdu8; 50];
    code(
        rt,
        b"\x01\x02\x03\x04\x05\x06\x07\x08\x09\x0a\x0b\x0c\x0d\x0e\x0f\x10\x11\x12\x13\x14\x15\x16\x17\x18\x19",
        &data4,
    )
}

// RFC 4231's test case 5, cut to 128 bits.
fn rfc_cut(rt: &impl Print) -> io::Result<()> {
    let key = [0x0cu8; 20];
    show_digest(rt, codes::hmac(&key, b"Test With Truncation"), 16)
}

// RFC 4231's test cases 6 and 7.
fn rfc_last(rt: &impl Print) -> io::Result<()> {
    let key = [0xaau8; 131];
    code(
        rt,
        &key,
        b"Test Using Larger Than Block-Size Key - Hash Key First",
    )?;
    code(
        rt,
        &key,
        b"This is a test using a larger than block-size key and a larger than block-size data. The key needs to be hashed before being used by the HMAC algorithm.",
    )
}

// The bytes 0, 1, 2 and so on.
fn counting() -> [u8; 130] {
    let mut r = [0; 130];
    for i in 0..130 {
        r[i] = i as u8;
    }
    r
}

fn hash_each_length(rt: &impl Print, p: &[u8; 130]) -> io::Result<()> {
    for n in 0..=130 {
        hash(rt, &p[..n])?;
    }
    Ok(())
}

// Keys of each length from the front of p, and what is left to 130 bytes from there.
fn code_each_length(rt: &impl Print, p: &[u8; 130]) -> io::Result<()> {
    for n in 0..=130 {
        code(rt, &p[..n], &p[..130 - n])?;
    }
    Ok(())
}

// The multiples of 0x01020304 from the first on.
fn multiples() -> [u32; 14] {
    let mut r = [0; 14];
    for i in 0..14 {
        r[i] = 0x01020304 * (i as u32 + 1);
    }
    r
}

fn code_each_count(rt: &impl Print, key: Prepared, ws: &[u32; 14]) -> io::Result<()> {
    for n in 0..=13 {
        show_code(rt, codes::code_words(key, &ws[..n]))?;
    }
    Ok(())
}

// The number alone of a call that refuses: one word too many.
fn code_too_many(rt: &impl Print, key: Prepared, ws: &[u32; 14]) -> io::Result<()> {
    match codes::code_words(key, ws) {
        Ok(_) => println!(rt; "00"),
        Err(e) => println!(rt; "{:02x}", e.number()),
    }
}

fn word_codes(rt: &impl Print, p: &[u8; 130]) -> io::Result<()> {
    let words = multiples();
    match hmac::prepare(&p[..32]) {
        Ok(key) => {
            code_each_count(rt, key, &words)?;
            code_too_many(rt, key, &words)
        }
        Err(e) => refused(rt, e),
    }
}

fn main(rt: HostRuntime) -> io::Result<()> {
    fips(&rt)?;
    hash_million(&rt, [b'a'; 1000000])?;
    rfc_first(&rt)?;
    rfc_cut(&rt)?;
    rfc_last(&rt)?;
    let p = counting();
    hash_each_length(&rt, &p)?;
    code_each_length(&rt, &p)?;
    word_codes(&rt, &p)
}
