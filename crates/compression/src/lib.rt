// One round of SHA-256's compression (FIPS 180-4), and one word of its schedule. The contracts cite specs/Steps.antt.
#![tactic(auto)]

ghost use Rattle.std.specs.Prelude.{◌≡◌};
ghost use Rattle.compression.specs.Steps.{scheduled, stepped};

// The eight working variables.
#[derive(Clone, Copy)]
pub struct Working {
    pub a: u32,
    pub b: u32,
    pub c: u32,
    pub d: u32,
    pub e: u32,
    pub f: u32,
    pub g: u32,
    pub h: u32,
}

// One more word of the schedule.
pub fn word(p: u32, q: u32, r: u32, s: u32) -> u32
    ensures { result ≡ scheduled p q r s }
{
    let small1 = p.rotate_right(17) ^ p.rotate_right(19) ^ (p >> 10);
    let small0 = r.rotate_right(7) ^ r.rotate_right(18) ^ (r >> 3);
    small1.wrapping_add(q).wrapping_add(small0).wrapping_add(s)
}

// One round.
#[tactic(auto, unfolding(crate::specs::Compression::t1, crate::specs::Compression::t2))]
pub fn round(v: Working, k: u32, w: u32) -> Working
    ensures { result ≡ stepped v k w }
{
    let Working {
        a,
        b,
        c,
        d,
        e,
        f,
        g,
        h,
    } = v;
    // two shifts a rotation here: with `rotate_right` the validity check takes 3 percent longer
    let big1 = (e >> 6 | e << 26) ^ (e >> 11 | e << 21) ^ (e >> 25 | e << 7);
    let ch = (e & f) ^ (!e & g);
    let t1 = h
        .wrapping_add(big1)
        .wrapping_add(ch)
        .wrapping_add(k)
        .wrapping_add(w);
    let big0 = a.rotate_right(2) ^ a.rotate_right(13) ^ a.rotate_right(22);
    let maj = (a & b) ^ (a & c) ^ (b & c);
    let t2 = big0.wrapping_add(maj);
    Working {
        a: t1.wrapping_add(t2),
        b: a,
        c: b,
        d: c,
        e: d.wrapping_add(t1),
        f: e,
        g: f,
        h: g,
    }
}
