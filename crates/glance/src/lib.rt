// The answer behind a fault of 4 or 5: of the rest of a bundle only fields and questions are looked at, for a lower number. The contract cites specs/.
#![tactic(auto)]

ghost use Rattle.std.specs.Prelude.{◌≡◌};
ghost use Rattle.format.specs.Words.{fields_of};
ghost use Rattle.format.specs.Present.{formed};
ghost use Rattle.format.specs.Returns.{number_in};
ghost use Rattle.walk.specs.Walk.{answer};
ghost use Rattle.glance.specs.Glance.{glanced, left};

use format::{
    D_GET, FLAG, FLAG_SIZE, INIT, NONE, P, Refusal, SPARE, SPARE_SIZE, STATEMENT_WORDS, STATION,
    STATION_SIZE, V, VALUE_SIZE,
};
use walk::Findings;

// Kind, value and flag of a word 0 as one number, its top five bits. The weight of the kind in it; that of the value is FLAG_SIZE.
const KIND_AT: u32 = VALUE_SIZE * FLAG_SIZE;

// INIT with 0 or 1.
const INIT_0: u32 = INIT * KIND_AT + D_GET;

const INIT_1: u32 = INIT * KIND_AT + FLAG_SIZE + D_GET;

// P with 0 or 1, of either flag: so many numbers in a row, and which such row it is.
const P_ROW: u32 = NONE * FLAG_SIZE;

const P_AT: u32 = P * KIND_AT / P_ROW;

// V with 0, 1 or none.
const V_0: u32 = V * KIND_AT + D_GET;

const V_1: u32 = V * KIND_AT + FLAG_SIZE + D_GET;

const V_NONE: u32 = V * KIND_AT + NONE * FLAG_SIZE + D_GET;

// Whether the fields of a word 0 are in place, as `format::well_formed` says of them taken apart. A glance does little else, so that it pays to look at kind, value and
// flag at once: they are the top five bits.
fn word_formed(w: u32, n: u32) -> bool
    ensures { result ≡ formed n (fields_of w) }
{
    let k = w / FLAG;
    let station = w / STATION % STATION_SIZE;
    let r = w % STATION;
    let init = (k == INIT_0) | (k == INIT_1);
    let later = (k / P_ROW == P_AT) | (k == V_0) | (k == V_1) | (k == V_NONE);
    (w / SPARE % SPARE_SIZE == 0)
        & (((1 <= station) & (station <= n)) & (((r == 0) & init) | ((1 <= r) & later)))
}

// The answer, where the turns have ended: the whole statements from the findings' place on, or up to a malformed one, are passed for a number that is answered before.
// A chunk has all ten words of one, so that no word needs a test of its own. What else was found stays, and the place and the last station do not matter to the
// answer.
pub fn answer_behind(n: u32, question: u32, ws: &[u32], f: Findings) -> Result<(), Refusal>
    ensures { number_in result ≡ answer (glanced n question ws.now f (left ws.now f.place)) }
{
    if f.malformed {
        return Err(Refusal::Malformed);
    }
    let behind = ws
        .get(1 + f.place as usize * STATEMENT_WORDS..)
        .unwrap_or(&[]);
    let mut other = f.other;
    for words in behind.chunks_exact(STATEMENT_WORDS) {
        if !word_formed(words[0], n) {
            return Err(Refusal::Malformed);
        }
        other |= words[1] != question;
    }
    walk::answer(Findings { other, ..f })
}
