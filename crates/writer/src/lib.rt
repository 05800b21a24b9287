// Writes a bundle into lent words (document 01, "Words" and "The station"). The contracts cite
// specs/.
#![tactic(auto)]

ghost use Rattle.std.specs.Prelude.{◌≡◌, ◌+◌, ◌*◌, ◌^◌, ◌≤◌, ◌<◌, length};
ghost use Rattle.std.specs.Int.Count.{ones};
ghost use Rattle.laws.specs.Over.{over};
ghost use Rattle.format.specs.Group.{quorum};
ghost use Rattle.format.specs.Present.{bundle_words, most_statements, output_words, place_of, statement_words};
ghost use Rattle.station.specs.Present.{sites, slots_words};
ghost use Rattle.writer.specs.Written.{segment, held_words, main_words, words_of, writable as Writable, lent_after, count_after, copy_after, copy_count};

use format::{
    CERTIFICATE_AT, HEAD_MARK, MARK, MOST_STATEMENTS, MOST_STATIONS, OUTPUT_WORDS, STATEMENT_WORDS,
};
use station::{KEPT_WORDS, SLOTS_WORDS};

// As many statements as a kept group has.
const LARGEST_QUORUM: u32 = MOST_STATIONS / 2 + 1;

// A head that counts no statement.
const HEAD: u32 = HEAD_MARK * MARK;

// Writes the slots of the stations in the set, by rising station, one behind the other.
fn write_held(out: &mut [u32], slots: &[u32; SLOTS_WORDS], set: u32)
    requires { slots_words ≤ length out.old }
    ensures { out.new ≡ over (held_words set slots.now 0 sites) out.old }
{
    let mut at = 0;
    for i in 0..MOST_STATIONS {
        if held::in_set(set, i) {
            let from = i as usize * STATEMENT_WORDS;
            out[at..at + STATEMENT_WORDS].copy_from_slice(&slots[from..from + STATEMENT_WORDS]);
            at += STATEMENT_WORDS;
        }
    }
}

// Writes the first k statements of a kept group at the front of the lent words.
fn write_group(out: &mut [u32], group: &[u32; KEPT_WORDS], k: usize)
    requires { (k ≤ quorum sites) × (k * statement_words ≤ length out.old) }
    ensures { out.new ≡ over (segment (k * statement_words) 0 group.now) out.old }
{
    let n = k * STATEMENT_WORDS;
    out[..n].copy_from_slice(&group[..n]);
}

// Writes the head word and the main statement at the front of the lent words: zeros stand where its
// code will.
fn write_main(out: &mut [u32], count: u32, w0: u32, question: u32)
    requires { (count ≤ most_statements) × (place_of 1 ≤ length out.old) }
    ensures { out.new ≡ over (main_words count w0 question) out.old }
{
    out[0] = HEAD + count;
    out[1] = w0;
    out[2] = question;
    out[3..CERTIFICATE_AT].fill(0);
}

// Whether a bundle of the set's count of statements and k more can be written into the words lent.
fn writable(lent: usize, set: u32, count: u32, k: u32) -> bool
    ensures { result ≡ Writable lent set count k }
{
    (OUTPUT_WORDS <= lent)
        & held::names_stations(set)
        & (k <= LARGEST_QUORUM)
        & (count as usize + k as usize <= MOST_STATEMENTS)
}

// Writes the parts of a bundle, each behind the one before in the same lent words, and answers the
// word count.
fn write_parts(
    out: &mut [u32],
    w0: u32,
    question: u32,
    slots: &[u32; SLOTS_WORDS],
    set: u32,
    count: u32,
    group: &[u32; KEPT_WORDS],
    k: u32,
) -> usize
    requires { (output_words ≤ length out.old) × (set < 2 ^ sites) × (k ≤ quorum sites) × (count + k ≤ most_statements) × (count ≡ ones set) }
    ensures { (result ≡ bundle_words (count + k)) × (out.new ≡ over (words_of w0 question slots.now set group.now k) out.old) }
{
    let at = CERTIFICATE_AT + (count as usize) * STATEMENT_WORDS;
    let n = k as usize;
    write_main(out, count + k, w0, question);
    write_held(&mut out[CERTIFICATE_AT..], slots, set);
    write_group(&mut out[at..], group, n);
    at + n * STATEMENT_WORDS
}

// Writes a bundle: the main statement, not coded yet, behind it the held statements of the set, and
// behind these the first k statements of a kept group. It answers the word count, and changes
// nothing where the bundle cannot be written.
pub fn write_bundle(
    out: &mut [u32],
    w0: u32,
    question: u32,
    slots: &[u32; SLOTS_WORDS],
    set: u32,
    group: &[u32; KEPT_WORDS],
    k: u32,
) -> usize
    ensures { (result ≡ count_after (length out.old) set k) × (out.new ≡ lent_after w0 question slots.now set group.now k out.old) }
{
    let count = held::number_of(set);
    if !writable(out.len(), set, count, k) {
        return 0;
    }
    write_parts(out, w0, question, slots, set, count, group, k)
}

// Writes a given bundle with another word 0 of its main statement. It answers the word count, and
// changes nothing where there is no main statement or no room.
pub fn copy_bundle(out: &mut [u32], w0: u32, ws: &[u32]) -> usize
    ensures { (result ≡ copy_count (length ws.now) (length out.old)) × (out.new ≡ copy_after w0 ws.now out.old) }
{
    let count = ws.len();
    if !((CERTIFICATE_AT <= count) & (count <= out.len())) {
        return 0;
    }
    out[..count].copy_from_slice(ws);
    out[1] = w0;
    count
}
