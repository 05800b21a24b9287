// The validity check (document 01, "Validity") in one walk over the certificate: each statement is read once, in order, and what is found is carried to the
// next. The contracts cite specs/.
#![tactic(auto)]

ghost use Rattle.std.specs.Prelude.{◌≡◌, true, false, ◌||◌, ◌+◌, ◌-◌, ◌%◌, ◌≤◌, length};
ghost use Rattle.hmac.specs.Hmac.{code_from};
ghost use Rattle.hmac.specs.Code.{hmac_code};
ghost use Rattle.format.specs.Bundle.{count_in};
ghost use Rattle.format.specs.Present.{most_statements, place_of, statement_words, size_fits, words_at, laid_out};
ghost use Rattle.format.specs.Returns.{number_in};
ghost use Rattle.walk.specs.Walk.{walked, through as Through, answer as Answer};
ghost use Rattle.glance.specs.Glance.{glanced};
ghost use Rattle.certificate.specs.Present.{judged, checked};

use format::{COUNTS, Fields, Refusal, STATEMENT_WORDS};
use hmac::Prepared;
use rules::{Group, Which};
use walk::{Findings, Taken};

// The statement at word `at`, read into a struct: what is looked at of it is looked at there.
fn take_up(ws: &[u32], at: usize) -> Taken
    requires { at + statement_words ≤ length ws.now }
    ensures { result.words ≡ words_at ws.now at }
{
    let words = ws[at..at + STATEMENT_WORDS].try_into().unwrap();
    Taken { words }
}

// Whether there is a fault of 3, 4 or 5, behind which no turn is taken.
fn at_fault(f: Findings) -> bool
    ensures { result ≡ (f.malformed || f.other || f.wrong) }
{
    f.malformed | f.other | f.wrong
}

// The statements from the findings' place up to `end`, held against one group: all of them, or up to one at fault.
fn held_against(
    key: Prepared,
    n: u32,
    g: Group,
    question: u32,
    ws: &[u32],
    end: u32,
    f: &mut Findings,
)
    requires { (f.old.place ≤ end) × (end ≤ 1 + most_statements) × (place_of end ≤ length ws.now) }
    ensures same { walked (code_from key) n g question ws.now f.old (end - f.old.place) ≡ walked (code_from key) n g question ws.now f.new (end - f.new.place) }
    ensures place { f.new.place ≤ end }
    ensures whole { (f.new.malformed || f.new.other || f.new.wrong) ≡ false → f.new.place ≡ end }
{
    for place in f.place..end {
        if at_fault(*f) {
            return;
        }
        let t = take_up(ws, 1 + place as usize * STATEMENT_WORDS);
        *f = walk::turn(key, n, g, question, *f, t, place + 1);
    }
}

// The walk over the certificate of `count` statements: the first group, or as much of it as there is, and then the rest. It ends behind the last one, or behind
// one at fault; what stands behind a 4 or 5 is left to a glance.
fn through(
    key: Prepared,
    n: u32,
    m: Fields,
    question: u32,
    ws: &[u32],
    count: u32,
    from: Findings,
) -> Findings
    requires { (from.place ≡ 1) × (count ≤ most_statements) × (place_of (1 + count) ≤ length ws.now) }
    ensures { Answer (glanced n question ws.now result (1 + count - result.place)) ≡ Answer (Through (code_from key) n m question ws.now count from) }
{
    // behind a fault of the main statement the groups are not even worked out
    if at_fault(from) {
        return from;
    }
    let one = rules::first_group(n, m);
    let size = walk::first_size(m, one);
    let have = size.min(count);
    let mut f = from;
    held_against(key, n, one, question, ws, 1 + have, &mut f);
    if at_fault(f) {
        return f;
    }
    let two = rules::second_group(n, m.value, m.round);
    f = walk::between(m, have == size, count - have, two, f);
    held_against(key, n, two, question, ws, 1 + count, &mut f);
    f
}

// The key's states, where a code is to be computed: not for a main statement that is malformed or of
// another question than the one asked for. Zeros stand there, which nothing reads (`walk::start` and
// `through`): an Option would be taken apart again at each statement.
fn states_for(key: [u8; 32], needed: bool) -> Prepared
    ensures { needed ≡ true → code_from result ≡ hmac_code key }
{
    if !needed {
        return Prepared {
            inner: [0; 8],
            outer: [0; 8],
        };
    }
    hmac::prepare(&key).unwrap()
}

// The answer for words that are laid out as a bundle with `count` certificate statements, in a group of a fitting size.
fn walk(key: [u8; 32], n: u32, asked: Which, ws: &[u32], count: u32) -> Result<(), Refusal>
    requires { (size_fits n ≡ true) × (laid_out ws.now ≡ true) × (count ≡ count_in ws.now) }
    ensures { number_in result ≡ judged key n asked ws.now }
{
    let t = take_up(ws, 1);
    let question = t.words[1];
    let m = format::read_fields(t.words[0]);
    let good = format::well_formed(m, n);
    let fits = rules::allows(asked, question);
    let states = states_for(key, good & fits);
    let begun = walk::start(states, n, asked, t);
    let f = through(states, n, m, question, ws, count, begun);
    glance::answer_behind(n, question, ws, f)
}

// The answer for the words given, under the group's key and n, where the question is to be one or may be any.
pub fn judge(key: [u8; 32], n: u32, asked: Which, ws: &[u32]) -> Result<(), Refusal>
    ensures { number_in result ≡ judged key n asked ws.now }
{
    if !format::size_fits(n) {
        return Err(Refusal::OutOfRange);
    }
    let h = format::word_at(ws, 0);
    if !walk::laid_out(h, ws.len()) {
        return Err(Refusal::Malformed);
    }
    walk(key, n, asked, ws, h % COUNTS)
}

// The validity check: valid or not, whatever the question.
#[tactic(auto, unfolding(crate::specs::Check::checked))]
pub fn check(key: [u8; 32], n: u32, ws: &[u32]) -> Result<(), Refusal>
    ensures { number_in result ≡ checked key n ws.now }
{
    judge(key, n, Which::Any, ws)
}
