// What the validity check finds in a bundle, statement by statement (Job 4 of document 02): the findings, one turn, what follows the first group, and the answer.
// The contracts cite specs/Walk.antt.
#![tactic(auto)]

ghost use Rattle.std.specs.Prelude.{◌≡◌, false, not, ◌&&◌, [], ◌∷◌, ◌%◌, ◌^◌, eqb, get_or};
ghost use Rattle.hmac.specs.Hmac.{code_from};
ghost use Rattle.format.specs.Numbers.{count_bits};
ghost use Rattle.format.specs.Returns.{number_in};
ghost use Rattle.format.specs.Statement.{same_words};
ghost use Rattle.format.specs.Present.{bundle_words, formed, statement, code_at, fields_at, covered, head_fits};
ghost use Rattle.walk.specs.Walk.{code_fails, started, noted, first_size, between as Between, answer as Answer};

use format::{
    CODE_WORDS, COUNTS, COVERED_WORDS, Fields, HEAD_MARK, HEAD_ZEROS, MARK, MOST_STATEMENTS, NONE,
    Refusal, STATEMENT_WORDS, V,
};
use hmac::Prepared;
use rules::{Group, Which};

// The most statements that a head counts.
const MOST: u32 = MOST_STATEMENTS as u32;

// All that passes from one statement of the certificate to the next: nine words of 32 bits, each flag counted as one.
#[derive(Clone, Copy)]
pub struct Findings {
    // the number of the statement that is next, the main statement's being 0
    pub place: u32,
    // the station of the statement before it in its group, or 0
    pub last: u32,
    // 3: the fields of one are not in place
    pub malformed: bool,
    // 4: one is of another question
    pub other: bool,
    // 5: a code is wrong
    pub wrong: bool,
    // 6: the certificate is not as the rules ask
    pub unbacked: bool,
    // so far in the groups: there was a D-GET, the value 0, the value 1; what is between the groups asks for it
    pub dget: bool,
    pub zero: bool,
    pub one: bool,
}

// The ten words of a statement, read once.
#[derive(Clone, Copy)]
pub struct Taken {
    pub words: [u32; STATEMENT_WORDS],
}

// Whether `words` words with this head are laid out as a bundle.
pub fn laid_out(h: u32, words: usize) -> bool
    ensures { result ≡ (head_fits h && eqb words (bundle_words (h % 2 ^ count_bits))) }
{
    let count = (h % COUNTS) as usize;
    (h / MARK == HEAD_MARK)
        & (h / COUNTS % HEAD_ZEROS == 0)
        & (h % COUNTS <= MOST)
        & (words == 1 + STATEMENT_WORDS * (1 + count))
}

// Whether a statement has this code. All eight words are compared before the answer, so that its time says nothing of where a forged code differs: `==` on
// slices and `all` would end at the first difference.
fn code_matches(words: &[u32; STATEMENT_WORDS], code: &[u32; CODE_WORDS]) -> bool
    ensures { result ≡ same_words (code_at words.now 0) code.now }
{
    let mut same = true;
    for (word, coded) in words[COVERED_WORDS..].iter().zip(code) {
        same &= *word == *coded;
    }
    same
}

// Whether the code is wrong. It is not computed behind a fault that is answered before it. Where it is, the words read are those that it covers.
fn code_fails(key: Prepared, fault: bool, words: &[u32; STATEMENT_WORDS]) -> bool
    requires { fault ≡ false → covered (statement words.now 0) ≡ get_or words.now 0 0 ∷ get_or words.now 1 0 ∷ [] }
    ensures { result ≡ code_fails (code_from key) fault (statement words.now 0) }
{
    if fault {
        return false;
    }
    let code = codes::code_words(key, &words[..COVERED_WORDS]).unwrap();
    !code_matches(words, &code)
}

// What the main statement brings along.
pub fn start(key: Prepared, n: u32, asked: Which, t: Taken) -> Findings
    ensures { result ≡ started (code_from key) asked (not (formed n (fields_at t.words 0))) (statement t.words 0) }
{
    let m = format::read_fields(t.words[0]);
    let malformed = !format::well_formed(m, n);
    let other = !rules::allows(asked, t.words[1]);
    Findings {
        place: 1,
        last: 0,
        malformed,
        other,
        wrong: code_fails(key, malformed | other, &t.words),
        unbacked: rules::early_toss(m.kind, m.flag, m.round),
        dget: false,
        zero: false,
        one: false,
    }
}

// One turn: what is found when the statement is held against the group and the question. The one behind it is the `next`. Behind a fault of 3, 4 or 5 no code is
// computed, and nothing is asked of the rules.
pub fn turn(
    key: Prepared,
    n: u32,
    g: Group,
    question: u32,
    f: Findings,
    t: Taken,
    next: u32,
) -> Findings
    ensures { result ≡ noted (code_from key) g question next f (not (formed n (fields_at t.words 0))) (statement t.words 0) }
{
    let s = format::read_fields(t.words[0]);
    let malformed = !format::well_formed(s, n);
    let other = f.other | (t.words[1] != question);
    let passed = Findings {
        place: next,
        last: s.station,
        malformed,
        other,
        ..f
    };
    if malformed | other | f.wrong {
        return passed;
    }
    Findings {
        wrong: code_fails(key, false, &t.words),
        unbacked: f.unbacked | !(rules::is_wanted(g, s) & (f.last < s.station)),
        dget: f.dget | (s.flag == format::D_GET),
        zero: f.zero | (s.value == 0),
        one: f.one | (s.value == 1),
        ..passed
    }
}

// How many statements of its first group, g, a main statement with these fields asks for; an INIT asks for none.
#[tactic(auto, unfolding(crate::specs::Walk::first_size, laws::specs::Pick::pick))]
pub fn first_size(m: Fields, g: Group) -> u32
    ensures { result ≡ first_size m g }
{
    if m.kind == format::INIT { 0 } else { g.size }
}

// Behind the first group's statements, which are all that were asked for or not, with `rest` to come, of a second group g if there is to be one: whether the
// sizes and the values are as the rules ask.
#[tactic(auto, unfolding(crate::specs::Walk::between, crate::specs::Walk::second_size, laws::specs::Pick::pick))]
pub fn between(m: Fields, whole: bool, rest: u32, g: Group, f: Findings) -> Findings
    ensures { result ≡ Between m whole rest g f }
{
    let due = rules::has_second(m.kind, m.value, m.round, f.dget);
    let behind = rest == if due { g.size } else { 0 };
    let both = !((m.kind == V) & (m.value == NONE)) | (f.zero & f.one);
    Findings {
        last: 0, // stations rise anew
        unbacked: f.unbacked | !(whole & both & behind),
        ..f
    }
}

// The answer at the end of the walk.
#[tactic(auto, unfolding(crate::specs::Walk::answer, laws::specs::Refusals::first_failed, laws::specs::Pick::pick))]
pub fn answer(f: Findings) -> Result<(), Refusal>
    ensures { number_in result ≡ Answer f }
{
    if f.malformed {
        return Err(Refusal::Malformed);
    }
    if f.other {
        return Err(Refusal::OtherQuestion);
    }
    if f.wrong {
        return Err(Refusal::WrongCode);
    }
    if f.unbacked {
        return Err(Refusal::NoCertificate);
    }
    Ok(())
}
