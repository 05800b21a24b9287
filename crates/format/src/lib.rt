// Group sizes, thresholds and word 0 of a statement (document 01, "Group and thresholds" and "Words"). The contracts cite specs/.
// Above a function stands which of these definitions the check opens to prove it.
#![tactic(auto)]

ghost use Rattle.std.specs.Prelude.{◌≡◌, ◌+◌, ◌/◌, get_or};
ghost use Rattle.format.specs.Group.{quorum as Quorum, backing as Backing};
ghost use Rattle.format.specs.Words.{fields_of, word_of, step_in};
ghost use Rattle.laws.specs.Refusals.{first_failed as FirstFailed};
ghost use Rattle.format.specs.Returns.{refusal_number, outcome_number, number_in, table_of};
ghost use Rattle.format.specs.Present.{size_fits as SizeFits, formed};

// "Group: n from 2 to 31", "round 1 to 65,535".
pub const LEAST_STATIONS: u32 = 2;

pub const MOST_STATIONS: u32 = 31;

pub const LAST_ROUND: u32 = 65535;

// The words of a statement that its code covers, its first ones; those of the code; a statement's, which are both; where the certificate begins in a bundle;
// the most certificate statements; and the most words of a bundle, which a lent output has to hold.
pub const COVERED_WORDS: usize = 2;

pub const CODE_WORDS: usize = 8;

pub const STATEMENT_WORDS: usize = COVERED_WORDS + CODE_WORDS;

pub const CERTIFICATE_AT: usize = 1 + STATEMENT_WORDS;

pub const MOST_STATEMENTS: usize = 32;

pub const OUTPUT_WORDS: usize = 1 + STATEMENT_WORDS * (1 + MOST_STATEMENTS);

// Kinds, the value none, and the flags. Numbers and not enums: the fields of a word may hold any
// bits, and `fields_of` and `word_of`, which may not change, read and write them all.
pub const INIT: u32 = 0;

pub const P: u32 = 1;

pub const V: u32 = 2;

pub const NONE: u32 = 2;

pub const D_GET: u32 = 0;

pub const R_GET: u32 = 1;

// The weights of the fields of word 0.
const KIND: u32 = 1 << 30;

const VALUE: u32 = 1 << 28;

pub const FLAG: u32 = 1 << 27;

pub const SPARE: u32 = 1 << 24;

pub const STATION: u32 = 1 << 16;

// How many numbers a field of word 0 holds.
const KIND_SIZE: u32 = 4;

pub const VALUE_SIZE: u32 = 4;

pub const FLAG_SIZE: u32 = 2;

pub const SPARE_SIZE: u32 = 8;

pub const STATION_SIZE: u32 = 256;

// A bundle's head: its mark, the mark's weight, and the weight behind the count and behind the zeros.
pub const HEAD_MARK: u32 = 3;

pub const MARK: u32 = 1 << 30;

pub const COUNTS: u32 = 1 << 16;

pub const HEAD_ZEROS: u32 = 1 << 14;

// Why a call is refused: the table of returns, by rising number, in document 01's words.
#[derive(Clone, Copy, Debug, PartialEq, Eq)]
pub enum Refusal {
    // 1: "lent output below 331 words"
    ShortOutput,
    // 2: "n, station number, proposal or coin out of range; a station whose n or number isn't the given module's, or whose stage, set and held statements don't
    // fit one another"; since Job 3 of document 02 too: "a jump setting outside 0 and 1"
    OutOfRange,
    // 3: "words, kinds, fields or lengths not as above, a station over n included; or the wrong way to code"
    Malformed,
    // 4: "a question differs from the main statement's, or that from the station's"
    OtherQuestion,
    // 5: "a code that doesn't verify, or a statement of another station to code"
    WrongCode,
    // 6: "certificate not as rules 1 to 7"
    NoCertificate,
    // 7: "step below the station's"
    TooLate,
    // 8: "step above it"; since Job 3 "only with jump off"
    TooEarly,
    // 9: "that station is held in this step"
    AlreadyHeld,
    // 10: "the held and the new would have votes for both 0 and 1, or, in a round over 1, D-GET of both values"
    Conflicting,
    // 11: "station closed"
    StationClosed,
    // 12: "the pair isn't above the module's last"
    NotAbove,
}

impl Refusal {
    // The returned number that stands for it.
    pub fn number(self) -> u32
        ensures { result ≡ refusal_number self }
    {
        match self {
            Refusal::ShortOutput => 1,
            Refusal::OutOfRange => 2,
            Refusal::Malformed => 3,
            Refusal::OtherQuestion => 4,
            Refusal::WrongCode => 5,
            Refusal::NoCertificate => 6,
            Refusal::TooLate => 7,
            Refusal::TooEarly => 8,
            Refusal::AlreadyHeld => 9,
            Refusal::Conflicting => 10,
            Refusal::StationClosed => 11,
            Refusal::NotAbove => 12,
        }
    }
}

// The refusal of the first test that fails, in a table's order.
#[tactic(auto, unfolding(laws::specs::Refusals::first_failed, laws::specs::Pick::pick))]
pub fn first_failed(tests: &[(bool, Refusal)]) -> Result<(), Refusal>
    ensures { number_in result ≡ FirstFailed (table_of tests.now) }
{
    for (passed, refusal) in tests {
        if !*passed {
            return Err(*refusal);
        }
    }
    Ok(())
}

// What an opening or a giving did that was not refused: the rest of the table.
#[derive(Clone, Copy, Debug, PartialEq, Eq)]
pub enum Outcome {
    // 0: "kept, step not ended"
    Kept,
    // 20: "sent: bundle written, its word count with it"
    Sent,
    // 21: "sent, and first decided in this call"
    SentDecided,
    // 22: "closed in this call; a decision may have been made"
    ClosedNow,
    // 23, since Job 3: "a valid bundle of a later step makes the station enter that step and return 23"
    Jumped,
}

impl Outcome {
    // The returned number that stands for it.
    pub fn number(self) -> u32
        ensures { result ≡ outcome_number self }
    {
        match self {
            Outcome::Kept => 0,
            Outcome::Sent => 20,
            Outcome::SentDecided => 21,
            Outcome::ClosedNow => 22,
            Outcome::Jumped => 23,
        }
    }
}

// A round's number. It is compared with rounds only.
#[derive(Clone, Copy)]
pub struct Round(pub u32);

// A step's number: 0 for INIT, 2r for P and 2r + 1 for V of round r. It is compared with steps only.
#[derive(Clone, Copy)]
pub struct Step(pub u64);

// The fields of word 0 of a statement, each as its bits say.
#[derive(Clone, Copy)]
pub struct Fields {
    pub kind: u32,
    pub value: u32,
    pub flag: u32,
    pub spare: u32,
    pub station: u32,
    pub round: Round,
}

// Whether a group may have n stations.
pub fn size_fits(n: u32) -> bool
    ensures { result ≡ SizeFits n }
{
    (LEAST_STATIONS..=MOST_STATIONS).contains(&n)
}

pub fn quorum(n: u32) -> u32
    ensures { result ≡ Quorum n }
{
    n / 2 + 1
}

// The INITs that a first proposal of v needs.
#[tactic(auto, unfolding(crate::specs::Group::backing, laws::specs::Pick::pick))]
pub fn backing(n: u32, v: u32) -> u32
    ensures { result ≡ Backing n v }
{
    if v == 0 {
        ((u64::from(n) + 2) / 4 + 1) as u32
    } else {
        n / 4 + 1
    }
}

// Word 0, taken apart.
#[tactic(auto, unfolding(crate::specs::Words::fields_of))]
pub fn read_fields(w: u32) -> Fields
    ensures { result ≡ fields_of w }
{
    Fields {
        kind: w / KIND,
        value: w / VALUE % VALUE_SIZE,
        flag: w / FLAG % FLAG_SIZE,
        spare: w / SPARE % SPARE_SIZE,
        station: w / STATION % STATION_SIZE,
        round: Round(w % STATION),
    }
}

// Word 0, put together; each field is cut to its bits.
#[tactic(auto, unfolding(crate::specs::Words::word_of))]
pub fn write_fields(f: Fields) -> u32
    ensures { result ≡ word_of f }
{
    f.kind % KIND_SIZE * KIND
        + f.value % VALUE_SIZE * VALUE
        + f.flag % FLAG_SIZE * FLAG
        + f.spare % SPARE_SIZE * SPARE
        + f.station % STATION_SIZE * STATION
        + f.round.0 % STATION
}

// Whether the fields are those of a statement of a group of n.
#[tactic(auto, unfolding(crate::specs::Statement::formed))]
pub fn well_formed(f: Fields, n: u32) -> bool
    ensures { result ≡ formed n f }
{
    let r = f.round.0;
    let init = (f.kind == INIT) & ((r == 0) & (f.value < NONE) & (f.flag == D_GET));
    let p = (f.kind == P)
        & ((1 <= r) & (r <= LAST_ROUND) & (f.value < NONE) & (f.flag < FLAG_SIZE));
    let v = (f.kind == V) & ((1 <= r) & (r <= LAST_ROUND) & (f.value <= NONE) & (f.flag == D_GET));
    (f.spare == 0) & (((1 <= f.station) & (f.station <= n)) & (init | p | v))
}

// The step of a statement with these fields.
#[tactic(auto, unfolding(crate::specs::Words::step_in, crate::specs::Words::step_of, laws::specs::Pick::pick))]
pub fn step_of(f: Fields) -> Step
    ensures { result ≡ step_in f }
{
    let r = u64::from(f.round.0);
    match f.kind {
        INIT => Step(0),
        P => Step(2 * r),
        _ => Step(2 * r + 1),
    }
}

// The word at a place, or 0 behind the last: words that are too few are read as the definitions read them.
pub fn word_at(ws: &[u32], i: usize) -> u32
    ensures { result ≡ get_or ws.now i 0 }
{
    ws.get(i).copied().unwrap_or(0)
}
