// A station as words and back (docs/SCRIPT.md, "The words of a station"). The contracts cite specs/.
#![tactic(auto)]

ghost use Rattle.std.specs.Prelude.{◌≡◌, ◌++◌, ◌+◌, ◌≤◌, Some, None, eqb, leb, length, get_or};
ghost use Rattle.laws.specs.Pick.{pick};
ghost use Rattle.laws.specs.Over.{over};
ghost use Rattle.format.specs.Returns.{number_in};
ghost use Rattle.station_words.specs.Words.{station_words, stage_words, settings_of, sets_of, is_stage, is_station, stage_in, part, station_in, flag_fits, refusal, words_of, read_by, reading, written_by, writing};
ghost use Rattle.station_words.specs.Laws.Put.{put_at};

use format::{Refusal, Round};
use station::{Groups, Held, Identity, KEPT_WORDS, Lasting, SLOTS_WORDS, Stage, Station};

// Where the parts begin: the stage's words, the closed word, the decision, the set of stations heard, the held statements, both kept groups, the
// jump setting.
const STAGE_AT: usize = 3;

const CLOSED_AT: usize = 6;

const DECISION_AT: usize = 7;

const HEARD_AT: usize = 8;

const SLOTS_AT: usize = 9;

const VALUE_AT: usize = SLOTS_AT + SLOTS_WORDS;

const NONE_AT: usize = VALUE_AT + KEPT_WORDS;

const JUMP_AT: usize = NONE_AT + KEPT_WORDS;

// How many words a station has.
pub const STATION_WORDS: usize = JUMP_AT + 1;

// Puts words into a slice from a place on.
#[tactic(auto, unfolding(crate::specs::Laws::Put::put_at))]
fn put(out: &mut [u32], at: usize, words: &[u32])
    requires { at + length words.now ≤ length out.old }
    ensures { out.new ≡ put_at out.old at words.now }
{
    out[at..at + words.len()].copy_from_slice(words);
}

// The stage of three words, if they are those of one.
#[tactic(auto, unfolding(crate::specs::Words::stage_in, laws::specs::Pick::pick))]
fn stage_in(words: [u32; 3]) -> Option<Stage>
    ensures { result ≡ pick (is_stage (get_or words 0 0) (get_or words 1 0) (get_or words 2 0)) (Some (stage_in (get_or words 0 0) (get_or words 1 0) (get_or words 2 0))) None }
{
    match words {
        [0, 0, 0] => Some(Stage::Gathering),
        [1, round, flag @ 0..=1] => Some(Stage::Proposing(Round(round), flag)),
        [2, round, 0] => Some(Stage::Voting(Round(round))),
        _ => None,
    }
}

// What a word says that is 0 or 1.
#[tactic(auto, unfolding(laws::specs::Pick::pick))]
fn truth_in(word: u32) -> Option<bool>
    ensures { result ≡ pick (leb word 1) (Some (eqb word 1)) None }
{
    match word {
        0 => Some(false),
        1 => Some(true),
        _ => None,
    }
}

// The words from a place on, as many as are wanted: the held statements, or a kept group.
#[tactic(auto, unfolding(crate::specs::Words::part))]
fn part<const N: usize>(ws: &[u32], at: usize) -> [u32; N]
    requires { at + N ≤ length ws.now }
    ensures { result ≡ part at N ws.now }
{
    ws[at..at + N].try_into().unwrap()
}

// The station of these words, if they are one.
fn station_in(ws: &[u32]) -> Option<Station>
    ensures { result ≡ pick (is_station ws.now) (Some (station_in ws.now)) None }
{
    if ws.len() != STATION_WORDS {
        return None;
    }
    Some(Station {
        identity: Identity {
            n: ws[0],
            station: ws[1],
            question: ws[2],
        },
        stage: stage_in([ws[STAGE_AT], ws[STAGE_AT + 1], ws[STAGE_AT + 2]])?,
        closed: truth_in(ws[CLOSED_AT])?,
        lasting: Lasting {
            jump: truth_in(ws[JUMP_AT])?,
            decision: ws[DECISION_AT],
        },
        held: Held {
            heard: ws[HEARD_AT],
            slots: part(ws, SLOTS_AT),
        },
        groups: Groups {
            value: part(ws, VALUE_AT),
            none: part(ws, NONE_AT),
        },
    })
}

// Reads a station of its words.
pub fn read(ws: &[u32]) -> Result<Station, Refusal>
    ensures { read_by result ≡ reading ws.now }
{
    station_in(ws).ok_or(Refusal::Malformed)
}

// The three words of a stage.
#[tactic(auto, unfolding(crate::specs::Words::stage_words))]
fn stage_words(stage: Stage) -> [u32; 3]
    ensures { result ≡ stage_words stage }
{
    match stage {
        Stage::Gathering => [0, 0, 0],
        Stage::Proposing(r, flag) => [1, r.0, flag],
        Stage::Voting(r) => [2, r.0, 0],
    }
}

// Whether a stage has a flag that can be written down.
#[tactic(auto, unfolding(crate::specs::Words::flag_fits))]
fn flag_fits(stage: Stage) -> bool
    ensures { result ≡ flag_fits stage }
{
    match stage {
        Stage::Gathering | Stage::Voting(_) => true,
        Stage::Proposing(_, flag) => flag < 2,
    }
}

// The settings and the set.
fn head(t: Station) -> [u32; 9]
    ensures { result ≡ settings_of t ++ sets_of t }
{
    let [tag, round, flag] = stage_words(t.stage);
    [
        t.identity.n,
        t.identity.station,
        t.identity.question,
        tag,
        round,
        flag,
        u32::from(t.closed),
        t.lasting.decision,
        t.held.heard,
    ]
}

// The refusal of the first test that fails, if one does.
#[tactic(auto, unfolding(crate::specs::Words::refusal, laws::specs::Pick::pick))]
fn refusal(t: Station, lent: usize) -> Result<(), Refusal>
    ensures { number_in result ≡ refusal t lent }
{
    if lent < STATION_WORDS {
        Err(Refusal::ShortOutput)
    } else if !flag_fits(t.stage) {
        Err(Refusal::OutOfRange)
    } else {
        Ok(())
    }
}

// Puts the words of a station, each part behind the one before.
fn put_station(t: Station, out: &mut [u32])
    requires { station_words ≤ length out.old }
    ensures { out.new ≡ over (words_of t) out.old }
{
    put(out, 0, &head(t));
    put(out, SLOTS_AT, &t.held.slots);
    put(out, VALUE_AT, &t.groups.value);
    put(out, NONE_AT, &t.groups.none);
    put(out, JUMP_AT, &[u32::from(t.lasting.jump)]);
}

// Writes a station's words at the front of those lent, and answers how many there are.
pub fn write(t: Station, out: &mut [u32]) -> Result<usize, Refusal>
    ensures { written_by out.new result ≡ writing t out.old }
{
    refusal(t, out.len())?;
    put_station(t, out);
    Ok(STATION_WORDS)
}
