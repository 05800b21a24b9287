// Whether the statements that a station holds fit (document 01, "A station fits if"). The contracts
// cite specs/ of crate station.
#![tactic(auto)]

ghost use Rattle.std.specs.Prelude.{◌≡◌, ◌*◌, ◌<◌};
ghost use Rattle.format.specs.Present.{statement_words};
ghost use Rattle.station.specs.Fit.{zeros};
ghost use Rattle.station.specs.Present.{sites, slot_fits, slots_fit};
ghost use Rattle.held_fitness.specs.Laws.Parts.{slot_right, held_words_fit};

use format::{MOST_STATIONS, STATEMENT_WORDS, Step};
use station::{Held, SLOTS_WORDS};

// Whether the ten words of slot i are zero.
fn slot_empty(slots: &[u32; SLOTS_WORDS], i: u32) -> bool
    requires { i < sites }
    ensures { result ≡ zeros slots.now (i * statement_words) statement_words }
{
    let at = i as usize * STATEMENT_WORDS;
    slots[at..at + STATEMENT_WORDS].iter().all(|w| *w == 0)
}

// Whether slot i holds a well-formed statement of its station, of the question and of the step.
fn slot_fits(slots: &[u32; SLOTS_WORDS], i: u32, n: u32, question: u32, step: Step) -> bool
    requires { i < sites }
    ensures { result ≡ slot_fits n question step.0 i slots.now }
{
    let at = i as usize * STATEMENT_WORDS;
    let f = format::read_fields(slots[at]);
    format::well_formed(f, n)
        & (f.station == i + 1)
        & (slots[at + 1] == question)
        & (format::step_of(f).0 == step.0)
}

// Whether slot i is as its bit says.
fn slot_matches(held: &Held, i: u32, n: u32, question: u32, step: Step) -> bool
    requires { i < sites }
    ensures { result ≡ slot_right n question step.0 held.now.heard held.now.slots i }
{
    if held::in_set(held.heard, i) {
        return slot_fits(&held.slots, i, n, question, step);
    }
    slot_empty(&held.slots, i)
}

// Whether every slot is.
fn slots_fit(held: &Held, n: u32, question: u32, step: Step) -> bool
    ensures { result ≡ slots_fit n question step.0 held.now.heard held.now.slots 0 sites }
{
    (0..MOST_STATIONS).all(|i| slot_matches(held, i, n, question, step))
}

// Whether the held statements fit: no bit behind the last slot, fewer than q, the own, of slot i,
// among them, and each slot as its bit says.
pub fn held_fits(held: &Held, n: u32, i: u32, question: u32, step: Step) -> bool
    ensures { result ≡ held_words_fit n i question step.0 held.now.heard held.now.slots }
{
    held::names_stations(held.heard)
        & (held::number_of(held.heard) < format::quorum(n))
        & held::in_set(held.heard, i)
        & slots_fit(held, n, question, step)
}
