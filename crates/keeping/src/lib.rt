// A station with one bundle more (document 01, "The station"). The contracts cite specs/.
#![tactic(auto)]

ghost use Rattle.std.specs.Prelude.{◌≡◌, ◌-◌, ◌≤◌};
ghost use Rattle.laws.specs.Pick.{pick};
ghost use Rattle.format.specs.Present.{place_of};
ghost use Rattle.station.specs.Present.{kept_words};
ghost use Rattle.keeping.specs.Kept.{with_slot, words_kept, group_from, is_lowest, held_with, groups_with, with_bundle};

use format::{CERTIFICATE_AT, MOST_STATIONS, STATEMENT_WORDS};
use station::{Groups, Held, KEPT_WORDS, SLOTS_WORDS, Stage, Station};

// The slots with the main statement in its station's slot.
fn with_slot(slots: [u32; SLOTS_WORDS], s: u32, ws: &[u32]) -> [u32; SLOTS_WORDS]
    ensures { result ≡ with_slot slots s ws.now }
{
    if !((1 <= s) & (s <= MOST_STATIONS) & (CERTIFICATE_AT <= ws.len())) {
        return slots;
    }
    let at = (s - 1) as usize * STATEMENT_WORDS;
    let mut out = slots;
    out[at..at + STATEMENT_WORDS].copy_from_slice(&ws[1..CERTIFICATE_AT]);
    out
}

// How many certificate words are kept: those of q statements, as far as there are that many and a
// group has room for them.
fn words_kept(q: u32, have: usize) -> usize
    ensures value { result ≡ words_kept q have }
    ensures few { result ≤ kept_words }
    ensures there { result ≤ have - place_of 1 }
{
    (q as usize * STATEMENT_WORDS)
        .min(KEPT_WORDS)
        .min(have.saturating_sub(CERTIFICATE_AT))
}

// The first q statements of the certificate, and zeros behind them.
fn group_from(ws: &[u32], q: u32) -> [u32; KEPT_WORDS]
    ensures { result ≡ group_from q ws.now }
{
    if ws.len() < CERTIFICATE_AT {
        return [0; KEPT_WORDS];
    }
    let count = words_kept(q, ws.len());
    let mut out = [0; KEPT_WORDS];
    out[..count].copy_from_slice(&ws[CERTIFICATE_AT..CERTIFICATE_AT + count]);
    out
}

// Whether station s is the lowest-numbered of the set.
fn is_lowest(set: u32, s: u32) -> bool
    ensures { result ≡ is_lowest set s }
{
    held::lowest(set, 1) == held::with_station(0, s)
}

// The kept group, replaced by the bundle's or as it was.
fn group_after(old: [u32; KEPT_WORDS], replaced: bool, ws: &[u32], q: u32) -> [u32; KEPT_WORDS]
    ensures { result ≡ pick replaced (group_from q ws.now) old }
{
    if replaced {
        return group_from(ws, q);
    }
    old
}

// The statements held, with the main statement of station s.
fn held_with(held: Held, s: u32, ws: &[u32]) -> Held
    ensures { result ≡ held_with held s ws.now }
{
    Held {
        heard: held::with_station(held.heard, s),
        slots: with_slot(held.slots, s, ws),
    }
}

// The kept groups behind a bundle of station s, where the statements held are those with its own.
fn groups_with(groups: Groups, stage: Stage, n: u32, held: Held, s: u32, ws: &[u32]) -> Groups
    ensures { result ≡ groups_with groups stage n held s ws.now }
{
    let q = format::quorum(n);
    let for_value = is_lowest(held::for_value(&held, stage), s);
    let for_none = is_lowest(held::for_none(&held, stage), s);
    Groups {
        value: group_after(groups.value, for_value, ws, q),
        none: group_after(groups.none, for_none, ws, q),
    }
}

// The station with one bundle more: its main statement in its slot, its bit set, and its
// certificate's first q statements kept where they are to be.
pub fn keep(t: Station, ws: &[u32]) -> Station
    ensures { result ≡ with_bundle t ws.now }
{
    let f = format::read_fields(format::word_at(ws, 1));
    let held = held_with(t.held, f.station, ws);
    Station {
        held,
        groups: groups_with(t.groups, t.stage, t.identity.n, held, f.station, ws),
        ..t
    }
}
