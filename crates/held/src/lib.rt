// Sets of stations, one bit for each, and the scan over the held statements (document 01, "The
// station"). The contracts cite specs/.
#![tactic(auto)]

ghost use Rattle.std.specs.Prelude.{◌≡◌, false, ◌&&◌, ◌||◌, ◌%◌, ◌^◌, ◌<◌, eqb, ltb};
ghost use Rattle.std.specs.Int.Count.{ones, count_trailing_zeros};
ghost use Rattle.format.specs.Numbers.{d_get, r_get};
ghost use Rattle.laws.specs.Sets.{bit};
ghost use Rattle.station.specs.Machine.{supplies_for_value, supplies_for_none, undecided as Undecided, with_setting, with_decision};
ghost use Rattle.station.specs.Present.{empty_station, sites};
ghost use Rattle.held.specs.Scan.{with_station, such, scan as Scan, lowest as Lowest};

use format::{MOST_STATIONS, NONE, Round, STATEMENT_WORDS};
use rules::Which;
use station::{Groups, Held, Identity, KEPT_WORDS, Lasting, SLOTS_WORDS, Stage, Station};

// The first set with a bit after that of the last station.
const BEHIND: u32 = 1 << MOST_STATIONS;

// Whether the number i is in the set.
#[tactic(auto, using(crate::proofs::Laws::Sets::none_above))]
pub fn in_set(set: u32, i: u32) -> bool
    ensures { result ≡ bit set i }
{
    if MOST_STATIONS < i {
        return false;
    }
    (set >> i) % 2 == 1
}

// Whether the set names stations only: it has no bit after that of the last.
pub fn names_stations(set: u32) -> bool
    ensures { result ≡ ltb set (2 ^ sites) }
{
    set < BEHIND
}

// The set with a station's bit, where it is a station's number and the bit is clear.
pub fn with_station(set: u32, s: u32) -> u32
    ensures { result ≡ with_station set s }
{
    if !((1 <= s) & (s <= MOST_STATIONS)) {
        return set;
    }
    let i = s - 1;
    if in_set(set, i) {
        return set;
    }
    set + (1 << i)
}

// The lowest number in the set, or 32 where there is none.
pub fn first_of(set: u32) -> u32
    ensures { result ≡ count_trailing_zeros 32 set }
{
    set.trailing_zeros()
}

// How many numbers are in the set.
pub fn number_of(set: u32) -> u32
    ensures { result ≡ ones set }
{
    set.count_ones()
}

// How many of its numbers are below i.
#[tactic(auto, using(crate::proofs::Laws::Sets::one_bit))]
fn number_below(set: u32, i: u32) -> u32
    requires { i < sites }
    ensures { result ≡ ones (set % 2 ^ i) }
{
    (set % (1 << i)).count_ones()
}

// The stations of the set whose held statement has such a value and such a flag.
pub fn scan(slots: &[u32; SLOTS_WORDS], set: u32, value: Which, flag: Which) -> u32
    ensures { result ≡ Scan (such value flag) set slots.now }
{
    let mut out: u32 = 0;
    for i in (0..MOST_STATIONS).rev() {
        let f = format::read_fields(slots[i as usize * STATEMENT_WORDS]);
        let wanted = rules::allows(value, f.value) & rules::allows(flag, f.flag);
        out = 2 * out + u32::from(in_set(set, i) & wanted);
    }
    out
}

// The k lowest-numbered of the set, or all where there are fewer.
pub fn lowest(set: u32, k: u32) -> u32
    ensures { result ≡ Lowest set k }
{
    let mut out: u32 = 0;
    for i in (0..MOST_STATIONS).rev() {
        out = 2 * out + u32::from(in_set(set, i) & (number_below(set, i) < k));
    }
    out
}

// The stations whose proposal of round r is D-GET; in round 1 all.
#[tactic(auto, using(crate::proofs::Laws::Held::scan_first_round, crate::proofs::Laws::Held::scan_d_get))]
fn first_or_d_get(held: &Held, r: Round) -> u32
    ensures { result ≡ Scan (λ s. eqb r.0 1 || eqb s.flag d_get) held.now.heard held.now.slots }
{
    if r.0 == 1 {
        return scan(&held.slots, held.heard, Which::Any, Which::Any);
    }
    scan(
        &held.slots,
        held.heard,
        Which::Any,
        Which::Only(format::D_GET),
    )
}

// The stations whose proposal of round r, over 1, is R-GET.
#[tactic(auto, using(crate::proofs::Laws::Held::scan_r_get, crate::proofs::Laws::Held::scan_early))]
fn later_r_get(held: &Held, r: Round) -> u32
    ensures { result ≡ Scan (λ s. ltb 1 r.0 && eqb s.flag r_get) held.now.heard held.now.slots }
{
    if 1 < r.0 {
        return scan(
            &held.slots,
            held.heard,
            Which::Any,
            Which::Only(format::R_GET),
        );
    }
    0
}

// The stations whose held bundle supplies the group kept for a value.
pub fn for_value(held: &Held, stage: Stage) -> u32
    ensures { result ≡ Scan (supplies_for_value stage) held.now.heard held.now.slots }
{
    match stage {
        Stage::Gathering => 0,
        Stage::Proposing(r, _) => first_or_d_get(held, r),
        Stage::Voting(_) => scan(&held.slots, held.heard, Which::Only(0), Which::Any)
            + scan(&held.slots, held.heard, Which::Only(1), Which::Any),
    }
}

// The stations whose held bundle supplies the group kept for a none vote.
pub fn for_none(held: &Held, stage: Stage) -> u32
    ensures { result ≡ Scan (supplies_for_none stage) held.now.heard held.now.slots }
{
    match stage {
        Stage::Proposing(r, _) => later_r_get(held, r),
        Stage::Gathering | Stage::Voting(_) => 0,
    }
}

// What outlasts a step, as an opening makes it.
pub fn undecided(jump: bool) -> Lasting
    ensures { result ≡ Undecided jump }
{
    Lasting {
        jump,
        decision: NONE,
    }
}

// The same with jump off.
pub fn jump_off(l: Lasting) -> Lasting
    ensures { result ≡ with_setting false l }
{
    Lasting { jump: false, ..l }
}

// The same with this decision.
pub fn with_decision(l: Lasting, decision: u32) -> Lasting
    ensures { result ≡ with_decision decision l }
{
    Lasting { decision, ..l }
}

// A station that holds nothing.
pub fn empty(identity: Identity, stage: Stage, closed: bool, lasting: Lasting) -> Station
    ensures { result ≡ empty_station identity stage closed lasting }
{
    Station {
        identity,
        stage,
        closed,
        lasting,
        held: Held {
            heard: 0,
            slots: [0; SLOTS_WORDS],
        },
        groups: Groups {
            value: [0; KEPT_WORDS],
            none: [0; KEPT_WORDS],
        },
    }
}
