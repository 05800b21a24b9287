// What follows the end of a step, from a station's words (document 01, "The station"). The contracts cite specs/ here and of
// crate station.
#![tactic(auto)]

ghost use Rattle.std.specs.Prelude.{◌≡◌};
ghost use Rattle.laws.specs.Pick.{pick};
ghost use Rattle.format.specs.Numbers.{kind_p, none};
ghost use Rattle.format.specs.Present.{last_round};
ghost use Rattle.station.specs.Machine.{first_value as FirstValue, vote_value as VoteValue, carried as Carried, decision_after, decision_at, lasting_at, closes as Closes, proposing};
ghost use Rattle.station.specs.Present.{held_in, sites};
ghost use Rattle.ending.specs.After.{following, round_after, second_group, inits_next, proposals_next, votes_next, next_by};

use format::{LAST_ROUND, NONE, Round};
use rules::Which;
use station::{Held, Lasting, Stage};

// The kept group that stands in a certificate: none, or the one for a value, which in round 1 is
// INITs, or the one for a none vote. One enum of four, since `count_by` and `group_by`, definitions,
// have a case for each.
#[derive(Clone, Copy)]
pub enum Kept {
    Nothing,
    Inits,
    ForValue,
    ForNone,
}

// What follows a step: the statement, but for its station, question and code; its certificate, the
// held statements of a set of stations and after them a kept group; and the next stage. Kind, value
// and flag are the numbers that go into word 0: `following` and `moving`, definitions, name them so.
#[derive(Clone, Copy)]
pub struct Following {
    pub kind: u32,
    pub value: u32,
    pub flag: u32,
    pub round: Round,
    pub set: u32,
    pub kept: Kept,
    pub stage: Stage,
}

// "If at least half of the q INITs are 1 the proposal is 1, else 0." (Job 1 of document 02)
#[tactic(auto, using(crate::proofs::Laws::Values::few))]
fn first_value(held: &Held) -> u32
    ensures { result ≡ FirstValue (held_in held.now.heard held.now.slots 0 sites) }
{
    let all = held::number_of(held::scan(&held.slots, held.heard, Which::Any, Which::Any));
    let ones = held::number_of(held::scan(&held.slots, held.heard, Which::Only(1), Which::Any));
    if all <= 2 * ones { 1 } else { 0 }
}

// The value whose test holds, 0 first, or none.
#[tactic(auto, unfolding(laws::specs::Pick::pick))]
fn value_by(zero: bool, one: bool) -> u32
    ensures { result ≡ pick zero 0 (pick one 1 none) }
{
    if zero {
        0
    } else if one {
        1
    } else {
        NONE
    }
}

// The value that all of the held statements have, or none.
#[tactic(auto, using(crate::proofs::Laws::Values::every_by), unfolding(station::specs::Machine::vote_value))]
fn vote_value(held: &Held) -> u32
    ensures { result ≡ VoteValue (held_in held.now.heard held.now.slots 0 sites) }
{
    let all = held::scan(&held.slots, held.heard, Which::Any, Which::Any);
    let zero = held::scan(&held.slots, held.heard, Which::Only(0), Which::Any);
    let one = held::scan(&held.slots, held.heard, Which::Only(1), Which::Any);
    value_by(zero == all, one == all)
}

// The value that one of the held votes has, or none.
#[tactic(auto, using(crate::proofs::Laws::Values::some_by), unfolding(station::specs::Machine::carried))]
fn carried(held: &Held) -> u32
    ensures { result ≡ Carried (held_in held.now.heard held.now.slots 0 sites) }
{
    let zero = held::scan(&held.slots, held.heard, Which::Only(0), Which::Any);
    let one = held::scan(&held.slots, held.heard, Which::Only(1), Which::Any);
    value_by(0 < zero, 0 < one)
}

// The first decision is kept.
#[tactic(auto, unfolding(laws::specs::Pick::pick))]
fn first_decision(old: u32, new: u32) -> u32
    ensures { result ≡ decision_after old new }
{
    if old < NONE { old } else { new }
}

// The decision behind the end of a step: only votes decide, and only where all are for one value.
#[tactic(auto, unfolding(station::specs::Machine::decided))]
fn decision_after(stage: Stage, old: u32, held: &Held) -> u32
    ensures { result ≡ decision_at stage old (held_in held.now.heard held.now.slots 0 sites) }
{
    match stage {
        Stage::Gathering | Stage::Proposing(_, _) => old,
        Stage::Voting(_) => first_decision(old, vote_value(held)),
    }
}

// What outlasts a step, after its end.
pub fn lasting_after(stage: Stage, l: Lasting, held: &Held) -> Lasting
    ensures { result ≡ lasting_at stage l (held_in held.now.heard held.now.slots 0 sites) }
{
    held::with_decision(l, decision_after(stage, l.decision, held))
}

// Whether the end of the stage closes the station.
pub fn closes(stage: Stage) -> bool
    ensures { result ≡ Closes last_round stage }
{
    match stage {
        Stage::Gathering | Stage::Proposing(_, _) => false,
        Stage::Voting(r) => r.0 == LAST_ROUND,
    }
}

// The round after r, where there is one.
#[tactic(auto, unfolding(crate::specs::After::round_after, laws::specs::Pick::pick))]
fn round_after(r: Round) -> Round
    ensures { result.0 ≡ round_after r.0 }
{
    if r.0 < LAST_ROUND {
        Round(r.0 + 1)
    } else {
        Round(LAST_ROUND)
    }
}

// The second group of a vote, where it has one: behind a vote for a value the INITs of a first proposal or the certificate of a later D-GET, behind a
// none vote the certificate of an R-GET.
#[tactic(auto, unfolding(crate::specs::After::second_group, laws::specs::Pick::pick))]
fn second_group(r: Round, value: u32, dget: bool) -> Kept
    ensures { result ≡ second_group r.0 value dget }
{
    if !rules::has_second(format::V, value, r, dget) {
        Kept::Nothing
    } else if NONE <= value {
        Kept::ForNone
    } else if r.0 == 1 {
        Kept::Inits
    } else {
        Kept::ForValue
    }
}

// A proposal follows, with the round and the flag of its stage.
fn proposal(value: u32, flag: u32, round: Round, set: u32, kept: Kept) -> Following
    ensures { result ≡ following kind_p value flag round.0 set kept (proposing round.0 flag) }
{
    Following {
        kind: format::P,
        value,
        flag,
        round,
        set,
        kept,
        stage: Stage::Proposing(round, flag),
    }
}

// P of round 1 follows the INITs: the lowest-numbered with its value are its certificate.
#[tactic(auto, using(crate::specs::After::inits_given))]
fn after_inits(n: u32, held: &Held) -> Following
    ensures { result ≡ inits_next n held.now.heard held.now.slots }
{
    let v = first_value(held);
    let with_it = held::scan(&held.slots, held.heard, Which::Only(v), Which::Any);
    let backers = held::lowest(with_it, format::backing(n, v));
    proposal(v, format::D_GET, Round(1), backers, Kept::Nothing)
}

// The vote follows the proposals of round r.
#[tactic(auto, using(crate::specs::After::proposals_given))]
fn after_proposals(r: Round, held: &Held) -> Following
    ensures { result ≡ proposals_next r.0 held.now.heard held.now.slots }
{
    let v = vote_value(held);
    let dget = held::scan(
        &held.slots,
        held.heard,
        Which::Any,
        Which::Only(format::D_GET),
    );
    Following {
        kind: format::V,
        value: v,
        flag: format::D_GET,
        round: r,
        set: held.heard,
        kept: second_group(r, v, 0 < dget),
        stage: Stage::Voting(r),
    }
}

// P of the next round follows the votes of round r: D-GET where one is for a value, else R-GET with the coin.
#[tactic(auto, using(crate::specs::After::votes_carry, crate::specs::After::votes_toss))]
fn after_votes(r: Round, held: &Held, coin: u32) -> Following
    ensures { result ≡ votes_next r.0 held.now.heard held.now.slots coin }
{
    let v = carried(held);
    let b = round_after(r);
    if v < NONE {
        proposal(v, format::D_GET, b, 0, Kept::ForValue)
    } else {
        proposal(coin, format::R_GET, b, held.heard, Kept::Nothing)
    }
}

// What follows the end of a stage, where the station does not close.
#[tactic(auto, unfolding(crate::specs::After::next_by))]
pub fn next(stage: Stage, n: u32, held: &Held, coin: u32) -> Following
    ensures { result ≡ next_by n stage held.now.heard held.now.slots coin }
{
    match stage {
        Stage::Gathering => after_inits(n, held),
        Stage::Proposing(r, _) => after_proposals(r, held),
        Stage::Voting(r) => after_votes(r, held, coin),
    }
}
