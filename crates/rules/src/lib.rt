// Certificate groups, and which a main statement asks for (document 01, "Validity"). The contracts cite specs/.
#![tactic(auto)]

ghost use Rattle.std.specs.Prelude.{◌≡◌, ◌-◌};
ghost use Rattle.format.specs.Group.{quorum as Quorum};
ghost use Rattle.rules.specs.Rules.{which, wanted, group, inits as Inits, proposals as Proposals, none_votes};
ghost use Rattle.rules.specs.Test.{d_get_group, first_group, second_group, has_second, early_toss};
ghost use Rattle.rules.specs.Groups.{proposal_group, vote_group};

use format::{D_GET, Fields, INIT, NONE, P, R_GET, Round, V};

// What a group asks of a value or a flag. Not an Option: `None` beside `Some(NONE)` would read as the
// vote's value none, which is `Only(NONE)` here.
#[derive(Clone, Copy)]
pub enum Which {
    Any,
    Only(u32),
}

// A certificate group: how many statements, of which kind and round, with which value and flag.
// The kind is a number, since `wanted` holds it against the bits of a word.
#[derive(Clone, Copy)]
pub struct Group {
    pub size: u32,
    pub kind: u32,
    pub round: Round,
    pub value: Which,
    pub flag: Which,
}

pub fn allows(w: Which, x: u32) -> bool
    ensures { result ≡ which w x }
{
    match w {
        Which::Any => true,
        Which::Only(v) => x == v,
    }
}

// Whether a statement with these fields is one that the group asks for.
#[tactic(auto, unfolding(crate::specs::Rules::wanted))]
pub fn is_wanted(g: Group, f: Fields) -> bool
    ensures { result ≡ wanted g f.kind f.value f.flag f.round.0 }
{
    (f.kind == g.kind)
        & (f.round.0 == g.round.0)
        & allows(g.value, f.value)
        & allows(g.flag, f.flag)
}

// The round before, as the definitions count it: 0 before round 0.
pub fn round_before(r: Round) -> Round
    ensures { result.0 ≡ r.0 - 1 }
{
    Round(r.0.saturating_sub(1))
}

// The INITs that back a first proposal of v.
fn inits(n: u32, v: u32) -> Group
    ensures { result ≡ Inits n v }
{
    Group {
        size: format::backing(n, v),
        kind: INIT,
        round: Round(0),
        value: Which::Only(v),
        flag: Which::Any,
    }
}

// A quorum of one kind.
fn quorum_of(n: u32, kind: u32, round: Round, value: Which, flag: Which) -> Group
    ensures { result ≡ group (Quorum n) kind round.0 value flag }
{
    Group {
        size: format::quorum(n),
        kind,
        round,
        value,
        flag,
    }
}

// A quorum of P.
pub fn proposals(n: u32, r: Round, value: Which, flag: Which) -> Group
    ensures { result ≡ Proposals n r.0 value flag }
{
    quorum_of(n, P, r, value, flag)
}

// A quorum of V with none.
pub fn votes_for_none(n: u32, r: Round) -> Group
    ensures { result ≡ none_votes n r.0 }
{
    quorum_of(n, V, r, Which::Only(NONE), Which::Any)
}

// What a D-GET P with v rests on, by rules 2 and 3; the second group of a V with v, by rule 5.
#[tactic(auto, unfolding(crate::specs::Test::d_get_group, laws::specs::Pick::pick))]
pub fn d_get_group(n: u32, value: u32, r: Round) -> Group
    ensures { result ≡ d_get_group n value r.0 }
{
    if r.0 == 1 {
        inits(n, value)
    } else {
        proposals(n, round_before(r), Which::Only(value), Which::Any)
    }
}

// The group of a P by rules 2, 3 and 4.
#[tactic(auto, unfolding(crate::specs::Groups::proposal_group, laws::specs::Pick::pick))]
fn group_of_proposal(n: u32, value: u32, flag: u32, r: Round) -> Group
    ensures { result ≡ proposal_group n value flag r.0 }
{
    if flag == D_GET {
        d_get_group(n, value, r)
    } else {
        votes_for_none(n, round_before(r))
    }
}

// The first group of a V by rules 5, 6 and 7.
#[tactic(auto, unfolding(crate::specs::Groups::vote_group, laws::specs::Pick::pick))]
fn group_of_vote(n: u32, value: u32, r: Round) -> Group
    ensures { result ≡ vote_group n value r.0 }
{
    if value < NONE {
        proposals(n, r, Which::Only(value), Which::Any)
    } else if r.0 == 1 {
        proposals(n, r, Which::Any, Which::Only(D_GET))
    } else {
        proposals(n, r, Which::Any, Which::Any)
    }
}

// The first group that the rules ask of a P or a V with these fields.
#[tactic(auto, using(crate::proofs::Groups::first_is), unfolding(laws::specs::Pick::pick))]
pub fn first_group(n: u32, f: Fields) -> Group
    ensures { result ≡ first_group n f.kind f.value f.flag f.round.0 }
{
    if f.kind == P {
        group_of_proposal(n, f.value, f.flag, f.round)
    } else {
        group_of_vote(n, f.value, f.round)
    }
}

// The second group of rules 5 and 7.
#[tactic(auto, unfolding(crate::specs::Test::second_group, laws::specs::Pick::pick))]
pub fn second_group(n: u32, value: u32, r: Round) -> Group
    ensures { result ≡ second_group n value r.0 }
{
    if value < NONE {
        d_get_group(n, value, r)
    } else {
        votes_for_none(n, round_before(r))
    }
}

// Whether rules 5 and 7 ask for a second group; dget says that one of the first group is D-GET.
#[tactic(auto, unfolding(crate::specs::Test::has_second))]
pub fn has_second(kind: u32, value: u32, r: Round, dget: bool) -> bool
    ensures { result ≡ has_second kind value r.0 dget }
{
    (kind == V) & (((r.0 == 1) & (value < NONE)) | ((1 < r.0) & ((value == NONE) | dget)))
}

// Whether it is an R-GET of round 1, for which there is no coin.
#[tactic(auto, unfolding(crate::specs::Test::early_toss))]
pub fn early_toss(kind: u32, flag: u32, r: Round) -> bool
    ensures { result ≡ early_toss kind flag r.0 }
{
    (kind == P) & (r.0 == 1) & (flag == R_GET)
}
