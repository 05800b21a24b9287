// Whether the certificate groups that a station keeps fit (docs/STATION.md). The contracts cite
// specs/ of crate station.
#![tactic(auto)]

ghost use Rattle.std.specs.Prelude.{◌≡◌, ◌&&◌, ◌≤◌, eqb};
ghost use Rattle.format.specs.Group.{quorum};
ghost use Rattle.format.specs.Lists.{every};
ghost use Rattle.format.specs.Present.{size_fits, statements, all_formed};
ghost use Rattle.rules.specs.Test.{holds};
ghost use Rattle.station.specs.Machine.{no_group, value_group, kept_for_value as KeptForValue, kept_for_none as KeptForNone};
ghost use Rattle.station.specs.Present.{held_in, sites, group_fits};
ghost use Rattle.kept_fitness.specs.Laws.Parts.{groups_fit};

use format::{Round, STATEMENT_WORDS};
use rules::{Group, Which};
use station::{Groups, Held, KEPT_WORDS, Stage};

// The group that asks for nothing.
fn no_group() -> Group
    ensures { result ≡ no_group }
{
    Group {
        size: 0,
        kind: 0,
        round: Round(0),
        value: Which::Any,
        flag: Which::Any,
    }
}

// The group that a stage keeps for the value v.
fn value_group(n: u32, stage: Stage, v: u32) -> Group
    ensures { result ≡ value_group n stage v }
{
    match stage {
        Stage::Gathering => no_group(),
        Stage::Proposing(r, _) => rules::d_get_group(n, v, r),
        Stage::Voting(r) => rules::proposals(n, r, Which::Only(v), Which::Any),
    }
}

// The group that is to be kept for a value: that of the lowest-numbered station that supplies it.
fn kept_for_value(held: &Held, n: u32, stage: Stage) -> Group
    ensures { result ≡ KeptForValue n stage (held_in held.now.heard held.now.slots 0 sites) }
{
    let found = held::for_value(held, stage);
    if found == 0 {
        return no_group();
    }
    let i = held::first_of(found) as usize;
    let f = format::read_fields(held.slots[i * STATEMENT_WORDS]);
    value_group(n, stage, f.value)
}

// The group that is to be kept for a none vote.
fn kept_for_none(held: &Held, n: u32, stage: Stage) -> Group
    ensures { result ≡ KeptForNone n stage (held_in held.now.heard held.now.slots 0 sites) }
{
    let found = held::for_none(held, stage);
    if found == 0 {
        return no_group();
    }
    rules::votes_for_none(n, stages::round_before_in(stage))
}

// Whether the words are, from the first on, as many well-formed statements of the question as the
// group asks for and as it asks for them.
fn statements_fit(ws: &[u32; KEPT_WORDS], n: u32, question: u32, g: Group) -> bool
    requires { g.size ≤ quorum sites }
    ensures { result ≡ (holds g (statements ws.now 0 g.size)
        && all_formed n ws.now 0 g.size
        && every (λ s. eqb s.question question) (statements ws.now 0 g.size)) }
{
    let mut last = 0;
    for i in 0..g.size as usize {
        let at = i * STATEMENT_WORDS;
        let f = format::read_fields(ws[at]);
        let wanted = rules::is_wanted(g, f) & (last < f.station);
        if !(wanted & format::well_formed(f, n) & (ws[at + 1] == question)) {
            return false;
        }
        last = f.station;
    }
    true
}

// Whether the words are the group g, and zeros behind it.
fn group_fits(ws: &[u32; KEPT_WORDS], n: u32, question: u32, g: Group) -> bool
    requires { g.size ≤ quorum sites }
    ensures { result ≡ group_fits n question g ws.now }
{
    let behind = g.size as usize * STATEMENT_WORDS;
    statements_fit(ws, n, question, g) & (behind..KEPT_WORDS).all(|at| ws[at] == 0)
}

// Whether both kept groups are those that are to be kept, for a group of 2 to 31.
pub fn groups_fit(groups: Groups, held: &Held, stage: Stage, n: u32, question: u32) -> bool
    ensures { result ≡ (size_fits n && groups_fit n question stage held.now.heard held.now.slots groups) }
{
    if !format::size_fits(n) {
        return false;
    }
    let value = kept_for_value(held, n, stage);
    let none = kept_for_none(held, n, stage);
    group_fits(&groups.value, n, question, value) & group_fits(&groups.none, n, question, none)
}
