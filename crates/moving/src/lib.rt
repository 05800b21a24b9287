// What follows a step is sent (document 01, "The station"): the certificate is put together, and the statement coded and written. The contracts cite specs/.
#![tactic(auto)]

ghost use Rattle.std.specs.Prelude.{◌≡◌};
ghost use Rattle.format.specs.Returns.{outcome_number};
ghost use Rattle.station.specs.Answers.{returned_by};
ghost use Rattle.sending.specs.Sent.{sent_count, sent_lent, sent_bundle, sent_station, sent_after};
ghost use Rattle.moving.specs.Moves.{group_by, count_by, answer as the-answer, moving};

use ending::{Following, Kept};
use format::{Fields, Outcome, Refusal};
use modules::Module;
use sending::Sent;
use station::{Answer, Groups, KEPT_WORDS, Lasting, Station};

// The kept group that can stand in the certificate.
#[tactic(auto, unfolding(crate::specs::Moves::group_by))]
fn group_by(kept: Kept, groups: &Groups) -> &[u32; KEPT_WORDS]
    ensures { result.now ≡ group_by kept groups.now }
{
    match kept {
        Kept::Nothing | Kept::Inits | Kept::ForValue => &groups.value,
        Kept::ForNone => &groups.none,
    }
}

// How many statements of it stand there, behind a statement with value v: in round 1 the backing of v, else a quorum.
#[tactic(auto, unfolding(crate::specs::Moves::count_by))]
fn count_by(kept: Kept, n: u32, v: u32) -> u32
    ensures { result ≡ count_by kept n v }
{
    match kept {
        Kept::Nothing => 0,
        Kept::Inits => format::backing(n, v),
        Kept::ForValue | Kept::ForNone => format::quorum(n),
    }
}

// Whether this call decides first.
#[tactic(auto, unfolding(crate::specs::Moves::answer, laws::specs::Pick::pick))]
fn answer(old: u32, d: u32) -> Outcome
    ensures { outcome_number result ≡ the-answer old d }
{
    if old < format::NONE || d == format::NONE {
        Outcome::Sent
    } else {
        Outcome::SentDecided
    }
}

// Sends the statement that follows, with its certificate.
fn send_next(m: Module, k: Station, x: Following, f: Fields, l: Lasting, out: &mut [u32]) -> Sent
    ensures { (result.count ≡ sent_count x.set (count_by x.kept m.n x.value) out.old)
        × (result.station ≡ sent_station m k.identity.question l x.stage (sent_bundle m k.identity.question f k.held.slots x.set (group_by x.kept k.groups) (count_by x.kept m.n x.value) out.old))
        × (result.after ≡ sent_after m k.identity.question f k.held.slots x.set (group_by x.kept k.groups) (count_by x.kept m.n x.value) out.old)
        × (out.new ≡ sent_lent m k.identity.question f k.held.slots x.set (group_by x.kept k.groups) (count_by x.kept m.n x.value) out.old) }
{
    sending::send(
        m,
        k.identity.question,
        f,
        l,
        x.stage,
        &k.held.slots,
        x.set,
        group_by(x.kept, &k.groups),
        count_by(x.kept, m.n, x.value),
        out,
    )
}

// Sends what follows, or is refused by 12.
pub fn go_on(
    m: Module,
    k: Station,
    x: Following,
    l: Lasting,
    out: &mut [u32],
) -> Result<Answer, Refusal>
    ensures { returned_by k m out.new result ≡ moving m k x l out.old }
{
    let f = Fields {
        kind: x.kind,
        value: x.value,
        flag: x.flag,
        spare: 0,
        station: m.station,
        round: x.round,
    };
    if !modules::is_above(m, k.identity.question, format::step_of(f)) {
        return Err(Refusal::NotAbove);
    }
    let s = send_next(m, k, x, f, l, out);
    Ok(Answer {
        outcome: answer(k.lasting.decision, l.decision),
        count: s.count,
        station: s.station,
        after: s.after,
    })
}
