// Sending (document 01, "The station"): the station's own statement is coded, its bundle written, and it alone is held. The contracts cite specs/.
#![tactic(auto)]

ghost use Rattle.std.specs.Prelude.{◌≡◌, ◌≤◌, length, take};
ghost use Rattle.format.specs.Present.{place_of};
ghost use Rattle.writer.specs.Written.{copy_count};
ghost use Rattle.sending.specs.Sent.{coded_lent, coded_after, sent_count, sent_lent, sent_bundle, sent_station, sent_after, copy_lent, copy_module, copy_bundle};

use format::{CERTIFICATE_AT, Fields};
use modules::Module;
use station::{Identity, KEPT_WORDS, Lasting, SLOTS_WORDS, Stage, Station};

// What sending answers: the word count, the station and the module. The bundle's words are lent.
#[derive(Clone, Copy)]
pub struct Sent {
    pub count: usize,
    pub station: Station,
    pub after: Module,
}

// The station in the stage that follows, with the bundle that it wrote: the first words of those lent.
fn begin(
    m: Module,
    question: u32,
    lasting: Lasting,
    stage: Stage,
    out: &[u32],
    count: usize,
) -> Station
    requires { count ≤ length out.now }
    ensures { result ≡ sent_station m question lasting stage (take count out.now) }
{
    let identity = Identity {
        n: m.n,
        station: m.station,
        question,
    };
    keeping::keep(held::empty(identity, stage, false, lasting), &out[..count])
}

// The module codes the statement that stands behind the head of the lent words: with the coin where it is a P flagged R-GET, whose value the coin is;
// else plain. A refusal leaves the module as it was; where no word was written it is not asked.
fn code_main(m: Module, f: Fields, count: usize, out: &mut [u32]) -> Module
    requires { (count ≡ 0 → ⊥) → place_of 1 ≤ length out.old }
    ensures { (result ≡ coded_after m f count out.old) × (out.new ≡ coded_lent m f count out.old) }
{
    if count == 0 {
        m
    } else if (f.kind == format::P) & (f.flag == format::R_GET) {
        sealed::code_coin(m, &mut out[1..CERTIFICATE_AT], f.value).unwrap_or(m)
    } else {
        sealed::code_plain(m, &mut out[1..CERTIFICATE_AT]).unwrap_or(m)
    }
}

// What sending answers, where the lent words have the uncoded bundle of so many words.
fn finish(
    m: Module,
    question: u32,
    f: Fields,
    lasting: Lasting,
    stage: Stage,
    count: usize,
    out: &mut [u32],
) -> Sent
    requires within { count ≤ length out.old }
    requires whole { (count ≡ 0 → ⊥) → place_of 1 ≤ length out.old }
    ensures counted { result.count ≡ count }
    ensures station { result.station ≡ sent_station m question lasting stage (take count out.new) }
    ensures after { result.after ≡ coded_after m f count out.old }
    ensures lent { out.new ≡ coded_lent m f count out.old }
{
    let after = code_main(m, f, count, out);
    Sent {
        count,
        station: begin(m, question, lasting, stage, out, count),
        after,
    }
}

// Sends a statement with these fields: behind it the held statements of the set, and behind these k statements of a kept group.
pub fn send(
    m: Module,
    question: u32,
    f: Fields,
    lasting: Lasting,
    stage: Stage,
    slots: &[u32; SLOTS_WORDS],
    set: u32,
    group: &[u32; KEPT_WORDS],
    k: u32,
    out: &mut [u32],
) -> Sent
    ensures { (result.count ≡ sent_count set k out.old)
        × (result.station ≡ sent_station m question lasting stage (sent_bundle m question f slots.now set group.now k out.old))
        × (result.after ≡ sent_after m question f slots.now set group.now k out.old)
        × (out.new ≡ sent_lent m question f slots.now set group.now k out.old) }
{
    let w0 = format::write_fields(f);
    let count = writer::write_bundle(out, w0, question, slots, set, group, k);
    finish(m, question, f, lasting, stage, count, out)
}

// Sends a statement with these fields and the certificate of a given bundle.
pub fn send_copy(
    m: Module,
    question: u32,
    f: Fields,
    lasting: Lasting,
    stage: Stage,
    ws: &[u32],
    out: &mut [u32],
) -> Sent
    ensures { (result.count ≡ copy_count (length ws.now) (length out.old))
        × (result.station ≡ sent_station m question lasting stage (copy_bundle m f ws.now out.old))
        × (result.after ≡ copy_module m f ws.now out.old)
        × (out.new ≡ copy_lent m f ws.now out.old) }
{
    let w0 = format::write_fields(f);
    let count = writer::copy_bundle(out, w0, ws);
    finish(m, question, f, lasting, stage, count, out)
}
