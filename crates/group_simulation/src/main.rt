// A simulation of a group: whole votes of all its sites in one program, over a radio that loses
// nothing or, by a fixed table, 28 of 64 packets. `small_host` is the program to read first; this
// one runs groups of 4, 7 and 31 sites through many questions by the rules of README, "Resending",
// and is what `bench/` times.
//
// The first byte of its input, of at most 4,096, says which groups vote: `4` one of 4 sites, `7`
// one of 7, `3` one of 31, `a` all three. The second says over which radio: `.` loses nothing, `x`
// the packets of the table, `a` is first one and then the other. Each byte behind them is a
// question: at `0` all sites propose 0, at `1` all propose 1, at any other byte sites of even
// number propose 1 and the others 0; a zero byte ends the input.
//
// The sites take turns. In its turn a site opens a station on the question if it has none there and
// may; then it sends its last bundle to each other site in a packet of its own. What is answered 7
// or 4 there, of an old step or an old question, is a request: that site sends back its own bundle
// of that question and step, if it has one. Such an answer is not answered. All else that is
// refused is dropped; it will be sent again. Tosses of one round come out the same at all sites,
// the round's lowest bit: sites that toss on their own need many more rounds, and the more the
// larger the group.
//
// A line is printed for each question: n, the question, the sites' decisions, and in all so far:
// bundles given; refused calls, openings included; packets lost; bundles sent on request; and
// bundles that took the place of one of the same question.
#![tactic(auto)]

ghost use Rattle.std.specs.Prelude.{◌*◌, ◌<◌, ◌≤◌};
ghost use Rattle.format.specs.Present.{most_stations, output_words};

use format::{OUTPUT_WORDS, Outcome, Refusal};
use modules::Module;
use station::{Answer, Station};
use std::io;
use std::io::Read;

// The sites of the largest group.
const SITES: usize = format::MOST_STATIONS as usize;

// Own bundles of all sites: a ring of 16 steps for each of two questions. A real host keeps all
// steps; no run of the gate gets past the ring, as the last number of each line says.
const SPOTS: usize = SITES * 32;

// How many turns a site that has decided waits for its vote of the round behind. One that decided
// later than others may wait in vain, since those who have gone on to the next question code
// nothing more for this one; and then nobody needs that vote.
const PATIENCE: u32 = 16;

// A proved loop has to end, and that a vote does is not proved: so no votes go on for more than so
// many openings and packets, which no run here uses up.
const MOST_ACTS: usize = 100_000_000;

// The question and step of a bundle.
#[derive(Clone, Copy, PartialEq, Eq)]
struct Pair {
    question: u32,
    step: u64,
}

impl Pair {
    // Those of a bundle's main statement.
    fn of(words: &[u32; OUTPUT_WORDS]) -> Pair {
        Pair {
            question: words[2],
            step: format::step_of(format::read_fields(words[1])).0,
        }
    }
}

// A bundle as it is kept: its words stand in front. In fixed memory, as a site keeps it.
#[derive(Clone, Copy)]
struct Bundle {
    count: usize,
    words: [u32; OUTPUT_WORDS],
    ghost fits: { count ≤ output_words },
}

impl Bundle {
    fn pair(&self) -> Pair {
        Pair::of(&self.words)
    }

    fn sent(&self) -> &[u32] {
        &self.words[..self.count]
    }
}

// What a host keeps of its site: module and station as the last call returned them; question and
// step of its last bundle, once there is one; in how many turns it has been decided, once it is;
// and whether its vote of the round behind the deciding one is written, or there was no question
// yet.
#[derive(Clone, Copy)]
struct Site {
    own: Module,
    station: Station,
    last: Option<Pair>,
    decided: Option<u32>,
    free: bool,
}

// What is counted.
#[derive(Clone, Copy, Default)]
struct Counts {
    packets: u64,
    lost: u64,
    given: u64,
    refused: u64,
    again: u64,
    past: u64,
}

// A group of n sites, over a radio that loses packets or not, and what they keep of their own
// bundles.
#[derive(Drop)]
struct Group {
    n: usize,
    lossy: bool,
    sites: [Site; SITES],
    kept: [Option<Bundle>; SPOTS],
    counts: Counts,
    ghost size: { n ≤ most_stations },
}

// One more.
fn one_more(counter: &mut u64) {
    *counter = counter.wrapping_add(1);
}

// What the site of a number proposes on a question of this kind.
fn proposal(kind: u8, number: u32) -> u32 {
    match kind {
        b'0' => 0,
        b'1' => 1,
        _ => u32::from(number % 2 == 0),
    }
}

// Where a site keeps its bundle of a question and step.
fn spot(place: usize, pair: Pair) -> usize
    requires { place < most_stations }
    ensures { result < most_stations * 32 }
{
    place * 32 + (pair.question % 2) as usize * 16 + (pair.step % 16) as usize
}

// Whether a call of this outcome wrote a bundle to be sent. None jumps here.
fn wrote(outcome: Outcome) -> bool {
    matches!(outcome, Outcome::Sent | Outcome::SentDecided)
}

impl Site {
    // Before the first question: a module that has coded nothing, and no station.
    fn fresh(n: u32, number: u32) -> Result<Site, Refusal> {
        Ok(Site {
            own: modules::make([7; 32], n, number)?,
            station: opening::none(),
            last: None,
            decided: None,
            free: true,
        })
    }

    // Whether a site opens a station on this question: it has none there, and need not wait for a
    // vote of its own.
    fn opens(&self, question: u32) -> bool {
        self.last.is_none_or(|last| last.question < question)
            && (self.free || self.decided.is_some_and(|turns| PATIENCE < turns))
    }

    // What a giving changes that was not refused, and that wrote these words if it wrote a bundle.
    fn take(&mut self, given: Answer, words: &[u32; OUTPUT_WORDS]) {
        self.own = given.after;
        self.station = given.station;
        if let Outcome::ClosedNow = given.outcome {
            self.free = true;
        }
        if !wrote(given.outcome) {
            return;
        }
        self.last = Some(Pair::of(words));
        if self.decided.is_some() {
            self.free = true;
        } else if let Outcome::SentDecided = given.outcome {
            self.decided = Some(0);
        }
    }

    // What the site has decided on a question: a decision of another question is never taken for
    // it, nor one of a station that does not fit.
    fn decision(&self, question: u32) -> Option<u32> {
        status::read(self.own, self.station, question)
            .ok()?
            .decision
    }
}

impl Group {
    // Before the first question: no bundle is kept, and nothing counted.
    fn new(n: usize, lossy: bool, sites: [Site; SITES]) -> Group
        requires { n ≤ most_stations }
    {
        Group {
            n,
            lossy,
            sites,
            kept: [None; SPOTS],
            counts: Counts::default(),
        }
    }

    // Keeps a bundle that a site wrote, and counts it if it takes the place of one of the same
    // question.
    fn keep(&mut self, place: usize, count: usize, words: [u32; OUTPUT_WORDS])
        requires { place < most_stations }
    {
        if OUTPUT_WORDS < count {
            return;
        }
        let bundle = Bundle { count, words };
        let pair = bundle.pair();
        let to = spot(place, pair);
        if let Some(old) = &self.kept[to]
            && old.pair().question == pair.question
        {
            one_more(&mut self.counts.past);
        }
        self.kept[to] = Some(bundle);
    }

    // Opens a station on a question, with jump off. The station before, decided or not, is
    // discarded: the module codes nothing more for it. A refused opening leaves the site as it was.
    fn open(&mut self, place: usize, question: u32, value: u32)
        requires { place < most_stations }
    {
        let mut words = [0u32; OUTPUT_WORDS];
        let Ok(opened) = opening::open(self.sites[place].own, question, value, 0, &mut words) else {
            one_more(&mut self.counts.refused);
            return;
        };
        self.sites[place] = Site {
            own: opened.after,
            station: opened.station,
            last: Some(Pair::of(&words)),
            decided: None,
            free: false,
        };
        self.keep(place, opened.count, words);
    }

    // The beginning of a site's turn: it opens a station on the question if it has none there and
    // may.
    fn begin(&mut self, place: usize, question: u32, value: u32)
        requires { place < most_stations }
    {
        if self.sites[place].opens(question) {
            self.open(place, question, value);
        } else if let Some(turns) = &mut self.sites[place].decided {
            *turns = turns.wrapping_add(1);
        }
    }

    // Gives a station the bundle in a spot.
    fn give(
        &self,
        place: usize,
        spot: usize,
        out: &mut [u32; OUTPUT_WORDS],
    ) -> Result<Answer, Refusal>
        requires { (place < most_stations) × (spot < most_stations * 32) }
    {
        let site = &self.sites[place];
        let coin = site.last.map_or(0, |last| (last.step / 2 % 2) as u32);
        let given = match &self.kept[spot] {
            Some(bundle) => bundle.sent(),
            None => &[],
        };
        giving::give(site.own, site.station, given, coin, out)
    }

    // A site hears the bundle in a spot. At a refusal nothing changed; else the site keeps what the
    // call returned, and a bundle that was written is kept and sent from now on.
    fn hear(&mut self, place: usize, spot: usize) -> Result<(), Refusal>
        requires { (place < most_stations) × (spot < most_stations * 32) }
    {
        let mut words = [0u32; OUTPUT_WORDS];
        let answer = self.give(place, spot, &mut words);
        one_more(&mut self.counts.given);
        if answer.is_err() {
            one_more(&mut self.counts.refused);
        }
        let given = answer?;
        if wrote(given.outcome) {
            self.keep(place, given.count, words);
        }
        self.sites[place].take(given, &words);
        Ok(())
    }

    // Counts a packet, and answers whether it is lost. It is if the radio loses any and the table
    // says `x`: the table is gone through once for 64 packets, each time from the next byte on.
    fn loses_next(&mut self) -> bool {
        let table = b"x.x.x...x.xx.x.x.xx.xx.xx..x..xxx.xx.x.x.xxx.x.....xx...........";
        let packets = self.counts.packets;
        let at = (packets % 64 + packets / 64 % 64) % 64;
        one_more(&mut self.counts.packets);
        let lost = self.lossy && table[at as usize] == b'x';
        if lost {
            one_more(&mut self.counts.lost);
        }
        lost
    }

    // Whether there are bundles of one question and step in two spots.
    fn alike(&self, spot: usize, other: usize) -> bool
        requires { (spot < most_stations * 32) × (other < most_stations * 32) }
    {
        let (Some(one), Some(two)) = (&self.kept[spot], &self.kept[other]) else {
            return false;
        };
        one.pair() == two.pair()
    }

    // A packet with the last bundle of a site, if there is one. Another site hears it if it has a
    // station and the packet is not lost, and answers it where it is of an old step or question of
    // which it has its own. That answer is not answered.
    fn pass(&mut self, place: usize, other: usize)
        requires { (place < most_stations) × (other < most_stations) }
    {
        let Some(last) = self.sites[place].last else {
            return;
        };
        if self.loses_next() || self.sites[other].last.is_none() {
            return;
        }
        let sent = spot(place, last);
        let own = spot(other, last);
        if let Err(Refusal::TooLate | Refusal::OtherQuestion) = self.hear(other, sent)
            && self.alike(own, sent)
        {
            one_more(&mut self.counts.again);
            if !self.loses_next() {
                let _ = self.hear(place, own);
            }
        }
    }

    // A site's turn: it begins it, and sends its last bundle to each other site.
    fn take_turn(&mut self, place: usize, question: u32, value: u32)
        requires { place < most_stations }
    {
        let n = self.n;
        self.begin(place, question, value);
        for j in 1..n {
            self.pass(place, (place + j) % n);
        }
    }

    // Each site's turn on a question of this kind.
    fn take_turns(&mut self, question: u32, kind: u8) {
        for k in 0..self.n {
            self.take_turn(k, question, proposal(kind, k as u32 + 1));
        }
    }

    // Whether all sites have decided.
    fn all_decided(&self, question: u32) -> bool {
        self.sites[..self.n]
            .iter()
            .all(|site| site.decision(question).is_some())
    }

    // Prints the line of a question.
    fn print(&self, rt: &impl Print, question: u32) -> io::Result<()> {
        print!(rt; "{} {question} ", self.n)?;
        for site in &self.sites[..self.n] {
            if let Some(value) = site.decision(question) {
                print!(rt; "{value}")?;
            }
        }
        let c = self.counts;
        println!(rt;
            " {} {} {} {} {}",
            c.given, c.refused, c.lost, c.again, c.past
        )
    }
}

// The sites of a group before the first question.
fn fresh_sites(n: usize) -> Result<[Site; SITES], Refusal>
    requires { n ≤ most_stations }
{
    let mut sites = [Site::fresh(n as u32, 1)?; SITES];
    for (i, site) in sites[..n].iter_mut().enumerate() {
        *site = Site::fresh(n as u32, i as u32 + 1)?;
    }
    Ok(sites)
}

// Puts the questions to a group one after the other, up to a zero byte: behind each round of turns
// after which all have decided the next question follows. Where modules are refused nobody votes.
fn votes(rt: &impl Print, n: usize, lossy: bool, kinds: &[u8]) -> io::Result<()>
    requires { (1 ≤ n) × (n ≤ most_stations) }
{
    let Ok(sites) = fresh_sites(n) else {
        return Ok(());
    };
    let mut group = Group::new(n, lossy, sites);
    let mut question = 1u32;
    let mut left = kinds;
    for _ in 0..MOST_ACTS / n / n {
        let [kind, others @ ..] = left else {
            return Ok(());
        };
        if *kind == 0 {
            return Ok(());
        }
        group.take_turns(question, *kind);
        if group.all_decided(question) {
            group.print(rt, question)?;
            question = question.wrapping_add(1);
            left = others;
        }
    }
    Ok(())
}

// Whether a byte of the input asks for what has this byte, or by `a` for all.
fn asked(which: u8, own: u8) -> bool {
    which == own || which == b'a'
}

// The votes of the groups that are asked for.
fn groups(rt: &impl Print, which: u8, lossy: bool, kinds: &[u8]) -> io::Result<()> {
    if asked(which, b'4') {
        votes(rt, 4, lossy, kinds)?;
    }
    if asked(which, b'7') {
        votes(rt, 7, lossy, kinds)?;
    }
    if asked(which, b'3') {
        votes(rt, 31, lossy, kinds)?;
    }
    Ok(())
}

fn main(rt: HostRuntime) -> io::Result<()> {
    let mut input = Vec::new(rt.alloc());
    rt.stdin().take(4096).read_to_end(&mut input)?;
    let [which, radio, kinds @ ..] = input.as_slice() else {
        return Ok(());
    };
    if asked(*radio, b'.') {
        groups(&rt, *which, false, kinds)?;
    }
    if asked(*radio, b'x') {
        groups(&rt, *which, true, kinds)?;
    }
    Ok(())
}
