// The station's types (document 01, "The station"). The definitions stand in specs/.
#![tactic(auto)]

use format::{MOST_STATIONS, Outcome, Round, STATEMENT_WORDS};
use modules::Module;

// A slot of a statement for each station that a group may have, and as many statements as the
// largest quorum.
pub const SLOTS_WORDS: usize = MOST_STATIONS as usize * STATEMENT_WORDS;

pub const KEPT_WORDS: usize = (MOST_STATIONS as usize / 2 + 1) * STATEMENT_WORDS;

// A station is in one of three stages. The flag is a number, since a host may hand in any: `fits`
// holds it against word 0 of the station's own proposal.
#[derive(Clone, Copy)]
pub enum Stage {
    Gathering,
    Proposing(Round, u32),
    Voting(Round),
}

// Whose station it is, and on which question.
#[derive(Clone, Copy)]
pub struct Identity {
    pub n: u32,
    pub station: u32,
    pub question: u32,
}

// The statements of the step: the set of stations heard, one bit for each, and a slot of ten words
// for each station.
#[derive(Clone, Copy)]
pub struct Held {
    pub heard: u32,
    pub slots: [u32; SLOTS_WORDS],
}

// The certificate groups that a later bundle will need: one with a value, and a none vote.
#[derive(Clone, Copy)]
pub struct Groups {
    pub value: [u32; KEPT_WORDS],
    pub none: [u32; KEPT_WORDS],
}

// What outlasts a step: whether the station jumps onto bundles of later steps, a setting that its
// opening gave it, and its decision, or 2. A number and not an Option: a host may hand in any number
// here, a closed station fits with each (`fits`), and an Option would ask more of it.
#[derive(Clone, Copy)]
pub struct Lasting {
    pub jump: bool,
    pub decision: u32,
}

// A station.
#[derive(Clone, Copy)]
pub struct Station {
    pub identity: Identity,
    pub stage: Stage,
    pub closed: bool,
    pub lasting: Lasting,
    pub held: Held,
    pub groups: Groups,
}

// What an opening or a giving did that was not refused: its outcome, the word count, the station
// and the module. The output words are lent.
#[derive(Clone, Copy)]
pub struct Answer {
    pub outcome: Outcome,
    pub count: usize,
    pub station: Station,
    pub after: Module,
}
