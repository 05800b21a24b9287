// The sealed module's coding: plain, and with the coin (document 01, "The sealed module"). The
// contracts cite specs/.
#![tactic(auto)]

ghost use Rattle.std.specs.Prelude.{◌≡◌, [], ◌∷◌, length};
ghost use Rattle.format.specs.Present.{statement_words, statement};
ghost use Rattle.format.specs.Returns.{number_in};
ghost use Rattle.hmac.specs.Code.{hmac_code};
ghost use Rattle.sealed.specs.Sealed.{with_value};
ghost use Rattle.sealed.specs.Answers.{Answered, after_in};
ghost use Rattle.sealed.specs.Laws.Answers.{Tested, lent_with};
ghost use Rattle.sealed.specs.Present.{coding, coding_plain, coding_coin};

use format::{CODE_WORDS, COVERED_WORDS, Fields, Refusal};
use modules::{Last, Module};

// The code of two words under a key.
fn code_of(key: [u8; 32], w0: u32, w1: u32) -> [u32; CODE_WORDS]
    ensures { result ≡ hmac_code key (w0 ∷ w1 ∷ []) }
{
    let states = hmac::prepare(&key).unwrap();
    codes::code_words(states, &[w0, w1]).unwrap()
}

// The refusal of words to code: what is in range and which way it is are tested by the caller.
fn refusal(m: Module, ws: &[u32], range: bool, way: bool) -> Result<(), Refusal>
    ensures { Tested m ws.now range way (number_in result) }
{
    let f = format::read_fields(format::word_at(ws, 0));
    let question = format::word_at(ws, 1);
    let shape = (ws.len() == format::STATEMENT_WORDS) & format::well_formed(f, m.n) & way;
    let own = f.station == m.station;
    let later = modules::is_above(m, question, format::step_of(f));
    format::first_failed(&[
        (range, Refusal::OutOfRange),
        (shape, Refusal::Malformed),
        (own, Refusal::WrongCode),
        (later, Refusal::NotAbove),
    ])
}

// The value put in, bits 26..24 zero, and the code over it stored, in one call: no value is handed
// out before it is coded.
fn sign(key: [u8; 32], ws: &mut [u32], value: u32)
    requires { length ws.old ≡ statement_words }
    ensures { ws.new ≡ lent_with key ws.old value }
{
    let f = format::read_fields(ws[0]);
    let w = format::write_fields(Fields {
        value,
        spare: 0,
        ..f
    });
    let code = code_of(key, w, ws[1]);
    ws[0] = w;
    ws[COVERED_WORDS..].copy_from_slice(&code);
}

// What is not refused is coded: the words by `sign`, and the module is one pair on.
fn finish(m: Module, ws: &mut [u32], value: u32) -> Module
    requires { length ws.old ≡ statement_words }
    ensures { Answered (coding (hmac_code m.key) m (with_value value (statement ws.old 0)) ws.old 0) 0 result ws.new }
{
    let last = Last {
        coded: true,
        question: ws[1],
        step: format::step_of(format::read_fields(ws[0])),
    };
    sign(m.key, ws, value);
    Module { last, ..m }
}

// The plain way: every statement but an R-GET. The statement's words are lent.
pub fn code_plain(m: Module, ws: &mut [u32]) -> Result<Module, Refusal>
    ensures { Answered (coding_plain hmac_code m ws.old) (number_in result) (after_in m result) ws.new }
{
    let f = format::read_fields(format::word_at(ws, 0));
    refusal(
        m,
        ws,
        modules::fits(m),
        !((f.kind == format::P) & (f.flag == format::R_GET)),
    )?;
    Ok(finish(m, ws, f.value))
}

// The coin way: an R-GET only, with the coin as its value.
pub fn code_coin(m: Module, ws: &mut [u32], coin: u32) -> Result<Module, Refusal>
    ensures { Answered (coding_coin hmac_code m ws.old coin) (number_in result) (after_in m result) ws.new }
{
    let f = format::read_fields(format::word_at(ws, 0));
    refusal(
        m,
        ws,
        modules::fits(m) & (coin < 2),
        (f.kind == format::P) & (f.flag == format::R_GET),
    )?;
    Ok(finish(m, ws, coin))
}
