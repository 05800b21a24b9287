// What a line of the program valley's input says (document 01, "The program valley"). The contracts
// cite specs/Read.antt.
#![tactic(auto)]

ghost use Rattle.std.specs.Prelude.{◌≡◌, Some, None, [], ◌∷◌, ◌+◌, ◌-◌, ◌≤◌, ◌<◌, length, take, drop};
ghost use Rattle.laws.specs.Pick.{pick};
ghost use Rattle.valley_lines.specs.Read.{space, split, is_number, value, read_words, read_line};
ghost use Rattle.valley_lines.specs.Words.{word_length};

// What a line says that can be read.
#[derive(Clone, Copy)]
pub enum Line {
    Group(u32),
    Open(u32, u32),
    Give(u32, u32, u32),
}

// Where the word that starts at `from` ends: at the next space, or with the text.
fn word_end(text: &[u8], from: usize) -> usize
    requires { from ≤ length text.now }
    ensures { result ≡ from + word_length (drop from text.now) }
{
    match text[from..].iter().position(|b| *b == b' ') {
        Some(count) => from + count,
        None => text.len(),
    }
}

// The number that a word spells, if it is one: one to five digits, so no sum goes over a u32.
fn number(word: &[u8]) -> Option<u32>
    ensures { result ≡ pick (is_number word.now) (Some (value word.now)) None }
{
    if word.is_empty() || 5 < word.len() {
        return None;
    }
    let mut v = 0;
    for b in word {
        if !b.is_ascii_digit() {
            return None;
        }
        v = v * 10 + u32::from(*b - b'0');
    }
    Some(v)
}

// A line of two words: `n` and a number.
#[tactic(auto, using(crate::proofs::Laws::Says::group_not, crate::proofs::Laws::Words::not_spelled))]
fn read_group(keyword: &[u8], n: &[u8]) -> Option<Line>
    ensures { result ≡ read_words (keyword.now ∷ n.now ∷ []) }
{
    let line = Line::Group(number(n)?);
    (keyword == b"n".as_slice()).then_some(line)
}

// A line of three words: `open`, a station and a proposal.
#[tactic(auto, using(crate::proofs::Laws::Says::open_not, crate::proofs::Laws::Words::not_spelled))]
fn read_open(keyword: &[u8], s: &[u8], v: &[u8]) -> Option<Line>
    ensures { result ≡ read_words (keyword.now ∷ s.now ∷ v.now ∷ []) }
{
    let line = Line::Open(number(s)?, number(v)?);
    (keyword == b"open".as_slice()).then_some(line)
}

// A line of four words: `give`, a station, a bundle and a coin.
#[tactic(auto, using(crate::proofs::Laws::Says::give_not, crate::proofs::Laws::Words::not_spelled))]
fn read_give(keyword: &[u8], s: &[u8], k: &[u8], c: &[u8]) -> Option<Line>
    ensures { result ≡ read_words (keyword.now ∷ s.now ∷ k.now ∷ c.now ∷ []) }
{
    let line = Line::Give(number(s)?, number(k)?, number(c)?);
    (keyword == b"give".as_slice()).then_some(line)
}

// A line of more than two words, of which the first ends at `a` and the second goes from `first` to
// `b`. It looks for two words more; a fifth can't be read, so where it ends does not matter.
#[tactic(auto, using(crate::proofs::Laws::Says::three_words, crate::proofs::Laws::Says::four_words, crate::proofs::Laws::Says::more_words))]
fn read_longer(text: &[u8], a: usize, first: usize, b: usize) -> Option<Line>
    requires { (a ≤ length text.now) × (first ≤ b) × (b < length text.now) }
    ensures { result ≡ read_words (take a text.now ∷ take (b - first) (drop first text.now) ∷ split space (drop (b + 1) text.now)) }
{
    let second = b + 1;
    let c = word_end(text, second);
    if c == text.len() {
        return read_open(&text[..a], &text[first..b], &text[second..c]);
    }
    let third = c + 1;
    let d = word_end(text, third);
    if d == text.len() {
        return read_give(
            &text[..a],
            &text[first..b],
            &text[second..c],
            &text[third..d],
        );
    }
    None
}

// What a line says, if it can be read. The text is the line without its newline. A space at the
// text's end leaves an empty word behind it, which is no number.
#[tactic(auto, using(crate::proofs::Laws::Says::one_word, crate::proofs::Laws::Says::two_words, crate::proofs::Laws::Says::longer_line))]
pub fn read_line(text: &[u8]) -> Option<Line>
    ensures { result ≡ read_line text.now }
{
    let a = word_end(text, 0);
    if a == text.len() {
        return None;
    }
    let first = a + 1;
    let b = word_end(text, first);
    if b == text.len() {
        return read_group(&text[..a], &text[first..b]);
    }
    read_longer(text, a, first, b)
}
