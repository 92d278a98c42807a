#![tactic(auto)]
// The tokens of a text, as the Bristol Fashion form has them (02, request 2026-02): where the next one begins and ends, its number, its name.
mod backwards;

ghost use Rattle.std.specs.Prelude.{◌≡◌, [], ◌∷◌, ◌≤◌, length};
ghost use Rattle.tokens.specs.Tokens.{blank, start_of, with_digit, no_number, alike, name_of, past, token_at, name_token_at};
ghost use Rattle.tokens.specs.Private.{ended_at, word_at};

pub use backwards::back;

/// The next token: its first byte's place, the place after its last byte, and its number, 2^32 where it is none (`token_at` of specs/Tokens.antt, by which texts are read,
/// gives it so); of a name, its number among the six, 0 where it is none (`name_of`).
#[derive(Clone, Copy)]
pub struct Token {
    pub start: usize,
    pub end: usize,
    pub number: usize,
}

/// A token read backwards: its first byte's place, and the place after the last byte of the token before it.
#[derive(Clone, Copy)]
pub struct Behind {
    pub start: usize,
    pub before: usize,
}

// What a token that is no number counts as: above every number.
const NO_NUMBER: usize = 4294967296;

// A space, a tab, a line feed or a carriage return.
#[tactic(auto, unfolding(crate::specs::Tokens::blank))]
pub(crate) fn is_blank(b: u8) -> bool
    ensures { result ≡ blank b }
{
    b == b' ' || b == b'\t' || b == b'\n' || b == b'\r'
}

// Where the next token begins.
#[tactic(auto, using(crate::proofs::Steps::start_step, crate::proofs::Steps::start_stop, crate::proofs::Steps::start_over))]
fn begin(text: &[u8], at: usize) -> usize
    ensures { result ≡ start_of text.now at }
{
    for p in at..text.len() {
        if !is_blank(text[p]) {
            return p;
        }
    }
    at.max(text.len())
}

// The value with one more byte.
#[tactic(auto, unfolding(crate::specs::Tokens::with_digit))]
fn with_digit(v: usize, b: u8) -> usize
    requires { v ≤ no_number }
    ensures value { result ≡ with_digit v b }
    ensures upper_bound { result ≤ no_number }
{
    if !b.is_ascii_digit() {
        return NO_NUMBER;
    }
    let more = 10 * v + usize::from(b - b'0');
    more.min(NO_NUMBER)
}

// The token of the bytes from start up to end, whose value as digits is v: no byte is no number.
#[tactic(auto, unfolding(crate::specs::Private::ended_at))]
fn ended(start: usize, end: usize, v: usize) -> Token
    ensures { result ≡ ended_at start end v }
{
    let number = if end == start { NO_NUMBER } else { v };
    Token { start, end, number }
}

// The token that begins at this very place, and its number; none where a blank or the end stands there.
#[tactic(auto, using(crate::proofs::Steps::left_start, crate::proofs::Steps::left_step, crate::proofs::Steps::left_stop, crate::proofs::Steps::left_over))]
fn word(text: &[u8], start: usize) -> Token
    ensures { result ≡ word_at text.now start }
{
    let mut v = 0;
    for p in start..text.len() {
        let b = text[p];
        if is_blank(b) {
            return ended(start, p, v);
        }
        v = with_digit(v, b);
    }
    ended(start, start.max(text.len()), v)
}

/// The next token from this place on.
#[tactic(auto, unfolding(crate::specs::Tokens::word_of, crate::specs::Tokens::end_of, crate::specs::Tokens::token_at, crate::specs::Private::word_at))]
pub fn next(text: &[u8], at: usize) -> Token
    ensures { result ≡ token_at text.now at }
{
    word(text, begin(text, at))
}

/// The place after so many tokens from this place on.
#[tactic(auto, using(crate::proofs::Laws::past_none, crate::proofs::Reading::read_on))]
pub fn skip(text: &[u8], at: usize, count: usize) -> usize
    ensures { result ≡ past text.now at count }
{
    let mut p = at;
    for _ in 0..count {
        p = next(text, p).end;
    }
    p
}

// Whether a token's bytes are those of a name.
#[tactic(auto, using(crate::proofs::Names::alike_is))]
fn spells(w: &[u8], name: &[u8]) -> bool
    ensures { result ≡ alike w.now name.now }
{
    w == name
}

// The name that a token's bytes spell.
#[tactic(auto, unfolding(crate::specs::Tokens::name_of))]
fn spelled(w: &[u8]) -> usize
    ensures { result ≡ name_of w.now }
{
    if spells(w, b"XOR") {
        return 1;
    }
    if spells(w, b"AND") {
        return 2;
    }
    if spells(w, b"INV") {
        return 3;
    }
    if spells(w, b"EQ") {
        return 4;
    }
    if spells(w, b"EQW") {
        return 5;
    }
    if spells(w, b"MAND") {
        return 6;
    }
    0
}

/// The name of the next token from this place on, with its place and its end. Where there is none, the place may lie past the text.
#[tactic(auto, using(crate::proofs::Names::ends_later, crate::proofs::Names::ends_within, crate::proofs::Names::named_none, crate::proofs::Names::named_some))]
pub fn name(text: &[u8], at: usize) -> Token
    ensures { result ≡ name_token_at text.now at }
{
    let t = next(text, at);
    let number = if t.end == t.start {
        0
    } else {
        spelled(&text[t.start..t.end])
    };
    Token { number, ..t }
}
