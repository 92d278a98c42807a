// A gate of a text, read without a check.
ghost use Rattle.std.specs.Prelude.{◌≡◌};
ghost use Rattle.tokens.specs.Tokens.{past};
ghost use Rattle.bristol.specs.Private.{line_at};

use crate::Line;
use tokens::{name, next, skip};

// The place after so many tokens, those after one and after two being known: one and two need no second reading.
fn after(text: &[u8], at: usize, count: usize, one: usize, two: usize) -> usize
    requires { (one ≡ past text.now at 1) × (two ≡ past text.now at 2) }
    ensures { result ≡ past text.now at count }
{
    match count {
        1 => one,
        2 => two,
        _ => skip(text, at, count),
    }
}

// The place after so many tokens, that after one being known.
fn after_one(text: &[u8], at: usize, count: usize, one: usize) -> usize
    requires { one ≡ past text.now at 1 }
    ensures { result ≡ past text.now at count }
{
    if count == 1 {
        one
    } else {
        skip(text, at, count)
    }
}

// The gate that begins at p.
pub(crate) fn line(text: &[u8], p: usize) -> Line
    ensures { result ≡ line_at text.now p }
{
    let k = next(text, p);
    let r = next(text, k.end);
    let a = next(text, r.end);
    let b = next(text, a.end);
    let results = after(text, r.end, k.number, a.end, b.end);
    let c = next(text, results);
    let n = name(text, after_one(text, results, r.number, c.end));
    Line {
        first: a.number,
        second: b.number,
        result: c.number,
        name: n.number,
        at: n.end,
    }
}
