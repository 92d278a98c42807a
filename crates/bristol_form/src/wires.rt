// Whether a wire is set: by its bit where it has one, else by looking through the text's earlier gates.
ghost use Rattle.std.specs.Prelude.{◌≡◌, ◌||◌};
ghost use Rattle.bristol_form.specs.Says.{gate_at, results_place, among, is_set, set_by};
ghost use Rattle.bristol_form.specs.Private.{Says, Holds};

use crate::HeadRead;
use crate::held::bit_at;
use tokens::{next, skip};

// Whether w is among so many numbers from a place on.
fn is_among(text: &[u8], at: usize, count: usize, w: usize) -> bool
    ensures { result ≡ among text.now at count w }
{
    let mut p = at;
    for _ in 0..count {
        let t = next(text, p);
        if t.number == w {
            return true;
        }
        p = t.end;
    }
    false
}

// Whether wire w is set before gate j, by the text alone.
fn set_in_text(text: &[u8], h: HeadRead, j: usize, w: usize) -> bool
    requires { Says text.now h }
    ensures { result ≡ is_set text.now j w }
{
    if w < h.inputs {
        return true;
    }
    let mut p = h.body;
    for _ in 0..j {
        let k = next(text, p);
        let r = next(text, k.end);
        let results = skip(text, r.end, k.number);
        if is_among(text, results, r.number, w) {
            return true;
        }
        p = skip(text, results, r.number + 1);
    }
    false
}

// Whether wire w is set before gate j.
#[tactic(auto, using(crate::proofs::Holding::held_set))]
pub(crate) fn is_set(text: &[u8], bits: &[u8], h: HeadRead, j: usize, w: usize) -> bool
    requires { Says text.now h × Holds text.now bits.now j 0 }
    ensures { result ≡ is_set text.now j w }
{
    if w < 393216 {
        bit_at(bits, w)
    } else {
        set_in_text(text, h, j, w)
    }
}

// Whether wire w is set before gate j or among that gate's first y results, which begin at this place.
pub(crate) fn is_taken(
    text: &[u8],
    bits: &[u8],
    h: HeadRead,
    j: usize,
    at: usize,
    y: usize,
    w: usize,
) -> bool
    requires { Says text.now h × Holds text.now bits.now j y × (at ≡ results_place text.now (gate_at text.now j)) }
    ensures { result ≡ is_set text.now j w || set_by text.now (gate_at text.now j) y w }
{
    if w < 393216 {
        bit_at(bits, w)
    } else {
        set_in_text(text, h, j, w) || is_among(text, at, y, w)
    }
}
