// Tokens read backwards.
ghost use Rattle.std.specs.Prelude.{◌≡◌, true, false};
ghost use Rattle.ring.specs.Word.{at};
ghost use Rattle.tokens.specs.Tokens.{blank};
ghost use Rattle.tokens.specs.Back.{back_start, back_end, back_of};

use crate::{Behind, is_blank};

// Whether a blank stands at place i; none does past the end.
#[tactic(auto, using(crate::proofs::ReadBack::no_blank_over))]
fn blank_at(text: &[u8], i: usize) -> bool
    ensures { result ≡ blank (at text.now i) }
{
    i < text.len() && is_blank(text[i])
}

// Where the token that ends at e begins.
#[tactic(auto, using(crate::proofs::ReadBack::start_back_step, crate::proofs::ReadBack::start_back_stop, crate::proofs::ReadBack::start_back_none))]
fn back_start(text: &[u8], e: usize) -> usize
    ensures { result ≡ back_start text.now e }
{
    for p in (0..e).rev() {
        if blank_at(text, p) {
            return p + 1;
        }
    }
    0
}

// Where the last token before place s ends.
#[tactic(auto, using(crate::proofs::ReadBack::end_back_step, crate::proofs::ReadBack::end_back_stop, crate::proofs::ReadBack::end_back_none))]
fn back_end(text: &[u8], s: usize) -> usize
    ensures { result ≡ back_end text.now s }
{
    for p in (0..s).rev() {
        if !blank_at(text, p) {
            return p + 1;
        }
    }
    0
}

/// The token that ends at e: where it begins, and where the one before it ends.
#[tactic(auto, unfolding(crate::specs::Back::back_of))]
pub fn back(text: &[u8], e: usize) -> Behind
    ensures { result ≡ back_of text.now e }
{
    let start = back_start(text, e);
    Behind {
        start,
        before: back_end(text, start),
    }
}
