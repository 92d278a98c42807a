// The numbers of a gate's operands and results.
ghost use Rattle.std.specs.Prelude.{◌≡◌, ◌≤◌, ◌<◌};
ghost use Rattle.params.specs.Refusal.{given};
ghost use Rattle.tokens.specs.Tokens.{no_number};
ghost use Rattle.bristol_form.specs.Says.{gates, gate_at, set_count};
ghost use Rattle.bristol_form.specs.Form.{results_for};
ghost use Rattle.bristol_form.specs.Private.{Says, operands_fit, count_fits, counts_answer, counts_of};

use crate::{Counts, HeadRead};
use params::Refusal;
use tokens::next;

// How many results go with k operands.
#[tactic(auto, unfolding(crate::specs::Form::results_for))]
fn results_for(k: usize) -> usize
    ensures value { result ≡ results_for k }
    ensures upper_bound { result ≤ k }
{
    if k == 1 { 1 } else { k / 2 }
}

// Whether a gate can have k operands, so many wires being set before it: 1, or even and not 0 with some wire set.
#[tactic(auto, unfolding(crate::specs::Private::operands_fit))]
fn operands_fit(k: usize, set: usize) -> bool
    ensures { result ≡ operands_fit k set }
{
    k == 1 || 0 < k && k % 2 == 0 && 0 < set
}

// Whether k can be the number of gate j's operands, so many wires being set before it.
#[tactic(auto, unfolding(crate::specs::Private::count_fits))]
fn count_fits(k: usize, set: usize, total: usize, most: usize, j: usize) -> bool
    requires { (set ≤ most) × (most < no_number) × (j < total) × (total ≤ most) }
    ensures { result ≡ count_fits k set total most j }
{
    if k >= 4294967296 || !operands_fit(k, set) {
        return false;
    }
    let after = set + results_for(k);
    after + (total - (j + 1)) <= most && (j + 1 < total || after == most)
}

// The numbers of gate j's operands and results, which begins at p, so many wires being set before it.
pub(crate) fn read_counts(
    text: &[u8],
    h: HeadRead,
    j: usize,
    p: usize,
    set: usize,
) -> Result<Counts, Refusal>
    requires says { Says text.now h }
    requires j_lt_gates { (j < gates text.now) × (p ≡ gate_at text.now j) × (set ≡ set_count text.now j) × (set ≤ h.wires) }
    ensures { result ≡ given (counts_answer text.now j) (counts_of text.now j) }
{
    let k = next(text, p);
    Refusal::Text(k.start).unless(count_fits(k.number, set, h.gates, h.wires, j))?;
    let r = next(text, k.end);
    Refusal::Text(r.start).unless(r.number == results_for(k.number))?;
    Ok(Counts {
        operands: k.number,
        results: r.number,
        at: r.end,
    })
}
