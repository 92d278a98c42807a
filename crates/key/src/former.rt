// For those who hold a switching key in the layout before 02, 2026-06, with one idle row in front of the rows of each field: the key without them.
ghost use Rattle.std.specs.Prelude.{◌≡◌, ◌+◌, ◌*◌, ◌<◌, length};
ghost use Rattle.params.specs.Refusal.{answer, if_done, outcome};
ghost use Rattle.params.specs.Sizes.{switching_rows, switching_words};
ghost use Rattle.key.specs.Generation.{row_outer, row_field, row_digit};
ghost use Rattle.key.specs.Former.{former_words, former_index, without_idle, drop_number};

use crate::base_of;
use params::{Checked, Params, Refusal};

// The words of such a key.
#[tactic(auto, using(crate::proofs::IdleRows::former_small, crate::proofs::IdleRows::rows_small))]
fn former_words(p: Checked) -> usize
    ensures { result ≡ former_words p }
{
    p.sizes.size * p.params.t as usize * base_of(p) * p.sizes.level0
}

// The former place of row number r: the rows of each field stood behind one idle row.
#[tactic(auto, using(crate::proofs::IdleRows::place_fits, crate::proofs::IdleRows::former_code))]
fn former_place(p: Checked, r: usize) -> usize
    requires { r < switching_rows p }
    ensures { result ≡ former_index p (row_outer p r) (row_field p r) (row_digit p r) }
{
    let base = base_of(p);
    let digits = base - 1;
    base * (r / digits) + (r % digits + 1)
}

// Row after row into its place.
#[tactic(auto, using(crate::proofs::IdleRows::former_within, crate::proofs::Rows::row_ends))]
fn rows_into(p: Checked, former: &[u32], out: &mut [u32])
    requires former { length former.now ≡ former_words p }
    requires out { length out.old ≡ switching_words p }
    ensures { out.new ≡ without_idle p former.now }
{
    let width = p.sizes.level0;
    for r in 0..p.sizes.ksknoise {
        let from = former_place(p, r) * width;
        let at = r * width;
        words::copy(&former[from..from + width], &mut out[at..at + width]);
    }
}

/// The former key without its idle rows, whatever they hold: row (i, j, k), k from 1, in today's place. Refusals: 1, 2.
#[tactic(auto, unfolding(crate::specs::Former::drop_number))]
pub fn drop_idle_rows(p: Params, former: &[u32], out: &mut [u32]) -> Result<(), Refusal>
    ensures said { result ≡ outcome (answer (drop_number p (length former.now) (length out.old))) }
    ensures written { out.new ≡ if_done (drop_number p (length former.now) (length out.old)) (without_idle p former.now) out.old }
{
    let p = params::check(p)?;
    Refusal::Length.unless(former.len() == former_words(p))?;
    Refusal::Length.unless(out.len() == p.sizes.ksk)?;
    rows_into(p, former, out);
    Ok(())
}
