// The rows of the switching key, written one after another into a lent slice.
ghost use Rattle.std.specs.Prelude.{◌≡◌, [], ◌∷◌, ◌++◌, ◌+◌, ◌-◌, ◌*◌, ◌%◌, ◌^◌, ◌≤◌, ◌<◌, length};
ghost use Rattle.ring.specs.Word.{Q};
ghost use Rattle.ring.specs.Phase.{inner};
ghost use Rattle.params.specs.Sizes.{switching_rows, switching_words};
ghost use Rattle.key.specs.Generation.{generated_row, generated};
ghost use Rattle.key.specs.Private.{Lent};

use crate::base_of;
use params::Checked;

// The masks' sum under the key, modulo 2^32.
fn masks_sum(masks: &[u32], key: &[u32]) -> u32
    requires { length masks.now ≡ length key.now }
    ensures { result ≡ inner (length key.now) key.now masks.now % Q }
{
    let mut sum: u32 = 0;
    for (i, k) in key.iter().enumerate() {
        sum = ring::add(sum, ring::mul(masks[i], *k));
    }
    sum
}

// The row of these masks, this noise word and what it carries: the masks, and b after them.
fn encrypted(key: &[u32], word: u32, masks: &[u32], noise: u32, out: &mut [u32])
    requires masks { length masks.now ≡ length key.now }
    requires out { length out.old ≡ length masks.now + 1 }
    ensures { out.new ≡ masks.now ++ ((inner (length key.now) key.now masks.now + word + noise) % Q ∷ []) }
{
    let (front, last) = out.split_at_mut(masks.len());
    words::copy(masks, front);
    last[0] = ring::add(ring::add(masks_sum(masks, key), word), noise);
}

// k · z · 2^(32 - (j + 1)·BASEBIT), modulo 2^32. The Rust divides k · z by 2^((j+1)·BASEBIT) as doubles and takes the word of that part of a turn:
// both steps are exact, for k · z has at most 6 bits and the power at most 30, and the quotient is below 1, for k is below BASE.
fn carried_word(basebit: u32, z: u32, j: u32, k: u32) -> u32
    requires { (j < 32) × (basebit ≤ 6) × ((j + 1) * basebit ≤ 32) }
    ensures { result ≡ k * z * 2 ^ (32 - (j + 1) * basebit) % Q }
{
    ring::mul(ring::mul(k, z), ring::power(32 - (j + 1) * basebit))
}

// Row number r, which is row (i, j, k): its masks and its noise word are those of its number.
fn row_into(
    p: Checked,
    key_lv0: &[u32],
    key_lv1: &[u32],
    masks: &[u32],
    noise: &[u32],
    r: usize,
    out: &mut [u32],
)
    requires lent { Lent p (length key_lv0.now) (length key_lv1.now) (length masks.now) (length noise.now) }
    requires row { r < switching_rows p }
    requires out { length out.old ≡ p.n + 1 }
    ensures { out.new ≡ generated_row p key_lv0.now key_lv1.now masks.now noise.now r }
{
    let digits = base_of(p) - 1;
    let t = p.params.t as usize;
    let field = r / digits;
    let i = field / t;
    let j = field % t;
    let k = r % digits + 1;
    let word = carried_word(p.params.basebit, key_lv1[i], j as u32, k as u32);
    let n = p.sizes.n;
    let from = r * n;
    encrypted(key_lv0, word, &masks[from..from + n], noise[r], out);
}

// All rows.
pub(crate) fn generate(
    p: Checked,
    key_lv0: &[u32],
    key_lv1: &[u32],
    masks: &[u32],
    noise: &[u32],
    out: &mut [u32],
)
    requires lent { Lent p (length key_lv0.now) (length key_lv1.now) (length masks.now) (length noise.now) }
    requires out { length out.old ≡ switching_words p }
    ensures { out.new ≡ generated p key_lv0.now key_lv1.now masks.now noise.now }
{
    let width = p.sizes.level0;
    for r in 0..p.sizes.ksknoise {
        let at = r * width;
        row_into(
            p,
            key_lv0,
            key_lv1,
            masks,
            noise,
            r,
            &mut out[at..at + width],
        );
    }
}
