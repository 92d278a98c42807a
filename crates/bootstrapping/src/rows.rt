// The rows of the bootstrapping key, written one after another into a lent slice.
ghost use Rattle.std.specs.Prelude.{◌≡◌, [], ◌∷◌, ◌+◌, ◌*◌, ◌%◌, ◌<◌, length};
ghost use Rattle.ring.specs.Word.{Q};
ghost use Rattle.ring.specs.Poly.{plus};
ghost use Rattle.params.specs.Sizes.{size, bit_words, bootstrapping_words};
ghost use Rattle.decomposition.specs.Digit.{digit_weight};
ghost use Rattle.bootstrapping.specs.Rows.{key_row, torus_rows, bit_draws, bootstrapping_key};
ghost use Rattle.bootstrapping.specs.Private.{mask_message, body_message};

use params::Checked;

// The words of source, c added to the first of them.
fn put(source: &[u32], c: u32, out: &mut [u32])
    requires { (length source.now ≡ length out.old) × (0 < length out.old) }
    ensures { out.new ≡ plus (length out.old) source.now (c ∷ []) }
{
    words::copy(source, out);
    out[0] = ring::add(source[0], c);
}

// m·g_i, modulo 2^32. The Rust takes g_i as the word of the double BG^-(i+1), a power of 2 not below 2^-32: exact.
fn weighted(p: Checked, m: u32, i: u32) -> u32
    requires { i < p.l }
    ensures { result ≡ m * digit_weight p i % Q }
{
    ring::mul(m, ring::power(32 - (i + 1) * p.params.bgbit))
}

// What row r has added to a[0].
#[tactic(auto, unfolding(crate::specs::Private::mask_message, ring::specs::Word::Q))]
fn mask_message(p: Checked, m: u32, r: u32) -> u32
    ensures { result ≡ mask_message p m r % Q }
{
    if r < p.params.l { weighted(p, m, r) } else { 0 }
}

// What row r has added to b[0].
#[tactic(auto, unfolding(crate::specs::Private::body_message, ring::specs::Word::Q))]
fn body_message(p: Checked, m: u32, r: u32) -> u32
    requires { r < p.l + p.l }
    ensures { result ≡ body_message p m r % Q }
{
    if r < p.params.l {
        0
    } else {
        weighted(p, m, r - p.params.l)
    }
}

// Row r, from its own masks and noise: a is the masks, b is noise and masks·z, and to the first word of either its message
// is added. At these lengths the product refuses nothing.
fn row_into(p: Checked, m: u32, r: u32, masks: &[u32], noise: &[u32], key: &[u32], out: &mut [u32])
    requires row { r < p.l + p.l }
    requires words { (length masks.now ≡ size p) × (length noise.now ≡ size p) × (length key.now ≡ size p) × (length out.old ≡ size p + size p) }
    ensures { out.new ≡ key_row p m r key.now masks.now noise.now }
{
    let (a, b) = out.split_at_mut(masks.len());
    put(masks, mask_message(p, m, r), a);
    put(noise, body_message(p, m, r), b);
    let _ = product::poly_mul_add(p.params, masks, key, b);
}

// The 2L rows of one bit. This loop and that over the bits stand apart: one for both would take a closure of three lent parts, its clauses longer
// than the loop.
#[tactic(auto, using(crate::proofs::Parts::row_room))]
pub(crate) fn rows_into(
    p: Checked,
    m: u32,
    masks: &[u32],
    noise: &[u32],
    key: &[u32],
    out: &mut [u32],
)
    requires { (length masks.now ≡ bit_draws p) × (length noise.now ≡ bit_draws p) × (length key.now ≡ size p) × (length out.old ≡ bit_words p) }
    ensures { out.new ≡ torus_rows p m key.now masks.now noise.now }
{
    let n = key.len();
    let width = n + n;
    for r in 0..p.params.l + p.params.l {
        let row = r as usize;
        let from = row * n;
        let to = from + n;
        let at = row * width;
        let end = at + width;
        row_into(
            p,
            m,
            r,
            &masks[from..to],
            &noise[from..to],
            key,
            &mut out[at..end],
        );
    }
}

// The rows of every bit of the level-0 key.
pub(crate) fn bits_into(
    p: Checked,
    key_lv0: &[u32],
    key_lv1: &[u32],
    masks: &[u32],
    noise: &[u32],
    out: &mut [u32],
)
    requires { (length key_lv0.now ≡ p.n) × (length key_lv1.now ≡ size p) × (length masks.now ≡ p.n * bit_draws p) × (length noise.now ≡ p.n * bit_draws p) × (length out.old ≡ bootstrapping_words p) }
    ensures { out.new ≡ bootstrapping_key p key_lv0.now key_lv1.now masks.now noise.now }
{
    let draws = p.sizes.bitmasks;
    let width = p.sizes.bit;
    for (i, word) in key_lv0.iter().enumerate() {
        let from = i * draws;
        let to = from + draws;
        let at = i * width;
        let end = at + width;
        rows_into(
            p,
            *word,
            &masks[from..to],
            &noise[from..to],
            key_lv1,
            &mut out[at..end],
        );
    }
}
