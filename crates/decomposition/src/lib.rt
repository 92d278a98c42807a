#![tactic(auto)]
// The gadget decomposition (src/trgsw.rs, `decomposition`): the digits of a word, of a polynomial and of a pair of polynomials.
ghost use Rattle.std.specs.Prelude.{◌≡◌, ◌+◌, ◌*◌, ◌<◌, length};
ghost use Rattle.params.specs.Refusal.{answer, outcome};
ghost use Rattle.params.specs.Sizes.{size};
ghost use Rattle.key.specs.Offset.{offset};
ghost use Rattle.decomposition.specs.Digit.{digit_of, digit_poly};
ghost use Rattle.decomposition.specs.Pair.{pair_digit, decomposed, polynomial_number, polynomial_out, decomposition_number, decomposition_out};

use params::{Checked, Params, Refusal};

// Digit i of the word x, the offset being at hand: division and remainder by powers of 2, which are a shift and a mask in the machine's code.
#[tactic(auto, using(crate::proofs::Powers::digit_ends, crate::proofs::Powers::low_power, crate::proofs::Powers::wide_power, crate::proofs::Powers::half_power, crate::proofs::Powers::some), unfolding(crate::specs::Digit::digit_of, ring::specs::Word::field_of))]
fn digit_word(p: Checked, off: u32, x: u32, i: u32) -> u32
    requires digit { i < p.l }
    requires off { off ≡ offset p }
    ensures { result ≡ digit_of p x i }
{
    let bgbit = p.params.bgbit;
    let y = ring::add(x, off);
    let low = 32 - (i + 1) * bgbit;
    let field = y / ring::power(low) % ring::power(bgbit);
    ring::sub(field, ring::power(bgbit - 1))
}

// The digit polynomial i of a.
#[tactic(auto, using(ring::proofs::Tab::tab_none, ring::proofs::Tab::tab_more), unfolding(crate::specs::Digit::digit_poly))]
fn digits_into(p: Checked, off: u32, a: &[u32], i: u32, out: &mut [u32])
    requires digit { i < p.l }
    requires off { off ≡ offset p }
    requires a { length a.now ≡ size p }
    requires out { length out.old ≡ size p }
    ensures { out.new ≡ digit_poly p i a.now }
{
    for (k, x) in a.iter().enumerate() {
        out[k] = digit_word(p, off, *x, i);
    }
}

// The digit polynomial r of the pair: of a below L, else of b.
#[tactic(auto, unfolding(crate::specs::Pair::pair_digit))]
fn pair_digits_into(p: Checked, off: u32, a: &[u32], b: &[u32], r: u32, out: &mut [u32])
    requires row { r < p.l + p.l }
    requires off { off ≡ offset p }
    requires a { length a.now ≡ size p }
    requires b { length b.now ≡ size p }
    requires out { length out.old ≡ size p }
    ensures { out.new ≡ pair_digit p (record { a = a.now; b = b.now }) r }
{
    let l = p.params.l;
    if r < l {
        digits_into(p, off, a, r, out);
    } else {
        digits_into(p, off, b, r - l, out);
    }
}

// Every digit polynomial of the pair, one after the other.
fn decompose_into(p: Checked, off: u32, a: &[u32], b: &[u32], out: &mut [u32])
    requires off { off ≡ offset p }
    requires a { length a.now ≡ size p }
    requires b { length b.now ≡ size p }
    requires out { length out.old ≡ (p.l + p.l) * size p }
    ensures { out.new ≡ decomposed p (record { a = a.now; b = b.now }) }
{
    let n = p.sizes.size;
    for r in 0..p.params.l + p.params.l {
        let at = r as usize * n;
        pair_digits_into(p, off, a, b, r, &mut out[at..at + n]);
    }
}

/// The digit polynomial r of the pair (a, b), which row r of a key is multiplied with: r is below 2L, and those of a come first. Refusals: 1, 2, 3.
#[tactic(auto, using(key::proofs::Checks::number_one), unfolding(crate::specs::Pair::polynomial_number, key::specs::Offset::offset_out))]
pub fn digit_polynomial(
    p: Params,
    a: &[u32],
    b: &[u32],
    r: u32,
    out: &mut [u32],
) -> Result<(), Refusal>
    ensures said { result ≡ outcome (answer (polynomial_number p (length a.now) (length b.now) r (length out.old))) }
    ensures written { out.new ≡ polynomial_out p a.now b.now r out.old }
{
    let off = key::decomposition_offset(p)?;
    let p = params::check(p)?;
    let size = p.sizes.size;
    Refusal::Length.unless(a.len() == size)?;
    Refusal::Length.unless(b.len() == size)?;
    Refusal::Length.unless(out.len() == size)?;
    Refusal::Index.unless(r < p.params.l + p.params.l)?;
    pair_digits_into(p, off.0, a, b, r, out);
    Ok(())
}

/// The 2L digit polynomials of the pair (a, b), in order. Refusals: 1, 2.
#[tactic(auto, using(key::proofs::Checks::number_one), unfolding(crate::specs::Pair::decomposition_number, key::specs::Offset::offset_out))]
pub fn decomposition(p: Params, a: &[u32], b: &[u32], out: &mut [u32]) -> Result<(), Refusal>
    ensures said { result ≡ outcome (answer (decomposition_number p (length a.now) (length b.now) (length out.old))) }
    ensures written { out.new ≡ decomposition_out p a.now b.now out.old }
{
    let off = key::decomposition_offset(p)?;
    let p = params::check(p)?;
    let size = p.sizes.size;
    Refusal::Length.unless(a.len() == size)?;
    Refusal::Length.unless(b.len() == size)?;
    Refusal::Length.unless(out.len() == p.sizes.bitmasks)?;
    decompose_into(p, off.0, a, b, out);
    Ok(())
}
