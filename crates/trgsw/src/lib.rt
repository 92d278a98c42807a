#![tactic(auto)]
// The external product of a pair of polynomials with one bit's rows of the bootstrapping key, and the choice that is made with it (src/trgsw.rs).
// A pair is lent as two slices throughout, as the C interface lends it (`egl_trgsw_cmux`): a struct of two slices would be taken apart at every call.
ghost use Rattle.std.specs.Prelude.{◌≡◌, [], ◌∷◌, ◌+◌, ◌<◌, length, IfOk};
ghost use Rattle.ring.specs.Poly.{plus, times};
ghost use Rattle.params.specs.Refusal.{answer, outcome, given};
ghost use Rattle.params.specs.Sizes.{size, bit_words};
ghost use Rattle.decomposition.specs.Pair.{pair_digit};
ghost use Rattle.trgsw.specs.External.{row_a, row_b, external, cmux_of};
ghost use Rattle.trgsw.specs.Refusals.{external_number, external_out, external_add_out, cmux_number, cmux_out};
ghost use Rattle.trgsw.specs.Private.{Each, ExternalGood};

use params::{Checked, Params, Refusal};

// Row r: its digit polynomial, put into d, times both halves of the row, added to the sums. No row is copied. At these
// lengths the callees refuse nothing.
#[tactic(auto, using(crate::proofs::Checks::row_fits))]
fn external_row(
    p: Checked,
    rows: &[u32],
    r: u32,
    a: &[u32],
    b: &[u32],
    d: &mut [u32],
    outa: &mut [u32],
    outb: &mut [u32],
)
    requires row { r < p.l + p.l }
    requires rows { length rows.now ≡ bit_words p }
    requires words { Each (size p) (a.now ∷ b.now ∷ d.old ∷ outa.old ∷ outb.old ∷ []) }
    ensures outa_after { outa.new ≡ plus (size p) outa.old (times (size p) (pair_digit p (record { a = a.now; b = b.now }) r) (row_a p rows.now r)) }
    ensures outb_after { outb.new ≡ plus (size p) outb.old (times (size p) (pair_digit p (record { a = a.now; b = b.now }) r) (row_b p rows.now r)) }
{
    let p = p.params;
    let n = a.len();
    let row = (r as usize) * (n + n);
    let mid = row + n;
    let end = mid + n;
    let _ = decomposition::digit_polynomial(p, a, b, r, d);
    let _ = product::poly_mul_add(p, d, &rows[row..mid], outa);
    let _ = product::poly_mul_add(p, d, &rows[mid..end], outb);
}

// Every row.
#[tactic(auto, unfolding(crate::specs::External::external))]
fn external_rows(
    p: Checked,
    rows: &[u32],
    a: &[u32],
    b: &[u32],
    d: &mut [u32],
    outa: &mut [u32],
    outb: &mut [u32],
)
    requires rows { length rows.now ≡ bit_words p }
    requires words { Each (size p) (a.now ∷ b.now ∷ d.old ∷ outa.old ∷ outb.old ∷ []) }
    ensures outa_after { outa.new ≡ plus (size p) (external p rows.now (record { a = a.now; b = b.now })).a outa.old }
    ensures outb_after { outb.new ≡ plus (size p) (external p rows.now (record { a = a.now; b = b.now })).b outb.old }
{
    for r in 0..p.params.l + p.params.l {
        external_row(p, rows, r, a, b, d, outa, outb);
    }
}

// The external product added to the pair, one digit polynomial at a time in the scratch.
#[tactic(auto, using(params::proofs::Ranges::size_to))]
fn add_external(p: Checked, rows: &[u32], a: &[u32], b: &[u32], outa: &mut [u32], outb: &mut [u32])
    requires rows { length rows.now ≡ bit_words p }
    requires words { Each (size p) (a.now ∷ b.now ∷ outa.old ∷ outb.old ∷ []) }
    ensures outa_after { outa.new ≡ plus (size p) (external p rows.now (record { a = a.now; b = b.now })).a outa.old }
    ensures outb_after { outb.new ≡ plus (size p) (external p rows.now (record { a = a.now; b = b.now })).b outb.old }
{
    let n = p.sizes.size;
    let mut scratch = [0u32; 1024];
    let (d, _) = scratch.split_at_mut(n);
    external_rows(p, rows, a, b, d, outa, outb);
}

// The checks of both external products.
#[tactic(auto, unfolding(crate::specs::Refusals::external_number))]
fn external_checks(
    p: Params,
    rows: &[u32],
    a: &[u32],
    b: &[u32],
    outa: &[u32],
    outb: &[u32],
) -> Result<Checked, Refusal>
    ensures said { result ≡ given (answer (external_number p (length rows.now) (length a.now) (length b.now) (length outa.now) (length outb.now))) p }
    ensures good { IfOk result (λ c. ExternalGood c (length rows.now) (length a.now) (length b.now) (length outa.now) (length outb.now)) }
{
    let p = params::check(p)?;
    let n = p.sizes.size;
    Refusal::Length.unless(rows.len() == p.sizes.bit)?;
    Refusal::Length.unless(a.len() == n)?;
    Refusal::Length.unless(b.len() == n)?;
    Refusal::Length.unless(outa.len() == n)?;
    Refusal::Length.unless(outb.len() == n)?;
    Ok(p)
}

/// The external product of one bit's 2L rows with the pair (a, b): the sum of digit polynomial times row. Refusals: 1, 2.
pub fn external_product(
    p: Params,
    rows: &[u32],
    a: &[u32],
    b: &[u32],
    outa: &mut [u32],
    outb: &mut [u32],
) -> Result<(), Refusal>
    ensures said { result ≡ outcome (answer (external_number p (length rows.now) (length a.now) (length b.now) (length outa.old) (length outb.old))) }
    ensures first { outa.new ≡ (external_out p rows.now (record { a = a.now; b = b.now }) (record { a = outa.old; b = outb.old })).a }
    ensures second { outb.new ≡ (external_out p rows.now (record { a = a.now; b = b.now }) (record { a = outa.old; b = outb.old })).b }
{
    let p = external_checks(p, rows, a, b, outa, outb)?;
    words::fill(0, outa);
    words::fill(0, outb);
    add_external(p, rows, a, b, outa, outb);
    Ok(())
}

/// The external product added to the pair that is there: what a step of the blind rotation wants, with no copy in between. Refusals: 1, 2.
pub fn external_product_add(
    p: Params,
    rows: &[u32],
    a: &[u32],
    b: &[u32],
    outa: &mut [u32],
    outb: &mut [u32],
) -> Result<(), Refusal>
    ensures said { result ≡ outcome (answer (external_number p (length rows.now) (length a.now) (length b.now) (length outa.old) (length outb.old))) }
    ensures first { outa.new ≡ (external_add_out p rows.now (record { a = a.now; b = b.now }) (record { a = outa.old; b = outb.old })).a }
    ensures second { outb.new ≡ (external_add_out p rows.now (record { a = a.now; b = b.now }) (record { a = outa.old; b = outb.old })).b }
{
    let p = external_checks(p, rows, a, b, outa, outb)?;
    add_external(p, rows, a, b, outa, outb);
    Ok(())
}

// The choice, with the scratch for in2 - in1 lent.
#[tactic(auto, using(words::proofs::Loops::copied_all), unfolding(crate::specs::External::cmux_of))]
fn cmux_with(
    p: Checked,
    a1: &[u32],
    b1: &[u32],
    a2: &[u32],
    b2: &[u32],
    rows: &[u32],
    da: &mut [u32],
    db: &mut [u32],
    outa: &mut [u32],
    outb: &mut [u32],
)
    requires rows { length rows.now ≡ bit_words p }
    requires words { Each (size p) (a1.now ∷ b1.now ∷ a2.now ∷ b2.now ∷ da.old ∷ db.old ∷ outa.old ∷ outb.old ∷ []) }
    ensures outa_after { outa.new ≡ (cmux_of p rows.now (record { a = a1.now; b = b1.now }) (record { a = a2.now; b = b2.now })).a }
    ensures outb_after { outb.new ≡ (cmux_of p rows.now (record { a = a1.now; b = b1.now }) (record { a = a2.now; b = b2.now })).b }
{
    words::difference(a2, a1, da);
    words::difference(b2, b1, db);
    words::copy(a1, outa);
    words::copy(b1, outb);
    add_external(p, rows, da, db, outa, outb);
}

/// in1 + product(in2 - in1), in1 being (a1, b1) and in2 (a2, b2): in1 where the rows encrypt 0, in2 where they encrypt 1. Refusals: 1, 2.
#[tactic(auto, using(params::proofs::Ranges::size_to), unfolding(crate::specs::Refusals::cmux_number))]
pub fn cmux(
    p: Params,
    a1: &[u32],
    b1: &[u32],
    a2: &[u32],
    b2: &[u32],
    rows: &[u32],
    outa: &mut [u32],
    outb: &mut [u32],
) -> Result<(), Refusal>
    ensures said { result ≡ outcome (answer (cmux_number p (length a1.now) (length b1.now) (length a2.now) (length b2.now) (length rows.now) (length outa.old) (length outb.old))) }
    ensures first { outa.new ≡ (cmux_out p rows.now (record { a = a1.now; b = b1.now }) (record { a = a2.now; b = b2.now }) (record { a = outa.old; b = outb.old })).a }
    ensures second { outb.new ≡ (cmux_out p rows.now (record { a = a1.now; b = b1.now }) (record { a = a2.now; b = b2.now }) (record { a = outa.old; b = outb.old })).b }
{
    let p = params::check(p)?;
    let n = p.sizes.size;
    Refusal::Length.unless(a1.len() == n)?;
    Refusal::Length.unless(b1.len() == n)?;
    Refusal::Length.unless(a2.len() == n)?;
    Refusal::Length.unless(b2.len() == n)?;
    Refusal::Length.unless(rows.len() == p.sizes.bit)?;
    Refusal::Length.unless(outa.len() == n)?;
    Refusal::Length.unless(outb.len() == n)?;
    let mut scratch_a = [0u32; 1024];
    let mut scratch_b = [0u32; 1024];
    let (da, _) = scratch_a.split_at_mut(n);
    let (db, _) = scratch_b.split_at_mut(n);
    cmux_with(p, a1, b1, a2, b2, rows, da, db, outa, outb);
    Ok(())
}
