#![tactic(auto)]
// The exact product of two polynomials of N words modulo X^N + 1 and 2^32. It stands in for src/fft, whose transform rounds (01, 'What changes shape').
ghost use Rattle.std.specs.Prelude.{◌≡◌, ◌≤◌, ◌<◌, suc, ◌+◌, ◌-◌, ◌*◌, length, OnOk};
ghost use Rattle.params.specs.Refusal.{answer, outcome};
ghost use Rattle.params.specs.Sizes.{size};
ghost use Rattle.ring.specs.Word.{at};
ghost use Rattle.ring.specs.Poly.{plus, times};
ghost use Rattle.product.specs.Product.{product_number, poly_mul_out, poly_mul_add_out};
ghost use Rattle.product.specs.Private.{doubled, Alike};
ghost use Rattle.ring.specs.Private.{add_by, acc_to};

use params::{Params, Refusal};

// The refusal of both routines: each slice has N words.
#[tactic(auto, unfolding(crate::specs::Product::product_number))]
fn check(p: Params, la: usize, lb: usize, lo: usize) -> Result<(), Refusal>
    ensures said { result ≡ outcome (answer (product_number p la lb lo)) }
    ensures passes { OnOk result (product_number p la lb lo ≡ 0) }
    ensures alike { OnOk result ((la ≡ lo) × (lb ≡ lo) × (lo ≡ size p)) }
    ensures small { OnOk result (lo ≤ 1024) }
{
    let n = params::check(p)?.sizes.size;
    Refusal::Length.unless(la == n)?;
    Refusal::Length.unless(lb == n)?;
    Refusal::Length.unless(lo == n)?;
    Ok(())
}

// The doubled row, into scratch: b negated, and then b.
fn double_into(b: &[u32], twice: &mut [u32])
    requires { length twice.old ≡ length b.now + length b.now }
    ensures { twice.new ≡ doubled (length b.now) b.now }
{
    let (front, back) = twice.split_at_mut(b.len());
    words::fill(0, front);
    words::subtract(b, front);
    words::copy(b, back);
}

// One row: x times the window, added to every word. Places go up in both: this is the loop that vectorises.
#[tactic(auto, unfolding(ring::specs::Private::add_by))]
fn add_row(x: u32, window: &[u32], out: &mut [u32])
    requires { length window.now ≡ length out.old }
    ensures { out.new ≡ add_by out.old (λ k. x * at window.now k) }
{
    words::add_times(x, window, out);
}

// Every row: the last coefficient of a first, so that the window goes up by one place a turn.
fn add_rows(a: &[u32], twice: &[u32], out: &mut [u32])
    requires { (length a.now ≡ length out.old) × (length twice.now ≡ length out.old + length out.old) }
    ensures { out.new ≡ acc_to (length out.old) (at out.old) (λ k j. at a.now (length out.old - suc j) * at twice.now (suc j + k)) (length out.old) }
{
    let n = out.len();
    for j in 0..n {
        let start = j + 1;
        let end = start + n;
        add_row(a[n - start], &twice[start..end], out);
    }
}

// The product added to out: the scratch is 2 · 1,024 words, of which the first 2N are used.
#[tactic(auto, using(crate::proofs::Laws::product_added))]
fn add_product(a: &[u32], b: &[u32], out: &mut [u32])
    requires { Alike (length a.now) (length b.now) (length out.old) }
    ensures { out.new ≡ plus (length out.old) out.old (times (length out.old) a.now b.now) }
{
    let mut scratch = [0u32; 2048];
    let twice = &mut scratch[..b.len() + b.len()];
    double_into(b, twice);
    add_rows(a, twice, out);
}

/// out = a · b modulo X^N + 1 and 2^32: the Rust's `poly_mul`, exact. Refused with 2 unless each slice has N words, and then out stays as it was.
#[tactic(auto, using(crate::proofs::Laws::put_out))]
pub fn poly_mul(p: Params, a: &[u32], b: &[u32], out: &mut [u32]) -> Result<(), Refusal>
    ensures said { result ≡ outcome (answer (product_number p (length a.now) (length b.now) (length out.old))) }
    ensures written { out.new ≡ poly_mul_out p a.now b.now out.old }
{
    check(p, a.len(), b.len(), out.len())?;
    words::fill(0, out);
    add_product(a, b, out);
    Ok(())
}

/// out = out + a · b: what a sum of products wants, with no copy in between. Refused as `poly_mul`.
pub fn poly_mul_add(p: Params, a: &[u32], b: &[u32], out: &mut [u32]) -> Result<(), Refusal>
    ensures said { result ≡ outcome (answer (product_number p (length a.now) (length b.now) (length out.old))) }
    ensures written { out.new ≡ poly_mul_add_out p a.now b.now out.old }
{
    check(p, a.len(), b.len(), out.len())?;
    add_product(a, b, out);
    Ok(())
}
