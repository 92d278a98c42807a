// The exact product.
ghost use Rattle.std.specs.Prelude.{◌≡◌, length};
ghost use Rattle.params.specs.Refusal.{answer, outcome};
ghost use Rattle.product.specs.Product.{product_number, poly_mul_out, poly_mul_add_out};
ghost use Rattle.packing.specs.Packed.{packed};
ghost use Rattle.params.specs.Published.{numbers};

use packing::{numbers, pack};

// out = a · b modulo X^N + 1 and 2^32: the Rust's `poly_mul`, exact.
#[unsafe(no_mangle)]
pub extern "C" fn egl_product_poly_mul(
    n: u32,
    nbit: u32,
    bgbit: u32,
    l: u32,
    basebit: u32,
    t: u32,
    a: &[u32],
    b: &[u32],
    out: &mut [u32],
) -> u64
    ensures said { result ≡ packed (outcome (answer (product_number (numbers n nbit bgbit l basebit t) (length a.now) (length b.now) (length out.old)))) }
    ensures written { out.new ≡ poly_mul_out (numbers n nbit bgbit l basebit t) a.now b.now out.old }
{
    pack(product::poly_mul(numbers(n, nbit, bgbit, l, basebit, t), a, b, out))
}

// out = out + a · b: what a sum of products wants, with no copy in between.
#[unsafe(no_mangle)]
pub extern "C" fn egl_product_poly_mul_add(
    n: u32,
    nbit: u32,
    bgbit: u32,
    l: u32,
    basebit: u32,
    t: u32,
    a: &[u32],
    b: &[u32],
    out: &mut [u32],
) -> u64
    ensures said { result ≡ packed (outcome (answer (product_number (numbers n nbit bgbit l basebit t) (length a.now) (length b.now) (length out.old)))) }
    ensures written { out.new ≡ poly_mul_add_out (numbers n nbit bgbit l basebit t) a.now b.now out.old }
{
    pack(product::poly_mul_add(numbers(n, nbit, bgbit, l, basebit, t), a, b, out))
}
