#![tactic(auto)]
// Lookup tables on small messages (02, 2026-07). The original has the rotation of a given test vector (`blind_rotate_with_testvec`: blind_rotation/vector.rt) and no way to make one; that is ours.
ghost use Rattle.std.specs.Prelude.{◌≡◌, length};
ghost use Rattle.params.specs.Refusal.{answer, outcome, given};
ghost use Rattle.tables.specs.Table.{is_table};
ghost use Rattle.tables.specs.Refusals.{table_number, table_out, lookup_number, lookup_out};

use params::{Checked, Params, Refusal};
use vectors::put_vector;

mod vectors;

/// Is there a test vector of n coefficients for tables of this modulus: is it 2, 4, 8, 16, 32 or 64, and does twice it divide n?
pub fn fits(n: usize, modulus: u64) -> bool
    ensures { result ≡ is_table n modulus }
{
    tlwe::plaintexts::modulus_number(modulus).is_ok() && n as u64 % (2 * modulus) == 0
}

// The checks of a test vector.
#[tactic(auto, unfolding(crate::specs::Refusals::table_number))]
fn table_checks(
    p: Params,
    modulus: u64,
    table: &[u32],
    a: &[u32],
    b: &[u32],
) -> Result<Checked, Refusal>
    ensures { result ≡ given (answer (table_number p modulus (length table.now) (length a.now) (length b.now))) p }
{
    let p = params::check(p)?;
    Refusal::Length.unless(table.len() == modulus as usize)?;
    Refusal::Length.unless(a.len() == p.sizes.size)?;
    Refusal::Length.unless(b.len() == p.sizes.size)?;
    Refusal::Modulus.unless(fits(p.sizes.size, modulus))?;
    Ok(p)
}

/// The test vector (a, b) of the table's modulus words. Refusals: 1, 2, 5.
pub fn table_testvec(
    p: Params,
    modulus: u64,
    table: &[u32],
    a: &mut [u32],
    b: &mut [u32],
) -> Result<(), Refusal>
    ensures said { result ≡ outcome (answer (table_number p modulus (length table.now) (length a.old) (length b.old))) }
    ensures first { a.new ≡ (table_out p modulus table.now (record { a = a.old; b = b.old })).a }
    ensures second { b.new ≡ (table_out p modulus table.now (record { a = a.old; b = b.old })).b }
{
    table_checks(p, modulus, table, a, b)?;
    put_vector(table, a, b);
    Ok(())
}

// The checks of a lookup.
#[tactic(auto, unfolding(crate::specs::Refusals::lookup_number))]
fn lookup_checks(
    p: Params,
    modulus: u64,
    table: &[u32],
    c: &[u32],
    ksk: &[u32],
    bsk: &[u32],
    out: &[u32],
) -> Result<Checked, Refusal>
    ensures { result ≡ given (answer (lookup_number p modulus (length table.now) (length c.now) (length ksk.now) (length bsk.now) (length out.now))) p }
{
    let p = params::check(p)?;
    Refusal::Length.unless(table.len() == modulus as usize)?;
    Refusal::Length.unless(c.len() == p.sizes.level0)?;
    Refusal::Length.unless(ksk.len() == p.sizes.ksk)?;
    Refusal::Length.unless(bsk.len() == p.sizes.bsk)?;
    Refusal::Length.unless(out.len() == p.sizes.level0)?;
    Refusal::Modulus.unless(fits(p.sizes.size, modulus))?;
    Ok(p)
}

/// The table's word for the message whose ciphertext is c, as a ciphertext: the table's vector rotated by c, extracted at 0, switched. Refusals: 1, 2, 5.
pub fn lookup(
    p: Params,
    modulus: u64,
    table: &[u32],
    c: &[u32],
    ksk: &[u32],
    bsk: &[u32],
    out: &mut [u32],
) -> Result<(), Refusal>
    ensures said { result ≡ outcome (answer (lookup_number p modulus (length table.now) (length c.now) (length ksk.now) (length bsk.now) (length out.old))) }
    ensures written { out.new ≡ lookup_out p modulus table.now c.now ksk.now bsk.now out.old }
{
    let s = lookup_checks(p, modulus, table, c, ksk, bsk, out)?;
    let n = s.sizes.size;
    let words = s.sizes.level1;
    let (mut va, mut vb) = ([0u32; 1024], [0u32; 1024]);
    let (mut ra, mut rb) = ([0u32; 1024], [0u32; 1024]);
    let mut sample = [0u32; 1025];
    let (va, vb) = (&mut va[..n], &mut vb[..n]);
    let (ra, rb) = (&mut ra[..n], &mut rb[..n]);
    let sample = &mut sample[..words];
    put_vector(table, va, vb);
    blind_rotation::vector::blind_rotate_with_testvec(p, c, va, vb, bsk, ra, rb)?;
    trlwe::sample_extract_index(p, ra, rb, 0, sample)?;
    switching::identity_key_switching(p, sample, ksk, out)
}
