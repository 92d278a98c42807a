// The drifts of a lookup that is not refused.
ghost use Rattle.std.specs.Prelude.{◌≡◌, true, [], ◌∷◌, ◌+◌, ◌*◌, ◌/◌, ◌<◌, length};
ghost use Rattle.ring.specs.Phase.{phase_of};
ghost use Rattle.tlwe.specs.Key.{binary};
ghost use Rattle.tlwe.specs.Plain.{modulus_number, message_word};
ghost use Rattle.tables.specs.Table.{is_table, table_pair, looked_up};
ghost use Rattle.params.specs.Sizes.{size};
ghost use Rattle.table_drift.specs.Lookup.{margin_of};
ghost use Rattle.table_drift.specs.Private.{LookupDriftGood, brought_short, lookup_short, within_word, both_within, front_at};

use params::Checked;
use tlwe::Level;

// 2^31/(2M), half a message's step.
fn margin(modulus: u64) -> u32
    requires { modulus_number modulus ≡ 0 }
    ensures { result ≡ margin_of modulus }
{
    (0x8000_0000 / (2 * modulus)) as u32
}

// A message's word: so many steps.
fn message_word(value: u64, modulus: u64) -> u32
    requires { modulus_number modulus ≡ 0 }
    ensures { result ≡ message_word value modulus }
{
    let steps = (value % modulus) as u32;
    ring::mul(steps, 2 * margin(modulus))
}

// Is a drift strictly inside the margin of this modulus?
fn within(modulus: u64, drift: u32) -> bool
    requires { modulus_number modulus ≡ 0 }
    ensures { result ≡ within_word modulus drift }
{
    drift_size::absolute(drift) < margin(modulus)
}

// Are both?
#[tactic(auto, unfolding(crate::specs::Private::both_within))]
fn both_within(modulus: u64, results: u64, brought: u32, drift: u32) -> bool
    requires { (modulus_number modulus ≡ 0) × (modulus_number results ≡ 0) }
    ensures { result ≡ both_within modulus results brought drift }
{
    within(modulus, brought) && within(results, drift)
}

// The phase of a ciphertext under the secret key.
fn phase(p: Checked, key: &[u32], c: &[u32]) -> u32
    requires { (length key.now ≡ p.n) × (length c.now ≡ p.n + 1) × (binary key.now ≡ true) }
    ensures { result ≡ phase_of p.n key.now c.now }
{
    tlwe::keys::phase_of(p.params, Level::Zero, c, key)
        .unwrap()
        .0
}

// What place, below 2N, brings to the front of the table's vector, worked out in the scratch (va, vb).
fn front_on(
    p: Checked,
    modulus: u64,
    table: &[u32],
    place: u32,
    va: &mut [u32],
    vb: &mut [u32],
) -> u32
    requires { (length table.now ≡ modulus) × (is_table (size p) modulus ≡ true) × (length va.old ≡ size p) × (length vb.old ≡ size p) × (place < size p + size p) }
    ensures { result ≡ front_at p (table_pair p modulus table.now) place }
{
    tables::table_testvec(p.params, modulus, table, va, vb).unwrap();
    let n = vb.len();
    let at = place as usize;
    if at < n {
        vb[at]
    } else {
        ring::negated(vb[at - n])
    }
}

// The same with its scratch.
fn front_word(p: Checked, modulus: u64, table: &[u32], place: u32) -> u32
    requires { (length table.now ≡ modulus) × (is_table (size p) modulus ≡ true) × (place < size p + size p) }
    ensures { result ≡ front_at p (table_pair p modulus table.now) place }
{
    let n = p.sizes.size;
    let mut va = [0u32; 1024];
    let mut vb = [0u32; 1024];
    front_on(p, modulus, table, place, &mut va[..n], &mut vb[..n])
}

// The lookup into out, its two drifts into drifts; are both inside?
pub(crate) fn told_into(
    p: Checked,
    modulus: u64,
    table: &[u32],
    results: u64,
    value: u64,
    ksk: &[u32],
    bsk: &[u32],
    key: &[u32],
    c: &[u32],
    out: &mut [u32],
    drifts: &mut [u32],
) -> bool
    requires { LookupDriftGood p modulus (length table.now) results (length ksk.now) (length bsk.now) key.now (length c.now) (length out.old) (length drifts.old) }
    ensures told { result ≡ both_within modulus results (brought_short p key.now c.now value modulus) (lookup_short p key.now ksk.now bsk.now modulus table.now c.now) }
    ensures written { out.new ≡ looked_up p modulus table.now ksk.now bsk.now c.now }
    ensures drifted { drifts.new ≡ brought_short p key.now c.now value modulus ∷ lookup_short p key.now ksk.now bsk.now modulus table.now c.now ∷ [] }
{
    tables::lookup(p.params, modulus, table, c, ksk, bsk, out).unwrap();
    let front = turns::front(p.params, key, c).unwrap();
    let rounding = front.rounding;
    let own = ring::sub(phase(p, key, c), message_word(value, modulus));
    let brought = ring::add(own, rounding.0);
    let carried = front_word(p, modulus, table, front.place);
    let drift = ring::sub(phase(p, key, out), carried);
    drifts[0] = brought;
    drifts[1] = drift;
    both_within(modulus, results, brought, drift)
}
