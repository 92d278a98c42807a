#![tactic(auto)]
// What the turns of a rotation tell whoever holds the secret key (01, Drift), without rotating: the place that they bring to the front, which is the rounded phase of the
// ciphertext in steps, and what rounding brings in, which is that less the phase. A gate's drift asks it of its sum.
ghost use Rattle.std.specs.Prelude.{◌≡◌, ◌*◌, ◌%◌, length};
ghost use Rattle.ring.specs.Word.{Q, at};
ghost use Rattle.ring.specs.Sums.{sum_to};
ghost use Rattle.params.specs.Refusal.{answer, given};
ghost use Rattle.tlwe.specs.declared.Level.TheVariants.{Zero};
ghost use Rattle.tlwe.specs.Key.{keyed_number};
ghost use Rattle.rotation.specs.Amount.{mask_amount};
ghost use Rattle.drift.specs.PrivateShort.{place_of};
ghost use Rattle.turns.specs.Front.{front_place, front_rounding};
ghost use Rattle.turns.specs.Private.{Fits};

use params::{Checked, Params, Refusal};
use tlwe::Level;
use utils::{Amount, Torus};

/// What the turns of a rotation by a ciphertext tell: the place, below 2N, that they bring to the front, and what rounding brings in.
#[derive(Clone, Copy)]
pub struct Rounded {
    pub place: u32,
    pub rounding: Torus,
}

// The amounts of the masks at the ones of the key, added up modulo 2^32.
fn masks_turn(p: Checked, key: &[u32], src: &[u32]) -> u32
    requires { Fits p key.now src.now }
    ensures { result ≡ sum_to p.n (λ j. at key.now j * mask_amount p (at src.now j)) % Q }
{
    let mut turned = 0;
    for (i, k) in key.iter().enumerate() {
        let amount = rotation::mask_amount(p.params, Torus(src[i])).unwrap_or(Amount(0));
        turned = ring::add(turned, ring::mul(*k, amount.0));
    }
    turned
}

// The place that all turns bring to the front.
fn place_of(p: Checked, key: &[u32], src: &[u32]) -> u32
    requires { Fits p key.now src.now }
    ensures { result ≡ place_of p key.now src.now }
{
    let turn = ring::power(p.params.nbit + 1);
    let last = key.len();
    let body = rotation::body_amount(p.params, Torus(src[last]))
        .unwrap_or(Amount(0))
        .0;
    let masks = masks_turn(p, key, src);
    let turned = (body + masks % turn) % turn;
    (turn - turned) % turn
}

/// What the turns of a rotation by src tell, key being the secret key of level 0. What rounding brings in is the rounded phase less the phase. Refusals: 1, 2, 4.
#[tactic(auto, unfolding(tlwe::specs::Key::keyed_number))]
pub fn front(p: Params, key: &[u32], src: &[u32]) -> Result<Rounded, Refusal>
    ensures { result ≡ given (answer (keyed_number p Zero (length src.now) key.now)) (record { place = front_place p key.now src.now; rounding = record { 0 = front_rounding p key.now src.now } }) }
{
    let c = params::check(p)?;
    let phase = tlwe::keys::phase_of(p, Level::Zero, src, key)?;
    let place = place_of(c, key, src);
    let near = ring::mul(place, ring::power(31 - p.nbit));
    Ok(Rounded {
        place,
        rounding: Torus(ring::sub(near, phase.0)),
    })
}
