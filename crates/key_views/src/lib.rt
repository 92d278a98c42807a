#![tactic(auto)]
// Views of the two keys that a gate is lent, in place of the two vectors of `CloudKey` (src/key.rs; 01, 'What changes shape'): each is a struct that refers to its lent slice, so
// that neither key stands where the other is wanted. A call takes its views apart and calls the routine of the same name on the slices: refusals, answers and words are that
// routine's, whatever slice a view refers to. The calls are few: plain slices serve all else.
ghost use Rattle.std.specs.Prelude.{◌≡◌, [], length};
ghost use Rattle.params.specs.Refusal.{answer, if_done, number_of, outcome};
ghost use Rattle.params.specs.Sizes.{switching_words, bootstrapping_words};
ghost use Rattle.key.specs.Switching.{row_part, lookup_number};
ghost use Rattle.key.specs.Bits.{bit_rows, bit_rows_number};
ghost use Rattle.switching.specs.Switched.{switch_number, switched};
ghost use Rattle.blind_rotation.specs.Refusals.{blind_number, blind_out};
ghost use Rattle.gates.specs.Refusals.{gate_number};
ghost use Rattle.gates.specs.Gate.{gate_out};
ghost use Rattle.key_views.specs.View.{view_number, viewed};

use gate_sums::Kind;
use params::{Params, Refusal};

/// The lent switching key, the Rust's `key_switching_key`.
#[derive(Clone, Copy)]
pub struct SwitchingKey<'a> {
    pub lent: &'a [u32],
}

/// The lent bootstrapping key, the Rust's `bootstrapping_key`.
#[derive(Clone, Copy)]
pub struct BootstrappingKey<'a> {
    pub lent: &'a [u32],
}

/// What a view of a switching key of so many words is answered. Refusals: 1, 2.
#[tactic(auto, unfolding(crate::specs::View::view_number))]
pub fn switching_key_answer(p: Params, length: usize) -> Result<(), Refusal>
    ensures { result ≡ outcome (answer (view_number p (switching_words p) length)) }
{
    Refusal::Length.unless(length == params::check(p)?.sizes.ksk)
}

/// What a view of a bootstrapping key of so many words is answered. Refusals: 1, 2.
#[tactic(auto, unfolding(crate::specs::View::view_number))]
pub fn bootstrapping_key_answer(p: Params, length: usize) -> Result<(), Refusal>
    ensures { result ≡ outcome (answer (view_number p (bootstrapping_words p) length)) }
{
    Refusal::Length.unless(length == params::check(p)?.sizes.bsk)
}

// What a view of a slice refers to, by its answer: the slice, or its empty part.
fn part_of(answer: Result<(), Refusal>, slice: &[u32]) -> &[u32]
    ensures { result.now ≡ if_done (number_of answer) slice.now [] }
{
    if answer.is_ok() { slice } else { &slice[..0] }
}

// What `switching_key` puts into its view.
#[tactic(auto, unfolding(crate::specs::View::viewed, crate::specs::View::view_number))]
fn switching_part(p: Params, key: &[u32]) -> &[u32]
    ensures { result.now ≡ viewed p (switching_words p) key.now }
{
    part_of(switching_key_answer(p, key.len()), key)
}

// What `bootstrapping_key` puts into its view.
#[tactic(auto, unfolding(crate::specs::View::viewed, crate::specs::View::view_number))]
fn bootstrapping_part(p: Params, key: &[u32]) -> &[u32]
    ensures { result.now ≡ viewed p (bootstrapping_words p) key.now }
{
    part_of(bootstrapping_key_answer(p, key.len()), key)
}

/// The view of a lent switching key; over the empty part where `switching_key_answer` gives a refusal.
pub fn switching_key<'a>(p: Params, key: &'a [u32]) -> SwitchingKey<'a>
    ensures { result.lent.now ≡ viewed p (switching_words p) key.now }
{
    SwitchingKey {
        lent: switching_part(p, key),
    }
}

/// The view of a lent bootstrapping key; over the empty part where `bootstrapping_key_answer` gives a refusal.
pub fn bootstrapping_key<'a>(p: Params, key: &'a [u32]) -> BootstrappingKey<'a>
    ensures { result.lent.now ≡ viewed p (bootstrapping_words p) key.now }
{
    BootstrappingKey {
        lent: bootstrapping_part(p, key),
    }
}

/// `key::switching_row`: row (i, j, k), as that part of the lent key, or the empty part.
pub fn switching_row<'a>(
    p: Params,
    key: SwitchingKey<'a>,
    i: usize,
    j: usize,
    k: usize,
) -> &'a [u32]
    ensures { result.now ≡ if_done (lookup_number p (length key.entry.lent.now) i j k) (row_part p key.entry.lent.now i j k) [] }
{
    key::switching_row(p, key.lent, i, j, k)
}

/// `key::bit_rows`: the 2L rows of bit i, as that part of the lent key, or the empty part.
pub fn bit_rows<'a>(p: Params, key: BootstrappingKey<'a>, i: usize) -> &'a [u32]
    ensures { result.now ≡ if_done (bit_rows_number p (length key.entry.lent.now) i) (bit_rows p key.entry.lent.now i) [] }
{
    key::bit_rows(p, key.lent, i)
}

/// `switching::identity_key_switching`: the sample src of level 1 as one of level 0. Refusals: 1, 2.
pub fn identity_key_switching<'s, 'k, 'o>(
    p: Params,
    src: &'s [u32],
    ksk: SwitchingKey<'k>,
    out: &'o mut [u32],
) -> Result<(), Refusal>
    ensures said { result ≡ outcome (answer (switch_number p (length src.now) (length ksk.entry.lent.now) (length out.old))) }
    ensures written { out.new ≡ if_done (switch_number p (length src.now) (length ksk.entry.lent.now) (length out.old)) (switched p ksk.entry.lent.now src.now) out.old }
{
    switching::identity_key_switching(p, src, ksk.lent, out)
}

/// `blind_rotation::blind_rotate`: the gates' start vector rotated by the ciphertext src. Refusals: 1, 2.
pub fn blind_rotate<'s, 'k, 'a, 'b>(
    p: Params,
    src: &'s [u32],
    key: BootstrappingKey<'k>,
    a: &'a mut [u32],
    b: &'b mut [u32],
) -> Result<(), Refusal>
    ensures said { result ≡ outcome (answer (blind_number p (length src.now) (length key.entry.lent.now) (length a.old) (length b.old))) }
    ensures first { a.new ≡ (blind_out p src.now key.entry.lent.now (record { a = a.old; b = b.old })).a }
    ensures second { b.new ≡ (blind_out p src.now key.entry.lent.now (record { a = a.old; b = b.old })).b }
{
    blind_rotation::blind_rotate(p, src, key.lent, a, b)
}

/// `gates::gate`, a two-input gate, over both views. Refusals: 1, 2.
pub fn gate<'a, 'b, 'k, 's, 'o>(
    p: Params,
    kind: Kind,
    a: &'a [u32],
    b: &'b [u32],
    ksk: SwitchingKey<'k>,
    bsk: BootstrappingKey<'s>,
    out: &'o mut [u32],
) -> Result<(), Refusal>
    ensures said { result ≡ outcome (answer (gate_number p (length a.now) (length b.now) (length ksk.entry.lent.now) (length bsk.entry.lent.now) (length out.old))) }
    ensures written { out.new ≡ gate_out p kind a.now b.now ksk.entry.lent.now bsk.entry.lent.now out.old }
{
    gates::gate(p, kind, a, b, ksk.lent, bsk.lent, out)
}
