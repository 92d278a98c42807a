#![tactic(auto)]
// Loops over the words of a slice, for slices of any lengths.
ghost use Rattle.std.specs.Prelude.{◌≡◌, ◌+◌, ◌*◌, ◌%◌, ◌≤◌, ◌<◌, ℕ, length};
ghost use Rattle.ring.specs.Word.{Q, at};
ghost use Rattle.ring.specs.Sums.{tab};
ghost use Rattle.ring.specs.Poly.{plus, minus};
ghost use Rattle.words.specs.Copy.{copied};

// f of each word of out and the word of a at its place, as far as both go: the rest of out stays.
fn combine<F: Fn(u32, u32) -> u32>(f: F, a: &[u32], out: &mut [u32])
    requires { F.IsAlwaysCallable f }
    ensures len { length out.new ≡ length out.old }
    ensures both { (k : ℕ) → k < length a.now → k < length out.old → F.post f (at out.old k) (at a.now k) (at out.new k) }
    ensures rest { (k : ℕ) → length a.now ≤ k → at out.new k ≡ at out.old k }
{
    for i in 0..a.len().min(out.len()) {
        out[i] = f(out[i], a[i]);
    }
}

/// v at every place.
#[tactic(auto, using(ring::proofs::Tab::tab_none, ring::proofs::Tab::tab_more))]
pub fn fill(v: u32, out: &mut [u32])
    ensures { out.new ≡ tab (length out.old) (λ i. v) }
{
    for word in out.iter_mut() {
        *word = v;
    }
}

/// The words of a over the first of out, as many as both have.
// Word by word, which is compiled to memcpy: `copy_from_slice` would be memmove, a name that the archive needs nowhere else.
#[tactic(auto, using(ring::proofs::Tab::tab_none, ring::proofs::Tab::tab_more, crate::proofs::Loops::copied_by))]
pub fn copy(a: &[u32], out: &mut [u32])
    ensures { out.new ≡ copied a.now out.old }
{
    for i in 0..a.len().min(out.len()) {
        out[i] = a[i];
    }
}

/// The words of a added to those of out: past the end of a nothing is added.
pub fn add(a: &[u32], out: &mut [u32])
    ensures { out.new ≡ plus (length out.old) out.old a.now }
{
    combine(ring::add, a, out);
}

/// The words of a subtracted from those of out.
pub fn subtract(a: &[u32], out: &mut [u32])
    ensures { out.new ≡ minus (length out.old) out.old a.now }
{
    combine(ring::sub, a, out);
}

/// x times the words of a, added to those of out: past the end of a nothing is added.
pub fn add_times(x: u32, a: &[u32], out: &mut [u32])
    ensures { out.new ≡ tab (length out.old) (λ k. (at out.old k + x * at a.now k) % Q) }
{
    combine(|o, w| ring::add(o, ring::mul(x, w)), a, out);
}

/// x - y, word by word: the words of x over the first of out, and those of y subtracted.
pub fn difference(x: &[u32], y: &[u32], out: &mut [u32])
    ensures { out.new ≡ minus (length out.old) (copied x.now out.old) y.now }
{
    copy(x, out);
    subtract(y, out);
}
