// A bit for each of the first wires, eight in a byte: whether it is set.
ghost use Rattle.std.specs.Prelude.{◌≡◌, ◌||◌, ℕ, ◌*◌, ◌^◌, ◌<◌, ltb, eqb, length};
ghost use Rattle.bristol_form.specs.Private.{held_bit};

// 2^i as a byte.
fn power(i: usize) -> u8
    requires { i < 8 }
    ensures { result ≡ 2 ^ i }
{
    1u8 << i
}

// Wire w's bit.
pub(crate) fn bit_at(bits: &[u8], w: usize) -> bool
    requires { w < 8 * length bits.now }
    ensures { result ≡ held_bit bits.now w }
{
    let i = w / 8;
    bits[i] / power(w % 8) % 2 == 1
}

// Wire w's bit is set from now on.
pub(crate) fn put_bit(bits: &mut [u8], w: usize)
    requires { w < 8 * length bits.old }
    ensures bits_len_unchanged { length bits.new ≡ length bits.old }
    ensures each { (v : ℕ) → held_bit bits.new v ≡ held_bit bits.old v || eqb v w }
{
    let i = w / 8;
    let b = bits[i];
    let unit = power(w % 8);
    if b / unit % 2 == 1 {
        return;
    }
    bits[i] = b + unit;
}

// The bits of the first n wires, or of all that there are bits for, are set from now on.
pub(crate) fn put_first(bits: &mut [u8], n: usize)
    ensures bits_len_unchanged { length bits.new ≡ length bits.old }
    ensures each { (v : ℕ) → v < 8 * length bits.old → held_bit bits.new v ≡ held_bit bits.old v || ltb v n }
{
    for w in 0..n {
        if w / 8 >= bits.len() {
            return;
        }
        put_bit(bits, w);
    }
}
