// Pieces of text, each written over a slice from a place on; the place after it comes back.
ghost use Rattle.std.specs.Prelude.{◌≡◌, [], ◌∷◌, ◌+◌, ◌≤◌, ◌<◌, length};
ghost use Rattle.report.specs.Decimal.{decimal};
ghost use Rattle.report.specs.Private.{splice};
ghost use Rattle.report.specs.Text.{named, bits_text, line_text};

// One byte.
pub(crate) fn put_byte(out: &mut [u8], at: usize, b: u8) -> usize
    requires { at < length out.old }
    ensures value { result ≡ at + 1 }
    ensures out_after { out.new ≡ splice out.old at (b ∷ []) }
{
    out[at] = b;
    at + 1
}

// All bytes of a slice.
#[tactic(auto, unfolding(crate::specs::Private::splice))]
pub(crate) fn put(out: &mut [u8], at: usize, src: &[u8]) -> usize
    requires { at + length src.now ≤ length out.old }
    ensures value { result ≡ at + length src.now }
    ensures out_after { out.new ≡ splice out.old at src.now }
{
    let end = at + src.len();
    out[at..end].copy_from_slice(src);
    end
}

// The characters of a row of bits.
fn put_bits(out: &mut [u8], at: usize, bits: &[u8]) -> usize
    requires { at + length bits.now ≤ length out.old }
    ensures value { result ≡ at + length bits.now }
    ensures out_after { out.new ≡ splice out.old at (bits_text bits.now) }
{
    for (i, bit) in bits.iter().enumerate() {
        out[at + i] = b'0' + (*bit != 0) as u8;
    }
    at + bits.len()
}

// A number in decimal.
fn put_number(out: &mut [u8], at: usize, n: usize) -> usize
    requires { at + length (decimal n) ≤ length out.old }
    ensures value { result ≡ at + length (decimal n) }
    ensures out_after { out.new ≡ splice out.old at (decimal n) }
{
    if n < 10 {
        return put_byte(out, at, b'0' + n as u8);
    }
    let next = put_number(out, at, n / 10);
    put_byte(out, next, b'0' + (n % 10) as u8)
}

// A word and the number that it names, which has at most 20 digits.
pub(crate) fn put_named(out: &mut [u8], at: usize, word: &[u8], n: usize) -> usize
    requires { at + length word.now + 20 ≤ length out.old }
    ensures value { result ≡ at + length (named word.now n) }
    ensures out_after { out.new ≡ splice out.old at (named word.now n) }
{
    let next = put(out, at, word);
    put_number(out, next, n)
}

// A line of the table.
pub(crate) fn put_line(out: &mut [u8], at: usize, ins: &[u8], outs: &[u8]) -> usize
    requires { at + length ins.now + length outs.now + 2 ≤ length out.old }
    ensures value { result ≡ at + length (line_text ins.now outs.now) }
    ensures out_after { out.new ≡ splice out.old at (line_text ins.now outs.now) }
{
    let a = put_bits(out, at, ins);
    let b = put_byte(out, a, b' ');
    let c = put_bits(out, b, outs);
    put_byte(out, c, b'\n')
}
