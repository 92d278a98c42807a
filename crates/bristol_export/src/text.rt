// Pieces of text, each laid over a slice from a place on, as far as the slice reaches; the place after it comes back.
ghost use Rattle.std.specs.Prelude.{◌≡◌, [], ◌∷◌, ◌+◌, ◌≤◌, ◌<◌, length};
ghost use Rattle.bristol_export.specs.Private.{laid, digit_if};
ghost use Rattle.bristol_export.specs.Text.{ended, two_text, one_text, line_text};
ghost use Rattle.report.specs.Decimal.{decimal};

// One byte.
#[tactic(auto, using(crate::proofs::Laid::laid_one, crate::proofs::Laid::laid_out))]
fn put_byte(out: &mut [u8], at: usize, b: u8) -> usize
    requires { at ≤ 300000 }
    ensures value { result ≡ at + 1 }
    ensures out_after { out.new ≡ laid out.old at (b ∷ []) }
{
    if at < out.len() {
        out[at] = b;
    }
    at + 1
}

// All bytes of a slice.
fn put(out: &mut [u8], at: usize, src: &[u8]) -> usize
    requires { (at ≤ 200000) × (length src.now ≤ 5) }
    ensures value { result ≡ at + length src.now }
    ensures out_after { out.new ≡ laid out.old at src.now }
{
    for (i, b) in src.iter().enumerate() {
        put_byte(out, at + i, *b);
    }
    at + src.len()
}

// A digit where it is shown.
fn put_digit_if(out: &mut [u8], at: usize, shown: bool, d: usize) -> usize
    requires { (at ≤ 200010) × (d < 10) }
    ensures value { (result ≡ at + length (digit_if shown d)) × (result ≤ at + 1) }
    ensures out_after { out.new ≡ laid out.old at (digit_if shown d) }
{
    if shown {
        put_byte(out, at, b'0' + (d as u8))
    } else {
        at
    }
}

// A number in decimal, of at most four digits.
fn put_number(out: &mut [u8], at: usize, n: usize) -> usize
    requires { (at ≤ 200000) × (n < 10000) }
    ensures value { result ≡ at + length (decimal n) }
    ensures out_after { out.new ≡ laid out.old at (decimal n) }
{
    let a = put_digit_if(out, at, 999 < n, n / 1000);
    let b = put_digit_if(out, a, 99 < n, n / 100 % 10);
    let c = put_digit_if(out, b, 9 < n, n / 10 % 10);
    put_digit_if(out, c, true, n % 10)
}

// A number, and what stands behind it.
pub(crate) fn put_ended(out: &mut [u8], at: usize, n: usize, end: &[u8]) -> usize
    requires { (at ≤ 100100) × (n < 10000) × (length end.now ≤ 5) }
    ensures value { result ≡ at + length (ended n end.now) }
    ensures out_after { out.new ≡ laid out.old at (ended n end.now) }
{
    let next = put_number(out, at, n);
    put(out, next, end)
}

// A line that reads x and y, sets n and ends with a name.
fn put_two(out: &mut [u8], at: usize, x: usize, y: usize, n: usize, end: &[u8]) -> usize
    requires { (at ≤ 100000) × (x < 10000) × (y < 10000) × (n < 10000) × (length end.now ≤ 5) }
    ensures value { result ≡ at + length (two_text x y n end.now) }
    ensures out_after { out.new ≡ laid out.old at (two_text x y n end.now) }
{
    let a = put(out, at, b"2 1 ");
    let b = put_ended(out, a, x, b" ");
    let c = put_ended(out, b, y, b" ");
    put_ended(out, c, n, end)
}

// A line that reads x, sets n and ends with a name.
fn put_one(out: &mut [u8], at: usize, x: usize, n: usize, end: &[u8]) -> usize
    requires { (at ≤ 100000) × (x < 10000) × (n < 10000) × (length end.now ≤ 5) }
    ensures value { result ≡ at + length (one_text x n end.now) }
    ensures out_after { out.new ≡ laid out.old at (one_text x n end.now) }
{
    let a = put(out, at, b"1 1 ");
    let b = put_ended(out, a, x, b" ");
    put_ended(out, b, n, end)
}

// The line of a text gate, by its name's number: XOR, AND, INV, EQ, EQW.
pub(crate) fn put_line(
    out: &mut [u8],
    at: usize,
    name: usize,
    x: usize,
    y: usize,
    n: usize,
) -> usize
    requires { (at ≤ 100000) × (1 ≤ name) × (name ≤ 5) × (x < 10000) × (y < 10000) × (n < 10000) }
    ensures value { result ≡ at + length (line_text name x y n) }
    ensures out_after { out.new ≡ laid out.old at (line_text name x y n) }
{
    if name < 2 {
        return put_two(out, at, x, y, n, b" XOR\n");
    }
    if name < 3 {
        return put_two(out, at, x, y, n, b" AND\n");
    }
    if name < 4 {
        return put_one(out, at, x, n, b" INV\n");
    }
    if name < 5 {
        return put_one(out, at, x, n, b" EQ\n");
    }
    put_one(out, at, x, n, b" EQW\n")
}
