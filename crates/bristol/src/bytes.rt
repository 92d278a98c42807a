// Bytes of our circuit form, written into a lent slice.
ghost use Rattle.std.specs.Prelude.{◌≡◌, [], ◌∷◌, ◌+◌, ◌≤◌, ◌<◌, length};
ghost use Rattle.bristol.specs.Import.{field_bytes, eight_bytes, head_bytes};
ghost use Rattle.report.specs.Private.{splice};

// A field of two bytes, the low one first.
pub(crate) fn put_field(out: &mut [u8], at: usize, v: usize)
    requires { (at + 2 ≤ length out.old) × (v < 65536) }
    ensures { out.new ≡ splice out.old at (field_bytes v) }
{
    out[at] = (v % 256) as u8;
    out[at + 1] = (v / 256) as u8;
}

// The eight bytes of a gate of two operands at most: its kind and a byte 0 are a field too.
pub(crate) fn put_eight(out: &mut [u8], at: usize, kind: usize, a: usize, b: usize)
    requires { (at + 8 ≤ length out.old) × (kind < 256) × (a < 65536) × (b < 65536) }
    ensures { out.new ≡ splice out.old at (eight_bytes kind a b) }
{
    put_field(out, at, kind);
    put_field(out, at + 2, a);
    put_field(out, at + 4, b);
    put_field(out, at + 6, 0);
}

// The mark.
fn put_mark(out: &mut [u8])
    requires { 3 ≤ length out.old }
    ensures { out.new ≡ splice out.old 0 (69 ∷ 71 ∷ 76 ∷ []) }
{
    out[0] = 69;
    out[1] = 71;
    out[2] = 76;
}

// The mark, the version, the numbers of inputs, gates and outputs.
pub(crate) fn put_head(out: &mut [u8], i: usize, g: usize, o: usize)
    requires { (11 ≤ length out.old) × (i < 65536) × (g < 65536) × (o < 65536) }
    ensures { out.new ≡ splice out.old 0 (head_bytes i g o) }
{
    put_mark(out);
    put_field(out, 3, 1);
    put_field(out, 5, i);
    put_field(out, 7, g);
    put_field(out, 9, o);
}
