// The fields of a circuit's bytes. Past the end of the bytes stands 0, so that they are total; `byte_there` and `field_there` are for places that there are.
ghost use Rattle.std.specs.Prelude.{◌≡◌, ◌+◌, ◌<◌, ltb, length, cond};
ghost use Rattle.ring.specs.Word.{at};
ghost use Rattle.circuit.specs.Form.{field_at, gates, outputs, kind_at, operand_at, output_at, counts_of};

use crate::Shape;

// The byte at place i.
pub(crate) fn byte(bytes: &[u8], i: usize) -> usize
    ensures value { result ≡ at bytes.now i }
    ensures upper_bound { result < 256 }
{
    match bytes.get(i) {
        Some(byte) => usize::from(*byte),
        None => 0,
    }
}

// The 16-bit field at place i, low byte first.
#[tactic(auto, unfolding(crate::specs::Form::field_at))]
pub(crate) fn field(bytes: &[u8], i: usize) -> usize
    requires { i < 4294967296 }
    ensures value { result ≡ field_at bytes.now i }
    ensures upper_bound { result < 65536 }
{
    let low = byte(bytes, i);
    let high = byte(bytes, i + 1);
    low + 256 * high
}

// The byte at place i, which there is.
pub(crate) fn byte_there(bytes: &[u8], i: usize) -> usize
    requires { i < length bytes.now }
    ensures value { result ≡ at bytes.now i }
    ensures upper_bound { result < 256 }
{
    usize::from(bytes[i])
}

// The 16-bit field at place i, which there is: reading a gate takes no test of its length.
#[tactic(auto, unfolding(crate::specs::Form::field_at))]
pub(crate) fn field_there(bytes: &[u8], i: usize) -> usize
    requires { i + 1 < length bytes.now }
    ensures value { result ≡ field_at bytes.now i }
    ensures upper_bound { result < 65536 }
{
    let low = byte_there(bytes, i);
    let high = byte_there(bytes, i + 1);
    low + 256 * high
}

/// The version and the counts.
#[tactic(auto, unfolding(crate::specs::Form::counts_of))]
pub fn counts(bytes: &[u8]) -> Shape
    ensures { result ≡ counts_of bytes.now }
{
    Shape {
        version: field(bytes, 3),
        inputs: field(bytes, 5),
        gates: field(bytes, 7),
        outputs: field(bytes, 9),
    }
}

/// The number of gate g's kind; 0 where there is no gate g.
pub fn kind_at(bytes: &[u8], g: usize) -> usize
    ensures { result ≡ cond (ltb g (gates bytes.now)) (kind_at bytes.now g) 0 }
{
    if g < field(bytes, 7) {
        byte(bytes, 11 + 8 * g)
    } else {
        0
    }
}

/// Operand x of gate g; 0 where there is no gate g or no operand x.
pub fn operand_at(bytes: &[u8], g: usize, x: usize) -> usize
    ensures { result ≡ cond (ltb g (gates bytes.now)) (cond (ltb x 3) (operand_at bytes.now g x) 0) 0 }
{
    if g < field(bytes, 7) && x < 3 {
        field(bytes, 11 + 8 * g + 2 + 2 * x)
    } else {
        0
    }
}

/// The wire of output o; 0 where there is no output o.
pub fn output_at(bytes: &[u8], o: usize) -> usize
    ensures { result ≡ cond (ltb o (outputs bytes.now)) (output_at bytes.now o) 0 }
{
    if o < field(bytes, 9) {
        field(bytes, 11 + 8 * field(bytes, 7) + 2 * o)
    } else {
        0
    }
}
