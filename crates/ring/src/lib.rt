#![tactic(auto)]
// Words modulo 2^32, as functions: what the other crates reckon with. The rest of this crate is mathematics, in specs/ and proofs/.
ghost use Rattle.std.specs.Prelude.{◌≡◌, ◌+◌, ◌*◌, ◌%◌, ◌^◌};
ghost use Rattle.ring.specs.Word.{Q, neg, comp};

// x + y, modulo 2^32.
pub fn add(x: u32, y: u32) -> u32
    ensures { result ≡ (x + y) % Q }
{
    std::num::wrapping_add_u32(x, y)
}

// x - y, modulo 2^32.
pub fn sub(x: u32, y: u32) -> u32
    ensures { result ≡ (x + neg y) % Q }
{
    std::num::wrapping_sub_u32(x, y)
}

// -x, modulo 2^32: what `Neg` of src/tlwe.rs does to a word.
pub fn negated(x: u32) -> u32
    ensures { result ≡ neg x % Q }
{
    std::num::wrapping_sub_u32(0, x)
}

// The complement, `Torus::MAX - x`: one less than the negative.
pub fn complement(x: u32) -> u32
    ensures { result ≡ comp x }
{
    u32::MAX - x
}

// x · y, modulo 2^32.
pub fn mul(x: u32, y: u32) -> u32
    ensures { result ≡ x * y % Q }
{
    let wide = (x as u64) * (y as u64);
    (wide % 0x1_0000_0000) as u32
}

// 2^s, modulo 2^32: 0 from 32 on.
pub fn power(s: u32) -> u32
    ensures { result ≡ 2 ^ s % Q }
{
    if 32 <= s {
        return 0;
    }
    1u32 << s
}
