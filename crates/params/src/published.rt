// The parameter sets of src/params.rs that are in range, by their names there: their numbers, without the noise. Uint7 and Uint8 (n 1,160,
// BASEBIT 7) are outside the ranges of document 01 and refused with 1.
ghost use Rattle.std.specs.Prelude.{◌≡◌};
ghost use Rattle.params.specs.Published.{security80, security110, security128, uint1, uint2, uint3, uint4, uint5, uint6, uint7, uint8};

use super::Params;

// `SECURITY_80_BIT`.
pub fn security_80_bit() -> Params
    ensures { result ≡ security80 }
{
    Params {
        n: 550,
        nbit: 10,
        bgbit: 6,
        l: 3,
        basebit: 2,
        t: 7,
    }
}

// `SECURITY_110_BIT`.
pub fn security_110_bit() -> Params
    ensures { result ≡ security110 }
{
    Params {
        n: 630,
        nbit: 10,
        bgbit: 6,
        l: 3,
        basebit: 2,
        t: 8,
    }
}

// `SECURITY_128_BIT`.
pub fn security_128_bit() -> Params
    ensures { result ≡ security128 }
{
    Params {
        n: 700,
        nbit: 10,
        bgbit: 6,
        l: 3,
        basebit: 2,
        t: 9,
    }
}

// `SECURITY_UINT1`.
pub fn uint1() -> Params
    ensures { result ≡ uint1 }
{
    Params {
        n: 700,
        nbit: 10,
        bgbit: 10,
        l: 2,
        basebit: 2,
        t: 8,
    }
}

// `SECURITY_UINT2`.
pub fn uint2() -> Params
    ensures { result ≡ uint2 }
{
    Params {
        n: 687,
        nbit: 10,
        bgbit: 18,
        l: 1,
        basebit: 4,
        t: 3,
    }
}

// `SECURITY_UINT3`.
pub fn uint3() -> Params
    ensures { result ≡ uint3 }
{
    Params {
        n: 820,
        nbit: 10,
        bgbit: 23,
        l: 1,
        basebit: 6,
        t: 2,
    }
}

// `SECURITY_UINT4`.
pub fn uint4() -> Params
    ensures { result ≡ uint4 }
{
    Params {
        n: 820,
        nbit: 10,
        bgbit: 22,
        l: 1,
        basebit: 5,
        t: 3,
    }
}

// `SECURITY_UINT5`.
pub fn uint5() -> Params
    ensures { result ≡ uint5 }
{
    Params {
        n: 1071,
        nbit: 10,
        bgbit: 22,
        l: 1,
        basebit: 6,
        t: 3,
    }
}

// `SECURITY_UINT6`.
pub fn uint6() -> Params
    ensures { result ≡ uint6 }
{
    Params {
        n: 1071,
        nbit: 10,
        bgbit: 22,
        l: 1,
        basebit: 6,
        t: 3,
    }
}

// `SECURITY_UINT7`: refused with 1.
pub fn uint7() -> Params
    ensures { result ≡ uint7 }
{
    Params {
        n: 1160,
        nbit: 10,
        bgbit: 22,
        l: 1,
        basebit: 7,
        t: 3,
    }
}

// `SECURITY_UINT8`: refused with 1.
pub fn uint8() -> Params
    ensures { result ≡ uint8 }
{
    Params {
        n: 1160,
        nbit: 10,
        bgbit: 22,
        l: 1,
        basebit: 7,
        t: 3,
    }
}
