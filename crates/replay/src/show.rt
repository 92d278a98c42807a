// What a case prints: a line with the routine, the refusal's number, and the words of each slice that it was lent to write, or the value beside the answer.
use params::{Params, Refusal};
use std::io;

// The routine, the number and the words of one slice.
pub fn words(rt: &impl Print, name: &str, r: Result<(), Refusal>, s: &[u32]) -> io::Result<()> {
    answer(rt, name, r)?;
    all_words(rt, s)?;
    end(rt)
}

// The same of two slices.
pub fn pair(
    rt: &impl Print,
    name: &str,
    r: Result<(), Refusal>,
    a: &[u32],
    b: &[u32],
) -> io::Result<()> {
    answer(rt, name, r)?;
    all_words(rt, a)?;
    all_words(rt, b)?;
    end(rt)
}

// The same of a slice of bytes.
pub fn bytes(rt: &impl Print, name: &str, r: Result<(), Refusal>, s: &[u8]) -> io::Result<()> {
    answer(rt, name, r)?;
    all_bytes(rt, s)?;
    end(rt)
}

// The routine, the number, and the low half of the value, 0 where there is none.
pub fn value(rt: &impl Print, name: &str, r: Result<u64, Refusal>) -> io::Result<()> {
    let x = r.unwrap_or(0);
    answer(rt, name, r.map(|_| ()))?;
    bar(rt)?;
    hex(rt, x % 0x1_0000_0000)?;
    end(rt)
}

// The routine and the words of a part of a slice.
pub fn row(rt: &impl Print, name: &str, s: &[u32]) -> io::Result<()> {
    print!(rt; "{name}")?;
    all_words(rt, s)?;
    end(rt)
}

// A name and the six numbers of a parameter set.
pub fn set(rt: &impl Print, name: &str, p: Params) -> io::Result<()> {
    row(rt, name, &[p.n, p.nbit, p.bgbit, p.l, p.basebit, p.t])
}

// The routine and the number, 0 where the call did its work.
fn answer(rt: &impl Print, name: &str, r: Result<(), Refusal>) -> io::Result<()> {
    let number = match r {
        Ok(()) => 0,
        Err(refusal) => refusal.number(),
    };
    print!(rt; "{name}")?;
    hex(rt, u64::from(number))
}

// What stands before each slice.
fn bar(rt: &impl Print) -> io::Result<()> {
    print!(rt; " |")
}

// A space and a number of 32 bits, in hexadecimal.
fn hex(rt: &impl Print, x: u64) -> io::Result<()> {
    print!(rt; " {x:08x}")
}

// A word.
fn one_word(rt: &impl Print, x: u32) -> io::Result<()> {
    hex(rt, u64::from(x))
}

// A byte.
fn one_byte(rt: &impl Print, x: u8) -> io::Result<()> {
    hex(rt, u64::from(x))
}

// The words of a slice.
fn all_words(rt: &impl Print, s: &[u32]) -> io::Result<()> {
    bar(rt)?;
    for x in s {
        one_word(rt, *x)?;
    }
    Ok(())
}

// The bytes of a slice.
fn all_bytes(rt: &impl Print, s: &[u8]) -> io::Result<()> {
    bar(rt)?;
    for x in s {
        one_byte(rt, *x)?;
    }
    Ok(())
}

// The line's end.
fn end(rt: &impl Print) -> io::Result<()> {
    println!(rt)
}

// The double of a bit pattern, a NaN's too.
pub fn double(bits: u64) -> f64 {
    if 0x7FF0000000000000 < bits % 0x8000000000000000 {
        return 0.0 / 0.0;
    }
    f64::from_bits(bits)
}
