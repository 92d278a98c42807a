// Runs document 01's examples on doubles, and replays doubles and words beside the Rust. `stdout` was not written by this program: a Rust program that holds
// the text of `f64_to_torus` and `torus_to_f64` of src/utils.rs, built by `rustc -O`, wrote it for the same examples and lists (`list` says how these were
// chosen). The last two lines, of the slice form, are document 01's: the words of the same doubles, and refusal 2 with nothing written.
#![tactic(auto)]

mod list;

use params::Refusal;
use std::io;

// A space and a word, in hexadecimal.
fn hex(rt: &impl Print, w: u32) -> io::Result<()> {
    print!(rt; " {w:08x}")
}

// The word of d.
fn word(rt: &impl Print, d: f64) -> io::Result<()> {
    let t = utils::f64_to_torus(d);
    hex(rt, t.0)
}

// A line: the double as it is written, and its word.
fn example(rt: &impl Print, name: &str, d: f64) -> io::Result<()> {
    print!(rt; "{name}")?;
    word(rt, d)?;
    println!(rt)
}

// The double of a bit pattern, a NaN's too.
fn double(bits: u64) -> f64 {
    if 0x7FF0000000000000 < bits % 0x8000000000000000 {
        return 0.0 / 0.0;
    }
    f64::from_bits(bits)
}

// A line: the bits of a double, and its word.
fn there(rt: &impl Print, bits: u64) -> io::Result<()> {
    print!(rt; "{bits:016x}")?;
    word(rt, double(bits))?;
    println!(rt)
}

// The bits of t / 2^32.
fn bits_of(t: u32) -> u64 {
    let d = utils::torus_to_f64(utils::Torus(t));
    f64::to_bits(d)
}

// A line: a word, the bits of its double, and the word of that.
fn back(rt: &impl Print, t: u32) -> io::Result<()> {
    let bits = bits_of(t);
    print!(rt; "{t:08x} {bits:016x}")?;
    word(rt, utils::torus_to_f64(utils::Torus(t)))?;
    println!(rt)
}

// The list of doubles.
fn doubles(rt: &impl Print) -> io::Result<()> {
    for bits in &list::DOUBLES {
        there(rt, *bits)?;
    }
    Ok(())
}

// The list of words.
fn words(rt: &impl Print) -> io::Result<()> {
    for t in &list::WORDS {
        back(rt, *t)?;
    }
    Ok(())
}

// The words of a slice.
fn contents(rt: &impl Print, out: &[u32]) -> io::Result<()> {
    for w in out {
        hex(rt, *w)?;
    }
    Ok(())
}

// A line: the refusal's number and place, both 0 where there is none, and what the slice holds.
fn slice(rt: &impl Print, outcome: Result<(), Refusal>, out: &[u32]) -> io::Result<()> {
    let (number, place) = match outcome {
        Ok(()) => (0, 0),
        Err(refusal) => (refusal.number(), refusal.place()),
    };
    print!(rt; "{number} {place}")?;
    contents(rt, out)?;
    println!(rt)
}

// The slice form: a slice as long, and one that is too short, which is refused with 2 and not written.
fn slices(rt: &impl Print) -> io::Result<()> {
    let d = [-0.125, 1.75, 0.25];
    let mut out = [7u32; 3];
    let done = utils::f64_to_torus_vec(&d, &mut out);
    slice(rt, done, &out)?;
    let mut short = [7u32; 2];
    let refused = utils::f64_to_torus_vec(&d, &mut short);
    slice(rt, refused, &short)
}

// Document 01's two, and the doubles at which the conversion may go wrong, each as it is written and by its value.
fn examples(rt: &impl Print) -> io::Result<()> {
    let list = [
        // those two, and other eighths of a turn
        ("-0.125", -0.125),
        ("1.75", 1.75),
        ("0.125", 0.125),
        ("0.25", 0.25),
        ("-0.25", -0.25),
        ("0.5", 0.5),
        ("-0.5", -0.5),
        // Whole turns and the zeros
        ("1.0", 1.0),
        ("-1.0", -1.0),
        ("0.0", 0.0),
        ("-0.0", -0.0),
        // Decimal fractions, which no double has exactly
        ("0.1", 0.1),
        ("-0.1", -0.1),
        ("3.3", 3.3),
        ("-1234.5678", -1234.5678),
        // One step below a turn
        ("0.9999999999999999", 0.9999999999999999),
        ("-0.9999999999999999", -0.9999999999999999),
        // A word's step, and just less
        ("2.3283064365386963e-10", 2.3283064365386963e-10),
        ("-2.3283064365386963e-10", -2.3283064365386963e-10),
        ("2.328306436538696e-10", 2.328306436538696e-10),
        ("-2.328306436538696e-10", -2.328306436538696e-10),
        // Numbers with few or no bits after the point
        ("4503599627370495.5", 4503599627370495.5),
        ("9007199254740993.0", 9007199254740993.0),
        ("1e300", 1e300),
        ("-1e300", -1e300),
        // Numbers below the normal ones
        ("5e-324", 5e-324),
        ("-5e-324", -5e-324),
        ("1e-310", 1e-310),
        // What is no number
        ("0.0 / 0.0", 0.0 / 0.0),
        ("1.0 / 0.0", 1.0 / 0.0),
        ("-1.0 / 0.0", -1.0 / 0.0),
    ];
    for (name, d) in list {
        example(rt, name, d)?;
    }
    Ok(())
}

fn main(rt: HostRuntime) -> io::Result<()> {
    examples(&rt)?;
    doubles(&rt)?;
    words(&rt)?;
    slices(&rt)
}
