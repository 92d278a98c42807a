// The published sets, made by oracle/replay.py from the original's text.
use super::show;
use params::published;
use std::io;

pub fn run(rt: &impl Print) -> io::Result<()> {
    show::set(rt, "published_80_bit", published::security_80_bit())?;
    show::set(rt, "published_110_bit", published::security_110_bit())?;
    show::set(rt, "published_uint1", published::uint1())?;
    show::set(rt, "published_uint2", published::uint2())?;
    show::set(rt, "published_uint3", published::uint3())?;
    show::set(rt, "published_uint4", published::uint4())?;
    show::set(rt, "published_uint5", published::uint5())?;
    show::set(rt, "published_uint6", published::uint6())?;
    show::set(rt, "published_uint7", published::uint7())?;
    show::set(rt, "published_uint8", published::uint8())?;
    show::set(rt, "published_128_bit", published::security_128_bit())
}
