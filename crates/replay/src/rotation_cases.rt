// Cases of the group rotation, made by oracle/replay.py from the list that the oracle samples.
use super::show;
use params::Params;
use std::io;

fn set_0() -> Params {
    Params {
        n: 0x1,
        nbit: 0x1,
        bgbit: 0x1,
        l: 0x1,
        basebit: 0x1,
        t: 0x1,
    }
}

fn trgsw_poly_mul_with_x_k(rt: &impl Print) -> io::Result<()> {
    let a: [u32; 2] = [0x62cc6e15, 0x0];
    let mut out: [u32; 2] = [0xa20a722d, 0x93b987cd];
    let r = rotation::poly_mul_with_x_k(set_0(), &a, utils::Amount(0x4), &mut out);
    show::words(rt, "trgsw_poly_mul_with_x_k", r, &out)
}

fn trgsw_mask_amount(rt: &impl Print) -> io::Result<()> {
    let r = rotation::mask_amount(set_0(), utils::Torus(0xa327c956));
    show::value(rt, "trgsw_mask_amount", r.map(|x| u64::from(x.0)))
}

fn trgsw_body_amount(rt: &impl Print) -> io::Result<()> {
    let r = rotation::body_amount(set_0(), utils::Torus(0xdfffffff));
    show::value(rt, "trgsw_body_amount", r.map(|x| u64::from(x.0)))
}

pub fn run(rt: &impl Print) -> io::Result<()> {
    trgsw_poly_mul_with_x_k(rt)?;
    trgsw_mask_amount(rt)?;
    trgsw_body_amount(rt)
}
