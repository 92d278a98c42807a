// Cases of the group key, made by oracle/replay.py from the list that the oracle samples.
use super::show;
use params::Params;
use std::io;

fn set_0() -> Params {
    Params {
        n: 0x1,
        nbit: 0x1,
        bgbit: 0x1,
        l: 0x1,
        basebit: 0x1,
        t: 0x1,
    }
}

fn key_decomposition_offset(rt: &impl Print) -> io::Result<()> {
    let r = key::decomposition_offset(set_0());
    show::value(rt, "key_decomposition_offset", r.map(|x| u64::from(x.0)))
}

fn key_gen_testvec(rt: &impl Print) -> io::Result<()> {
    let mut a: [u32; 2] = [0xf55b985f, 0xb7637a7f];
    let mut b: [u32; 2] = [0x18429b35, 0x11e51774];
    let r = key::gen_testvec(set_0(), &mut a, &mut b);
    show::pair(rt, "key_gen_testvec", r, &a, &b)
}

fn key_gen_key_switching_key(rt: &impl Print) -> io::Result<()> {
    let key_lv0: [u32; 1] = [0x0];
    let key_lv1: [u32; 2] = [0x0, 0x1];
    let masks: [u32; 2] = [0x1c9961bc, 0xbc7cd2d8];
    let noise: [u32; 2] = [0x0, 0x82edccc2];
    let mut out: [u32; 4] = [0xa633092a, 0x7e6cc331, 0x600bb45, 0x38e87b0f];
    let r = key::gen_key_switching_key(set_0(), &key_lv0, &key_lv1, &masks, &noise, &mut out);
    show::words(rt, "key_gen_key_switching_key", r, &out)?;
    show::row(
        rt,
        "key_switching_row",
        key::switching_row(set_0(), &out, 0x1, 0x0, 0x1),
    )?;
    show::row(
        rt,
        "key_switching_row",
        key::switching_row(set_0(), &out, 0x0, 0x0, 0x0),
    )
}

fn key_drop_idle_rows(rt: &impl Print) -> io::Result<()> {
    let former: [u32; 8] = [
        0x1f45d1fe, 0xb5536a14, 0x519fe6ec, 0x5d99983d, 0x1ab480c6, 0x7d733b7, 0x8e362ef5,
        0x6a1bdb50,
    ];
    let mut out: [u32; 4] = [0xd4677c79, 0xdbfaf7a6, 0xaa7343e8, 0xc7681009];
    let r = key::drop_idle_rows(set_0(), &former, &mut out);
    show::words(rt, "key_drop_idle_rows", r, &out)
}

pub fn run(rt: &impl Print) -> io::Result<()> {
    key_decomposition_offset(rt)?;
    key_gen_testvec(rt)?;
    key_gen_key_switching_key(rt)?;
    key_drop_idle_rows(rt)
}
