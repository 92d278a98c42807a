// Cases of the group trgsw, made by oracle/replay.py from the list that the oracle samples.
use super::show;
use params::Params;
use std::io;

fn set_0() -> Params {
    Params {
        n: 0x1,
        nbit: 0x1,
        bgbit: 0x1,
        l: 0x1,
        basebit: 0x1,
        t: 0x1,
    }
}

fn trgsw_encrypt_torus(rt: &impl Print) -> io::Result<()> {
    let masks: [u32; 4] = [0xffffffff, 0xffffffff, 0xffffffff, 0xffffffff];
    let noise: [u32; 4] = [0x6ab9edf6, 0xd6de5048, 0x3d94e30c, 0xd2875811];
    let key_lv1: [u32; 2] = [0x0, 0x0];
    let mut out: [u32; 8] = [
        0x170b3959, 0x6380b30a, 0xf917d7f8, 0x219b3787, 0x4a4e78dd, 0x43b897ab, 0x49fda1bb,
        0xa929981b,
    ];
    let r = bootstrapping::encrypt_torus(
        set_0(),
        utils::Torus(0x7fffffff),
        &masks,
        &noise,
        &key_lv1,
        &mut out,
    );
    show::words(rt, "trgsw_encrypt_torus", r, &out)
}

fn trgsw_gen_bootstrapping_key(rt: &impl Print) -> io::Result<()> {
    let key_lv0: [u32; 1] = [0x1];
    let key_lv1: [u32; 2] = [0x1, 0x0];
    let masks: [u32; 4] = [0x28aca530, 0x793f76dd, 0x38619252, 0x89a7687];
    let noise: [u32; 4] = [0x4f8308fc, 0x4c8829d1, 0x10bffbe1, 0xc7f89f94];
    let mut out: [u32; 8] = [
        0x909fe86e, 0xbc9ea91e, 0xb15140b9, 0xd256adc, 0x9491252c, 0x3de3f2de, 0x1bc019b,
        0x6e727db2,
    ];
    let r = bootstrapping::gen_bootstrapping_key(
        set_0(),
        &key_lv0,
        &key_lv1,
        &masks,
        &noise,
        &mut out,
    );
    show::words(rt, "trgsw_gen_bootstrapping_key", r, &out)
}

fn trgsw_decomposition(rt: &impl Print) -> io::Result<()> {
    let a: [u32; 2] = [0xcefc13dc, 0x4806a38b];
    let b: [u32; 2] = [0xfe553fa7, 0xd82991c9];
    let mut out: [u32; 4] = [0x1fc471c6, 0x24fafb5, 0xf05f8fb0, 0x4de1da74];
    let r = decomposition::decomposition(set_0(), &a, &b, &mut out);
    show::words(rt, "trgsw_decomposition", r, &out)
}

fn trgsw_external_product(rt: &impl Print) -> io::Result<()> {
    let rows: [u32; 8] = [
        0xffffffff, 0xffffffff, 0xffffffff, 0xffffffff, 0xffffffff, 0xffffffff, 0xffffffff,
        0xffffffff,
    ];
    let a: [u32; 2] = [0xdac29b94, 0x9fde7de2];
    let b: [u32; 2] = [0xd94c1ba, 0xcfb4b676];
    let mut outa: [u32; 2] = [0x625ae5ef, 0x93ec60bb];
    let mut outb: [u32; 2] = [0x8a8fc97c, 0xd99eb329];
    let r = trgsw::external_product(set_0(), &rows, &a, &b, &mut outa, &mut outb);
    show::pair(rt, "trgsw_external_product", r, &outa, &outb)
}

fn trgsw_cmux(rt: &impl Print) -> io::Result<()> {
    let a1: [u32; 2] = [0x1673128e, 0x60b81f93];
    let b1: [u32; 2] = [0x7ba49a0c, 0x148bbffe];
    let a2: [u32; 2] = [0xa4d7d956, 0x5e7851db];
    let b2: [u32; 2] = [0xd53e255b, 0x208360c4];
    let rows: [u32; 8] = [
        0xfc8b034b, 0x75095e7, 0x5fb39271, 0x36ca5c, 0xeb1b2259, 0x5040ce7b, 0xa910d500, 0xae2e7913,
    ];
    let mut outa: [u32; 2] = [0x8789f261, 0x47ff789e];
    let mut outb: [u32; 2] = [0x3dbeddf6, 0xedccf609];
    let r = trgsw::cmux(set_0(), &a1, &b1, &a2, &b2, &rows, &mut outa, &mut outb);
    show::pair(rt, "trgsw_cmux", r, &outa, &outb)
}

fn trgsw_blind_rotate_step(rt: &impl Print) -> io::Result<()> {
    let key: [u32; 8] = [
        0x3f2099bb, 0x9f2d3591, 0x7d56383f, 0xdeba7ea7, 0x94da63bb, 0x745aaa35, 0x207c741f,
        0xb7a08730,
    ];
    let mut a: [u32; 2] = [0x6dc9aa97, 0x1ca2fd8b];
    let mut b: [u32; 2] = [0xfe558eb, 0x974cffb2];
    let r = blind_rotation::blind_rotate_step(
        set_0(),
        &key,
        0x0,
        utils::Torus(0xb0f5767f),
        &mut a,
        &mut b,
    );
    show::pair(rt, "trgsw_blind_rotate_step", r, &a, &b)
}

fn trgsw_blind_rotate(rt: &impl Print) -> io::Result<()> {
    let src: [u32; 2] = [0x9a919a2, 0xf5145aaf];
    let key: [u32; 8] = [
        0xffffffff, 0xffffffff, 0xffffffff, 0xffffffff, 0xffffffff, 0xffffffff, 0xffffffff,
        0xffffffff,
    ];
    let mut a: [u32; 2] = [0xba76eea3, 0x1ba75f9f];
    let mut b: [u32; 2] = [0xdeeeea20, 0x664bc56e];
    let r = blind_rotation::blind_rotate(set_0(), &src, &key, &mut a, &mut b);
    show::pair(rt, "trgsw_blind_rotate", r, &a, &b)
}

fn trgsw_identity_key_switching(rt: &impl Print) -> io::Result<()> {
    let src: [u32; 3] = [0xd3fee3d2, 0x6c322529, 0x207feb15];
    let ksk: [u32; 4] = [0x9a455600, 0xbda8eb6, 0xf5fa2e4, 0x5e050b66];
    let mut out: [u32; 2] = [0x96cbe875, 0x6f4d259a];
    let r = switching::identity_key_switching(set_0(), &src, &ksk, &mut out);
    show::words(rt, "trgsw_identity_key_switching", r, &out)
}

pub fn run(rt: &impl Print) -> io::Result<()> {
    trgsw_encrypt_torus(rt)?;
    trgsw_gen_bootstrapping_key(rt)?;
    trgsw_decomposition(rt)?;
    trgsw_external_product(rt)?;
    trgsw_cmux(rt)?;
    trgsw_blind_rotate_step(rt)?;
    trgsw_blind_rotate(rt)?;
    trgsw_identity_key_switching(rt)
}
