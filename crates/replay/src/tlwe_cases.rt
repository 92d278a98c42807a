// Cases of the group tlwe, made by oracle/replay.py from the list that the oracle samples.
use super::show;
use params::Params;
use std::io;

fn set_0() -> Params {
    Params {
        n: 0x4,
        nbit: 0x2,
        bgbit: 0x10,
        l: 0x2,
        basebit: 0x5,
        t: 0x6,
    }
}

fn tlwe_add_lv0(rt: &impl Print) -> io::Result<()> {
    let a: [u32; 5] = [0xa9d714e, 0x347dcf66, 0xdb39b96f, 0x7556d0ce, 0xcd1f8c33];
    let b: [u32; 5] = [0x904ae78a, 0xb95913e9, 0xfd52cc5e, 0x6f29bc37, 0x186e40b3];
    let mut out: [u32; 5] = [0x5724d464, 0x47811d47, 0x39803283, 0x8496d262, 0x91266acb];
    let r = tlwe::linear::add(set_0(), tlwe::Level::Zero, &a, &b, &mut out);
    show::words(rt, "tlwe_add_lv0", r, &out)
}

fn tlwe_sub_lv1(rt: &impl Print) -> io::Result<()> {
    let a: [u32; 5] = [0x4ea7e36e, 0xdcafa55c, 0xbbba0e62, 0xc9d4ce58, 0xa051a455];
    let b: [u32; 5] = [0x0, 0xe8ffffff, 0x0, 0x0, 0x0];
    let mut out: [u32; 5] = [0x98c9a127, 0x4c7475ff, 0x27974757, 0xb6e67628, 0x4105bd12];
    let r = tlwe::linear::sub(set_0(), tlwe::Level::One, &a, &b, &mut out);
    show::words(rt, "tlwe_sub_lv1", r, &out)
}

fn tlwe_neg_lv0(rt: &impl Print) -> io::Result<()> {
    let a: [u32; 5] = [0x0, 0x614e88cc, 0x0, 0x0, 0x0];
    let mut out: [u32; 5] = [0x69a736fc, 0xc9181cb3, 0x910c0e3d, 0x68f4f8ed, 0x118350aa];
    let r = tlwe::linear::neg(set_0(), tlwe::Level::Zero, &a, &mut out);
    show::words(rt, "tlwe_neg_lv0", r, &out)
}

fn tlwe_add_mul_lv1(rt: &impl Print) -> io::Result<()> {
    let a: [u32; 5] = [0xdb46af53, 0xbf4f48c3, 0x2cc34b8a, 0x4e25d948, 0x1f7d3dad];
    let b: [u32; 5] = [0x28017600, 0xdfffffff, 0x21470d57, 0xea400001, 0xe0000000];
    let mut out: [u32; 5] = [0xd53d6236, 0x80cab604, 0xdd6ae5bf, 0x924d0650, 0x955917fd];
    let r = tlwe::linear::add_mul(set_0(), tlwe::Level::One, &a, &b, 0x2955cc86, &mut out);
    show::words(rt, "tlwe_add_mul_lv1", r, &out)
}

fn tlwe_sub_mul_lv0(rt: &impl Print) -> io::Result<()> {
    let a: [u32; 5] = [0x5171f6c9, 0x82cc4b6e, 0x1190fd50, 0x5fd8bd31, 0x38ac00bf];
    let b: [u32; 5] = [0x1999b253, 0x75d7528b, 0xfd6f3bfc, 0xf19c7151, 0x614af481];
    let mut out: [u32; 5] = [0xcbf7f6a6, 0x87fad960, 0xd396a308, 0xf1f006a2, 0xaa983659];
    let r = tlwe::linear::sub_mul(set_0(), tlwe::Level::Zero, &a, &b, 0xb466afc2, &mut out);
    show::words(rt, "tlwe_sub_mul_lv0", r, &out)
}

fn tlwe_encrypt_bit_lv1(rt: &impl Print) -> io::Result<()> {
    let masks: [u32; 4] = [0x32d37e84, 0xa1d486e5, 0x7f1016b1, 0x78a9e89e];
    let key: [u32; 4] = [0x0, 0x0, 0x1, 0x1];
    let mut out: [u32; 5] = [0x3a887207, 0x3e6823b3, 0x6ccdd2db, 0x635db7c0, 0x27baaaae];
    let r = tlwe::encryption::encrypt(
        set_0(),
        tlwe::Level::One,
        tlwe::Plain::Bit(0x2 != 0),
        &masks,
        utils::Torus(0xffffffff),
        &key,
        &mut out,
    );
    show::words(rt, "tlwe_encrypt_bit_lv1", r, &out)
}

fn tlwe_encrypt_turn_lv0(rt: &impl Print) -> io::Result<()> {
    let masks: [u32; 4] = [0x79548449, 0x46107d5e, 0x560501d0, 0xf90ef18d];
    let key: [u32; 4] = [0x1, 0x1, 0x1, 0x1];
    let mut out: [u32; 5] = [0xe75fd4df, 0x694233a2, 0x21b81612, 0xea7d158a, 0x1711df5d];
    let r = tlwe::encryption::encrypt(
        set_0(),
        tlwe::Level::Zero,
        tlwe::Plain::Turn(show::double(0xede586182aaa0acb)),
        &masks,
        utils::Torus(0x9ea140dd),
        &key,
        &mut out,
    );
    show::words(rt, "tlwe_encrypt_turn_lv0", r, &out)
}

fn tlwe_encrypt_message_lv1(rt: &impl Print) -> io::Result<()> {
    let masks: [u32; 4] = [0x73da9403, 0x94594e4e, 0xc07e1acf, 0x142f41c3];
    let key: [u32; 4] = [0x0, 0x0, 0x1, 0x0];
    let mut out: [u32; 5] = [0x92cf263f, 0x85401ab1, 0xd7ce124e, 0x34e8ce91, 0x2a572991];
    let r = tlwe::encryption::encrypt(
        set_0(),
        tlwe::Level::One,
        tlwe::Plain::Message {
            value: 0x11,
            modulus: 0x2,
        },
        &masks,
        utils::Torus(0x80000000),
        &key,
        &mut out,
    );
    show::words(rt, "tlwe_encrypt_message_lv1", r, &out)
}

fn tlwe_decrypt_bit_lv0(rt: &impl Print) -> io::Result<()> {
    let c: [u32; 5] = [0xffffffff, 0xffffffff, 0xffffffff, 0xffffffff, 0xffffffff];
    let key: [u32; 4] = [0x1, 0x1, 0x0, 0x1];
    let r = tlwe::decryption::decrypt_bit(set_0(), tlwe::Level::Zero, &c, &key);
    show::value(rt, "tlwe_decrypt_bit_lv0", r.map(u64::from))
}

fn tlwe_decrypt_message_lv1(rt: &impl Print) -> io::Result<()> {
    let c: [u32; 5] = [0x23df2e5e, 0x9f8368f5, 0xdea11291, 0x32defc3f, 0x5d2e21f7];
    let key: [u32; 4] = [0x1, 0x1, 0x1, 0x1];
    let r = tlwe::decryption::decrypt_message(set_0(), tlwe::Level::One, 0x20, &c, &key);
    show::value(rt, "tlwe_decrypt_message_lv1", r)
}

pub fn run(rt: &impl Print) -> io::Result<()> {
    tlwe_add_lv0(rt)?;
    tlwe_sub_lv1(rt)?;
    tlwe_neg_lv0(rt)?;
    tlwe_add_mul_lv1(rt)?;
    tlwe_sub_mul_lv0(rt)?;
    tlwe_encrypt_bit_lv1(rt)?;
    tlwe_encrypt_turn_lv0(rt)?;
    tlwe_encrypt_message_lv1(rt)?;
    tlwe_decrypt_bit_lv0(rt)?;
    tlwe_decrypt_message_lv1(rt)
}
