// Cases of the group trlwe, made by oracle/replay.py from the list that the oracle samples.
use super::show;
use params::Params;
use std::io;

fn set_0() -> Params {
    Params {
        n: 0x1,
        nbit: 0x1,
        bgbit: 0x1,
        l: 0x1,
        basebit: 0x1,
        t: 0x1,
    }
}

fn trlwe_encrypt_f64(rt: &impl Print) -> io::Result<()> {
    let plain: [f64; 2] = [
        show::double(0xbfe0000000000000),
        show::double(0x4119f3c98d575b83),
    ];
    let masks: [u32; 2] = [0xffffffff, 0xffffffff];
    let noise: [u32; 2] = [0x2fdec4b1, 0x7eddcdde];
    let key: [u32; 2] = [0x1, 0x1];
    let mut a: [u32; 2] = [0xac0b93a0, 0x49d31a03];
    let mut b: [u32; 2] = [0x51ba76f0, 0x4aafe15];
    let r = trlwe::encrypt_f64(set_0(), &plain, &masks, &noise, &key, &mut a, &mut b);
    show::pair(rt, "trlwe_encrypt_f64", r, &a, &b)
}

fn trlwe_encrypt_bool(rt: &impl Print) -> io::Result<()> {
    let plain: [u8; 2] = [0x11, 0xa5];
    let masks: [u32; 2] = [0x92a5029c, 0xfd0dab2];
    let noise: [u32; 2] = [0x0, 0x6639d1f];
    let key: [u32; 2] = [0x1, 0x0];
    let mut a: [u32; 2] = [0xfb32a1d7, 0xda088a9c];
    let mut b: [u32; 2] = [0x799d0855, 0x673055b];
    let r = trlwe::encrypt_bool(set_0(), &plain, &masks, &noise, &key, &mut a, &mut b);
    show::pair(rt, "trlwe_encrypt_bool", r, &a, &b)
}

fn trlwe_decrypt_bool(rt: &impl Print) -> io::Result<()> {
    let a: [u32; 2] = [0xb676297f, 0x964c07f6];
    let b: [u32; 2] = [0x7db8573f, 0xe6f9514];
    let key: [u32; 2] = [0x0, 0x1];
    let mut out: [u8; 2] = [0xbd, 0x0];
    let r = trlwe::decrypt_bool(set_0(), &a, &b, &key, &mut out);
    show::bytes(rt, "trlwe_decrypt_bool", r, &out)
}

fn trlwe_sample_extract_index(rt: &impl Print) -> io::Result<()> {
    let a: [u32; 2] = [0x53c026e1, 0x7858a1c4];
    let b: [u32; 2] = [0x67d392ad, 0xf4cff1ee];
    let mut out: [u32; 3] = [0x357715df, 0xedc7e794, 0x204e42c];
    let r = trlwe::sample_extract_index(set_0(), &a, &b, 0x1, &mut out);
    show::words(rt, "trlwe_sample_extract_index", r, &out)
}

pub fn run(rt: &impl Print) -> io::Result<()> {
    trlwe_encrypt_f64(rt)?;
    trlwe_encrypt_bool(rt)?;
    trlwe_decrypt_bool(rt)?;
    trlwe_sample_extract_index(rt)
}
