// The loops over the words and bits of a pair.
ghost use Rattle.std.specs.Prelude.{◌≡◌, ◌+◌, ◌%◌, length};
ghost use Rattle.ring.specs.Word.{Q, at, neg};
ghost use Rattle.ring.specs.Sums.{tab};
ghost use Rattle.tlwe.specs.Plain.{bit_word};
ghost use Rattle.tlwe.specs.Decrypt.{bit_of};
ghost use Rattle.trlwe.specs.Encrypt.{words_of_bits};
ghost use Rattle.ring.specs.Bit.{truth, bit_number};

// The word of a lent bit, ±0.125 of a turn.
#[tactic(auto, unfolding(ring::specs::Word::Q))]
fn bit_word(byte: u8) -> u32
    ensures { result ≡ bit_word (truth byte) }
{
    if 0 < byte { 0x2000_0000 } else { 0xE000_0000 }
}

// The words of lent bits.
#[tactic(auto, using(ring::proofs::Tab::tab_none, ring::proofs::Tab::tab_more))]
pub(crate) fn bits_into(plain: &[u8], out: &mut [u32])
    requires { length plain.now ≡ length out.old }
    ensures { out.new ≡ words_of_bits plain.now }
{
    for (i, byte) in plain.iter().enumerate() {
        out[i] = bit_word(*byte);
    }
}

// One bit from b's word and the product's: 1 when their difference, read as signed, is 0 or more.
#[tactic(auto, unfolding(ring::specs::Centre::H))]
fn bit_at(body: u32, product: u32) -> u8
    ensures { result ≡ bit_number (bit_of ((body + neg product) % Q)) }
{
    u8::from(ring::sub(body, product) < 0x8000_0000)
}

// Every bit, the product a·z being worked out.
#[tactic(auto, using(ring::proofs::Tab::tab_none, ring::proofs::Tab::tab_more))]
pub(crate) fn bits_of(b: &[u32], az: &[u32], out: &mut [u8])
    requires { (length b.now ≡ length out.old) × (length az.now ≡ length out.old) }
    ensures { out.new ≡ tab (length out.old) (λ i. bit_number (bit_of ((at b.now i + neg (at az.now i)) % Q))) }
{
    for i in 0..out.len() {
        out[i] = bit_at(b[i], az[i]);
    }
}
