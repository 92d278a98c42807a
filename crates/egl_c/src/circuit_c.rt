// Circuits: reading, counts, work, the plain run and the encrypted run.
ghost use Rattle.std.specs.Prelude.{◌≡◌, length};
ghost use Rattle.params.specs.Refusal.{outcome};
ghost use Rattle.circuit.specs.Form.{answer_of};
ghost use Rattle.circuit.specs.Plain.{run_answer, run_out, work_answer};
ghost use Rattle.circuit.specs.Told.{told_answer, told_out};
ghost use Rattle.packing.specs.Packed.{packed, packed_value};
ghost use Rattle.encrypted_run.specs.Refusals.{encrypted_answer, step_answer};
ghost use Rattle.encrypted_run.specs.Run.{wires_after, outputs_after, step_after};
ghost use Rattle.params.specs.Published.{numbers};

use packing::{numbers, pack, pack_value};

// Whether the bytes are a circuit, and where they are at fault.
#[unsafe(no_mangle)]
pub extern "C" fn egl_circuit_check(bytes: &[u8]) -> u64
    ensures { result ≡ packed (outcome (answer_of bytes.now)) }
{
    pack(circuit::check(bytes))
}

// Version, inputs, gates, outputs and work of a circuit, as five words.
#[unsafe(no_mangle)]
pub extern "C" fn egl_circuit_counts(bytes: &[u8], out: &mut [u32]) -> u64
    ensures said { result ≡ packed (outcome (told_answer bytes.now (length out.old))) }
    ensures written { out.new ≡ told_out bytes.now out.old }
{
    pack(circuit::tell(bytes, out))
}

// The work of a circuit, its run's blind rotations, as the value; of a refused one the number and the place.
#[unsafe(no_mangle)]
pub extern "C" fn egl_circuit_work(bytes: &[u8]) -> u64
    ensures { result ≡ packed_value (work_answer bytes.now) }
{
    pack_value(circuit::work(bytes))
}

// The outputs of a circuit on plain bits.
#[unsafe(no_mangle)]
pub extern "C" fn egl_circuit_run_plain(bytes: &[u8], ins: &[u8], out: &mut [u8]) -> u64
    ensures said { result ≡ packed (outcome (run_answer bytes.now (length ins.now) (length out.old))) }
    ensures written { out.new ≡ run_out bytes.now ins.now out.old }
{
    pack(circuit::run_plain(bytes, ins, out))
}

// A circuit on ciphertexts: every wire's into wires, in wire order, and the outputs' into out.
#[unsafe(no_mangle)]
pub extern "C" fn egl_circuit_run_encrypted(
    n: u32,
    nbit: u32,
    bgbit: u32,
    l: u32,
    basebit: u32,
    t: u32,
    ksk: &[u32],
    bsk: &[u32],
    bytes: &[u8],
    ins: &[u32],
    wires: &mut [u32],
    out: &mut [u32],
) -> u64
    ensures said { result ≡ packed (outcome (encrypted_answer (numbers n nbit bgbit l basebit t) (length ksk.now) (length bsk.now) bytes.now (length ins.now) (length wires.old) (length out.old))) }
    ensures held { wires.new ≡ wires_after (numbers n nbit bgbit l basebit t) ksk.now bsk.now bytes.now ins.now wires.old out.old }
    ensures written { out.new ≡ outputs_after (numbers n nbit bgbit l basebit t) ksk.now bsk.now bytes.now ins.now wires.old out.old }
{
    pack(encrypted_run::run_encrypted(
        numbers(n, nbit, bgbit, l, basebit, t),
        ksk,
        bsk,
        bytes,
        ins,
        wires,
        out,
    ))
}

// Gate g of a run, from the wires before it into its own.
#[unsafe(no_mangle)]
pub extern "C" fn egl_circuit_run_gate(
    n: u32,
    nbit: u32,
    bgbit: u32,
    l: u32,
    basebit: u32,
    t: u32,
    ksk: &[u32],
    bsk: &[u32],
    bytes: &[u8],
    g: usize,
    wires: &mut [u32],
) -> u64
    ensures said { result ≡ packed (outcome (step_answer (numbers n nbit bgbit l basebit t) (length ksk.now) (length bsk.now) bytes.now (length wires.old))) }
    ensures written { wires.new ≡ step_after (numbers n nbit bgbit l basebit t) ksk.now bsk.now bytes.now g wires.old }
{
    pack(encrypted_run::run_gate(
        numbers(n, nbit, bgbit, l, basebit, t),
        ksk,
        bsk,
        bytes,
        g,
        wires,
    ))
}
