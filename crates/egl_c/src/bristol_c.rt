// Circuits as text: read from the Bristol Fashion form, and written in it.
ghost use Rattle.std.specs.Prelude.{◌≡◌, length};
ghost use Rattle.params.specs.Refusal.{given};
ghost use Rattle.packing.specs.Packed.{packed_value, capped};
ghost use Rattle.bristol.specs.Import.{imported_length, import_answer, import_out};
ghost use Rattle.bristol_export.specs.Export.{export_answer, export_out};
ghost use Rattle.bristol_export.specs.Text.{exported};

use packing::{capped, pack_value};

// The circuit of a text, into the front of out.
#[tactic(auto, unfolding(bristol::specs::Import::import_said))]
#[unsafe(no_mangle)]
pub extern "C" fn egl_bristol_import(text: &[u8], out: &mut [u8]) -> u64
    ensures said { result ≡ packed_value (given (import_answer text.now (length out.old)) (capped (imported_length text.now))) }
    ensures written { out.new ≡ import_out text.now out.old }
{
    pack_value(bristol::import(text, out).map(capped))
}

// The text of a circuit, into the front of out.
#[tactic(auto, unfolding(bristol_export::specs::Export::export_said))]
#[unsafe(no_mangle)]
pub extern "C" fn egl_bristol_export(bytes: &[u8], out: &mut [u8]) -> u64
    ensures said { result ≡ packed_value (given (export_answer bytes.now (length out.old)) (capped (length (exported bytes.now)))) }
    ensures written { out.new ≡ export_out bytes.now out.old }
{
    pack_value(bristol_export::export(bytes, out).map(capped))
}
