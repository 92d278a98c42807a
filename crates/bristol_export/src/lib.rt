#![tactic(auto)]
// A circuit's bytes as text in the Bristol Fashion form (02, request 2026-02), for other tools to read.
ghost use Rattle.std.specs.Prelude.{◌≡◌, length};
ghost use Rattle.bristol_export.specs.Export.{export_said, export_out};

use params::Refusal;
use whole::put_text;

mod gate;
mod text;
mod whole;

/// The text of a circuit, into the front of a lent slice; its length comes back. Refusals: 6 to 10 with the circuit's place, then 2 where the slice is shorter than the
/// text; the slice is then left as it was. The text is first measured, over a slice that holds none of it, so that a refused call writes nothing.
pub fn export(bytes: &[u8], out: &mut [u8]) -> Result<usize, Refusal>
    ensures said { result ≡ export_said bytes.now (length out.old) }
    ensures written { out.new ≡ export_out bytes.now out.old }
{
    circuit::check(bytes)?;
    let mut none = [0u8; 1];
    let length = put_text(bytes, &mut none);
    Refusal::Length.unless(length <= out.len())?;
    Ok(put_text(bytes, out))
}
