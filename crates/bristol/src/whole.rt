// The import of a text.
ghost use Rattle.std.specs.Prelude.{◌≡◌, Ok, ◌++◌, ◌≤◌, length, drop};
ghost use Rattle.bristol_form.specs.Form.{checked_of};
ghost use Rattle.bristol.specs.Import.{imported, imported_length, import_said, import_out};
ghost use Rattle.bristol.specs.Private.{tabled};

use crate::bytes::put_head;
use crate::gates::{put_gates, put_outputs};
use crate::ours::start_table;
use bristol_form::Contents;
use params::Refusal;

// The circuit of a text that says c, into the front of a slice that is long enough, over a table for its wires.
fn import_over(text: &[u8], table: &mut [u16], out: &mut [u8], c: Contents)
    requires { (checked_of text.now ≡ Ok c) × (imported_length text.now ≤ length out.old) × (length table.old ≡ tabled) }
    ensures { out.new ≡ imported text.now ++ drop (imported_length text.now) out.old }
{
    start_table(table);
    put_head(out, c.inputs, c.made, c.outputs);
    let p = put_gates(text, table, out, c.inputs, c.wires, c.body, c.gates);
    put_outputs(
        text,
        table,
        out,
        11 + 8 * c.made,
        c.inputs,
        c.wires,
        c.gates,
        p,
        c.made,
        c.outputs,
    );
}

// The same, with the table in the call's memory.
fn import_into(text: &[u8], out: &mut [u8], c: Contents)
    requires { (checked_of text.now ≡ Ok c) × (imported_length text.now ≤ length out.old) }
    ensures { out.new ≡ imported text.now ++ drop (imported_length text.now) out.old }
{
    let mut table = [0u16; 24576];
    import_over(text, &mut table, out, c);
}

/// The circuit of a text in the Bristol Fashion form, in our form, into the front of a lent slice; its length comes back. Refusals: 11 or 12 with the place of the token
/// that shows it, then 2 where the slice is shorter than the circuit; the slice is then left as it was.
pub fn import(text: &[u8], out: &mut [u8]) -> Result<usize, Refusal>
    ensures said { result ≡ import_said text.now (length out.old) }
    ensures written { out.new ≡ import_out text.now out.old }
{
    let c = bristol_form::check(text)?;
    let length = 11 + 8 * c.made + 2 * c.outputs;
    Refusal::Length.unless(length <= out.len())?;
    import_into(text, out, c);
    Ok(length)
}
