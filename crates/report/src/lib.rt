#![tactic(auto)]
// What a circuit's bytes say, as text: what the program prints (01, 'Circuits').
ghost use Rattle.std.specs.Prelude.{◌≡◌, ◌++◌, length, drop};
ghost use Rattle.report.specs.Text.{describe_answer, describe_out, refused_line};

use lines::{put_refused, put_text};
use params::Refusal;
use text::put;

mod lines;
mod text;

/// The text of a circuit's bytes, into the front of a lent slice, and its length. A refused circuit has a text too. Refusal 2 where the slice is shorter than the text.
#[tactic(auto, unfolding(crate::specs::Text::describe_number, crate::specs::Text::describe_out))]
pub fn describe(bytes: &[u8], out: &mut [u8]) -> Result<usize, Refusal>
    ensures said { result ≡ describe_answer bytes.now (length out.old) }
    ensures written { out.new ≡ describe_out bytes.now out.old }
{
    let mut text = [0u8; 1280];
    let n = put_text(bytes, &mut text);
    Refusal::Length.unless(n <= out.len())?;
    put(out, 0, &text[..n]);
    Ok(n)
}

/// The line of a refusal, such as `refused 9 at 13`, into the front of an array that has room for any of them, and its length.
pub fn refused(number: u32, place: usize, out: &mut [u8; 64]) -> usize
    ensures said { result ≡ length (refused_line number place) }
    ensures written { out.new ≡ refused_line number place ++ drop (length (refused_line number place)) out.old }
{
    put_refused(out, number, place)
}
