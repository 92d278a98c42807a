// Doubles and words.
ghost use Rattle.std.specs.Prelude.{◌≡◌, false, length};
ghost use Rattle.std.specs.Float.Ieee.Exact.{HasValue};
ghost use Rattle.ring.specs.Word.{Q};
ghost use Rattle.params.specs.Refusal.{answer, outcome, if_done};
ghost use Rattle.utils.specs.Torus.{word, words_of_doubles, vec_number};
ghost use Rattle.packing.specs.Packed.{packed};

use packing::pack;

// The word of a double.
#[unsafe(no_mangle)]
pub extern "C" fn egl_utils_f64_to_torus(d: f64) -> u32
    ensures { result ≡ word d }
{
    utils::f64_to_torus(d).0
}

// The fraction of a turn that a word stands for.
#[unsafe(no_mangle)]
pub extern "C" fn egl_utils_torus_to_f64(t: u32) -> f64
    ensures { HasValue result false t Q }
{
    utils::torus_to_f64(utils::Torus(t))
}

// The words of doubles; 2 where the lengths differ.
#[unsafe(no_mangle)]
pub extern "C" fn egl_utils_f64_to_torus_vec(d: &[f64], out: &mut [u32]) -> u64
    ensures said { result ≡ packed (outcome (answer (vec_number (length d.now) (length out.old)))) }
    ensures written { out.new ≡ if_done (vec_number (length d.now) (length out.old)) (words_of_doubles d.now) out.old }
{
    pack(utils::f64_to_torus_vec(d, out))
}
