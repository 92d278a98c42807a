#![tactic(auto)]
// The library as C sees it (include/egl.h): numbers as themselves, a slice as a pointer and a length, the answer as one u64. Every function here is
// thin: its contract is that of the routine it calls.
pub mod bristol_c;
pub mod circuit_c;
pub mod column_c;
pub mod drift_c;
pub mod drift_report_c;
pub mod gates_c;
pub mod key_c;
pub mod params_c;
pub mod product_c;
pub mod table_c;
pub mod tlwe_c;
pub mod tlwe_decryption_c;
pub mod tlwe_encryption_c;
pub mod trgsw_c;
pub mod trlwe_c;
pub mod utils_c;
pub mod version_c;
pub mod wires_c;
