//! The published vectors of RFC 3394, RFC 5649 and FIPS 197.

ghost use Rattle.std.specs.Prelude.{◌≡◌, ◌<◌, Bool, List, ℕ, length, take, map, IfOk, Err, string_bytes};
ghost use Rattle.std.specs.Io.KnownBytes.{Appends, Keeps};
ghost use Rattle.keywrap_cli.specs.VectorReport.{IsReport, IsVerdictOnAll, verdict};
ghost use Rattle.test_vectors.specs.Published.{published_vectors};
ghost use Rattle.test_vectors.specs.Vectors.{shown};

use crate::outcome::JobFault;
use crate::vector_check::{VectorCalls, is_right};
use key_files::write_raw;
use std::alloc::{AllocError, Global};
use std::io::Write;
use test_vectors::{Vector, published};
use thiserror::Error;

/// Why the vectors were not written.
#[derive(Clone, Copy, Debug, PartialEq, Error)]
pub enum VectorsFault {
    /// An allocation failed, and nothing was written.
    #[error("{}", JobFault::Memory)]
    Memory,
    /// The writer took only `written` bytes of the lines.
    #[error("{}", JobFault::Write {written: *written})]
    Write {
        /// The number of bytes that were written.
        written: usize,
    },
}

/// Writes a line for each vector: its name, and `ok` if calls give its bytes in both directions,
/// else `failed`. Returns true if all lines have `ok`.
///
/// All lines are made before the first write, and the call does not flush.
pub fn vectors<C: VectorCalls, W: Write>(alloc: Global, out: &mut W) -> Result<bool, VectorsFault>
    ensures report { IfOk result (λ all_ok. (text : List ℕ)
        × IsReport C.gave published_vectors text all_ok
        × Appends (W.contents out.old) (W.contents out.new) text) }
    ensures all { IfOk result (λ all_ok. IsVerdictOnAll C.gave published_vectors all_ok) }
    ensures untouched { result ≡ Err VectorsFault.Memory
        → Keeps (W.contents out.old) (W.contents out.new) }
    ensures front { (written : ℕ) → result ≡ Err (VectorsFault.Write written)
        → (text : List ℕ) × (all_ok : Bool) × IsReport C.gave published_vectors text all_ok
        × (written < length text)
        × Appends (W.contents out.old) (W.contents out.new) (take written text) }
{
    let Ok(report) = report_on::<C>(alloc, &published()) else {
        return Err(VectorsFault::Memory);
    };
    match write_raw(out, report.text.as_bytes()) {
        Ok(()) => Ok(report.all_ok),
        Err(fault) => Err(VectorsFault::Write {
            written: fault.written,
        }),
    }
}

/// The lines of vectors, and whether each of them has `ok`.
#[derive(Drop)]
pub struct Report {
    pub text: String,
    pub all_ok: bool,
}

impl Report {
    ghost use Rattle.std.specs.Prelude.{◌≡◌, ◌&&◌, ◌++◌, OnOk, string_bytes};
    ghost use Rattle.keywrap_cli.specs.VectorReport.{verdict};

    fn add_line(&mut self, name: &str, ok: bool) -> Result<(), AllocError>
        ensures line { OnOk result (string_bytes self.new.text
            ≡ string_bytes self.old.text ++ (name.now ++ verdict ok)) }
        ensures all { OnOk result (self.new.all_ok ≡ (self.old.all_ok && ok)) }
    {
        self.text.push_str(name)?;
        self.text.push_str(verdict(ok))?;
        self.all_ok = self.all_ok && ok;
        Ok(())
    }
}

fn verdict(ok: bool) -> &'static str
    ensures { result.now ≡ verdict ok }
{
    if ok { " ok\n" } else { " failed\n" }
}

/// Returns a line for each vector of a table: `ok` if it is right, else `failed`.
pub fn report_on<C: VectorCalls>(alloc: Global, table: &[Vector<'_>]) -> Result<Report, AllocError>
    ensures { IfOk result (λ report.
        IsReport C.gave (map shown table.now) (string_bytes report.text) report.all_ok) }
{
    let mut report = Report {
        text: String::new(alloc),
        all_ok: true,
    };
    for vector in table {
        let ok = is_right::<C>(alloc, vector)?;
        report.add_line(vector.name, ok)?;
    }
    Ok(report)
}
