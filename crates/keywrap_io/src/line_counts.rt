//! The last line of a run over lines: how many lines there were, and how many were refused.

use std::fmt;

/// The counts of a run over lines.
#[derive(Clone, Copy)]
pub struct LineCounts {
    pub lines: u64,
    /// The number of refused lines, which the run skipped.
    pub refused: u64,
    /// With --pass-new: the number of lines that were already wrapped under the new KEK.
    pub passed: Option<u64>,
}

impl fmt::Display for LineCounts {
    fn fmt<W: fmt::Write>(&self, f: &mut fmt::Formatter<W>) -> fmt::Result {
        let (lines, refused) = (self.lines, self.refused);
        let passed = self.passed.unwrap_or(0);
        let answered = lines.saturating_sub(refused).saturating_sub(passed);
        write!(f, "keywrap: {lines} {}: {answered} answered", unit(lines))?;
        if self.passed.is_some() {
            write!(f, ", {passed} passed")?;
        }
        write!(f, ", {refused} refused")
    }
}

fn unit(lines: u64) -> &'static str {
    if lines == 1 { "line" } else { "lines" }
}
