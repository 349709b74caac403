//! The lengths of the lines of a file.

/// The lengths of the lines that were read so far.
#[derive(Clone, Copy, Default)]
pub(crate) struct LineLengths {
    // The length of the line that has not ended.
    current: u64,
    // The number of lines that ended and are not empty, and the length of the first of them.
    lines: u64,
    first: u64,
    // Whether a later line that is not empty has another length.
    differ: bool,
}

impl LineLengths {
    /// Adds a byte.
    pub(crate) fn add(&mut self, byte: u8) {
        match byte {
            b'\n' => self.end_line(),
            b'\r' => (),
            _ => self.current = self.current.saturating_add(1),
        }
    }

    /// If there are two lines or more, and all have the same length, returns their number. Empty
    /// lines do not count. The last line needs no newline.
    pub(crate) fn equal_lines(&self) -> Option<u64> {
        let mut whole = *self;
        whole.end_line();
        if whole.lines < 2 || whole.differ {
            return None;
        }
        Some(whole.lines)
    }

    fn end_line(&mut self) {
        if self.current == 0 {
            return;
        }
        if self.lines == 0 {
            self.first = self.current;
        }
        self.differ = self.differ || self.current != self.first;
        self.lines = self.lines.saturating_add(1);
        self.current = 0;
    }
}
