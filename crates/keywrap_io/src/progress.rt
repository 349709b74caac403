//! The progress of a run over the lines of an input: a line on the terminal that is rewritten.

use std::cell::Cell;
use std::io::{self, Read};
use std::rt::Env;
use std::time::{Clock, Duration};
use std::{env, fmt};

// The line is rewritten after this many milliseconds at the earliest.
const PAUSE: u64 = 500;

// Moves to the start of the terminal's line, and clears it.
const CLEAR: &str = "\r\x1b[K";

/// The progress of a run, and whether the terminal shows it.
#[derive(Drop)]
pub struct Progress<'a, R> {
    rt: &'a R,
    // When the run started, or `None` if no progress is shown.
    start: Option<Duration>,
    state: Cell<State>,
    // Whether the terminal has the line now.
    is_shown: Cell<bool>,
}

#[derive(Clone, Copy, Default)]
struct State {
    bytes: u64,
    lines: u64,
    total: Option<u64>,
    // The milliseconds since the start when the line was last written.
    millis: u64,
}

impl<'a, R: Eprint + Clock + Env + AllocGlobal> Progress<'a, R> {
    /// Starts a run over an input of this length. Progress is shown only if `is_wanted` is set and
    /// the terminal can rewrite a line.
    pub fn start(rt: &'a R, is_wanted: bool, total: Option<u64>) -> Self {
        let is_shown = is_wanted && can_rewrite(rt);
        Progress {
            rt,
            start: if is_shown { rt.monotonic().ok() } else { None },
            state: Cell::new(State {
                total,
                ..State::default()
            }),
            is_shown: Cell::new(false),
        }
    }

    // Counts bytes that were read, and shows the line if it is time.
    fn count(&self, bytes: &[u8]) {
        let Some(start) = self.start else {
            return;
        };
        let ends = bytes.iter().filter(|byte| **byte == b'\n').count();
        let mut state = self.state.get();
        state.bytes = state.bytes.saturating_add(bytes.len() as u64);
        state.lines = state.lines.saturating_add(ends as u64);
        if let Ok(now) = self.rt.monotonic() {
            let millis = u64::try_from(now.saturating_sub(start).as_millis()).unwrap_or(u64::MAX);
            if millis.saturating_sub(state.millis) >= PAUSE {
                state.millis = millis;
                self.is_shown.set(true);
                // Nothing is lost if standard error is closed.
                let _ = self.rt.eprint(state);
            }
        }
        self.state.set(state);
    }

    /// Removes the line from the terminal.
    pub fn clear(&self) {
        if self.is_shown.replace(false) {
            let _ = self.rt.eprint(CLEAR);
        }
    }

    /// Removes the progress, and writes another line on standard error.
    pub fn print_line<D: fmt::Display + Drop>(&self, line: D) {
        self.clear();
        // Nothing is left to do if standard error is closed.
        let _ = self.rt.eprintln(line);
    }
}

// A dumb terminal, or one without a name, cannot clear a line.
fn can_rewrite<R: Env + AllocGlobal>(rt: &R) -> bool {
    env::var(rt, "TERM").is_ok_and(|name| !name.is_empty() && name.as_str() != "dumb")
}

fn quotient(dividend: u64, factor: u64, divisor: u64) -> Option<u64> {
    dividend.saturating_mul(factor).checked_div(divisor)
}

impl fmt::Display for State {
    // The terminal cuts the line if it is longer than the terminal is wide.
    fn fmt<W: fmt::Write>(&self, f: &mut fmt::Formatter<W>) -> fmt::Result {
        let lines = self.lines;
        let rate = quotient(lines, 1000, self.millis).unwrap_or(0);
        write!(f, "{CLEAR}\x1b[?7lkeywrap: {lines} lines, {rate} a second")?;
        if let Some(total) = self.total {
            let percent = quotient(self.bytes, 100, total).unwrap_or(100).min(100);
            let rest = total.saturating_sub(self.bytes);
            let millis_left = quotient(rest, self.millis, self.bytes).unwrap_or(0);
            let left = millis_left.div_ceil(1000);
            write!(f, ", {percent} % done, {left} s left")?;
        }
        f.write_str("\x1b[?7h")
    }
}

/// A reader that counts the bytes that it reads, for the progress.
#[derive(Drop)]
pub struct CountingReader<'i, 'p, 'r, I, R> {
    pub input: &'i mut I,
    pub progress: &'p Progress<'r, R>,
}

impl<I: Read, R: Eprint + Clock + Env + AllocGlobal> Read for CountingReader<'_, '_, '_, I, R> {
    ghost remaining = { λ s. I.remaining s.input.now };

    fn read(&mut self, buf: &mut [u8]) -> io::Result<usize> {
        let count = self.input.read(buf)?;
        self.progress.count(&buf[..count]);
        Ok(count)
    }
}
