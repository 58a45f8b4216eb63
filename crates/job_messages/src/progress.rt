//! Lines that `--progress` prints on standard error while a job is answered.

use crate::figures::Figures;
use dimacs_text::Explanation;
use job_answer::{Phase, ReadWatch, Watch};
use std::fmt;
use std::time::{Clock, Duration};

/// The most lines of a run.
const MOST_LINES: u32 = 100;

/// Lines after which the time between them doubles: a hundred lines are enough for hours.
const LINES_AT_A_PACE: u32 = 10;

/// Milliseconds between lines at a terminal.
const TERMINAL_MILLISECONDS: u64 = 200;

/// The way in which progress is shown.
#[derive(Clone, Copy, PartialEq)]
pub enum ProgressMode {
    /// Not at all.
    Off,
    /// In lines.
    Lines,
    /// In one line, which is replaced.
    Terminal,
}

/// Figures of a job, which it prints from time to time.
#[derive(Drop)]
pub struct ProgressReport<'a, H> {
    rt: &'a H,
    /// The figures so far.
    pub figures: Figures,
    /// The explanation of the fault, if the text is refused.
    pub explanation: Option<Explanation>,
    mode: ProgressMode,
    bytes: u64,
    lines: u32,
    /// The times at which the job began, and its first query was solved.
    began: Duration,
    began_queries: Option<Duration>,
    next: Duration,
}

impl<'a, H: Eprint + Clock> ProgressReport<'a, H> {
    /// The progress of a job whose time begins now.
    pub fn new(rt: &'a H, mode: ProgressMode) -> ProgressReport<'a, H> {
        let mut progress = ProgressReport {
            rt,
            figures: Figures::new(rt),
            explanation: None,
            mode,
            bytes: 0,
            lines: 0,
            began: rt.monotonic().unwrap_or(Duration::ZERO),
            began_queries: None,
            next: Duration::ZERO,
        };
        progress.next = progress.began.saturating_add(progress.pace());
        progress
    }

    fn pace(&self) -> Duration {
        if self.mode == ProgressMode::Terminal {
            return Duration::from_millis(TERMINAL_MILLISECONDS);
        }
        Duration::from_secs(1_u64 << (self.lines.min(MOST_LINES) / LINES_AT_A_PACE))
    }

    /// The time, if a line is due. A clock that fails makes none due.
    fn due(&mut self) -> Option<Duration> {
        if self.mode == ProgressMode::Off || self.lines >= MOST_LINES {
            return None;
        }
        let Ok(now) = self.rt.monotonic() else {
            return None;
        };
        if now < self.next {
            return None;
        }
        if self.mode == ProgressMode::Lines {
            self.lines += 1;
        }
        self.next = now.saturating_add(self.pace());
        Some(now)
    }

    fn tell(&mut self, step: ProgressStep) {
        let Some(now) = self.due() else {
            return;
        };
        let line = Line {
            step,
            spent: now.saturating_sub(self.began),
            left: step.left(now.saturating_sub(self.began_queries.unwrap_or(self.began))),
        };
        if self.mode == ProgressMode::Terminal {
            let _ = eprint!(self.rt; "\r\u{1b}[Kobim_query: {line}");
        } else {
            let _ = eprintln!(self.rt; "obim_query: {line}");
        }
    }

    /// Prints that the answer is whole, if a line was printed before.
    pub fn tell_end(&self) {
        if self.lines == 0 {
            return;
        }
        let now = self.rt.monotonic().unwrap_or(self.began);
        let spent = now.saturating_sub(self.began).as_secs();
        let _ = eprintln!(self.rt; "obim_query: answered, {spent} s");
    }

    /// Clears the line at a terminal.
    pub fn clear(&self) {
        if self.mode == ProgressMode::Terminal {
            let _ = eprint!(self.rt; "\r\u{1b}[K");
        }
    }
}

impl<H: Eprint + Clock> ReadWatch for ProgressReport<'_, H> {
    fn see_text(&mut self, count: usize, arcs: Option<(usize, usize)>) {
        self.bytes = self.bytes.saturating_add(count as u64);
        self.tell(match arcs {
            Some((read, all)) => ProgressStep::Arcs(read, all),
            None => ProgressStep::Bytes(self.bytes),
        });
    }

    fn see_fault(&mut self, explanation: &Explanation) {
        self.explanation = Some(*explanation);
    }
}

impl<H: Eprint + Clock> Watch for ProgressReport<'_, H> {
    fn see_rows(&mut self, vertices: u32, arcs: usize) {
        self.figures.see_rows(vertices, arcs);
    }

    fn see_landmarks(&mut self, landmarks: usize) {
        self.figures.see_landmarks(landmarks);
    }

    fn see_hierarchy(&mut self, arcs: usize) {
        self.figures.see_hierarchy(arcs);
    }

    fn see_search_visits(&mut self, visits: u64) {
        self.figures.see_search_visits(visits);
    }

    fn see_solves(&mut self, count: usize) {
        self.figures.see_solves(count);
    }

    fn see_teams(&mut self, teams: usize) {
        self.figures.see_teams(teams);
    }

    fn see_answered(&mut self, done: usize, all: usize) {
        if self.began_queries.is_none() {
            self.began_queries = self.rt.monotonic().ok();
        }
        self.tell(ProgressStep::Answered(done, all));
    }

    fn end<C: Clock>(&mut self, clock: &C, phase: Phase) {
        self.figures.end(clock, phase);
    }
}

#[derive(Clone, Copy)]
enum ProgressStep {
    /// The bytes read, before the problem line.
    Bytes(u64),
    /// The arcs read, and all.
    Arcs(usize, usize),
    /// The queries answered, and all.
    Answered(usize, usize),
}

impl ProgressStep {
    /// Estimates the time that is left, from the pace since the step began.
    fn left(self, spent: Duration) -> Option<Duration> {
        let (done, all) = match self {
            ProgressStep::Bytes(_) => return None,
            ProgressStep::Arcs(read, all) => (read as u128, all as u128),
            ProgressStep::Answered(done, all) => (done as u128, all as u128),
        };
        if done == 0 || done >= all {
            return None;
        }
        let left = spent.as_millis().saturating_mul(all - done) / done;
        Some(Duration::from_millis(u64::try_from(left).unwrap_or(u64::MAX)))
    }
}

impl fmt::Display for ProgressStep {
    fn fmt<W: fmt::Write>(&self, f: &mut fmt::Formatter<W>) -> fmt::Result {
        match self {
            ProgressStep::Bytes(bytes) => write!(f, "{} MiB read", bytes >> 20),
            ProgressStep::Arcs(read, all) => write!(f, "{read} of {all} arcs read"),
            ProgressStep::Answered(done, all) => write!(f, "{done} of {all} queries answered"),
        }
    }
}

/// A line: how far the job is, its time, and how much longer the step may take.
#[derive(Clone, Copy)]
struct Line {
    step: ProgressStep,
    spent: Duration,
    left: Option<Duration>,
}

impl fmt::Display for Line {
    fn fmt<W: fmt::Write>(&self, f: &mut fmt::Formatter<W>) -> fmt::Result {
        write!(f, "{}, {} s", self.step, self.spent.as_secs())?;
        match self.left {
            Some(left) => write!(f, ", some {} s left", left.as_secs()),
            None => Ok(()),
        }
    }
}
