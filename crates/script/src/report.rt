ghost use Rattle.std.specs.Prelude.{◌≡◌, ◌+◌, min, Some, Ok, Err};
ghost use Rattle.script.specs.Reports.{noted};
ghost use Rattle.script.specs.Texts.{report_text};

use machine::Stopped;
use std::fmt;

// What the runs of a script came to.
#[derive(Clone, Copy, Debug, Default, PartialEq, Eq, Drop)]
pub(crate) struct Report {
    pub(crate) halted: u32,
    pub(crate) stopped: u32,
    pub(crate) units: u64,
}

impl Report {
    // Counts a run, and no count passes the end of its type.
    pub(crate) fn note(&mut self, ending: Result<(), Stopped>, spent: u32)
        ensures is { self.new ≡ noted self.old ending spent }
        ensures units { self.new.units ≡ min (self.old.units + spent) 18446744073709551615 }
        ensures halted { self.new.halted ≡ elim ending [ Ok _ ↦ min (self.old.halted + 1) 4294967295 | Err _ ↦ self.old.halted ] }
        ensures stopped { self.new.stopped ≡ elim ending [ Ok _ ↦ self.old.stopped | Err _ ↦ min (self.old.stopped + 1) 4294967295 ] }
    {
        match ending {
            Ok(()) => self.halted = self.halted.saturating_add(1),
            Err(_) => self.stopped = self.stopped.saturating_add(1),
        }
        self.units = self.units.saturating_add(u64::from(spent));
    }

    pub(crate) fn runs(&self) -> u64
        ensures { result ≡ self.now.halted + self.now.stopped }
    {
        u64::from(self.halted) + u64::from(self.stopped)
    }
}

impl fmt::Display for Report {
    ghost output = { λ p. Some (report_text p) };

    fn fmt<W: fmt::Write>(&self, f: &mut fmt::Formatter<W>) -> fmt::Result {
        let runs = self.runs();
        let Report {
            halted,
            stopped,
            units,
        } = self;
        write!(
            f,
            "report: {runs} runs, {halted} halted, {stopped} stopped, {units} units spent"
        )
    }
}
