// A line for each reading, and how many there were.
use rules::Refusal;
use std::{fmt, io};

#[derive(Clone, Copy, Default)]
pub struct Counts {
    readings: u64,
    failed: u64,
}

impl fmt::Display for Counts {
    fn fmt<W: fmt::Write>(&self, f: &mut fmt::Formatter<W>) -> fmt::Result {
        write!(f, "{} readings, {} failed", self.readings, self.failed)
    }
}

impl Counts {
    // A reading that gives a number, beside the number that it should give.
    pub fn gives(
        &mut self,
        rt: &impl Print,
        line: &[u8],
        gave: u32,
        wanted: u32,
    ) -> io::Result<()> {
        let ok = gave == wanted;
        begin(rt, ok, line)?;
        print!(rt; ": {gave}")?;
        if !ok {
            print!(rt; ", and should be {wanted}")?;
        }
        self.end(rt, ok)
    }

    // A reading that is right or wrong.
    pub fn holds(&mut self, rt: &impl Print, line: &[u8], ok: bool) -> io::Result<()> {
        begin(rt, ok, line)?;
        self.end(rt, ok)
    }

    fn end(&mut self, rt: &impl Print, ok: bool) -> io::Result<()> {
        self.readings = self.readings.wrapping_add(1);
        self.failed = self.failed.wrapping_add(u64::from(!ok));
        print!(rt; "\n")
    }
}

// Document 01's number of an answer: 0 is accepted. A number, since the rows and what is printed have numbers.
pub fn number_of<T: Drop>(answer: Result<T, Refusal>) -> u32 {
    match answer {
        Ok(_) => 0,
        Err(refusal) => u32::from(refusal),
    }
}

fn begin(rt: &impl Print, ok: bool, line: &[u8]) -> io::Result<()> {
    if ok {
        print!(rt; "ok ")?;
    } else {
        print!(rt; "FAILED ")?;
    }
    rt.write_all(line)
}
