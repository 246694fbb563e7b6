// A line for each hundred answers, one for each that differs, and the total.
use crate::answers::Reply;
use std::{fmt, io};

#[derive(Clone, Copy)]
pub struct Case {
    pub ours: Reply,
    pub original: Reply,
}

#[derive(Clone, Copy, Default)]
pub struct Counts {
    answers: u64,
    accepted: u64,
    differ: u64,
}

impl fmt::Display for Counts {
    fn fmt<W: fmt::Write>(&self, f: &mut fmt::Formatter<W>) -> fmt::Result {
        write!(
            f,
            "{} answers, {} accepted, {} differ",
            self.answers, self.accepted, self.differ
        )
    }
}

impl Counts {
    pub fn add(&mut self, rt: &impl Print, case: Case) -> io::Result<()> {
        let accepted = case.original.number == 0;
        let differs = case.ours != case.original;
        self.answers = self.answers.wrapping_add(1);
        self.accepted = self.accepted.wrapping_add(u64::from(accepted));
        self.differ = self.differ.wrapping_add(u64::from(differs));
        if differs {
            let answer = self.answers;
            println!(rt;
                "answer {answer} differs: {}, and should be {}",
                case.ours, case.original
            )?;
        }
        if self.answers % 100 == 0 {
            println!(rt; "{self}")?;
        }
        Ok(())
    }
}
