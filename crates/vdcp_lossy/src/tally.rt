//! The counts of bursts, and their lines.
use crate::doing::Doing;
use std::io;

/// How many bursts came, and what was done with them, both ways together.
#[derive(Clone, Copy)]
pub struct Tally {
    pub commands: u32,
    pub answers: u32,
    pub through: u64,
    pub lost: u64,
    pub late: u64,
    pub copied: u64,
    pub cut: u64,
    pub damaged: u64,
    pub forged: u64,
}

impl Tally {
    pub fn new() -> Tally {
        Tally {
            commands: 0,
            answers: 0,
            through: 0,
            lost: 0,
            late: 0,
            copied: 0,
            cut: 0,
            damaged: 0,
            forged: 0,
        }
    }

    pub fn count_command(&mut self) {
        self.commands = self.commands.saturating_add(1);
    }

    pub fn count_answer(&mut self) {
        self.answers = self.answers.saturating_add(1);
    }

    pub fn count(&mut self, doing: &Doing) {
        match doing {
            Doing::Through => add_one(&mut self.through),
            Doing::Lost => add_one(&mut self.lost),
            Doing::Late => add_one(&mut self.late),
            Doing::Copied => add_one(&mut self.copied),
            Doing::Cut(_) => add_one(&mut self.cut),
            Doing::Damaged(_) => add_one(&mut self.damaged),
            Doing::Forged(_) => add_one(&mut self.forged),
        }
    }

    pub fn write<W: io::Write>(&self, out: &mut W) -> io::Result<()> {
        let Tally {
            commands,
            answers,
            through,
            lost,
            late,
            copied,
            cut,
            damaged,
            forged,
        } = *self;
        writeln!(out, "commands {commands}")?;
        writeln!(out, "answers {answers}")?;
        writeln!(out, "through {through}")?;
        writeln!(out, "lost {lost}")?;
        writeln!(out, "late {late}")?;
        writeln!(out, "copied {copied}")?;
        writeln!(out, "cut {cut}")?;
        writeln!(out, "damaged {damaged}")?;
        writeln!(out, "forged {forged}")
    }
}

fn add_one(count: &mut u64) {
    *count = count.saturating_add(1);
}
