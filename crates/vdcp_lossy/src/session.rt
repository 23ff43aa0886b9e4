//! The state of a line while it is run, and why it ends.
ghost use Rattle.std.specs.Io.KnownBytes.{Keeps};
ghost use Rattle.std.specs.Prelude.{◌≡◌, ◌<◌, ◌≤◌, OnOk, IfOk, IfSome, length};
ghost use Rattle.vdcp_lossy.specs.Brought.{HasSome};
ghost use Rattle.vdcp_lossy.specs.Carried.{sent_by};
ghost use Rattle.vdcp_lossy.specs.Doings.{CanBe, IsForged};

use crate::dice::Dice;
use crate::doing::{Doing, HeldBurst};
use crate::lossy::LossySettings;
use crate::tally::Tally;
use crate::text::write_burst_line;
use std::io;
use std::rt::Clock;
use std::time::Instant;
use vdcp_auto::Way;
use vdcp_wire::{Came, PIECE, Wire, WireFault};

#[derive(Clone, Copy)]
pub enum CarryEnd {
    Closed,
    /// All turns were made.
    Spent,
}

#[derive(Clone, Copy)]
pub enum CarryFault {
    /// A wire failed, or the clock did.
    Line,
    Writer,
}

impl From<WireFault> for CarryFault {
    fn from(_: WireFault) -> Self {
        CarryFault::Line
    }
}

/// What a wire brought.
#[derive(Clone, Copy)]
pub enum Brought {
    /// Its first bytes came at this time.
    Burst(Instant),
    /// The burst is too long to be held.
    Long,
    Nothing,
    Over(CarryEnd),
}

#[derive(Drop)]
pub struct Session<'a, R: Clock> {
    clock: &'a R,
    settings: LossySettings,
    left: u32,
    tally: Tally,
}

impl<'a, R: Clock> Session<'a, R> {
    pub fn new(clock: &'a R, settings: LossySettings) -> Self {
        Session {
            clock,
            settings,
            left: settings.turns,
            tally: Tally::new(),
        }
    }

    pub fn left(&self) -> u32
        ensures { result ≡ self.now.left }
    {
        self.left
    }

    pub fn tally(&self) -> &Tally {
        &self.tally
    }

    /// Listens until a burst has ended, or a silence passed without one.
    pub fn receive<W: Wire>(
        &mut self,
        wire: &mut W,
        burst: &mut HeldBurst,
    ) -> Result<Brought, CarryFault>
        requires { W.failures wire.old ≡ 0 }
        ensures fewer { 0 < self.old.left → self.new.left < self.old.left }
        ensures no_more { self.new.left ≤ self.old.left }
        ensures some { IfOk result (λ brought. HasSome brought burst.new.items) }
        ensures sent { OnOk result (Keeps (sent_by (W.told wire.old)) (sent_by (W.told wire.new))) }
        ensures works { OnOk result (W.failures wire.new ≡ 0) }
    {
        burst.clear();
        let mut began = None;
        let mut is_long = false;
        let mut buffer = [0; PIECE];
        'listens: while self.left > 0 {
            self.left -= 1;
            match wire.listen(&mut buffer)? {
                Came::Bytes(0) => {}
                Came::Bytes(n) => {
                    if began.is_none() {
                        began = Some(now(self.clock)?);
                    }
                    is_long = is_long || burst.try_extend_from_slice(&buffer[..n]).is_err();
                }
                Came::Silence => {
                    return Ok(match began {
                        Some(_) if is_long => Brought::Long,
                        Some(began) => Brought::Burst(began),
                        None => Brought::Nothing,
                    });
                }
                Came::Closed => return Ok(Brought::Over(CarryEnd::Closed)),
            }
        }
        Ok(Brought::Over(CarryEnd::Spent))
    }

    pub fn count_command(&mut self)
        ensures { self.new.left ≡ self.old.left }
    {
        self.tally.count_command();
    }

    pub fn count_answer(&mut self)
        ensures { self.new.left ≡ self.old.left }
    {
        self.tally.count_answer();
    }

    /// Whether it is too late for what belongs to a command that came at `began`.
    pub fn is_late(&self, began: Instant) -> Result<bool, CarryFault> {
        let elapsed = now(self.clock)?.duration_since(began);
        Ok(elapsed.as_millis() >= u128::from(self.settings.within))
    }

    pub fn doing(&self, way: Way, burst: &HeldBurst, began: Instant) -> Result<Doing, CarryFault>
        requires { 0 < length burst.now.items }
        ensures { IfOk result (CanBe way burst.now.items) }
    {
        if self.is_late(began)? {
            return Ok(Doing::Late);
        }
        let mut dice = self.dice(way);
        Ok(Doing::of_burst(&mut dice, &self.settings.chances, way, burst.as_slice()))
    }

    /// The receipt that is forged for a command without an answer, if one is; `began` is when the command came.
    pub fn forged(&self, began: Instant) -> Result<Option<Doing>, CarryFault>
        ensures { IfOk result (λ forged. IfSome forged IsForged) }
    {
        if self.is_late(began)? {
            return Ok(None);
        }
        let mut dice = self.dice(Way::Up);
        Ok(Doing::of_nothing(&mut dice, &self.settings.chances))
    }

    // In each exchange the command and the answer have dice of their own.
    fn dice(&self, way: Way) -> Dice {
        let number = self.tally.commands.wrapping_mul(2);
        match way {
            Way::Down => Dice::new(self.settings.seed, number),
            Way::Up => Dice::new(self.settings.seed, number.wrapping_add(1)),
        }
    }

    pub fn tell<W: io::Write>(
        &mut self,
        way: Way,
        doing: &Doing,
        came: &[u8],
        out: &mut W,
    ) -> Result<(), CarryFault>
        ensures { self.new.left ≡ self.old.left }
    {
        let number = self.tally.commands;
        self.tally.count(doing);
        match write_burst_line(number, way, doing, came, out) {
            Ok(()) => Ok(()),
            Err(_) => Err(CarryFault::Writer),
        }
    }
}

fn now<R: Clock>(clock: &R) -> Result<Instant, CarryFault> {
    match Instant::now(clock) {
        Ok(now) => Ok(now),
        Err(_) => Err(CarryFault::Line),
    }
}
