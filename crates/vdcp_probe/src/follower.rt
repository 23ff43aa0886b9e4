//! The port that a server is held against, and its answers.
ghost use Rattle.std.specs.Prelude.{◌≡◌, ◌*◌, ◌≤◌, IfNone, IfOk, IfSome};
ghost use Rattle.vdcp_port.specs.Clock.{new_port};
ghost use Rattle.vdcp_port.specs.Port.{state_byte};
ghost use Rattle.vdcp_probe.specs.Following.{IsForeseen, IsUnforeseen, answer_after, changed_by, port_after};

use std::alloc::{AllocError, Global};
use std::marker::Model;
use vdcp_port::{Catalogue, Kept, Port};
use vdcp_value::{ClipId, Timecode};

#[derive(Clone, Copy, Debug, PartialEq, Eq)]
pub enum Meanwhile {
    Nothing,
    CueDone,
    ClipEnded,
    Both,
}

// What may have happened, the least first.
const ALL: [Meanwhile; 4] = [
    Meanwhile::Nothing,
    Meanwhile::CueDone,
    Meanwhile::ClipEnded,
    Meanwhile::Both,
];

#[derive(Clone, Copy)]
struct Lent<'a, C>(&'a C);

impl<C: Catalogue> Catalogue for Lent<'_, C> {
    ghost clips = { λ lent. C.clips lent.0.now };

    fn length(&self, id: &ClipId) -> Option<Timecode> {
        self.0.length(id)
    }
}

/// A port that gets the bursts that a server gets.
#[derive(Drop)]
pub struct Follower<'a, C: Catalogue> {
    catalogue: &'a C,
    kept: Kept,
}

impl<'a, C: Catalogue> Model for Follower<'a, C> {
    ghost use Rattle.vdcp_port.specs.Clock.{ClockedPort};
    ghost use Rattle.vdcp_port.specs.Held.{CanKeep, port_of};

    ghost Value = { ClockedPort };

    ghost view = { λ f. port_of (C.clips f.catalogue.now) f.kept };

    ghost invariant = { λ f. CanKeep (C.clips f.catalogue.now) f.kept };
}

impl<'a, C: Catalogue> Follower<'a, C> {
    pub fn new(catalogue: &'a C, unit: u8, number: u8) -> Self
        requires { unit ≤ 15 }
        ensures { result ≡ new_port (C.clips catalogue.now) unit number 1 }
    {
        let kept = Port::new(Lent(catalogue), unit, number).kept();
        Follower { catalogue, kept }
    }

    fn port(&self) -> Port<Lent<'a, C>>
        ensures { result ≡ self.now }
    {
        Port::of_kept(Lent(self.catalogue), &self.kept)
    }

    fn moved_to(&self, port: &Port<Lent<'a, C>>) -> Self
        requires { port.now.clips ≡ self.now.clips }
        ensures { result ≡ port.now }
    {
        Follower {
            catalogue: self.catalogue,
            kept: port.kept(),
        }
    }

    pub fn status_byte(&self) -> u8
        ensures { result ≡ state_byte self.now.state }
    {
        self.port().status_byte()
    }

    fn answer_after(
        &self,
        alloc: Global,
        meanwhile: Meanwhile,
        burst: &[u8],
    ) -> Result<(Vec<u8>, Self), AllocError>
        ensures { IfOk result (λ after. (after.0.items ≡ answer_after meanwhile self.now burst.now)
            × (after.1 ≡ port_after meanwhile self.now burst.now)) }
    {
        let mut port = self.port();
        let mut answer = Vec::new(alloc);
        let mut aired = Vec::new(alloc);
        change(meanwhile, &mut port);
        port.burst_answer(burst, &mut answer, &mut aired)?;
        Ok((answer, self.moved_to(&port)))
    }

    /// The port after a burst, if it may answer what came; None if it may not.
    pub fn after(
        &self,
        alloc: Global,
        burst: &[u8],
        came: &[u8],
    ) -> Result<Option<Self>, AllocError>
        ensures foreseen { IfOk result (λ found. IfSome found (λ next. IsForeseen self.now burst.now came.now next)) }
        ensures unforeseen { IfOk result (λ found. IfNone found (IsUnforeseen self.now burst.now came.now)) }
    {
        for meanwhile in ALL {
            let (answer, next) = self.answer_after(alloc, meanwhile, burst)?;
            if answer.as_slice() == came {
                return Ok(Some(next));
            }
        }
        Ok(None)
    }

    /// What the port may answer, each answer once.
    pub fn may_come(&self, alloc: Global, burst: &[u8]) -> Result<Vec<Vec<u8>>, AllocError> {
        let mut answers = Vec::new(alloc);
        for meanwhile in ALL {
            let (answer, _) = self.answer_after(alloc, meanwhile, burst)?;
            add_new(answer, &mut answers)?;
        }
        Ok(answers)
    }
}

fn change<C: Catalogue>(meanwhile: Meanwhile, port: &mut Port<C>)
    ensures { port.new ≡ changed_by meanwhile port.old }
{
    match meanwhile {
        Meanwhile::Nothing => {}
        Meanwhile::CueDone => port.ready(),
        Meanwhile::ClipEnded => port.ended(),
        Meanwhile::Both => {
            port.ready();
            port.ended();
        }
    }
}

fn add_new(answer: Vec<u8>, answers: &mut Vec<Vec<u8>>) -> Result<(), AllocError> {
    for known in answers.iter() {
        if known.as_slice() == answer.as_slice() {
            return Ok(());
        }
    }
    answers.push(answer)?;
    Ok(())
}
