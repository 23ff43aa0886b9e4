//! What each event does to a world, in bytes.
ghost use Rattle.std.specs.Prelude.{◌≡◌, ◌≤◌, [], ◌++◌, OnOk, OnErr};
ghost use Rattle.vdcp_auto.specs.Course.{logged};
ghost use Rattle.vdcp_auto.specs.Plan.{plan_of};
ghost use Rattle.vdcp_auto.specs.Turn as turns;
ghost use Rattle.vdcp_frame.specs.Message.{spelling};
ghost use Rattle.vdcp_port.specs.Answers.{sent_for, aired_for, after_burst};
ghost use Rattle.vdcp_words.specs.Commands.{command_message};
ghost use Rattle.vdcp_world.specs.Channel as channel;
ghost use Rattle.vdcp_world.specs.Channel.{after_event, altered, answered, down_behind, up_behind};
ghost use Rattle.vdcp_world.specs.Channel.{state_hearing, log_hearing, state_waiting, log_waiting, state_straying, log_straying};
ghost use Rattle.vdcp_auto.specs.Heard.{heard_in};

use crate::damage::{can_become, can_become_up};
use crate::event::Event;
use crate::heard;
use arrayvec::ArrayVec;
use std::alloc::{AllocError, Allocator};
use std::marker::Model;
use vdcp_auto::{Controller, Exchange, Heard, Outcome, Source};
use vdcp_frame::write;
use vdcp_port::{Catalogue, Port};
use vdcp_value::Item;
use vdcp_words::{Command, Reply};

#[derive(Drop)]
pub(crate) struct Link<S: Source, C: Catalogue, A: Allocator> {
    controller: Controller<S>,
    port: Port<C>,
    down: ArrayVec<u8, 1024>,
    // As many bytes as the answers to 1,024 bytes can have.
    up: ArrayVec<u8, 3074>,
    lost: ArrayVec<u8, 3074>,
    aired: Vec<Item, A>,
    log: Vec<Exchange, A>,
}

impl<S: Source, C: Catalogue, A: Allocator> Model for Link<S, C, A> {
    ghost use Rattle.vdcp_auto.specs.Plan.{plan_of};
    ghost use Rattle.vdcp_world.specs.Channel.{Channel};

    ghost Value = { Channel };

    ghost view = { λ w. record {
      plan = plan_of S.items w.controller;
      state = w.controller.state;
      port = w.port;
      down = w.down.items;
      up = w.up.items;
      aired = w.aired.items;
      log = w.log.items;
    } };
}

impl<S: Source, C: Catalogue, A: Allocator + Copy> Link<S, C, A> {
    pub fn new(alloc: A, controller: Controller<S>, port: Port<C>) -> Self
        ensures { result ≡ record {
          plan = plan_of S.items controller;
          state = controller.state;
          port = port;
          down = [];
          up = [];
          aired = [];
          log = [];
        } }
    {
        Link {
            controller,
            port,
            down: ArrayVec::new(),
            up: ArrayVec::new(),
            lost: ArrayVec::new(),
            aired: Vec::new(alloc),
            log: Vec::new(alloc),
        }
    }

    pub fn aired(&self) -> &[Item]
        ensures { result.now ≡ self.now.aired }
    {
        self.aired.as_slice()
    }

    pub fn log(&self) -> &[Exchange]
        ensures { result.now ≡ self.now.log }
    {
        self.log.as_slice()
    }

    pub fn reported(&self) -> usize
        ensures { result ≡ self.now.state.settled }
    {
        self.controller.settled()
    }

    pub fn is_ready(&self) -> bool
        ensures { result ≡ turns.is_ready self.now.state.stage }
    {
        self.controller.is_ready()
    }

    pub fn wishes_to_stop(&self) -> bool
        ensures { result ≡ self.now.state.stop }
    {
        self.controller.wishes_to_stop()
    }

    pub fn outcome(&self) -> Option<Outcome>
        ensures { result ≡ turns.outcome_of self.now.state.stage }
    {
        self.controller.outcome()
    }

    pub fn step(&mut self, event: &Event) -> Result<(), AllocError>
        ensures step { OnOk result (self.new ≡ after_event self.old event.now) }
        ensures refused { OnErr result (self.new ≡ self.old) }
    {
        let unit = self.port.unit();
        match event {
            Event::Tick => tick(&mut self.controller, unit, &mut self.down, &mut self.up),
            Event::Down => deliver(
                &mut self.port,
                &mut self.down,
                &mut self.up,
                &mut self.aired,
            )?,
            Event::DownCopy => read_burst(
                &mut self.port,
                &self.down,
                &mut self.lost,
                &mut self.aired,
            )?,
            Event::Up => {
                hear(
                    &mut self.controller,
                    self.up.as_slice(),
                    unit,
                    &mut self.log,
                )?;
                self.up.clear();
            }
            Event::UpCopy => hear(
                &mut self.controller,
                self.up.as_slice(),
                unit,
                &mut self.log,
            )?,
            Event::LoseDown => self.down.clear(),
            Event::LoseUp => self.up.clear(),
            Event::AlterDown(burst) => alter_down(&mut self.down, burst.bytes()),
            Event::AlterUp(burst) => {
                alter_up(&self.controller, unit, &mut self.up, burst.bytes());
            }
            Event::Timeout => {
                time_out(&mut self.controller, &self.down, &self.up, &mut self.log)?;
            }
            Event::Ready => self.port.ready(),
            Event::End => self.port.ended(),
            Event::Frame => {
                self.port.frame();
            }
            Event::Take => self.controller.take(),
            Event::Stop => self.controller.stop(),
            Event::StrayAck => stray(&mut self.controller, Reply::Ack, &mut self.log)?,
            Event::StrayNak(byte) => stray(&mut self.controller, Reply::Nak(*byte), &mut self.log)?,
        }
        Ok(())
    }
}

fn tick<S: Source>(
    controller: &mut Controller<S>,
    unit: u8,
    down: &mut ArrayVec<u8, 1024>,
    up: &mut ArrayVec<u8, 3074>,
)
    requires { unit ≤ 15 }
    ensures controller { controller.new ≡ record controller.old { state = turns.ticked controller.old.state } }
    ensures down { down.new.items ≡ down_behind unit (turns.given (plan_of S.items controller.old) controller.old.state)
        down.old.items }
    ensures up { up.new.items ≡ up_behind (turns.given (plan_of S.items controller.old) controller.old.state)
        up.old.items }
{
    if let Some(command) = controller.tick() {
        put_command(&command, unit, down);
        up.clear();
    }
}

fn put_command(command: &Command, unit: u8, down: &mut ArrayVec<u8, 1024>)
    requires { unit ≤ 15 }
    ensures { down.new.items ≡ spelling (command_message unit command.now) }
{
    down.clear();
    down.try_extend_from_slice(command.encode(unit).as_slice())
        .unwrap();
}

fn deliver<C: Catalogue, A: Allocator>(
    port: &mut Port<C>,
    down: &mut ArrayVec<u8, 1024>,
    up: &mut ArrayVec<u8, 3074>,
    aired: &mut Vec<Item, A>,
) -> Result<(), AllocError>
    ensures port { OnOk result (port.new ≡ after_burst port.old down.old.items) }
    ensures down { OnOk result (down.new.items ≡ []) }
    ensures up { OnOk result (up.new.items ≡ answered port.old down.old.items up.old.items) }
    ensures aired { OnOk result (aired.new.items ≡ aired.old.items ++ aired_for port.old down.old.items) }
    ensures refused { OnErr result ((port.new ≡ port.old) × (down.new.items ≡ down.old.items)
        × (up.new.items ≡ up.old.items) × (aired.new.items ≡ aired.old.items)) }
{
    if !down.is_empty() {
        read_burst(port, down, up, aired)?;
        down.clear();
    }
    Ok(())
}

fn read_burst<C: Catalogue, A: Allocator>(
    port: &mut Port<C>,
    burst: &ArrayVec<u8, 1024>,
    answer: &mut ArrayVec<u8, 3074>,
    aired: &mut Vec<Item, A>,
) -> Result<(), AllocError>
    ensures port { OnOk result (port.new ≡ after_burst port.old burst.now.items) }
    ensures answer { OnOk result (answer.new.items ≡ sent_for port.old burst.now.items) }
    ensures aired { OnOk result (aired.new.items ≡ aired.old.items ++ aired_for port.old burst.now.items) }
    ensures refused { OnErr result ((port.new ≡ port.old) × (answer.new.items ≡ answer.old.items)
        × (aired.new.items ≡ aired.old.items)) }
{
    aired.reserve(1)?;
    answer.clear();
    if let Some(item) = port.answer_into(burst.as_slice(), answer) {
        aired.push_reserved(item);
    }
    Ok(())
}

fn hear<S: Source, A: Allocator>(
    controller: &mut Controller<S>,
    burst: &[u8],
    unit: u8,
    log: &mut Vec<Exchange, A>,
) -> Result<(), AllocError>
    ensures controller { OnOk result (controller.new ≡ record controller.old {
      state = state_hearing (plan_of S.items controller.old) (heard_in unit burst.now) controller.old.state;
    }) }
    ensures log { OnOk result (log.new.items ≡ log_hearing (plan_of S.items controller.old) (heard_in unit burst.now)
        controller.old.state log.old.items) }
    ensures refused { OnErr result ((controller.new ≡ controller.old) × (log.new.items ≡ log.old.items)) }
{
    let came = heard::first_of(burst, unit);
    if came.is_none() {
        return Ok(());
    }
    end_exchange(controller, came, log)
}

fn alter_down(down: &mut ArrayVec<u8, 1024>, bytes: &[u8])
    ensures { down.new.items ≡ altered (channel.can_become down.old.items bytes.now) down.old.items bytes.now }
{
    if can_become(down.as_slice(), bytes) {
        down.clear();
        down.try_extend_from_slice(bytes).unwrap();
    }
}

fn alter_up<S: Source>(
    controller: &Controller<S>,
    unit: u8,
    up: &mut ArrayVec<u8, 3074>,
    bytes: &[u8],
)
    ensures { up.new.items
        ≡ altered (channel.can_become_up controller.now.mode unit up.old.items bytes.now) up.old.items bytes.now }
{
    if can_become_up(controller, unit, up.as_slice(), bytes) {
        up.clear();
        up.try_extend_from_slice(bytes).unwrap();
    }
}

fn time_out<S: Source, A: Allocator>(
    controller: &mut Controller<S>,
    down: &ArrayVec<u8, 1024>,
    up: &ArrayVec<u8, 3074>,
    log: &mut Vec<Exchange, A>,
) -> Result<(), AllocError>
    ensures controller { OnOk result (controller.new ≡ record controller.old {
      state = state_waiting (plan_of S.items controller.old) down.now.items up.now.items controller.old.state;
    }) }
    ensures log { OnOk result (log.new.items ≡ log_waiting (plan_of S.items controller.old) down.now.items up.now.items
        controller.old.state log.old.items) }
    ensures refused { OnErr result ((controller.new ≡ controller.old) × (log.new.items ≡ log.old.items)) }
{
    if down.is_empty() && up.is_empty() {
        end_exchange(controller, None, log)?;
    }
    Ok(())
}

fn stray<S: Source, A: Allocator>(
    controller: &mut Controller<S>,
    receipt: Reply,
    log: &mut Vec<Exchange, A>,
) -> Result<(), AllocError>
    ensures controller { OnOk result (controller.new ≡ record controller.old {
      state = state_straying controller.old.mode (plan_of S.items controller.old) receipt controller.old.state;
    }) }
    ensures log { OnOk result (log.new.items ≡ log_straying controller.old.mode (plan_of S.items controller.old) receipt
        controller.old.state log.old.items) }
    ensures refused { OnErr result ((controller.new ≡ controller.old) × (log.new.items ≡ log.old.items)) }
{
    if controller.is_confirming() {
        end_exchange(controller, Some(Heard::Reply(receipt)), log)?;
    }
    Ok(())
}

// Memory for the log is asked for first: if it is refused, nothing comes.
fn end_exchange<S: Source, A: Allocator>(
    controller: &mut Controller<S>,
    came: Option<Heard>,
    log: &mut Vec<Exchange, A>,
) -> Result<(), AllocError>
    ensures controller { OnOk result (controller.new ≡ record controller.old {
      state = turns.came_to (plan_of S.items controller.old) came controller.old.state;
    }) }
    ensures log { OnOk result (log.new.items ≡ logged log.old.items
        (turns.ended_by (plan_of S.items controller.old) came controller.old.state)) }
    ensures refused { OnErr result ((controller.new ≡ controller.old) × (log.new.items ≡ log.old.items)) }
{
    log.reserve(1)?;
    if let Some(exchange) = controller.receive(came) {
        log.push_reserved(exchange);
    }
    Ok(())
}
