//! What `judge` prints of the exchanges of a capture, one after another.
ghost use Rattle.std.specs.Prelude.{◌≡◌, ◌+◌, ◌<◌, ◌^◌, ◌≤◌, ◌++◌, ◌∷◌, [], List, IfOk, OnOk, if◌then◌else◌, slice_get, string_bytes};
ghost use Rattle.vdcp_offline.specs.Findings.{event_line, forbidden_line, is_forbidden, judged_text};
ghost use Rattle.vdcp_offline.specs.Found.{AreMore, Tells};
ghost use Rattle.vdcp_offline.specs.declared.judge.findings.Finding.{Finding};
ghost use Rattle.vdcp_offline.specs.declared.judge.settings.JudgeSettings.{JudgeSettings};
ghost use Rattle.vdcp_auto.specs.declared.judge.Ruling.{Ruling};
ghost use Rattle.vdcp_value.specs.declared.part.Item.{Item};

use crate::judge::findings::Finding;
use crate::judge::settings::JudgeSettings;
use arrayvec::ArrayString;
use std::alloc::{AllocError, Global};
use std::fmt::Write;
use vdcp_auto::laws::a_log_grows;
use vdcp_auto::{Exchange, Judge, Source};
use vdcp_text::ItemText;
use vdcp_value::{Item, Rate};

#[derive(Drop)]
pub struct Told<'e, S: Source> {
    pub settings: JudgeSettings,
    pub events: &'e S,
    pub judge: Judge<&'e S>,
    pub exchanges: usize,
    pub forbidden: usize,
    pub forbidden_text: String,
    pub reported_text: String,
}

impl<'e, S: Source> Told<'e, S> {
    pub fn new(alloc: Global, events: &'e S, settings: JudgeSettings) -> Self
        ensures { Tells S.items settings (S.items events.now) [] result }
    {
        Told {
            settings,
            events,
            judge: Judge::new(events, settings.mode),
            exchanges: 0,
            forbidden: 0,
            forbidden_text: String::new(alloc),
            reported_text: String::new(alloc),
        }
    }

    /// `line` is that of the exchange's command.
    pub fn add_ended(&mut self, line: usize, ended: Option<Exchange>) -> Result<(), AllocError>
        ensures { (settings : JudgeSettings) (items : List Item) (findings : List Finding)
            → Tells S.items settings items findings self.old → OnOk result ((more : List Finding)
            × AreMore findings line ended more × Tells S.items settings items more self.new) }
    {
        match ended {
            Some(exchange) => self.add(line, &exchange),
            None => Ok(()),
        }
    }

    fn add(&mut self, line: usize, exchange: &Exchange) -> Result<(), AllocError>
        ensures { (settings : JudgeSettings) (items : List Item) (findings : List Finding)
            → Tells S.items settings items findings self.old → OnOk result ((ruling : Ruling)
            × Tells S.items settings items (findings ++ record { line = line; exchange = exchange.now; ruling = ruling } ∷ [])
            self.new) }
    {
        a_log_grows();
        let Some(exchanges) = self.exchanges.checked_add(1) else {
            return Err(AllocError);
        };
        let finding = Finding {
            line,
            exchange: *exchange,
            ruling: self.judge.rule_on(exchange),
        };
        let settled = self.judge.settled();
        self.forbidden = count_forbidden(self.forbidden, &finding);
        show_forbidden(&finding, &mut self.forbidden_text)?;
        show_event(
            self.settings.rate,
            self.events,
            settled,
            &finding,
            &mut self.reported_text,
        )?;
        self.judge.add(exchange);
        self.exchanges = exchanges;
        Ok(())
    }

    pub fn text(self) -> Result<String, AllocError>
        ensures { (settings : JudgeSettings) (items : List Item) (findings : List Finding)
            → Tells S.items settings items findings self.entry →
            IfOk result (λ text. string_bytes text ≡ judged_text settings.rate items findings) }
    {
        let Told {
            judge,
            exchanges,
            forbidden,
            forbidden_text,
            reported_text,
            ..
        } = self;
        let reported = judge.settled();
        let mut text = forbidden_text;
        text.push_str(reported_text.as_str())?;
        writeln!(text, "exchanges {exchanges}")?;
        writeln!(text, "forbidden {forbidden}")?;
        writeln!(text, "reported {reported}")?;
        Ok(text)
    }
}

fn count_forbidden(forbidden: usize, finding: &Finding) -> usize
    ensures { forbidden + 1 < 2 ^ 64 → result ≡ (if is_forbidden finding.now then forbidden + 1 else forbidden) }
{
    if !finding.ruling.is_allowed {
        forbidden.saturating_add(1)
    } else {
        forbidden
    }
}

fn show_forbidden(finding: &Finding, text: &mut String) -> Result<(), AllocError>
    ensures { OnOk result (string_bytes text.new
        ≡ string_bytes text.old ++ (if is_forbidden finding.now then forbidden_line finding.now else [])) }
{
    if finding.ruling.is_allowed {
        return Ok(());
    }
    let line = finding.line;
    let mut command = ArrayString::<64>::new();
    finding.exchange.command.show(&mut command);
    let command = command.as_str();
    writeln!(text, "line {line}: forbidden {command}")
}

fn show_event<S: Source>(
    rate: Rate,
    events: &S,
    k: usize,
    finding: &Finding,
    text: &mut String,
) -> Result<(), AllocError>
    ensures { OnOk result (string_bytes text.new ≡ string_bytes text.old
        ++ (if finding.now.ruling.settles then event_line rate (S.items events.now) k finding.now else [])) }
{
    if !finding.ruling.settles {
        return Ok(());
    }
    let line = finding.line;
    match event_at(events, k) {
        Some(item) => {
            let item = ItemText { rate, item };
            writeln!(text, "line {line}: reported {k} {item}")
        }
        None => writeln!(text, "line {line}: reported {k}"),
    }
}

#[tactic(auto, using(crate::proofs::JudgeLoops::none_there))]
fn event_at<S: Source>(events: &S, k: usize) -> Option<Item>
    ensures { result ≡ slice_get (S.items events.now) k }
{
    if k < events.len() {
        Some(events.at(k))
    } else {
        None
    }
}
