//! The page of a run, in HTML.

use vdcp_panel::page;

/// It asks for `/state` four times a second, and counts frames by itself.
pub const PAGE: &'static str = page!(
    "VDCP run",
    r#".stale #list, .stale #air, .stale #next { opacity: .75; }
h1, #clock, dd { font-variant-numeric: tabular-nums; }
h1, dd { overflow-wrap: anywhere; }
#clock { margin: 0 0 0 auto; font-weight: 700; }
#health { margin: 0; }
#after { border-color: var(--air); }
#step { margin: 0; font-weight: 600; overflow-wrap: anywhere; }
.calls { display: flex; flex-wrap: wrap; gap: 12px; align-items: center; }
button { font: 700 20px/1 system-ui, "DejaVu Sans", sans-serif; padding: 16px 28px; border: 2px solid var(--line); border-radius: 10px; background: var(--card); color: var(--text); cursor: pointer; }
#take { border-color: var(--cue); color: var(--cue); }
#stop { border-color: var(--air); color: var(--air); }
#take.asked { background: var(--cue); color: var(--on); }
#stop.asked, td button.asked { background: var(--air); color: var(--on); }
.holding #hold { border-color: var(--air); color: var(--air); }
.held { color: var(--air); }
#list:not(.stays) .skip { display: none; }
td button { font-size: 13px; padding: 4px 10px; border-width: 1px; border-radius: 6px; }
button:disabled, button[aria-disabled=true] { border-color: var(--line) !important; color: var(--dim) !important; background: var(--ground) !important; cursor: default; }
button:focus-visible { outline: 3px solid var(--cue); outline-offset: 2px; }
#told, #count { margin: 0; color: var(--dim); }
thead th { position: sticky; top: 0; background: var(--card); }
tr.past td, td.plan { color: var(--dim); }
tr.air td { color: var(--air); font-weight: 700; }
tr.ready td { color: var(--cue); font-weight: 700; }
@media (max-width: 700px) { td { font-size: 14px; padding-right: 8px; } td.id { min-width: 11ch; } }
"#,
    r#"<header><h1 id="name">VDCP run</h1><p id="clock"></p><p id="health" class="idle" role="status">connecting</p></header>
<main>
<section class="wide" id="after" aria-labelledby="after-title" hidden><h2 id="after-title">What now</h2><p id="step" role="alert"></p></section>
<section id="air" aria-labelledby="air-title"><h2 id="air-title">On air</h2><p class="item" id="air-item">nothing</p><p class="time" id="air-time"></p></section>
<section id="next" aria-labelledby="next-title"><h2 id="next-title">Next</h2><p class="item" id="next-item">nothing</p><p class="time" id="next-time"></p></section>
<section class="wide" aria-labelledby="calls-title"><h2 id="calls-title">Calls</h2>
<div class="calls"><button id="take" name="take" type="button" disabled>Take (T)</button><button id="stop" name="stop" type="button" disabled>Stop (S)</button><button id="hold" name="hold" type="button" disabled>Hold (H)</button><p id="told" role="status"></p></div></section>
<section class="wide" aria-labelledby="line-title"><h2 id="line-title">Line</h2>
<dl><div><dt>Server</dt><dd id="server"></dd></div><div><dt>Journal</dt><dd id="journal"></dd></div><div><dt>Controller</dt><dd id="stage"></dd></div><div><dt>Unanswered in a row</dt><dd id="unanswered"></dd></div><div><dt>Left of the list</dt><dd id="left"></dd></div><div><dt>Last alarm</dt><dd id="alarm"></dd></div></dl></section>
<section class="wide" id="list" aria-labelledby="list-title"><h2 id="list-title">List</h2>
<p id="count">no event yet</p>
<div class="scroll" id="scroll" tabindex="0" role="region" aria-labelledby="list-title">
<table><thead><tr><th scope="col">#</th><th scope="col">Event</th><th scope="col">State</th><th scope="col">At</th><th scope="col" class="skip">Leave out</th></tr></thead><tbody id="rows"></tbody></table></div></section>
"#,
    r#"// In milliseconds: how long Take and Hold are locked once they were made, a press waits for its second one, and the list stays where it was scrolled to.
const LOCKED = 500, ASKED = 3000, SCROLLED = 8000;
const token = location.hash.slice(1), keys = { Take: 'T', 'Start now': 'T', Stop: 'S', Hold: 'H', Go: 'G' }, locked = { take: 0, hold: 0 };
let seen = null, busy = '', sending = false, off = true, asked = { name: '', word: '', at: 0 }, scrolled = -SCROLLED, ahead = 0;

// by the clock of the run's machine: an answer comes late, so the largest difference is the nearest
function compare(theirs) {
  const now = theirs - Date.now();
  ahead = seen === null || Math.abs(now - ahead) > 1000 ? now : Math.max(now, ahead);
}
const now = () => Date.now() + ahead;

function time(ms) {
  const s = Math.max(0, Math.floor(ms / 1000));
  return two(Math.floor(s / 3600)) + ':' + two(Math.floor(s / 60) % 60) + ':' + two(s % 60);
}
const frames = (ms, rate) => time(ms) + ':' + two(Math.floor(Math.max(0, ms) % 1000 * rate / 1000));

function clock(ms) {
  const day = new Date(ms);
  return two(day.getHours()) + ':' + two(day.getMinutes()) + ':' + two(day.getSeconds());
}

const named = item => item.replace(/ (\d\d:\d\d:\d\d[:;]\d\d) (\d\d:\d\d:\d\d[:;]\d\d)$/, ' from $1 for $2');
const file = path => path.split('/').pop();

const isOver = run => run.over || run.stage === 'ended' || run.outcome !== 'open';
const isWell = run => run.outcome === 'done' || run.outcome === 'stopped';
const outcome = run => 'the run has ended: ' + (run.outcome === 'open' ? 'the line failed' : run.outcome);
const heading = run => file(run.list) + ' \u2192 ' + run.server;
const waits = () => seen !== null && seen.start !== null;
const holds = () => seen !== null && seen.holding;
const find = (run, number) => run.rows.find(r => r.number === number);
// the event that comes next, and whether it is cued: what is left out may be cued still
const upNext = run => isOver(run) ? undefined : run.rows.find(r => r.number >= run.event && !r.out);
const isCued = run => (run.stage === 'waiting' || run.stage === 'starting') && upNext(run)?.number === run.event;
// the last event that went to air in this run; it is on air until its end is seen, or that it was cut is answered
const last = run => run.event > run.from ? find(run, run.event - 1) : undefined;
const onAir = run => {
  const row = last(run);
  return isOver(run) || row === undefined || row.until !== null && !(row.ending === 'taken' && run.stage === 'starting') ? undefined : row;
};

// How a clip ended, as far as that was seen. It was cut if that was a second or more before its length was over; without a
// length it may have run out before the call.
function ended(row) {
  const on = row.until !== null && row.at !== null ? row.until - row.at : null;
  const isCut = on !== null && row.length !== null && on + 1000 < row.length;
  if (row.ending === 'ran out') return 'aired, ran out';
  if (row.ending === 'taken') return isCut ? 'cut by a take after ' + time(on) : 'aired, then a take';
  if (row.ending === 'stopped') return isCut ? 'stopped after ' + time(on) : row.length === null ? 'stopped' : 'aired, then a stop';
  return row.until !== null ? 'aired' : 'aired, end not seen';
}

// What is known of an event before the one that is next.
function past(run, row) {
  if (row.kept === 'left out' || row.kept === 'may have aired') return row.kept + (row.why === null ? '' : ': ' + row.why);
  return row.kept === null && row.number < run.from ? 'before this run' : ended(row);
}

function state(run, row) {
  if (row.out && row.at === null && row.kept !== 'aired') return ['left out: ' + row.why, 'past'];
  if (row.number < run.event - 1 || row.number < run.from) return [past(run, row), 'past'];
  if (row.number === run.event - 1) return onAir(run) ? ['on air', 'air'] : [isOver(run) && !isWell(run) && row.until === null ? 'last seen' : ended(row), 'past'];
  if (row.number > run.event) return ['', ''];
  if (isOver(run)) return [busy === 'starting' && !isWell(run) ? 'may have aired' : '', ''];
  return isCued(run) ? ['cued', 'ready'] : ['next', ''];
}

// When what comes goes to air, by its number, as far as lengths are known, and the end of all that is known. It isn't known while it holds.
function plan(run) {
  const air = onAir(run), times = new Map();
  let at = isOver(run) || run.holding ? null : run.start !== null ? run.start : air && air.at !== null && air.length !== null ? Math.max(air.at + air.length, now()) : null;
  let end = null, whole = false;
  for (let row = find(run, run.event); at !== null; row = find(run, row.number + 1)) {
    [end, whole] = [at, row === undefined && run.rows.length !== 0 && run.event <= run.events && run.rows[run.rows.length - 1].number + 1 >= run.events];
    if (row === undefined) break;
    if (row.out) continue;
    times.set(row.number, at);
    at = row.length === null ? null : at + row.length;
  }
  return { times, end, whole };
}

// When it went to air, and until when it was there.
const between = row => row.at === null ? '' : clock(row.at) + (row.until === null ? '' : ' to ' + clock(row.until));

function slot(name, text, kind) {
  put(name + '-item', text);
  if ($(name).className !== kind) $(name).className = kind;
}

function rows(run, times) {
  const body = $('rows');
  while (body.children.length > run.rows.length) body.lastChild.remove();
  run.rows.forEach((r, i) => {
    let row = body.children[i];
    if (!row) {
      row = document.createElement('tr');
      for (const c of ['', 'id', '', '', 'skip']) { const cell = document.createElement('td'); cell.className = c; row.append(cell); }
      const button = document.createElement('button');
      button.type = 'button';
      button.addEventListener('click', () => press(button.name));
      row.lastChild.append(button);
      body.append(row);
    }
    const [word, kind] = state(run, r), planned = r.at === null && times.has(r.number);
    if (row.className !== kind) row.className = kind;
    row.children[3].className = planned ? 'plan' : '';
    row.lastChild.firstChild.name = 'skip ' + r.number;
    row.lastChild.firstChild.hidden = isOver(run) || !r.skip;
    [String(r.number), named(r.item), word, planned ? '~' + clock(times.get(r.number)) : between(r)].forEach((t, k) => {
      if (row.children[k].textContent !== t) row.children[k].textContent = t;
    });
  });
  put('count', file(run.list) + ': ' + (run.event - run.from) + ' of ' + (run.events - run.from) + ' reported' + (run.from > 0 ? ', from ' + run.from + ' on in this run' : ''));
}

// Keeps what is on air in sight, unless somebody has just scrolled.
function follow(run) {
  if (performance.now() - scrolled < SCROLLED) return;
  const place = run.rows.indexOf(last(run) || find(run, run.event)), row = $('rows').children[place];
  if (!row) return;
  const box = $('scroll'), high = row.offsetHeight;
  const off = row.getBoundingClientRect().top - box.getBoundingClientRect().top - 2 * high;
  if (off < 0 || off > box.clientHeight - 6 * high) box.scrollTop += off - high;
}

// What an operator does after a run that ended otherwise than it was to.
function step(run) {
  if (!isOver(run) || isWell(run)) return '';
  const [word, k] = run.outcome.split(' '), row = k === undefined ? undefined : find(run, Number(k));
  const what = row ? 'event ' + k + ', ' + named(row.item) : 'event ' + k;
  const again = run.journal === ''
    ? 'Look at the server, and go on with --from ' + run.event + ' if event ' + run.event + ' did not air, else with --from ' + (run.event + 1) + '.'
    : 'Go on with --resume ' + run.journal + (word === 'lost' || word === 'open' ? '.' : ' --open-again.');
  const journal = run.journal === '' ? '' : '--resume ' + run.journal + ' ';
  if (word === 'missing') return 'The server has no clip for ' + what + '. Load it and go on with ' + (journal ? journal + '--open-again' : '--from ' + k) + ', or without it, with ' + journal + '--from ' + (Number(k) + 1) + '.';
  if (word === 'refused') return 'The server refused a command of ' + what + '. Is its part inside its clip? ' + again;
  if (word === 'denied') return 'The server denied the port: does another automation have it? ' + again;
  if (word === 'foreign' || word === 'strange') return 'The port shows what this run did not do: does another automation drive it? Look at the server. ' + again;
  return 'Nothing is heard of the server, which may play on. ' + again;
}

function health(kind, text, stale, isOut = false) {
  $('health').className = kind;
  put('health', text);
  document.body.classList.toggle('stale', stale);
  off = isOut || token === '' || seen === null || isOver(seen);
  for (const button of document.querySelectorAll('button')) button.disabled = off;
  if (token === '') put('told', 'To make calls, open the address that the run has printed, with all that follows #.');
}

function show(run) {
  compare(run.now);
  if (!isOver(run)) busy = run.stage;
  seen = run;
  const air = onAir(run), before = last(run), unknown = isOver(run) && !isWell(run);
  slot('air', air ? named(air.item) : unknown ? 'unknown' + (before ? ', last seen ' + named(before.item) : '') : 'nothing', air ? 'air' : '');
  const next = upNext(run), held = run.holding ? 'holding: nothing new goes to air' : '';
  slot('next', next ? named(next.item) : 'nothing', next && isCued(run) ? 'ready' : '');
  put('name', (run.channel === '' ? '' : run.channel + ' \u00b7 ') + heading(run));
  put('server', run.server);
  put('journal', run.journal || 'none');
  put('stage', run.stage + (run.take ? ', to take' : '') + (run.stop ? ', to stop' : '') + (run.holding ? ', holding' : ''));
  put('unanswered', String(run.unanswered));
  put('alarm', run.alarm.words || 'none');
  document.title = (run.channel === '' ? '' : run.channel + ' ') + (air ? '\u25B6 ' + air.item : isOver(run) ? 'ended' : 'off air') + ' \u00b7 ' + heading(run);
  document.body.classList.toggle('holding', run.holding);
  $('list').classList.toggle('stays', run.stays);
  rows(run, plan(run).times);
  follow(run);
  put('step', step(run));
  $('after').hidden = step(run) === '';
  if (isOver(run)) health(isWell(run) ? 'idle' : 'gone', outcome(run), false);
  else if (run.start !== null) health('idle', 'waits for its start' + (held && '; ' + held), false);
  else if (run.down !== null) health('gone', 'line down since ' + clock(run.down) + ': tried again each second', true);
  else if (run.unanswered > 0) health('gone', 'no answer', true);
  else if (held !== '') health('held', held, false);
  else health('good', 'runs', false);
  tick();
}

// What goes on between two looks.
function tick() {
  put('clock', clock(now()));
  for (const button of document.querySelectorAll('button')) label(button);
  if (seen === null) return;
  const air = onAir(seen), next = upNext(seen), planned = plan(seen);
  const end = !air || air.at === null || air.length === null ? null : air.at + air.length;
  const left = end === null ? '' : seen.down === null ? ', ' + frames(end - now(), seen.rate) + ' left' : ', until ' + clock(end) + ' by its length';
  put('air-time', !air || air.at === null ? '' : 'for ' + time(now() - air.at) + left);
  const at = next && planned.times.has(next.number) ? ', about ' + clock(planned.times.get(next.number)) : '';
  put('next-time', !next ? '' : waits() ? 'at ' + clock(seen.start) + ', in ' + frames(seen.start - now(), seen.rate) : (isCued(seen) ? 'cued' : seen.stage) + (seen.holding ? ', held back' : at));
  put('left', isOver(seen) ? 'it has ended' : planned.end === null ? 'not known' : (planned.whole ? '' : 'more than ') + time(planned.end - now()));
}

async function look() {
  try {
    const answer = await fetch('/state', { cache: 'no-store', headers: token === '' ? {} : { 'X-Panel-Token': token }, signal: AbortSignal.timeout(2000) });
    if (!answer.ok) throw new Error(answer.status);
    const state = await answer.json();
    show({ ...state, ...state.run });
  } catch (e) {
    if (seen === null || !isOver(seen)) health('gone', 'the run has ended, or is out of reach: this is how it was', true, true);
  }
  setTimeout(look, document.hidden ? 1000 : 250);
}

const said = {
  204: 'made',
  403: 'refused. This page is of a run that has ended: open the new address that the run has printed.',
  409: 'the list has moved on, look again',
};

async function call(button) {
  if (sending) return;
  const name = button === 'hold' && holds() ? 'go' : button;
  sending = true;
  try {
    const answer = await fetch('/' + name.replace(' ', '/'), { method: 'POST', headers: { 'X-Panel-Token': token, 'X-Panel-Event': String(seen.event) }, signal: AbortSignal.timeout(3000) });
    put('told', name + ': ' + (said[answer.status] || 'refused (' + answer.status + ')'));
  } catch (e) { put('told', name + ': no answer, so it may have been made or not'); }
  if (button in locked) locked[button] = performance.now() + LOCKED;
  sending = false;
}

// Stop and Skip, and Take before the start, are made by a second press.
const word = name => name === 'stop' ? 'Stop' : name === 'hold' ? (holds() ? 'Go' : 'Hold') : name !== 'take' ? 'Skip' : waits() ? 'Start now' : 'Take';
const isLocked = name => name !== 'stop' && (sending || performance.now() < locked[name]);
const isAsked = name => asked.name === name && Date.now() - asked.at < ASKED;
function unask() { asked = { name: '', word: '', at: 0 }; }

function label(button) {
  const name = button.name, said = word(name), again = isAsked(name) && asked.word === said;
  const text = said + (again ? ': once more' : said in keys ? ' (' + keys[said] + ')' : '');
  if (button.textContent !== text) button.textContent = text;
  if (said === 'Skip' && button.ariaLabel !== text + ', event ' + name.slice(5)) button.ariaLabel = text + ', event ' + name.slice(5);
  if (button.className !== (again ? 'asked' : '')) button.className = again ? 'asked' : '';
  if (button.ariaDisabled !== String(isLocked(name))) button.ariaDisabled = String(isLocked(name));
}

function press(name) {
  if (seen === null || off || isLocked(name)) return;
  const was = isAsked(name) ? asked.word : '', once = name === 'hold' || name === 'take' && !waits();
  unask();
  // (a press that was to start the run takes nothing once it has begun)
  if (was === '' ? once : was === word(name)) call(name);
  else if (was === '') asked = { name, word: word(name), at: Date.now() };
  tick();
}

for (const name of ['take', 'stop', 'hold']) $(name).addEventListener('click', () => press(name));
document.addEventListener('keydown', e => {
  if (e.repeat || e.ctrlKey || e.altKey || e.metaKey) return;
  const key = e.key.toLowerCase();
  if (key === 't') press('take');
  else if (key === 's') press('stop');
  else if (key === (holds() ? 'g' : 'h')) press('hold');
  else if (e.key === 'Escape') unask();
});
for (const what of ['wheel', 'touchmove', 'pointerdown', 'keydown']) $('scroll').addEventListener(what, () => { scrolled = performance.now(); }, { passive: true });
setInterval(tick, 40);
look();
"#
);
