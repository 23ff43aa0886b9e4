//! The page of a port, in HTML.

use vdcp_panel::page;

// It asks for `/state` four times a second.
pub const PAGE: &'static str = page!(
    "VDCP port",
    r#".stale main { opacity: .45; }
"#,
    r#"<header><h1 id="name">VDCP port</h1><p id="health" class="idle" role="status">connecting</p></header>
<main>
<section id="playing" aria-labelledby="playing-title"><h2 id="playing-title">Playing</h2><p class="item" id="playing-item">nothing</p><p class="time" id="playing-left"></p></section>
<section id="cued" aria-labelledby="cued-title"><h2 id="cued-title">Cued</h2><p class="item" id="cued-item">nothing</p><p class="time" id="cued-left"></p></section>
<section class="wide" aria-labelledby="port-title"><h2 id="port-title">Port</h2>
<dl><div><dt>Access</dt><dd id="access"></dd></div><div><dt>State byte</dt><dd id="state"></dd></div><div><dt>Driven from</dt><dd id="from"></dd></div><div><dt>Unit, port</dt><dd id="unit"></dd></div></dl></section>
<section class="wide" aria-labelledby="aired-title"><h2 id="aired-title">Went to air</h2>
<div class="scroll" id="scroll" tabindex="0" role="region" aria-labelledby="aired-title">
<table><caption id="count">nothing yet</caption><thead><tr><th scope="col">#</th><th scope="col">Clip</th><th scope="col">At</th></tr></thead><tbody id="rows"></tbody></table></div></section>
"#,
    r#"
// frames as hours, minutes, seconds and frames
function time(frames, rate) {
  const s = Math.floor(frames / rate);
  return two(Math.floor(s / 3600)) + ':' + two(Math.floor(s / 60) % 60) + ':' + two(s % 60) + ':' + two(frames % rate);
}

function slot(name, clip, left, kind) {
  put(name + '-item', clip ? clip.item : 'nothing');
  put(name + '-left', clip ? left : '');
  $(name).className = clip ? kind : '';
}

const bits = state => [[0x01, 'idle'], [0x02, 'cueing'], [0x04, 'playing'], [0x80, 'cue done']]
  .filter(b => state & b[0]).map(b => b[1]).join(', ');

function rows(aired) {
  const body = $('rows');
  while (body.children.length > aired.length) body.lastChild.remove();
  aired.slice().reverse().forEach((a, i) => {
    let row = body.children[i];
    if (!row) {
      row = document.createElement('tr');
      for (const c of ['', 'id', '']) { const cell = document.createElement('td'); cell.className = c; row.append(cell); }
      body.append(row);
    }
    [String(a.number), a.item, new Date(a.at).toLocaleTimeString()].forEach((t, k) => {
      if (row.children[k].textContent !== t) row.children[k].textContent = t;
    });
  });
  put('count', aired.length === 0 ? 'nothing yet' : 'last ' + aired.length + ' of ' + (aired[aired.length - 1].number + 1));
}

function health(kind, text) {
  $('health').className = kind;
  put('health', text);
  document.body.classList.toggle('stale', kind === 'gone');
}

function show(port) {
  const playing = port.playing, cued = port.cued;
  slot('playing', playing, playing && time(playing.left, port.rate) + ' left', 'air');
  slot('cued', cued, cued && (cued.left ? 'ready in ' + time(cued.left, port.rate) : 'ready'), cued && cued.left ? '' : 'ready');
  put('access', port.access);
  put('state', port.state.toString(16).padStart(2, '0').toUpperCase() + 'h: ' + bits(port.state));
  put('from', port.from === null ? 'nobody' : port.from);
  put('unit', port.unit + ', ' + port.number);
  put('name', 'VDCP port ' + port.number);
  document.title = (playing ? '\u25B6 ' + playing.item : 'off air') + ' \u00b7 port ' + port.number;
  rows(port.aired);
  if (port.from === null) health('idle', 'nobody is connected');
  else health('good', 'connected');
}

async function look() {
  try {
    const answer = await fetch('/state', { cache: 'no-store', signal: AbortSignal.timeout(2000) });
    if (!answer.ok) throw new Error(answer.status);
    show(await answer.json());
  } catch (e) { health('gone', 'the server has ended, or is out of reach: this is how it was'); }
  setTimeout(look, document.hidden ? 1000 : 250);
}
look();
"#
);
