//! The page that draws what is told of a broker.

/// A page of one file, which asks for the numbers each second and draws them. It takes nothing from elsewhere.
pub(crate) const PAGE: &str = r##"<!DOCTYPE html>
<html lang="en">
<meta charset="utf-8">
<meta name="viewport" content="width=device-width, initial-scale=1">
<title>share_broker</title>
<link rel="icon" href="data:,">
<style>
:root { color-scheme: light dark; --text: #1b1f24; --faint: #57606a; --line: #d0d7de; --ground: #fff; --in: #0550ae; --out: #bc4c00; --alarm: #a40e26 }
@media (prefers-color-scheme: dark) { :root { --text: #e6edf3; --faint: #9aa4af; --line: #30363d; --ground: #0d1117; --in: #79c0ff; --out: #ffa657; --alarm: #ff9492 } }
body { margin: 1.5rem auto; max-width: 88rem; padding: 0 1rem; background: var(--ground); color: var(--text); font: .9375rem/1.45 system-ui, sans-serif }
header { display: flex; flex-wrap: wrap; gap: .25rem 1rem; align-items: baseline }
h1 { font-size: 1.25rem; margin: 0 }
h2 { font-size: 1rem; margin: 1.5rem 0 .25rem }
p { margin: .25rem 0 }
.faint { color: var(--faint) }
.alarm { color: var(--alarm) }
.wide { overflow-x: auto }
table { border-collapse: collapse; width: 100%; font-size: .9em; font-variant-numeric: tabular-nums }
th, td { padding: .35rem .6rem .35rem 0; border-bottom: 1px solid var(--line); text-align: right; white-space: nowrap }
th { font-weight: 600 }
thead th { vertical-align: bottom; white-space: normal }
th:first-child { text-align: left; white-space: normal; overflow-wrap: anywhere; min-width: 11rem }
.narrow { max-width: 30rem }
svg { display: block; margin-left: auto; width: 13rem; height: 2.5rem; border-bottom: 1px solid var(--line) }
path { fill: none; stroke-width: 1.5; vector-effect: non-scaling-stroke }
.in { stroke: var(--in); color: var(--in) }
.out { stroke: var(--out); stroke-dasharray: 4 2; color: var(--out) }
button { font: inherit; color: inherit; background: none; border: 1px solid var(--line); border-radius: .25rem; padding: .1rem .75rem }
:focus-visible { outline: 2px solid var(--in); outline-offset: 2px }
</style>
<header><h1>share_broker</h1><span id="state" class="faint" role="status">asking for numbers</span><button id="pause" type="button" aria-pressed="false">Pause</button></header>
<noscript><p>This page draws its numbers by a script. Without one: <a href="metrics">the numbers as text</a>.</p></noscript>
<h2 id="groups-head">Groups</h2>
<div class="wide" role="region" aria-labelledby="groups-head" tabindex="0"><table>
<thead><tr><th scope="col">Group<th scope="col">Members<th scope="col">Last two minutes<th scope="col"><span class="in">accepted/s</span><th scope="col"><span class="out">settled/s</span><th scope="col">Accepted<th scope="col">Queued<th scope="col">Held<th scope="col">Returned<th scope="col">Acknowledged<th scope="col">Refused<th scope="col">Discarded<th scope="col">Not accepted</tr></thead>
<tbody id="groups"></tbody></table></div>
<p class="faint">The solid line has the jobs that are accepted each second, the dashed one those that are settled. Both end at the right, now, and each picture has a scale of its own.</p>
<div id="refused" hidden>
<h2 id="refused-head">Refused and ended by the broker</h2>
<div class="wide narrow" role="region" aria-labelledby="refused-head" tabindex="0"><table>
<thead><tr><th scope="col">Packet and Reason Code<th scope="col">Sent</tr></thead>
<tbody id="refusals"></tbody></table></div>
</div>
<h2 id="rest-head">Connections, sessions and workers</h2>
<div class="wide narrow" role="region" aria-labelledby="rest-head" tabindex="0"><table>
<thead><tr><th scope="col">Number<th scope="col">Now</tr></thead>
<tbody id="rest"></tbody></table></div>
<p><a href="metrics">All numbers as text</a></p>
<script>
'use strict';
const SPAN = 120, SVG = 'http://www.w3.org/2000/svg';
const history = new Map();
const find = id => document.getElementById(id);
const shown = number => Math.round(number).toLocaleString('en');
const unescaped = text => text.replace(/\\(.)/g, (_, next) => next === 'n' ? '\n' : next);
const PACKETS = { connacks_total: 'CONNACK', pubacks_total: 'PUBACK', subacks_total: 'SUBACK', disconnects_total: 'DISCONNECT' };
const CODES = {
  '0x10': 'no matching subscribers', '0x81': 'malformed packet', '0x82': 'protocol error', '0x83': 'implementation specific error',
  '0x84': 'unsupported protocol version', '0x85': 'client identifier not valid', '0x86': 'bad user name or password', '0x87': 'not authorized', '0x89': 'server busy', '0x8B': 'server shutting down',
  '0x8C': 'bad authentication method', '0x8D': 'keep alive timeout', '0x8E': 'session taken over', '0x8F': 'topic filter invalid',
  '0x94': 'topic alias invalid', '0x95': 'packet too large', '0x97': 'quota exceeded', '0x9A': 'retain not supported', '0x9B': 'QoS not supported',
};
let paused = false;

function parsed(text) {
  const samples = [];
  for (const line of text.split('\n')) {
    const parts = /^(\w+)(?:\{(.*)\})? (\d+)$/.exec(line);
    if (!parts) continue;
    const labels = {};
    for (const label of (parts[2] || '').matchAll(/(\w+)="((?:[^"\\]|\\.)*)"/g)) labels[label[1]] = unescaped(label[2]);
    samples.push({ name: parts[1].replace('share_broker_', ''), labels, number: Number(parts[3]) });
  }
  return samples;
}

function sum(samples, name, wanted) {
  return samples.filter(it => it.name === name && Object.entries(wanted).every(([key, value]) => it.labels[key] === value))
    .reduce((total, it) => total + it.number, 0);
}

function rates(points, key) {
  const found = [];
  for (let i = 1; i < points.length; i++) {
    const seconds = (points[i].at - points[i - 1].at) / 1000;
    found.push({ at: points[i].at, rate: Math.max(0, points[i][key] - points[i - 1][key]) / seconds });
  }
  return found;
}

function outline(found, top, now) {
  return found.map((it, i) => (i ? 'L' : 'M') + (240 - (now - it.at) / 1000 * 2).toFixed(1) + ' ' + (38 - 36 * it.rate / top).toFixed(1)).join('');
}

function element(name, parent) {
  return parent.appendChild(document.createElement(name));
}

function row(body, key, cells) {
  let line = [...body.rows].find(it => it.dataset.key === key);
  if (!line) {
    line = element('tr', body);
    line.dataset.key = key;
    const head = element('th', line);
    head.scope = 'row';
    head.textContent = key;
    for (let i = 0; i < cells; i++) element('td', line);
  }
  return line;
}

function picture(cell) {
  if (!cell.firstChild) {
    const svg = cell.appendChild(document.createElementNS(SVG, 'svg'));
    svg.setAttribute('viewBox', '0 0 240 40');
    svg.setAttribute('preserveAspectRatio', 'none');
    svg.setAttribute('role', 'img');
    for (const kind of ['in', 'out']) svg.appendChild(document.createElementNS(SVG, 'path')).setAttribute('class', kind);
  }
  return cell.firstChild;
}

function drawGroup(samples, group, now) {
  const of = (name, more) => sum(samples, name, { group, ...more });
  const point = { at: now, accepted: of('jobs_accepted_total'), settled: of('jobs_settled_total') };
  const points = history.get(group) || [];
  const last = points[points.length - 1];
  if (last && (point.accepted < last.accepted || point.settled < last.settled)) points.length = 0;
  points.push(point);
  while (points[0].at < now - SPAN * 1000) points.shift();
  history.set(group, points);
  const accepted = rates(points, 'accepted'), settled = rates(points, 'settled');
  const latest = found => found.length ? found[found.length - 1].rate : 0;
  const top = Math.max(1, ...accepted.map(it => it.rate), ...settled.map(it => it.rate));
  const line = row(find('groups'), group, 12);
  const cells = line.querySelectorAll('td');
  cells[0].textContent = shown(of('members'));
  const svg = picture(cells[1]);
  svg.setAttribute('aria-label', `${shown(latest(accepted))} accepted and ${shown(latest(settled))} settled a second, ${shown(top)} at most in two minutes`);
  svg.childNodes[0].setAttribute('d', outline(accepted, top, now));
  svg.childNodes[1].setAttribute('d', outline(settled, top, now));
  [latest(accepted), latest(settled), point.accepted, of('jobs_queued'), of('jobs_held'), of('jobs_returned'),
    of('jobs_settled_total', { fate: 'acknowledged' }), of('jobs_settled_total', { fate: 'refused' }), of('jobs_settled_total', { fate: 'discarded' }), of('jobs_not_accepted_total')
  ].forEach((number, i) => { cells[i + 2].textContent = shown(number); });
}

function drawRefused(samples) {
  const body = find('refusals'), before = body.rows.length;
  for (const it of samples.filter(it => it.name in PACKETS && it.labels.code in CODES && it.number > 0)) {
    const { code } = it.labels;
    find('refused').hidden = false;
    row(body, `${PACKETS[it.name]} ${code}, ${CODES[code]}`, 1).querySelector('td').textContent = shown(it.number);
  }
  if (body.rows.length > before) body.append(...[...body.rows].sort((one, other) => one.dataset.key < other.dataset.key ? -1 : 1));
}

function drawRest(samples) {
  for (const it of samples.filter(it => !('group' in it.labels) && !('code' in it.labels))) {
    const label = Object.values(it.labels).join(' ');
    const key = it.name.replace(/_total$/, '').replaceAll('_', ' ') + (label ? ', ' + label.replaceAll('_', ' ') : '');
    row(find('rest'), key, 1).querySelector('td').textContent = shown(it.number);
  }
}

async function refresh() {
  if (paused) return;
  const state = find('state');
  try {
    const answer = await fetch('metrics', { cache: 'no-store', signal: AbortSignal.timeout(5000) });
    if (!answer.ok) throw new Error(answer.statusText);
    const samples = parsed(await answer.text()), now = Date.now();
    for (const group of new Set(samples.map(it => it.labels.group))) if (group !== undefined) drawGroup(samples, group, now);
    drawRefused(samples);
    drawRest(samples);
    if (state.textContent !== 'serving') state.textContent = 'serving';
    state.className = 'faint';
  } catch (error) {
    if (state.className !== 'alarm') state.textContent = 'no answer since ' + new Date().toLocaleTimeString();
    state.className = 'alarm';
  }
}

find('pause').addEventListener('click', () => {
  paused = !paused;
  find('pause').setAttribute('aria-pressed', paused);
  if (!paused) refresh();
});
refresh();
setInterval(refresh, 1000);
</script>
</html>
"##;
