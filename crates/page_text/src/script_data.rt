// Reads what the page holds.

pub const DATA: &str = r#"</script>
<script>
'use strict';
const $ = id => document.getElementById(id);
const data = id => { const node = $(id), text = node.textContent; node.remove(); return text; };
const about = JSON.parse(data('about')), level = JSON.parse(data('level'));
const log = data('log').split('\n'), head = log[0].split(' '); // btworld log 2 frames F workers W small S large L slots T, and the first event that isn't legal
Object.assign(about, { level: data('path').split('/').pop(), frames: +head[4], small: +head[8], large: +head[10], slots: +head[12] });
Object.assign(about, { illegal: about.done < about.events ? about.done : null, event: log[1] });
const W = level.map[0].length, H = level.map.length, A = level.agents.length, N = about.shown, WORKERS = +head[6];

// ---- what the page holds

// Frames: the first one's rows, then for each further one a line of what changed in the rows, each a glyph, its place and a
// comma, and behind the rows or changes of each frame its agents' lines. Places count the rows' bytes, line feeds too.
const frames = data('frames');
const changesAt = new Uint32Array(N + 2), agentsAt = new Uint32Array(N + 2);
const firstRows = new Uint8Array(W * H);
// Whose frames these are is known only once the page's other scripts stand.
function readFilm() {
  const film = new Frames(A, { of: f => onIn[f] });
  film.setStarts(level.map);
  let at = 0;
  if (N > 0) for (let y = 0; y < H; y += 1) { for (let x = 0; x < W; x += 1) firstRows[y * W + x] = frames.charCodeAt(at++); at += 1; }
  kept[0] = firstRows.slice(); rows = firstRows.slice();
  const number = end => { let n = 0, c; while ((c = frames.charCodeAt(at++)) !== end) n = n * 10 + c - 48; return n; };
  for (let f = 1; f <= N; f += 1) {
    changesAt[f] = at;
    if (f > 1) at = frames.indexOf('\n', at) + 1;
    agentsAt[f] = at;
    for (let a = 0; a < A; a += 1) {
      const answer = 'SFR'.indexOf(frames[at + 2]);
      at += 4;
      film.note(f, a, { answer, x: number(44), y: number(32), loaded: frames.charCodeAt(at) === 42 ? 1 : 0 });
      at += 2;
    }
    film.count = f;
  }
  return film;
}

const STEP = 64, kept = [];
let rowsFrame = 1, rows = null;
function change(f) {
  let at = changesAt[f], c;
  while ((c = frames.charCodeAt(at++)) !== 10) {
    let n = 0, d;
    while ((d = frames.charCodeAt(at++)) !== 44) n = n * 10 + d - 48;
    rows[n - (n / (W + 1) | 0)] = c; // kept here without line feeds
  }
}
// The rows of frame f, from the nearest rows that are known.
function rowsOf(f) {
  if (f < rowsFrame || f - rowsFrame > STEP) {
    let k = Math.floor((f - 1) / STEP);
    while (k > 0 && !kept[k]) k -= 1;
    if (f < rowsFrame || k * STEP + 1 > rowsFrame) { rows.set(kept[k]); rowsFrame = k * STEP + 1; }
  }
  while (rowsFrame < f) {
    rowsFrame += 1;
    change(rowsFrame);
    if ((rowsFrame - 1) % STEP === 0 && !kept[(rowsFrame - 1) / STEP]) kept[(rowsFrame - 1) / STEP] = rows.slice();
  }
  return rows;
}
const textsOf = rows => level.map.map((_, y) => String.fromCharCode.apply(null, rows.subarray(y * W, y * W + W)));
// The text of frame f, as `replay` writes it.
function textOf(f) {
  return ['frame ' + f, ...textsOf(rowsOf(f)), ''].join('\n') + frames.slice(agentsAt[f], f < N ? changesAt[f + 1] : frames.length);
}

// Slices: a line for each, of eight numbers: worker, events since the last slice began, events until it ends, how it began and
// ended, kind of job, frame, agent or band, question.
const sliceText = data('slices');
function lineFeeds(text) { let n = 0; for (let at = -1; (at = text.indexOf('\n', at + 1)) >= 0;) n += 1; return n; }
const LOGIC = 0, THINK = 1, PATH = 2, DRAW = 3, KINDS = ['Logic', 'Think', 'Path', 'Draw'];
const COUNT = lineFeeds(sliceText);
const sWorker = new Uint8Array(COUNT), sBegin = new Uint32Array(COUNT), sEnd = new Uint32Array(COUNT), sHow = new Uint8Array(COUNT), sKind = new Uint8Array(COUNT), sFrame = new Uint16Array(COUNT), sNum = new Uint8Array(COUNT), sAsk = new Uint8Array(COUNT);
(function readSlices() {
  let at = 0, begin = 0;
  const number = () => { let n = 0, c; while ((c = sliceText.charCodeAt(at++)) > 47) n = n * 10 + c - 48; return n; };
  for (let i = 0; i < COUNT; i += 1) {
    sWorker[i] = number(); begin += number(); sBegin[i] = begin; sEnd[i] = begin + number();
    sHow[i] = number(); sKind[i] = number(); sFrame[i] = number(); sNum[i] = number(); sAsk[i] = number();
  }
})();
const emits = data('emits').split(',').filter(n => n !== '').map(Number); // the event that shows frame f stands at f - 1
// which signals are on in which frame, a's the lowest bit
const onIn = new Uint32Array(N + 2);
(function readScript() {
  const lines = data('script').split('\n').filter(l => l !== '').map(l => l.split(' '));
  let on = 0, k = 0;
  for (let f = 1; f <= N; f += 1) {
    for (; k < lines.length && +lines[k][0] <= f; k += 1) { const bit = 1 << lines[k][2].charCodeAt(0) - 97; on = lines[k][1] === 'on' ? on | bit : on & ~bit; }
    onIn[f] = on;
  }
})();
const begun = new Int32Array(about.frames + 2).fill(-1); // the event at which the Logic of a frame starts
for (let i = 0; i < COUNT; i += 1) if (sKind[i] === LOGIC && begun[sFrame[i]] < 0) begun[sFrame[i]] = sBegin[i];
// the row that a frame's bar stands in: the lowest that is free
const frameRow = new Uint8Array(about.frames + 2);
let lastBegun = 0, frameRows = 1;
const LAST = about.illegal === null ? about.events : about.illegal; // where the frames under way break off
const shownAt = f => f <= emits.length ? emits[f - 1] + 1 : LAST;
for (let f = 1, free = []; f <= about.frames; f += 1) {
  if (begun[f] < 0 || begun[f] > LAST) continue;
  lastBegun = f;
  let row = 0;
  while (row < free.length && free[row] > begun[f]) row += 1;
  free[row] = shownAt(f); frameRow[f] = row; frameRows = Math.max(frameRows, row + 1);
}

const nameOf = i => { const k = sKind[i], f = sFrame[i]; return k === LOGIC ? 'Logic ' + f : k === THINK ? 'Think ' + f + letterOf(sNum[i]) : k === PATH ? 'Path ' + f + letterOf(sNum[i]) + '.' + sAsk[i] : 'Draw ' + f + '.' + sNum[i]; };
const sameJob = (i, j) => sKind[i] === sKind[j] && sFrame[i] === sFrame[j] && sNum[i] === sNum[j] && sAsk[i] === sAsk[j];
const ENDS = ['spreads its thinks', 'holds until its slot is free', 'asks for a way', 'is finished', 'is not over where the log ends', 'is broken off by another start'];
const grouped = n => String(n).replace(/\B(?=(\d{3})+$)/g, ',');

"#;
