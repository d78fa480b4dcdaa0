// Draws the map and the agents on it, for `btview page` and for play.html (scripts/pages/play_page.py takes it from here).

pub const MAP: &str = r#"// ---- what is drawn: a page keeps it so

// What each agent did in each frame, at frame * agents + agent; frame 0 is the map.
const SUCCESS = 0, FAILURE = 1, RUNNING = 2;
// How an agent's frame is shown at a glance: what counts more is the greater number.
const STAYED = 0, MOVED = 1, SUCCEEDED = 2, FAILED = 3;
class Frames {
  // SIGNALS.of(frame) are the signals that are on in a frame, a's the lowest bit. VERSION grows with each change.
  constructor(agents, signals) {
    Object.assign(this, { agents, signals, count: 0, version: 0, room: 0 });
    for (const name of ['answer', 'x', 'y', 'loaded', 'glance']) this[name] = new Uint8Array(0);
    this.since = new Uint16Array(0); // for how many frames in a row it has answered so
    this.grow(128);
  }

  // Room for more frames.
  grow(room) {
    for (const name of ['answer', 'x', 'y', 'loaded', 'glance', 'since']) {
      const grown = new this[name].constructor(room * this.agents);
      grown.set(this[name]);
      this[name] = grown;
    }
    this.room = room;
  }

  // Where the agents stand on the map.
  setStarts(map) {
    eachStart(map, (agent, x, y) => { this.x[agent] = x; this.y[agent] = y; });
  }

  // Notes what an agent did in a frame behind those that are noted.
  note(frame, agent, { answer, x, y, loaded }) {
    if (frame >= this.room) this.grow(2 * frame);
    const at = frame * this.agents + agent;
    this.answer[at] = answer;
    this.x[at] = x;
    this.y[at] = y;
    this.loaded[at] = loaded;
    this.since[at] = frame > 1 && answer === this.answer[at - this.agents] ? this.since[at - this.agents] + 1 : 1;
    this.glance[at] = answer === FAILURE ? FAILED : answer === SUCCESS ? SUCCEEDED : this.hasMoved(frame, agent) ? MOVED : STAYED;
  }

  hasMoved(frame, agent) {
    const at = frame * this.agents + agent, before = at - this.agents;
    return frame > 0 && (this.x[at] !== this.x[before] || this.y[at] !== this.y[before]);
  }

  // Whether an agent answers or carries otherwise than in the frame before.
  hasChanged(frame, agent) {
    const at = frame * this.agents + agent, before = at - this.agents;
    return frame > 1 && (this.answer[at] !== this.answer[before] || this.loaded[at] !== this.loaded[before]);
  }

  cell(frame, agent) {
    const at = frame * this.agents + agent;
    return this.x[at] + ',' + this.y[at];
  }

  // To whom an item went that an agent has no longer: to who has one since this frame, and stood or stands one step away; or -1. Of
  // several it is the one beside whom the fewest others lost one. It is a guess: a page that knows what the trees answered says more.
  giftOf(frame, agent) {
    const at = frame * this.agents, was = at - this.agents, all = Array.from({ length: this.agents }, (_, b) => b);
    const far = (a, b, from) => Math.abs(this.x[at + a] - this.x[from + b]) + Math.abs(this.y[at + a] - this.y[from + b]);
    const isBeside = (a, b) => far(a, b, at) === 1 || far(a, b, was) === 1;
    const lost = all.filter(a => this.loaded[was + a] === 1 && this.loaded[at + a] === 0);
    const got = all.filter(b => this.loaded[was + b] === 0 && this.loaded[at + b] === 1 && isBeside(agent, b));
    const others = b => lost.filter(a => isBeside(a, b)).length;
    return got.length > 0 ? got.reduce((best, b) => (others(b) < others(best) ? b : best)) : -1;
  }

  // Which signals a frame switches.
  switched(frame) {
    const is = this.signals.of(frame), differ = is ^ (frame > 1 ? this.signals.of(frame - 1) : 0), found = [];
    for (let k = 0; k < 26; k += 1) if (differ >> k & 1) found.push({ letter: String.fromCharCode(97 + k), isOn: (is >> k & 1) === 1 });
    return found;
  }
}

// ---- characters of a map

const isAgent = char => char >= 'A' && char <= 'Z';
const isPlace = char => char >= '0' && char <= '9';
const isDoor = char => char >= 'a' && char <= 'z';
const letterOf = agent => String.fromCharCode(65 + agent);
// The ground of a map: floor where an item or an agent is drawn.
const groundOf = map => map.map(row => row.replace(/[*A-Z]/g, '.'));
function eachStart(map, call) {
  map.forEach((row, y) => [...row].forEach((char, x) => { if (isAgent(char)) call(char.charCodeAt(0) - 65, x, y); }));
}

// ---- colours

const hueOf = agent => (agent * 137.508 + 205) % 360;
const lightOf = agent => (hueOf(agent) > 40 && hueOf(agent) < 190 ? 29 : 40);
const colourOf = agent => `hsl(${hueOf(agent).toFixed(0)} 72% ${lightOf(agent)}%)`;
const wayOf = agent => `hsl(${hueOf(agent).toFixed(0)} 72% ${lightOf(agent) + theme.lighter}%)`; // of its way over the ground

// The colours that the style names.
let theme = {};
function readTheme() {
  const style = getComputedStyle(document.documentElement);
  for (const name of ['ink', 'soft', 'panel', 'mark', 'failure', 'signal', 'outer', 'floor', 'wall', 'grid', 'place', 'place-ink', 'door', 'door-open', 'strip', 'success-fill', 'failure-fill', 'moved-fill', 'stayed-fill', 'logic', 'think', 'path', 'draw', 'lane', 'lane-other', 'axis'])
    theme[name] = style.getPropertyValue('--' + name).trim();
  theme.lighter = +style.getPropertyValue('--lighter');
  theme.glances = ['stayed', 'moved', 'success', 'failure'].map(name => theme[name + '-fill']);
}

// A canvas's pen in CSS pixels.
function penOf(canvas, width, height) {
  const ratio = window.devicePixelRatio || 1;
  const w = Math.max(1, Math.round(width * ratio)), h = Math.max(1, Math.round(height * ratio));
  if (canvas.width !== w || canvas.height !== h) Object.assign(canvas, { width: w, height: h });
  const pen = canvas.getContext('2d');
  pen.setTransform(ratio, 0, 0, ratio, 0, 0);
  return pen;
}

// ---- where the map lies

// Where a map lies in its box: the side of a cell, and the left upper corner. A view is a zoom and how far the map was dragged.
const HEAD = 34; // the frame's name stands above the map where there is no room beside it
function placeOf(width, height, columns, rows, view) {
  const fitted = room => {
    const side = Math.min((width - 16) / columns, (height - room) / rows, 72);
    return side >= 8 ? Math.floor(side) : side;
  };
  const whole = fitted(16), isBeside = side => (width - side * columns) / 2 > 170 || side * rows + 2 * HEAD < height;
  const cell = (isBeside(whole) ? whole : fitted(HEAD + 10)) * view.zoom;
  const above = isBeside(cell) || view.zoom > 1 ? 0 : HEAD;
  const along = (room, size, moved) => (size <= room ? (room - size) / 2 : Math.min(20, Math.max(room - size - 20, (room - size) / 2 + moved)));
  const left = along(width, cell * columns, view.x);
  const top = cell * rows <= height - above ? (height + above - cell * rows) / 2 : along(height, cell * rows, view.y);
  view.x = left - (width - cell * columns) / 2;
  view.y = cell * rows <= height - above ? 0 : top - (height - cell * rows) / 2;
  return { width, height, cell, left, top };
}

// Zooms a view, so that what lies at a point of the box stays there.
function zoomView(view, scene, by, x, y) {
  const { width, height, cell, left, top } = scene.place, was = view.zoom;
  view.zoom = Math.max(1, Math.min(24, was * by));
  const grown = view.zoom / was, columns = scene.map[0].length, rows = scene.map.length;
  view.x = x - (x - left) * grown - (width - cell * grown * columns) / 2;
  view.y = y - (y - top) * grown - (height - cell * grown * rows) / 2;
}

// The cell of the map that a pointer is over, or null.
function cellAt(scene, px, py) {
  const { left, top, cell } = scene.place, x = Math.floor((px - left) / cell), y = Math.floor((py - top) / cell);
  return y >= 0 && y < scene.map.length && x >= 0 && x < scene.map[0].length ? { x, y } : null;
}
function cellSaid(scene, { x, y }) {
  const char = scene.map[y][x], ground = scene.ground[y][x];
  const under = ground === '#' ? 'wall' : ground === '.' ? 'floor' : isDoor(ground) ? 'door ' + ground : 'place ' + ground;
  return `${x},${y}  ${under}` + (char === '*' ? ', item' : isAgent(char) ? ', agent ' + char : char === '/' ? ', open' : isDoor(char) ? ', shut' : '');
}

// The agent that a pointer is at in a frame, or -1.
function agentNear(scene, film, frame, px, py) {
  const { left, top, cell } = scene.place;
  let best = -1, near = Math.max(9, cell * .6);
  for (let a = 0; a < film.agents; a += 1) {
    const [x, y] = middleOf(film, frame, a, scene.place), far = Math.hypot(px - x, py - y);
    if (far < near) [near, best] = [far, a];
  }
  return best;
}

// ---- the ground and what lies on it

// A scene is { map, ground, place }: rows of texts, and where they lie.
function drawScene(pen, scene, film, frame, chosen) {
  drawGround(pen, scene);
  if (frame > 0) drawSteps(pen, film, frame, scene.place);
  if (frame > 0 && chosen >= 0) drawTrail(pen, film, frame, chosen, scene.place);
  drawThings(pen, scene);
  if (frame > 0) drawAgents(pen, film, frame, chosen, scene.place);
  else drawStarts(pen, scene.map, chosen, scene.place);
}

// The ground is drawn once for each place.
const layer = { key: '', ground: null, canvas: null };
function drawGround(pen, { ground, place }) {
  const { width, height } = place, key = [...Object.values(place), theme.floor, window.devicePixelRatio].join();
  if (layer.key !== key || layer.ground !== ground) {
    layer.canvas = layer.canvas || document.createElement('canvas');
    drawLayer(penOf(layer.canvas, width, height), ground, place);
    Object.assign(layer, { key, ground });
  }
  pen.drawImage(layer.canvas, 0, 0, width, height);
}
function drawLayer(pen, ground, place) {
  const { width, height, cell, left, top } = place, columns = ground[0].length, rows = ground.length;
  pen.fillStyle = theme.outer;
  pen.fillRect(0, 0, width, height);
  pen.fillStyle = theme.floor;
  pen.fillRect(left, top, cell * columns, cell * rows);
  eachCell(ground, place, (char, px, py) => {
    if (char === '#') {
      pen.fillStyle = theme.wall;
      pen.fillRect(px, py, cell + .4, cell + .4);
    } else if (isPlace(char)) {
      pen.fillStyle = theme.place;
      pen.fillRect(px, py, cell + .2, cell + .2);
    }
  });
  if (cell < 12) return;
  pen.strokeStyle = theme.grid;
  pen.lineWidth = 1;
  pen.beginPath();
  for (let x = 0; x <= columns; x += 1) { pen.moveTo(left + x * cell, top); pen.lineTo(left + x * cell, top + rows * cell); }
  for (let y = 0; y <= rows; y += 1) { pen.moveTo(left, top + y * cell); pen.lineTo(left + columns * cell, top + y * cell); }
  pen.stroke();
}
// Calls with each cell that is in sight.
function eachCell(map, { width, height, cell, left, top }, call) {
  map.forEach((row, y) => {
    const py = top + y * cell;
    if (py + cell < 0 || py > height) return;
    for (let x = 0; x < row.length; x += 1) {
      const px = left + x * cell;
      if (px + cell >= 0 && px <= width) call(row[x], px, py, x, y);
    }
  });
}

// What stands on the ground but for the agents.
function drawThings(pen, scene) {
  const { cell } = scene.place;
  pen.textAlign = 'center';
  pen.textBaseline = 'middle';
  eachCell(scene.map, scene.place, (char, px, py, x, y) => {
    const ground = scene.ground[y][x];
    if (isDoor(ground)) drawDoor(pen, px, py, cell, ground, char === ground);
    if (isPlace(ground)) drawPlace(pen, px, py, cell, ground, char !== ground);
    if (char === '*') {
      const aside = cell < 13 && isPlace(ground) ? 6 : 0;
      drawStar(pen, px + cell / 2 + aside, py + cell / 2 + aside, Math.max(3.2, cell * .3));
    }
  });
}
// A door on which something stands may be either: it is drawn as open.
function drawDoor(pen, px, py, cell, letter, isShut) {
  const side = Math.max(cell, 5), x = px + (cell - side) / 2, y = py + (cell - side) / 2, edge = Math.max(1, side / 14);
  pen.fillStyle = isShut ? theme.door : theme['door-open'];
  pen.fillRect(x, y, side, side);
  if (!isShut) {
    Object.assign(pen, { strokeStyle: theme.door, lineWidth: edge });
    if (side >= 12) pen.setLineDash([side / 6, side / 8]);
    pen.strokeRect(x + edge / 2, y + edge / 2, side - edge, side - edge);
    pen.setLineDash([]);
  }
  if (side < 11) return;
  pen.fillStyle = isShut ? '#fff' : theme.signal;
  pen.font = `600 ${Math.min(22, side * .55)}px system-ui, sans-serif`;
  pen.fillText(letter, px + cell / 2, py + cell / 2 + .5);
}
// A place's digit, small in its corner where something lies or stands on it.
function drawPlace(pen, px, py, cell, digit, isCovered) {
  if (cell < 13) {
    pen.fillStyle = theme.place;
    pen.fillRect(px + cell / 2 - 6.5, py + cell / 2 - 6.5, 13, 13);
  } else if (isCovered && cell < 22) return;
  const isSmall = isCovered && cell >= 22, size = isSmall ? Math.max(8.5, cell * .23) : Math.max(10, Math.min(22, cell * .55));
  const away = isSmall ? cell / 2 - size * .48 : 0;
  pen.font = `600 ${size}px system-ui, sans-serif`;
  // A trail may lie below: a rim of the place's colour keeps the digit clear of it.
  Object.assign(pen, { fillStyle: theme['place-ink'], strokeStyle: theme.place, lineWidth: size / 3, lineJoin: 'round' });
  pen.strokeText(digit, px + cell / 2 - away, py + cell / 2 + away + .5);
  pen.fillText(digit, px + cell / 2 - away, py + cell / 2 + away + .5);
}
function drawStar(pen, x, y, radius) {
  pen.beginPath();
  for (let k = 0; k < 10; k += 1) {
    const turn = -Math.PI / 2 + k * Math.PI / 5, far = k % 2 ? radius * .45 : radius;
    pen.lineTo(x + far * Math.cos(turn), y + far * Math.sin(turn));
  }
  pen.closePath();
  pen.fillStyle = '#f2b21b';
  pen.fill();
  pen.strokeStyle = '#7d5600';
  pen.lineWidth = Math.max(.7, radius / 9);
  pen.stroke();
}

// ---- the agents on it

const radiusOf = cell => Math.max(6.5, cell * .4);
function drawDisc(pen, agent, [x, y], radius, isLoaded, isChosen) {
  const circle = (far, fill, edge, stroke) => {
    pen.beginPath();
    pen.arc(x, y, far, 0, 7);
    Object.assign(pen, { fillStyle: fill, lineWidth: edge, strokeStyle: stroke });
    pen.fill();
    pen.stroke();
  };
  if (isChosen) circle(radius + 5, 'rgba(255,214,0,.75)', 2, '#1c2430');
  circle(radius, colourOf(agent), Math.max(1, radius / 9), '#fff');
  pen.fillStyle = '#fff';
  pen.font = `700 ${Math.max(9, radius * 1.1)}px system-ui, sans-serif`;
  pen.fillText(letterOf(agent), x, y + .5);
  const away = radius < 10 ? radius * 1.15 : radius * .8;
  if (isLoaded) drawStar(pen, x + away, y - away, Math.max(3.5, radius * .5));
}

// The middle of the cell in which an agent stands in a frame.
const middleOf = (film, frame, a, { cell, left, top }) => [left + (film.x[frame * film.agents + a] + .5) * cell, top + (film.y[frame * film.agents + a] + .5) * cell];

function drawStroke(pen, agent, alpha, width, points) {
  Object.assign(pen, { strokeStyle: wayOf(agent), globalAlpha: alpha, lineWidth: width, lineJoin: 'round', lineCap: 'round' });
  pen.beginPath();
  for (const point of points) pen.lineTo(...point);
  pen.stroke();
  pen.globalAlpha = 1;
}
// Where an agent has been, fainter the longer ago, and as dots where it goes next as far as that is known: below what stands on the
// ground.
const TRAIL = 40, AHEAD = 16;
function drawTrail(pen, film, frame, agent, place) {
  const middle = at => middleOf(film, at, agent, place), width = Math.max(2, place.cell * .1);
  for (let at = Math.max(1, frame - TRAIL); at <= frame; at += 1)
    if (film.hasMoved(at, agent)) drawStroke(pen, agent, .12 + .5 * (1 - (frame - at) / TRAIL), width, [middle(at - 1), middle(at)]);
  pen.fillStyle = wayOf(agent);
  pen.globalAlpha = .7;
  for (let at = frame + 1; at <= Math.min(film.count, frame + AHEAD); at += 1) {
    if (!film.hasMoved(at, agent)) continue;
    pen.beginPath();
    pen.arc(...middle(at), Math.max(1.5, place.cell * .06), 0, 7);
    pen.fill();
  }
  pen.globalAlpha = 1;
}
// The steps that the agents of a frame have made, below what stands on the ground too.
function drawSteps(pen, film, frame, place) {
  const radius = radiusOf(place.cell);
  for (let a = 0; a < film.agents; a += 1) if (film.hasMoved(frame, a)) drawStroke(pen, a, .4, Math.max(2, radius * .5), [middleOf(film, frame - 1, a, place), middleOf(film, frame, a, place)]);
}
function drawAgents(pen, film, frame, chosen, place) {
  const radius = radiusOf(place.cell);
  const disc = a => drawDisc(pen, a, middleOf(film, frame, a, place), radius, film.loaded[frame * film.agents + a], a === chosen);
  for (let a = 0; a < film.agents; a += 1) if (a !== chosen) disc(a);
  if (chosen >= 0) disc(chosen);
}
// The agents of a level's map, before any frame.
function drawStarts(pen, map, chosen, { cell, left, top }) {
  eachStart(map, (agent, x, y) => drawDisc(pen, agent, [left + (x + .5) * cell, top + (y + .5) * cell], radiusOf(cell), false, agent === chosen));
}

"#;
