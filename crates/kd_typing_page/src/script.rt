//! The script of the page, which is the same on every page. It looks letters up in the page's table, and shows what it
//! finds. Nothing is proved about the script.

/// The text between the tags of the script. Its SHA-256 is in the page's policy.
pub const SCRIPT: &str = "'use strict'
// This script looks up and shows. What the machine does at a key press stands in the rows of this page.
const $ = id => document.getElementById(id)
const { start, words } = JSON.parse($('data').textContent)
const table = $('table').textContent.split('\\n')
const AZ = 'ABCDEFGHIJKLMNOPQRSTUVWXYZ'
const windows = [...document.querySelectorAll('select')], pins = windows.length > 4
const first = windows.map((s, w) => [...s.options].findIndex(o => o.value === start[w]))
let at = first // the place of each wheel: 0 is its first letter
let lines = [], lit = [], since = 0, held = '', pointed = null

const line = () => lines[lines.length - 1]
const shown = places => windows.map((s, w) => s.options[places[w]].value).join('')
const decipher = () => Boolean(document.querySelector('input[value=D]:checked'))
const groups = text => text.match(/.{1,5}/g) || []
const typed = l => l.letters.map(x => x.key).join('')
const came = l => l.letters.map(x => l.plain && x.out === 'Z' ? '\\u00a0' : x.out).join('')
const tell = (text, ...values) => { $('told').textContent = values.reduce((t, v) => t.replace('%s', () => v), text) }
const make = (tag, name, ...inside) => {
  const e = Object.assign(document.createElement(tag), { className: name })
  e.append(...inside)
  return e
}

// One key press of an Enigma: how many wheels move (line 0); then the current goes in through plugboard and right wheel (lines
// 1 to 26), around through the other wheels and the reflector (the lines from 27 on), and back the way on which it came in.
function pressRotors(key) {
  const [middle, right] = at.slice(-2)
  const after = at.map((place, w) => (place + (w + Number(table[0][26 * middle + right]) < at.length ? 0 : 1)) % 26)
  const into = table[1 + after[after.length - 1]]
  const around = table[27 + after.slice(0, -1).reduce((n, place) => 26 * n + place, 0)]
  return [AZ[into.indexOf(around[AZ.indexOf(into[AZ.indexOf(key)])])], after]
}
// One letter of a Converter: whether the acting pin of each wheel is effective (lines 0 to 5); the line of these pins (from 6 on)
// has what is printed for each key; each wheel moves.
function pressPins(key) {
  const row = table[6 + at.reduce((n, place, w) => 2 * n + Number(table[w][place]), 0)]
  return [row[AZ.indexOf(key)], at.map((place, w) => (place + 1) % windows[w].length)]
}
function step(key) {
  const [out, after] = pins ? pressPins(key) : pressRotors(key)
  line().letters.push({ key, out, before: at })
  at = after
}
function beginLine() { // on the tape: wherever a hand sets the windows or the knob
  if (lines.length && !line().letters.length) lines.pop()
  lines.push({ from: shown(at), plain: decipher(), letters: [] })
}

function draw() {
  windows.forEach((s, w) => {
    s.selectedIndex = at[w]
    s.nextElementSibling.textContent = pins ? '' : String(at[w] + 1).padStart(2, '0')
  })
  $('count').textContent = line().letters.length
  if ($('strip')) $('strip').textContent = groups(came(line())).join(line().plain ? '' : ' ').slice(-29)
  $('tape').replaceChildren(...lines.map(l => {
    const out = groups(came(l)), pairs = groups(typed(l)).map((g, i) => make('span', '', make('b', '', g), make('i', '', out[i])))
    return make('div', l.plain ? 'line plain' : 'line', make('small', '', l.from), make('div', 'groups', ...pairs))
  }))
  $('tape').scrollTop = $('tape').scrollHeight
}
function light(...elements) { // none: all dark
  lit.forEach(e => e.classList.remove('lit'))
  elements.forEach(e => e.classList.add('lit'))
  lit = elements; since = Date.now()
}
function release() { // after a short tap the lamp stays on for a moment, so that the eye finds it
  const mine = lit; held = ''
  setTimeout(() => { if (lit === mine) light() }, 400 - (Date.now() - since))
}
function press(...keys) {
  keys.forEach(step)
  draw()
  const { key, out } = line().letters[line().letters.length - 1]
  light(...document.querySelectorAll(`[data-lamp=${out}], #keys [value=${key}]`))
  tell(words.lit, key, line().plain && out === 'Z' ? words.blank : out)
}
function pressText(text) { // judged first: a text with a fault moves no wheel
  const all = [...text.normalize()], bad = all.findIndex(c => !/[A-Za-z \\r\\n]/.test(c))
  if (bad >= 0) return tell(words.bad, bad + 1, all[bad])
  const keys = text.toUpperCase().replace(/[\\r\\n]/g, '').replace(/ /g, pins && !decipher() ? 'Z' : '')
  if (!keys || keys.length > 5000) return tell(keys ? words.long : words.empty)
  press(...keys); release()
  tell(words.typed, keys.length)
}

function set(places) { at = places; light(); beginLine(); draw() }
function turn(w, place) { set(at.map((p, i) => i === w ? (place + windows[w].length) % windows[w].length : p)) }
const acts = {
  undo() {
    if (lines.length > 1 && !line().letters.length) lines.pop()
    const letter = line().letters.pop()
    if (!letter) return tell(words.nothing)
    at = letter.before; light(); draw()
    tell(words.undone, letter.key, shown(at))
  },
  back() { set(first); tell(words.back, shown(at)) },
  clear() { lines = []; set(at); tell(words.cleared) },
  async copy() {
    const l = [...lines].reverse().find(x => x.letters.length)
    if (!l) return tell(words.nothing)
    const text = groups(came(l)).join(l.plain ? '' : ' ').replace(/\\u00a0/g, ' ')
    try { await navigator.clipboard.writeText(text) } catch { // forbidden: by the field for a text
      $('whole').open = true
      Object.assign($('text'), { value: text }).select()
      if (!document.execCommand('copy')) return tell(words.byhand)
    }
    tell(words.copied, l.letters.length)
  },
  go() { pressText($('text').value) }
}

Object.keys(acts).forEach(id => { $(id).onclick = acts[id] })
windows.forEach((s, w) => {
  s.onchange = () => turn(w, s.selectedIndex)
  s.closest('.wheel').querySelectorAll('button').forEach(b => { b.onclick = () => turn(w, at[w] + Number(b.value)) })
})
document.querySelectorAll('[name=knob]').forEach(k => { k.onchange = () => set(at) })
$('keys').onpointerdown = e => {
  pointed = e.button ? null : e.target.closest('button')
  if (pointed) press(pointed.value)
}
$('keys').onclick = e => { // no pointer came before: the keyboard, or a screen reader
  const key = e.target.closest('button')
  if (key && key !== pointed) { press(key.value); release() }
  pointed = null
}
$('keys').oncontextmenu = e => e.preventDefault()
document.onmousedown = e => { // no focus by the mouse: else a typed Space would press that button again
  if (e.target.closest('button, summary, .knob')) e.preventDefault()
}
onpointerup = onpointercancel = onblur = release
document.onkeydown = e => {
  if (e.ctrlKey || e.metaKey || e.altKey || e.isComposing || e.target.closest('select, textarea')) return
  if (e.key === ' ' && e.target.closest('button, summary')) return
  if (e.key === ' ' || e.key === 'Backspace') e.preventDefault()
  const key = e.key === ' ' && pins && !decipher() ? 'Z' : e.key.toUpperCase()
  if (e.key === 'Backspace') acts.undo()
  else if (!/^[A-Z]$/.test(key)) { if ([...e.key].length === 1) tell(e.key === ' ' ? words.space : words.nokey, e.key) }
  else if (!e.repeat) { press(key); held = e.code }
}
document.onkeyup = e => { if (e.code === held) release() }
document.onpaste = e => {
  if (e.target.closest('textarea')) return
  e.preventDefault()
  pressText(e.clipboardData.getData('text'))
}
set(first)
$('off').remove()
";
