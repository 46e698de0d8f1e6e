//! The style sheet, which is the same on every page.

/// The text between the tags of the style sheet. Its SHA-256 is in the page's policy.
pub const STYLE: &str = ":root{--ink:#111;--paper:#fff;--soft:#555;--line:#aaa;--in:#0b4f8a}
*{box-sizing:border-box}
html{touch-action:manipulation;-webkit-text-size-adjust:100%}
body{margin:0;background:var(--paper);color:var(--ink);font:18px/1.35 system-ui,-apple-system,\"Segoe UI\",Roboto,\"Helvetica Neue\",Arial,sans-serif}
main{max-width:46rem;margin:0 auto;padding:16px}
h1{font-size:1.7em;margin:0 0 .3em}
h1 small{font-size:.6em;font-weight:400}
h2{font-size:1.25em;margin:0 0 .2em}
h2 small{font-size:.8em;font-weight:400}
p{margin:.3em 0}
button,select,textarea{font:inherit;color:inherit;background:var(--paper);border:2px solid var(--ink);border-radius:0;margin:0}
button{min-width:44px;min-height:44px;padding:0 .6em;cursor:pointer}
button:active,.lit{background:var(--ink);color:var(--paper)}
:focus-visible{outline:3px solid var(--in);outline-offset:2px}
#off{border:4px solid;padding:.5em}
.windows{display:flex;justify-content:center;border:2px solid;border-bottom:0;padding:10px 6px}
.wheel{flex:0 1 7rem;margin:0 3px;border:1.5px solid;text-align:center;display:flex;flex-direction:column}
.wheel label{display:flex;flex-wrap:wrap;justify-content:center;align-items:center;padding:2px 0 8px}
.wheel span{flex:1 0 100%;font-size:.78em;color:var(--soft)}
.wheel small{width:1.6em;margin-left:.2em;white-space:nowrap}
.wheel small:empty{display:none}
.wheel button{border:0;border-bottom:1.5px solid;width:100%;font-size:.8em;line-height:1}
.wheel button:last-child{border-bottom:0;border-top:1.5px solid}
select{flex:none;-webkit-appearance:none;-moz-appearance:none;appearance:none;width:46px;height:46px;font-size:28px;font-weight:700;line-height:1;text-align:center;text-align-last:center;padding:0;border:3px solid var(--ink);cursor:pointer}
option{font-size:18px}
#lamps,#keys,.strip{border:2px solid var(--ink);padding:8px 4px}
#lamps{background:#1c1c1c;border-color:var(--ink)}
#lamps,#keys,.wheel span,.wheel button{-webkit-user-select:none;user-select:none;-webkit-touch-callout:none}
.row{display:flex;justify-content:center}
.row>*{flex:0 0 11.11%}
#lamps b{text-align:center;font-weight:400;color:#c4c4c4;padding:3px 0}
#lamps b span{display:inline-block;width:40px;height:40px;line-height:37px;border:1.5px solid #8a8a8a;border-radius:50%;font-size:20px}
#lamps .lit{background:none}
#lamps .lit span{background:#ffd54a;border-color:#ffd54a;color:#000;font-weight:700;font-size:24px;box-shadow:0 0 0 4px #1c1c1c,0 0 0 6px #ffd54a}
#told{border:2px solid;border-width:0 2px;margin:0;padding:0 .4em;height:3em;line-height:1.3;overflow:hidden;display:flex;align-items:center;justify-content:center;text-align:center}
#keys{touch-action:none}
#keys button{border:0;background:none;color:inherit;padding:3px 0;min-width:0;height:58px;display:flex;align-items:center;justify-content:center}
#keys button span{width:calc(100% - 4px);max-width:48px;aspect-ratio:1;border:2px solid var(--ink);border-radius:50%;display:flex;align-items:center;justify-content:center;font-size:20px;font-weight:700;box-shadow:0 3px 0 var(--line)}
#keys .lit span,#keys button:active span{background:var(--ink);color:var(--paper);box-shadow:none;transform:translateY(2px)}
.alphabet .row{flex-wrap:wrap;justify-content:flex-start}
.alphabet .row>*{flex-basis:7.69%}
.strip{font:700 20px/1.6 ui-monospace,Consolas,\"DejaVu Sans Mono\",monospace;text-align:right;white-space:pre;overflow:hidden;height:2.6em;padding:8px .6em;background:#f4efe2;color:#111}
.buttons{display:flex;flex-wrap:wrap;gap:6px;margin:8px 0 12px}
.buttons button{flex:1 1 auto}
.knob{border:2px solid;border-bottom:0;margin:0;padding:0;display:flex;justify-content:center}
.knob legend{position:absolute;width:1px;height:1px;overflow:hidden;clip-path:inset(50%)}
.knob label{min-height:44px;display:flex;align-items:center;padding:0 .8em;cursor:pointer}
.knob input{width:1.1em;height:1.1em;margin:0 .5em 0 0;accent-color:var(--ink)}
#tape{min-height:5.2em;max-height:16em;overflow-y:auto;border-top:1px solid;padding:4px 0}
.line{display:flex;border-bottom:1px solid var(--line);padding:3px 0}
.line>small{flex:none;min-width:4.8em;padding-right:.9em;color:var(--soft);font-size:.8em;line-height:1.7}
.groups,.line>small{font-family:ui-monospace,Consolas,\"DejaVu Sans Mono\",monospace}
.groups{display:flex;flex-wrap:wrap;gap:2px .8em}
.plain .groups{gap:2px 0}
.groups b,.groups i{display:block;font-style:normal;line-height:1.3;white-space:pre}
.groups b{font-weight:400;color:var(--soft)}
.groups i{font-weight:700}
details{border-top:1px solid;padding:.2em 0}
summary{min-height:44px;line-height:44px;cursor:pointer}
details b{font-weight:400;white-space:nowrap}
textarea{display:block;width:100%;height:4.5em;padding:.4em;margin:0 0 6px}
.note{font-size:.85em;color:var(--soft)}
@media screen and (prefers-color-scheme:dark){
:root{--ink:#e8e6e1;--paper:#16181b;--soft:#aaa;--line:#666;--in:#8cc8ff}
#lamps{background:#000}
#lamps .lit span{box-shadow:0 0 0 4px #000,0 0 0 6px #ffd54a}
.strip{background:#26282b;color:var(--ink)}
}
@media screen and (min-width:1100px){
main{max-width:78rem;display:grid;grid-template-columns:41rem 1fr;column-gap:2.5rem;align-items:start}
header,#off{grid-column:1/-1}
#tape{max-height:24em;min-height:12em}
}
@media screen and (max-width:700px),screen and (max-height:500px){
body{font-size:16px}
main{padding:8px}
h1{font-size:1.25em;margin:0 0 .25em;line-height:1.15}
h1 small{display:block;font-size:.65em}
.windows{padding:6px 2px}
.wheel{margin:0 2px}
#lamps{padding:5px 2px}
#lamps b{padding:2px 0}
#lamps b span{width:32px;height:32px;line-height:29px;font-size:17px}
#lamps .lit span{font-size:20px;box-shadow:0 0 0 2px #1c1c1c,0 0 0 4px #ffd54a}
#keys{padding:4px 0}
#keys button{height:52px}
#told{font-size:.85em;height:2.8em}
#tape{max-height:11em;min-height:4em}
.alphabet .row>*{flex-basis:14.28%}
.alphabet .wheel button{padding:0}
.buttons{gap:4px;margin:6px 0}
.buttons button{padding:0 .2em;font-size:.86em}
.strip{font-size:17px}
.line>small{min-width:3.8em}
}
@media screen and (max-height:500px) and (min-width:600px){
main{display:block;max-width:none}
h1{font-size:1em}
h1 small{display:inline;font-size:.8em}
main>div{display:grid;grid-template-columns:1fr 1fr;grid-template-rows:auto auto 1fr;column-gap:6px}
.windows{grid-row:span 2;padding:4px 2px}
#told{grid-column:2;grid-row:1;border-width:2px 2px 0}
#keys{grid-column:2;grid-row:2/4}
#lamps{grid-row:3}
.knob,.strip{grid-column:1}
.buttons{grid-column:1/-1}
}
@media (prefers-reduced-motion:no-preference){#lamps span{transition:background-color .12s,color .12s}}
@media print{
.windows,#lamps,#told,#keys,.strip,.knob,.buttons,#whole{display:none}
#tape{max-height:none;overflow:visible}
.line{break-inside:avoid}
}
";
