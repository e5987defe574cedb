//! `viewer/style.css`, as `tools/embed_viewer.py` writes it.

pub(super) const TEXT: &str = ":root {
    color-scheme: light dark;
    --paper: light-dark(#fff, #16181c); --text: light-dark(#222, #e8e8e8); --dim: light-dark(#595959, #a8a8a8);
    --rule: light-dark(#8a8a8a, #6f747c); --soft: light-dark(#f5f6f7, #1e2126); --line: light-dark(#dcdfe3, #33373e);
    --grey: light-dark(#ddd, #3a3d42); --untold: light-dark(#eceef1, #262a30); --edge: light-dark(#6b6b6b, #a8a8a8); --trouble: light-dark(#c85000, #ff8533);
    --on: light-dark(#000, #fff); --words: light-dark(#a84300, #ff8533); --link: light-dark(#00609a, #7cc4f2);
    --h0: light-dark(#475666, #b8c4d0); --h1: light-dark(#0072b2, #56b4e9); --h2: light-dark(#9a5b00, #e69f00);
    --h3: light-dark(#007a58, #2fc79a); --h4: light-dark(#b03a78, #e58bc0); --h5: light-dark(#6a4fc0, #a99bff);
    --h6: light-dark(#006f80, #4fd3dc); --h7: light-dark(#666600, #cfcf4a);
}
:root:has(#theme:checked) { color-scheme: dark; }
@media (prefers-color-scheme: dark) { :root:has(#theme:checked) { color-scheme: light; } }
/* Canvases ask for these as they are on the present paper. */
@property --dim { syntax: \"<color>\"; inherits: true; initial-value: gray; }
@property --untold { syntax: \"<color>\"; inherits: true; initial-value: gray; }
@property --edge { syntax: \"<color>\"; inherits: true; initial-value: gray; }
@property --trouble { syntax: \"<color>\"; inherits: true; initial-value: gray; }
@property --on { syntax: \"<color>\"; inherits: true; initial-value: gray; }
@property --h0 { syntax: \"<color>\"; inherits: true; initial-value: gray; }
@property --h1 { syntax: \"<color>\"; inherits: true; initial-value: gray; }
@property --h2 { syntax: \"<color>\"; inherits: true; initial-value: gray; }
@property --h3 { syntax: \"<color>\"; inherits: true; initial-value: gray; }
@property --h4 { syntax: \"<color>\"; inherits: true; initial-value: gray; }
@property --h5 { syntax: \"<color>\"; inherits: true; initial-value: gray; }
@property --h6 { syntax: \"<color>\"; inherits: true; initial-value: gray; }
@property --h7 { syntax: \"<color>\"; inherits: true; initial-value: gray; }
* { box-sizing: border-box; }
body {
    margin: 0; height: 100vh; display: grid; grid-template: auto minmax(0, 1fr) auto / minmax(0, 1fr) 360px;
    background: var(--paper); color: var(--text); font: 13px/1.45 system-ui, sans-serif;
}
header { grid-column: 1 / 3; display: flex; flex-wrap: wrap; gap: 6px; align-items: center; padding: 8px 12px; border-bottom: 1px solid var(--line); }
h1 { font-size: 15px; margin: 0 12px 0 0; }
h2 { font-size: 15px; margin: 0 0 4px; }
h3 { font-size: 13px; margin: 16px 0 4px; }
header > * { white-space: nowrap; overflow: hidden; text-overflow: ellipsis; }
header label:has(#find) { flex: 0 1 26em; overflow: visible; display: flex; gap: 6px; align-items: center; min-width: 12em; }
#find { flex: 1; min-width: 0; }
#count { flex: 0 1 auto; min-width: 6em; color: var(--dim); }
@media (min-width: 800px) { header { flex-wrap: nowrap; } header > button { flex: none; } h1 { flex: 0 1 auto; min-width: 4em; } }
.space { flex: 1; }
input, select, button { font: inherit; color: var(--text); background: var(--paper); border: 1px solid var(--rule); border-radius: 5px; padding: 2px 8px; }
button { cursor: pointer; }
button:hover { background: var(--soft); }
:focus-visible { outline: 2px solid var(--on); outline-offset: 1px; }
#scroll { grid-area: 2 / 1; overflow-y: auto; overflow-x: hidden; position: relative; }
#scroll > *, #strip { display: block; width: 100%; }
#axis { position: sticky; top: 0; background: var(--paper); z-index: 1; border-bottom: 1px solid var(--line); }
#far, #lanes { position: absolute; top: 0; left: 0; }
#lanes { height: var(--bottom); touch-action: none; cursor: default; }
/* The steps outside of the window of a page stand left of the first one told, and from the end of these on. */
#early, #late { position: absolute; top: 0; height: var(--bottom); padding-top: 27px; font: 11px/12px system-ui, sans-serif; text-align: center; }
#early, #late { overflow: hidden; text-overflow: ellipsis; white-space: nowrap; background: var(--untold); }
#early { left: 64px; width: calc(min(100%, var(--first)) - 64px); }
#late { left: max(64px, var(--end)); width: calc(min(100%, var(--steps)) - max(64px, var(--end))); }
#scroll:has(.counted) > :is(#early, #late) { background: none; border: dashed var(--edge); border-width: 0; }
#scroll:has(.counted) > #early { border-right-width: 2px; }
#scroll:has(.counted) > #late { border-left-width: 2px; }
[data-link], [data-strip] { cursor: pointer; }
#lanes.far { cursor: zoom-in; }
#lanes.far .line { opacity: 0.4; }
/* The signs of shapes. */
.h0 { --hue: var(--h0); } .h1 { --hue: var(--h1); } .h2 { --hue: var(--h2); } .h3 { --hue: var(--h3); }
.h4 { --hue: var(--h4); } .h5 { --hue: var(--h5); } .h6 { --hue: var(--h6); } .h7 { --hue: var(--h7); }
.edge { --hue: var(--edge); }
.name, .label { font-size: 11px; dominant-baseline: central; fill: var(--text); }
.name { text-anchor: end; }
.name.dim { fill: var(--dim); }
.label { text-anchor: middle; pointer-events: none; }
.label.s { fill: var(--paper); }
.line { stroke: var(--rule); }
.line.full { stroke-dasharray: 2 4; }
.field { fill: var(--trouble); opacity: 0.16; }
.level { fill: var(--hue); }
.box { fill: var(--grey); stroke: var(--hue); stroke-width: 1.5; }
.bar, .knob { fill: var(--paper); stroke: var(--hue); stroke-width: 1.5; }
.box.r { fill: var(--paper); }
.box.s, .knob.s { fill: var(--hue); }
.bar.s { fill: color-mix(in srgb, var(--hue) 40%, var(--paper)); }
.knob.trouble { fill: var(--trouble); stroke: var(--trouble); }
.box.drained { stroke-dasharray: 2 3; }
.box.cancelled { stroke-dasharray: 1 2; }
.box.open, .bar.open { stroke-dasharray: 4 3; }
.box.thick, .box.trouble { stroke-width: 2.5; }
.box.trouble { stroke: var(--trouble); stroke-dasharray: 6 2; }
.box.small { fill: var(--hue); stroke: none; }
.box.small.trouble { fill: var(--trouble); }
.arrow, .guess { marker-end: url(#tip); }
.arrow { fill: none; stroke: var(--hue); stroke-width: 1.5; }
.reach { fill: none; stroke: transparent; stroke-width: 10; }
.guess { fill: none; stroke: var(--trouble); stroke-width: 2; }
.box.found { stroke: var(--on); stroke-width: 2.5; }
.box.chosen { stroke: var(--on); stroke-width: 4; stroke-dasharray: none; }
.following :is(.box, .bar, .knob, .label, .arrow):not(.found, .chosen) { opacity: 0.3; }
.following .arrow.found { stroke: var(--on); stroke-width: 3; }
#panel { grid-area: 2 / 2; overflow-y: auto; padding: 12px 14px; border-left: 1px solid var(--line); background: var(--soft); overflow-wrap: anywhere; }
#panel table { border-collapse: collapse; width: 100%; }
#panel th { text-align: left; font-weight: 400; color: var(--dim); padding: 1px 8px 1px 0; vertical-align: top; white-space: nowrap; }
#panel label { white-space: nowrap; }
#panel td { padding: 1px 6px 1px 0; vertical-align: top; font-variant-numeric: tabular-nums; }
#panel .lines { overflow-wrap: normal; }
#panel code { overflow-wrap: anywhere; }
#none { color: var(--words); position: sticky; top: 0; background: var(--soft); }
/* What tells nothing is not shown. */
#none:empty, #told:empty, #ties:empty, ul:empty, h3:has(+ ul:empty), tr:has(th + td:empty), tr:has(td > ul:empty) { display: none; }
#stall > h3 { display: block; }
#stall:has(#stalled:empty), #waits:has(#longest:empty), p:has(> :is(#empty, #told):empty) { display: none; }
#panel .lines tr { border-bottom: 1px solid var(--line); }
#panel p { margin: 4px 0; }
#panel ul { margin: 0; padding: 0; list-style: none; }
#panel li { margin: 3px 0; }
code { font: 12px ui-monospace, monospace; }
a { color: var(--link); white-space: nowrap; }
pre { white-space: pre-wrap; font: 12px ui-monospace, monospace; }
.dim { color: var(--dim); }
b.trouble { color: var(--words); }
.fired { font-weight: bold; }
footer { position: relative; grid-area: 3 / 1 / auto / 3; border-top: 1px solid var(--line); padding: 4px 0; }
#strip { cursor: pointer; touch-action: none; }
#caption { position: absolute; top: 5px; left: 6px; margin: 0; font-size: 11px; line-height: 12px; color: var(--dim); pointer-events: none; }
#window { position: absolute; top: 17px; height: 36px; min-width: 3px; border: 2px solid var(--on); pointer-events: none; }
dialog { background: var(--paper); color: var(--text); border: 1px solid var(--rule); border-radius: 8px; max-width: 46em; }
dialog form { float: right; }
dialog td { padding: 2px 12px 2px 0; vertical-align: top; }
kbd { font: 12px ui-monospace, monospace; border: 1px solid var(--rule); border-radius: 4px; padding: 0 4px; }
@media (max-width: 800px) {
    body { grid-template: auto minmax(0, 1fr) 38vh auto / minmax(0, 1fr); }
    header { grid-column: 1; }
    #panel { grid-area: 3 / 1; border-left: 0; border-top: 1px solid var(--line); }
    footer { position: relative; grid-area: 4 / 1; }
}
";
