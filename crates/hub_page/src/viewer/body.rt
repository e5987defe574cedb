//! `viewer/body.html`, as `tools/embed_viewer.py` writes it.

pub(super) const TEXT: &str = "</style>
</head>
<body inert onhashchange=\"page.readLink()\" onkeydown=\"page.key(event)\" onchange=\"page.changeSetting(event)\">
<header>
<h1 id=\"journal\">A journal</h1>
<span id=\"part\" title=\"Back to the steps that are told: all of each block of 64 that has one of those asked for\"></span>
<label>Find <input id=\"find\" type=\"search\" onkeydown=\"if (event.key === 'Enter') page.leaveFind(this.value.trim())\" onchange=\"page.find(this.value.trim())\" placeholder=\"P3, port 2, =17, stalled, step 60\" title=\"The search begins at the chosen step, or at the first one in view\" autocomplete=\"off\" spellcheck=\"false\"></label>
<span id=\"count\" role=\"status\"></span>
<button onclick=\"page.keys['<']()\" aria-label=\"the first one found\">&#8676;</button>
<button onclick=\"page.keys['p']()\" aria-label=\"the one before\">&larr;</button>
<button onclick=\"page.keys['n']()\" aria-label=\"the next one\">&rarr;</button>
<button onclick=\"page.keys['>']()\" aria-label=\"the last one found\">&#8677;</button>
<span class=\"space\"></span>
<button onclick=\"page.keys['+']()\" aria-label=\"nearer\">+</button>
<button onclick=\"page.keys['-']()\" aria-label=\"farther\">&minus;</button>
<button onclick=\"page.keys['0']()\">All</button>
<label><input type=\"checkbox\" id=\"theme\"> Switch dark/light</label>
<button onclick=\"page.keys['?']()\">Help</button>
</header>
<main id=\"scroll\" tabindex=\"0\" aria-label=\"Processes and ports\">
<canvas id=\"axis\" aria-hidden=\"true\"></canvas>
<div id=\"early\"></div>
<div id=\"late\"></div>
<canvas id=\"far\" aria-hidden=\"true\"></canvas>
<svg id=\"lanes\" onwheel=\"event.preventDefault(); page.wheel(event)\" onpointerdown=\"page.dragged = 0\" onpointermove=\"if (event.buttons) page.drag(event)\" onclick=\"if (page.dragged <= 4) page.click(event)\" role=\"img\" aria-label=\"A lane for each process, from left to right. The panel tells in words what is chosen: j and k choose the next step and the one before.\"><g id=\"names\"></g><g id=\"shapes\" clip-path=\"url(#clip)\"></g></svg>
</main>
<footer>
<canvas id=\"strip\" onpointerdown=\"page.moveWhole(event)\" onpointermove=\"if (event.buttons) page.moveWhole(event)\" role=\"img\" aria-label=\"The whole: how many processes wait, and where they stalled\"></canvas>
<div id=\"window\"></div>
<p id=\"caption\">how many processes wait; orange: deadlocks</p>
</footer>
<dialog id=\"help\">
<form method=\"dialog\"><button>Close</button></form>
<h2>How to read and use this page</h2>
<p>Each lane is a process, and each box on it a step: <b>m1</b> makes port 1, <b>s1:7</b> sends 7 there, <b>r1:7</b> receives it, <b>c1</b> closes the port, and <b>o1</b> opens it again; <b>g2</b> starts process 2 again, whose lane begins anew; <b>def</b> is a default, <b>f5</b> fault 5. A bar is a call that waits, until its knob. An arrow is a value on its way. A shaded field is a deadlock, and the arrows beside it tell who perhaps waits for whom. The calls that it ends return <b>stalled</b>, and their processes may go on after it. The panel spells a step as its journal does: <b>5 recv 1</b> is process 5, which receives from port 1. The strips below show how many values a port holds. Steps on a pale field are not told on this page. Of many steps a lane shows how much its process waited (blue), how much it did (grey), and where it was stalled or refused (orange).</p>
<table>
<tr><td>wheel, <kbd>+</kbd> <kbd>-</kbd> <kbd>0</kbd></td><td>nearer, farther, all</td></tr>
<tr><td>drag, shift and wheel, <kbd>&larr;</kbd> <kbd>&rarr;</kbd> <kbd>Home</kbd> <kbd>End</kbd></td><td>to other steps</td></tr>
<tr><td>click where there are no boxes yet, or on the strip</td><td>come near; go there, and near if all is in view</td></tr>
<tr><td>click a port's name</td><td>go to the step after which it first held the most</td></tr>
<tr><td>click a box, <kbd>j</kbd> <kbd>k</kbd></td><td>choose a step; the next one, the one before</td></tr>
<tr><td><kbd>J</kbd> <kbd>K</kbd></td><td>the next step of the same process, the one before</td></tr>
<tr><td>click a bar, <kbd>w</kbd></td><td>go to the step that ended the wait</td></tr>
<tr><td>click an arrow, <kbd>f</kbd></td><td>follow a value on its way from port to port, with all else paler, or end that: if a process sends the value that it got, before it gets another, it passes that value on</td></tr>
<tr><td><kbd>g</kbd></td><td>go to the value's other end</td></tr>
<tr><td><kbd>/</kbd>, <kbd>Enter</kbd></td><td>find, beginning at the chosen step, or else at the first one in view: P3, port 2, =17 (all equal values), stalled (calls), deadlock (the steps that stalled them), cancelled, timed (out), waited, waited 53 (steps), waited &gt;20, send, step 60, before 60, way 60 (of the value that step 60 moved), or several of them. With first or last: begin there; with before: at the last one found</td></tr>
<tr><td><kbd>n</kbd> or <kbd>Enter</kbd>, <kbd>p</kbd>, <kbd>&lt;</kbd> <kbd>&gt;</kbd></td><td>of what is found the next one, the one before, the first and the last</td></tr>
<tr><td><kbd>Esc</kbd></td><td>end the search, and show the whole: the longest waits, deadlocks, ports, processes</td></tr>
</table>
<p>The address holds what is chosen, found and in view, so it can be kept as a link. Why a step is refused:</p>
<ol id=\"faults\">
<li>no such process</li>
<li>the process has exited</li>
<li>the process still waits in a call</li>
<li>too many cases</li>
<li>no such port</li>
<li>the capacity is too large</li>
<li>too many ports</li>
<li>close of the nil port</li>
<li>close of a closed port</li>
<li>the journal is full</li>
<li>out of memory</li>
<li>that process does not wait</li>
<li value=\"16\">the port is in use</li>
<li>that process has not exited</li>
</ol>
</dialog>
<svg width=\"0\" height=\"0\" aria-hidden=\"true\"><clipPath id=\"clip\"><rect x=\"62\" width=\"99999\" height=\"99999\"/></clipPath><marker id=\"tip\" viewBox=\"0 0 8 8\" refX=\"8\" refY=\"4\" markerUnits=\"userSpaceOnUse\" markerWidth=\"8\" markerHeight=\"8\" orient=\"auto\"><path d=\"M0,0L8,4L0,8z\" fill=\"context-stroke\"/></marker></svg>
<aside id=\"panel\" aria-label=\"What is chosen\">
<p id=\"none\" role=\"status\"></p>
<div id=\"step\" aria-live=\"polite\" hidden>
<h2 id=\"name\"></h2>
<p><code id=\"line\"></code> <span id=\"number\" class=\"dim\"></span></p>
<table>
<tr><th scope=\"row\">answer</th><td id=\"answer\"></td></tr>
<tr><th scope=\"row\">waited</th><td id=\"waited\"></td></tr>
<tr><th scope=\"row\">value</th><td id=\"value\"></td></tr>
<tr><th scope=\"row\">ended</th><td><ul id=\"ended\"></ul></td></tr>
<tr><th scope=\"row\">cases</th><td><ul id=\"cases\"></ul></td></tr>
<tr><th scope=\"row\">process</th><td id=\"process\"></td></tr>
</table>
<div id=\"stall\">
<h3>A deadlock: everyone who is left waits</h3>
<ul id=\"cause\"></ul>
<ul id=\"full\"></ul>
<ul id=\"stalled\"></ul>
<details class=\"dim\"><summary>How it is guessed</summary>Whom a call perhaps waits for is a guess, as the arcs are. If the last who received from a full port took its own value back, as from a lock, a send waits for one whose value the port holds; or else for who last received there, or who last sent. A receive waits for who last sent there, or who last received. Only processes that are stalled too, and do not wait to do the same there, are named.</details>
<h3>Who was there last</h3>
<table class=\"lines\"><thead><tr><td>port</td><td>sent by</td><td>received by</td></tr></thead><tbody id=\"last\"></tbody></table>
</div>
<h3>Before it</h3>
<ul id=\"before\"></ul>
<h3 id=\"way\"></h3>
<ul id=\"moves\"></ul>
<p><a href=\"#\">The whole</a></p>
</div>
<div id=\"whole\">
<h2>The whole</h2>
<p id=\"size\"></p>
<p><span id=\"told\"></span> A value that was sent before them and received behind them has no arrow: its port holds it all along.</p>
<h3 id=\"deadlocks\"></h3>
<ul id=\"stalls\"></ul>
<div id=\"waits\">
<h3>The longest waits</h3>
<table class=\"lines\"><thead><tr><td>steps</td><td>from</td><td>until, ended by</td></tr></thead><tbody id=\"longest\"></tbody></table>
<p id=\"ties\"></p>
</div>
<h3>Shown</h3>
<p id=\"held\"></p>
<p>Never held a value: <span id=\"empty\"></span></p>
<p><select id=\"order\" aria-label=\"their order\"><option>by number<option>by time waited</select>
<select data-process=\"all\" aria-label=\"all shown as\"><option>all<option>open<option>folded<option>hidden<option>on top</select></p>
<template id=\"forms\"><option>open<option>folded<option>hidden<option>on top</template>
<table class=\"lines\"><thead><tr><td></td><td>steps</td><td>waited</td><td>exit</td><td>shown</td></tr></thead><tbody id=\"processes\"></tbody></table>
<h3>The end of the story</h3>
<pre id=\"end\"></pre>
</div>
<div id=\"data\" hidden><!--
";
