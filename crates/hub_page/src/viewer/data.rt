//! `viewer/data.js`, as `tools/embed_viewer.py` writes it.

pub(super) const FIRST: &str =
    "// Reads the data of the page, as README.md defines them. Steps are counted from 0 here, and from 1 in what is shown. One that is not told is null.
const BLOCK = 64, MOST_READ = 300, MOST_OWN = 1000, NEVER = 0xffffffff, STILL_WAITS = { by: Infinity, letter: \"\", number: 0 };
const WORDS = { m: \"make\", s: \"send\", r: \"recv\", \"?\": \"select\", c: \"close\", o: \"reopen\", x: \"cancel\", g: \"start\", e: \"exit\" };
const ENDS = { s: \"sent\", g: \"got\", d: \"drained\", c: \"closed\", D: \"default\", k: \"done\", S: \"stalled\", x: \"cancelled\", m: \"made\", f: \"fault\",
    t: \"timed out\", w: \"woken\" };  // by the clock, or its own
const TABLES = { w: \"waited\", a: \"asked\", t: \"troubles\", o: \"open\", s: \"sent\", g: \"got\", m: \"most\" };  // by letters of sketches
const pairs = (edges, of) => edges.slice(1).map((end, at) => of(edges[at], end, at));
const numbers = (first, end) => Array.from({ length: Math.max(0, end - first) }, (_, at) => first + at);
class Step {
    constructor(journal, place, [, pid, letter, more]) { Object.assign(this, { journal, place, pid: Number(pid), letter, more }); }
    // By which step it ended and how: a letter of ENDS, the number of the case, of the port made or of the fault, and who sent what it got.
    get end() { return this.known ??= this.journal.endOf(this); }
    endsBy(letters) { return this.end.letter !== \"\" && letters.includes(this.end.letter); }
    get isTrouble() { return this.endsBy(\"Sfc\"); }
    get waits() { return this.end.by > this.place; }
    get waited() { return Math.min(this.end.by, this.journal.steps - 1) - this.place; }
    shares(edges) { return pairs(edges, ({ step: from }, { step: to }) => Math.max(0, Math.min(this.end.by, to) - Math.max(this.place, from)) / (to - from)); }
    get lane() { return Math.min(this.pid, this.journal.procs); }  // that of processes that there are not is below all others
    get cases() { return this.letter === \"?\" ? this.more.match(/[rs][^rs!]+/g) ?? [] : \"sr\".includes(this.letter) ? [this.letter + this.more] : []; }
    get shown() {  // the case that fired, or the only one of a call that waits: its side, its port and what it sends
        const { cases } = this, at = this.endsBy(\"sgdc\") ? this.end.number : cases.length === 1 && !this.endsBy(\"Df\") ? 0 : -1;
        const [port, value] = (cases[at] ?? \"\").slice(1).split(\":\");
        return { side: cases[at]?.[0] ?? \"\", port: Number(port), value };
    }
    get sender() { return this.endsBy(\"s\") ? this : this.endsBy(\"g\") ? this.journal.step(this.end.sender) : null; }
    get receiver() { return this.endsBy(\"g\") ? this : this.endsBy(\"s\") ? this.journal.receiverOf(this) : null; }
    get partner() { return this.endsBy(\"g\") ? this.sender : this.receiver; }
    get value() { return this.sender?.shown.value ?? null; }  // as the journal spells it
    get line() {
        if (this.letter !== \"?\") return [this.pid, WORDS[this.letter], ...this.more.split(\":\")].join(\" \").trim();
        return [this.pid, \"select\", /^\\d+/.exec(this.more), ...this.cases].join(\" \") + (this.more.endsWith(\"!\") ? \" default\" : \"\");
    }
    get answer() {
        const { letter, number } = this.end, why = letter === \"f\" && `${number}: ${byId(\"faults\").children[number - (number > 12 ? 4 : 1)].textContent}`;
        return [ENDS[letter] ?? \"waits to the end\", { g: readable(this.value) ?? \"a value\", m: number, f: why }[letter]].join(\" \").trim();
    }
    get title() { return `step ${this.place + 1}: ${this.line}\\n${this.answer}${this.waits ? \", waited \" + counted(this.waited, \"step\") : \"\"}`; }
    get port() { return { f: 0, m: this.end.number }[this.end.letter] ?? (\"co\".includes(this.letter) ? parseInt(this.more) : this.shown.port); }
    get offers() { return this.cases.map((text) => text.split(\":\")[0]); }  // its cases without what they send
    get ports() { return \"co\".includes(this.letter) ? [parseInt(this.more)] : [this.port, ...this.offers.map((offer) => Number(offer.slice(1)))]; }
    get label() {  // A short name, as on the boxes of a picture
        const { end: { letter, number }, shown: { side, port } } = this, ended = { f: `f${number}`, m: `m${number}`, D: \"def\" }[letter];
        return ended ?? (side ? side + port : { \"?\": \"?\", e: \"exit\" }[this.letter] ?? this.letter + parseInt(this.more));
    }
}
function readBlock(journal, at) {  // steps, ends by them in their order, levels, and stalls
    const block = { steps: [], ends: new Map(), levels: [], stalls: {} }, stall = (place) => block.stalls[place] ??= { place, calls: [], last: [] };
    for (const [row, line] of journal.text.slice(...journal.bounds[at]).split(\"\\n\").entries()) {
        const [first, ...items] = line.split(\";\"), place = at * BLOCK + row, entry = /(\\d+)(.)(.*)/.exec(first);
        block.steps.push(entry && new Step(journal, place, entry));
        for (const [, one, sign, two, three, gone] of items.map((item) => /(\\d+)(.)(\\d*).?(\\d*)(!?)/.exec(item))) {
            if (sign === \":\") block.levels.push({ port: Number(one), from: place, count: Number(two) });
            else if (sign === \">\") stall(place).last.at(-1).other = Number(two);
            else if (sign === \"L\") stall(place).last.push({ port: Number(one), movers: [two, three].map((back) => (back ? place - back : -1)), gone });
            else block.ends.set(place - one, { by: place, letter: sign, number: Number(two), sender: place - three });
            if (sign === \"S\") stall(place).calls.push(place - one);
        }
    }
    return block;
}
class Journal {
    constructor(text) {
        const head = /(\\d)\\nprocs (\\d+)\\nsteps (\\d+) (\\d+)(?: clock (\\d+))?/.exec(text);
        const [edition, procs, from, to, clock] = head.slice(1).map(Number);
        const lanes = procs + 1, bounds = [], next = (at) => text.indexOf(\"\\n\", at) + 1;
        for (let at = next(next(next(0))), sketch; (sketch = text.indexOf(\"~\", at)) > 0; at = next(sketch)) bounds.push([at, sketch - 1]);
        const steps = bounds.length && (bounds.length - 1) * BLOCK + text.slice(...bounds.at(-1)).split(\"\\n\").length;
        const first = from - 1 - (from - 1) % BLOCK, end = Math.min(steps, Math.ceil(to / BLOCK) * BLOCK);  // whole blocks are told
        Object.assign(this, { text, procs, clock, lanes, from, to, first, end, bounds, steps, blocks: bounds.length, read: new Map() });
        const makes = this.placesOf(\";0m\"), last = this.blocks * lanes, gone = this.placesOf(\"e;0k\");
        const [starts, reopens] = [/^\\d+g\\d+;0k/m, /^\\d+o[\\d:]+;0k/m].map((line) => (edition > 2 ? this.placesOf(line) : []));
        this.readSketches(makes.length + 1);
        const opened = makes.map((place) => [{ place, room: Number(this.step(place).more) }]);  // by port: when it was, and with how much room
        for (const { place, port, more } of reopens.map((at) => this.step(at))) opened[port - 1].push({ place, room: Number(more.split(\":\")[1]) });
        const most = (port) => this.mosts(port, [{ at: 0 }, { step: steps }])[0];
        const rooms = opened.map((own, at) => most(at + 1) && Math.max(...own.map(({ room }) => room)));  // 0 if it held none
        const asks = [...this.asked.subarray(last)].filter((count, lane) => lane < procs || count > 0);  // behind them processes that there are not
        const lives = numbers(0, lanes).map(() => [{ begun: null, exited: null }]);  // by process, from the opening or a start on
        for (const { place, lane, letter, more } of [...gone, ...starts].sort((one, other) => one - other).map((at) => this.step(at)))
            if (letter === \"e\") lives[lane].at(-1).exited = place; else lives[more].push({ begun: place, exited: null });
        const waits = asks.map((_, lane) => this.waited[last + lane] - (this.open[last + lane] !== NEVER));
        const stalls = this.placesOf(\"S\").filter((at) => this.stallAt(at).calls[0] >= 0);
        Object.assign(this, { ports: makes.length, stalls, opened, rooms, asks, waits, lives });
    }
    placesOf(letters) {  // the steps in whose lines these letters stand, or that are such lines
        const has = (text) => letters.test?.(text) ?? text.includes(letters), placeOf = (line, at) => (has(line) ? at : []);
        const linesOf = (text) => (has(text) ? text.split(\"\\n\") : []);
        return this.bounds.flatMap((bounds, block) => linesOf(this.text.slice(...bounds)).flatMap(placeOf).map((at) => block * BLOCK + at));
    }
    readSketches(width) {  // a row tells what was before a block, and the most that ports held in the block before
        const { text, bounds, lanes } = this, widths = { waited: lanes, asked: lanes, troubles: lanes, open: lanes, sent: width, got: width, most: width };
        for (const [name, width] of Object.entries(widths)) this[name] = new Uint32Array((bounds.length + 1) * width);
        Object.assign(this, { width }).open.fill(NEVER);
        for (const [block, [, behind]] of bounds.entries()) this.readSketch(block, text.slice(behind + 2, text.indexOf(\"\\n\", behind + 1)));
";

pub(super) const SECOND: &str =
    "        for (const [sums, width] of [\"waited\", \"asked\", \"troubles\", \"sent\", \"got\"].map((name) => [this[name], widths[name]]))
            for (let at = width; at < sums.length; at++) sums[at] += sums[at - width];
        for (let at = width; at < this.most.length; at++) this.most[at] = Math.max(this.most[at], this.sent[at - width] - this.got[at - width]);
    }
    readSketch(block, sketch) {  // A sketch is letters with numbers; what follows a process or a port is of it
        for (let at = 0, row = 0, letter, number, digit; at < sketch.length;) {
            for (letter = sketch[at++], number = 0; (digit = sketch.charCodeAt(at) - 48) <= 9; at++) number = number * 10 + digit;
            if (letter === \"P\" || letter === \"p\") row = (block + 1) * (letter === \"P\" ? this.lanes : this.width) + number;
            else this[TABLES[letter]][row] = letter === \"o\" ? this.endOfBlock(block) - number : number;
        }
    }
    blockAt(place) { return Math.floor(place / BLOCK); }
    endOfBlock(at) { return Math.min(this.steps, (at + 1) * BLOCK); }
    block(at) {
        if (this.read.size > MOST_READ) this.read.clear();
        return this.read.get(at) ?? this.read.set(at, readBlock(this, at)).get(at);
    }
    step(place) { return place >= 0 && place < this.steps ? this.block(this.blockAt(place)).steps[place % BLOCK] : undefined; }
    stepsOf(first, end) { return numbers(first, end).map((place) => this.step(place)); }
    endOf({ place, lane, pid }, at = this.blockAt(place)) {
        while (at < this.blocks && this.open[(at + 1) * this.lanes + lane] === place) at++;
        const end = at === this.blocks ? STILL_WAITS : this.block(at).ends.get(place), ofClock = pid === this.clock && { x: \"w\", S: \"w\" }[end.letter];
        return { ...end, letter: ofClock || (end.letter === \"x\" && this.step(end.by)?.pid === this.clock ? \"t\" : end.letter) };
    }
    receiverOf({ place, end, shown: { port } }) {  // it is told where no more values were received before than had been sent
        const { sent, got, width } = this, begin = this.blockAt(end.by), most = sent[(begin + 1) * width + port];
        const receiverIn = (at) => [...this.block(at).ends].find(([, { letter, sender }]) => letter === \"g\" && sender === place);
        for (let at = begin, row = at * width + port, found; at < this.blocks && got[row] < most; at++, row += width)
            if (got[row + width] > got[row] && (found = receiverIn(at))) return this.step(found[0]);
        return null;
    }
    goingOn(first, end) {  // the steps that were asked before the second one and went on until the first one at least
        const at = this.blockAt(first), waiting = this.open.subarray(at * this.lanes, (at + 1) * this.lanes);
        return [...waiting, ...numbers(at * BLOCK, end)].map((place) => this.step(place)).filter((step) => step?.end.by >= first);
    }
    endsOf(first, end) { return this.goingOn(first, end).filter((step) => step.end.by < end); }
    stallAt(place, stall = this.block(this.blockAt(place)).stalls[place]) {  // the clock waits for nobody, so its call is left out
        return stall && { ...stall, all: stall.calls, calls: stall.calls.filter((call) => this.step(call)?.pid !== this.clock) };
    }
    stallsOf(first, end) { return this.stalls.filter((place) => place >= first && place < end).map((place) => this.stallAt(place)); }
    roomAt(place, port) { return this.opened[port - 1].findLast((one) => one.place <= place)?.room; }
    nameOf(lane) { return lane === this.clock ? \"clock\" : lane < this.procs ? `P${lane}` : \"unknown\"; }
    isIn(place) { return place >= this.first && place < this.end; }
    get told() { return this.end - this.first < this.steps ? \", as far as it is told\" : \"\"; }  // what is said of all steps
    levelBefore(place, port, at = Math.min(this.blockAt(place), this.blocks - 1), row = at * this.width + port) {  // a step of the window, or its end
        return this.block(at).levels.findLast((one) => one.port === port && one.from < place)?.count ?? this.sent[row] - this.got[row];
    }
    *blocksWith(table, width, column, at, direction, least = 0) {  // in which a number grows, from one on (1) or back (-1)
        for (; at >= least && at < this.blocks; at += direction)
            if (table[(at + 1) * width + column] > table[at * width + column]) yield at;
    }
    heldAt(place, port) {  // how many values a port holds after a step of the window, and the steps that sent them in it, oldest first
        const isOwn = ([, { by, letter }]) => letter === \"s\" && by <= place && by >= this.first, count = this.levelBefore(place + 1, port) || 0;
        const sends = this.blocksWith(this.sent, this.width, port, this.blockAt(place), -1, this.blockAt(this.first))
            .flatMap((at) => [...this.block(at).ends].filter(isOwn).reverse()).map(([call]) => this.step(call)).filter((step) => step.port === port);
        return { count, held: [...sends.take(count)].reverse() };
    }
    casesOf({ place, all, last }) {  // a guess: a port of which one took its own value back last is a lock, and its value's sender has it
        if (!this.isIn(place)) return last;
        const steps = all.map((call) => this.step(call)), cases = steps.flatMap((step) => step.offers.map((offer) => ({ step, offer })));
        return cases.map(({ step, offer }, at) => {
            const { port, movers: [, taker], other } = last[at], { sender, pid } = this.step(taker) ?? {};
            const own = offer[0] === \"s\" ? this.heldAt(place, port) : { count: 0, held: [] }, isKnown = sender || !(taker >= 0) || offer[0] === \"r\";
            const isOwner = (send) => sender && sender.pid === pid && steps.some((one) => one.pid === send.pid && !one.offers.includes(offer));
            return { ...last[at], ...own, step, offer, other: isKnown ? own.held.find(isOwner)?.pid ?? other : -1 };
        });
    }
    mosts(port, edges, { most, width } = this) {  // how many values a port held at most in the blocks between two edges
        return pairs(edges, ({ at }, { step }, _, highest = 0) => {
            for (let row = (at + 1) * width + port; at * BLOCK < step; at++, row += width) if (most[row] > highest) highest = most[row];
            return highest;
        });
    }
    stepsOfProcess({ place, pid, lane }, way) {  // behind a step (1) or before it (-1), the nearest first; null for each that is not told
        const rows = (at) => numbers(at * BLOCK, this.endOfBlock(at)).filter((at) => (at - place) * way > 0);
        return this.blocksWith(this.asked, this.lanes, lane, this.blockAt(place), way)
            .flatMap((at) => (way > 0 ? rows(at) : rows(at).reverse())).map((at) => this.step(at)).filter((step) => !step || step.pid === pid);
    }
    *wayOf(sender) {  // who sends what it got, before it gets another, passes it on
        const near = (step, direction) => this.stepsOfProcess(step, direction).take(MOST_OWN), { value } = sender;
        for (let got = sender; got?.value === value; yield [])
            [sender, got] = [got.sender, near(got.sender, -1).find((step) => !step || step.endsBy(\"g\"))];
        const sends = [sender];
        for (const send of sends) {
            yield [send, send.receiver].filter(Boolean);
            for (const step of send.receiver ? near(send.receiver, 1) : []) {
                if (!step || step.endsBy(\"g\")) break;
                if (step.value === value) sends.push(step);
            }
        }
    }
    *allSteps() { for (const at of numbers(0, this.blocks)) yield this.block(at).steps.filter(Boolean); }
    within(any, step = Math.min(any, this.steps), at = Math.min(this.blocks - 1, this.blockAt(step))) {  // its block, and what part of that is before it
        return { step, at, part: (step - at * BLOCK) / (this.endOfBlock(at) - at * BLOCK) };
    }
    shares(table, lane, edges, { lanes } = this) {  // in how many of the steps between two edges a process waited or asked, by the tables
        const sum = ({ at, part }, row = at * lanes + lane) => table[row] + (table[row + lanes] - table[row]) * part;
        return pairs(edges, (first, end) => (sum(end) - sum(first)) / (end.step - first.step));
    }
}
const UTF_8 = new TextDecoder(\"utf-8\", { ignoreBOM: true }), counted = (count, word) => `${count} ${word}${count === 1 ? \"\" : \"s\"}`;
function readable(value) {  // bytes as text where they are UTF-8 without control characters; else as they are spelled
    if (!value?.startsWith(\"#\")) return value;
    const bytes = (value.match(/[^#]./g) ?? []).map((two) => parseInt(two, 16)), text = UTF_8.decode(Uint8Array.from(bytes));
    return /[\\p{C}\\p{Zl}\\p{Zp}\\ufffd]/u.test(text) ? value : `\\u201c${text}\\u201d`;
}
";
