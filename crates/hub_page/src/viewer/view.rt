//! `viewer/view.js`, as `tools/embed_viewer.py` writes it.

pub(super) const TEXT: &str =
    "// What is in view: a window of steps, lanes of processes, strips of ports, and what stands there; and what words mean that are looked for.
const LEFT = 64, RIGHT = 44, AXIS = 26, STRIP = 24, FULL = 16, FOLDED = 8, LEAST_LANE = 16, MOST_LANE = 40, NEAREST = 90, CLOSE = 18;  // dots
const MOST_NEAR = 500, MOST_SHAPES = 6000;  // so many steps have arrows, and tell what they are; so many are drawn one by one
class View {
    constructor(journal, changed) {  // at the left edge is the step first, with a fraction; ports have a strip if they held a value
        Object.assign(this, { journal, changed, width: 100, height: 100, first: 0, steps: Math.max(1, journal.steps) });
        this.ports = new Set(numbers(1, journal.ports + 1).filter((port) => journal.rooms[port - 1]));
        this.lanes = journal.waits.map((_, pid) => ({ pid, form: \"open\" }));
    }
    get dots() { return (this.width - LEFT - RIGHT) / this.steps; }
    get boxWidth() { return Math.min(66, Math.max(1, this.dots * 0.9)); }
    x(step) { return LEFT + (step + 0.5 - this.first) * this.dots; }
    stepAt(x) { return Math.floor(this.first + (x - LEFT) / this.dots); }
    range() { return [Math.floor(this.first), Math.min(this.journal.steps, Math.ceil(this.first + (this.width - LEFT) / this.dots))]; }  // to the edge
    isShown(...steps) { return steps.every((step) => this.place.has(step.lane)); }
    strips() { return [...this.ports].sort((one, other) => one - other); }
    floor(row) { return this.stripTop + (row + 1) * STRIP - 4; }
    arrange() {
        const onTop = (lane) => lane.form === \"on top\", isFolded = (lane) => lane.form === \"folded\";
        const shown = this.lanes.filter(({ form }) => form !== \"hidden\").sort((one, other) => onTop(other) - onTop(one));
        const folded = shown.filter(isFolded).length, strips = this.strips().length, room = this.height - AXIS - folded * FOLDED - strips * STRIP - 18;
        const size = Math.min(MOST_LANE, Math.max(LEAST_LANE, Math.floor(room / Math.max(1, shown.length - folded))));
        Object.assign(this, { stripTop: AXIS + 10, place: new Map() });
        for (const lane of shown) {
            const height = isFolded(lane) ? FOLDED : size;
            this.place.set(lane.pid, { y: this.stripTop + height / 2 - 6, height, size: Math.max(4, Math.min(20, height - 6)) });
            this.stripTop += height;
        }
        this.bottom = Math.max(this.height, this.stripTop + strips * STRIP + 8);
    }
    show(first, steps, count = Math.max(1, this.journal.steps)) {
        this.steps = Math.min(count, Math.max((this.width - LEFT) / NEAREST, steps));
        this.first = Math.min(count - this.steps, Math.max(0, first));
        this.changed();
    }
    pan(steps) { this.show(this.first + steps, this.steps); }
    zoom(factor, x = (LEFT + this.width) / 2) {
        const share = (x - LEFT) / this.dots / this.steps, step = this.first + share * this.steps;
        this.show(0, this.steps * factor);
        this.show(step - share * this.steps, this.steps);
    }
    reveal(step, steps = this.steps > MOST_NEAR ? this.width / CLOSE : this.steps) {  // brings it into view, so near that boxes have letters
        if (this.steps > MOST_NEAR || Math.abs(step - this.first - steps / 2) > steps * 0.42) this.show(step + 0.5 - steps / 2, steps);
    }
    boxes() { return this.journal.stepsOf(...this.range()).filter((step) => step && this.isShown(step)); }
    bars() { return this.journal.goingOn(...this.range()).filter((call) => call.waits && this.isShown(call)); }
    arrows() {  // the receivers of the values of which at least one end is in view
        const receivers = new Map(this.journal.endsOf(...this.range()).map(({ receiver }) => [receiver?.place, receiver]));
        return [...receivers.values()].filter((to) => to?.sender?.end.by >= 0 && this.isShown(to, to.sender));
    }
    levels() {  // what ports hold as far as it can be seen, and is told: each count from one step until another
        const [first, last] = this.range(), end = Math.min(this.journal.end, last + 1), start = Math.max(first, Math.min(this.journal.first, end));
        const told = new Map(this.strips().map((port) => [port, [{ port, from: start - 1, count: this.journal.levelBefore(start, port) }]]));
        for (const level of numbers(this.journal.blockAt(start), Math.ceil(end / BLOCK)).flatMap((at) => this.journal.block(at).levels))
            if (level.from >= start && level.from < end && level.count !== told.get(level.port)?.at(-1).count) told.get(level.port)?.push(level);
        const levels = [...told.values()].flatMap((own, row) => own.map((level, at) => ({ ...level, row, until: own[at + 1]?.from ?? end })));
        return levels.filter((level) => level.count !== 0 && level.until >= first && level.from < Math.min(last, end));
    }
}
function testOf(word) {  // of what is typed in Find: whether a step is meant
    const [, kind, digits, name = kind?.trim()] = /^(?:(P|step |before |waited >?|port )(\\d+)|(deadlock)s?)$/i.exec(word) ?? [];
    const number = Number(digits), text = word.slice(1), end = Object.keys(ENDS).find((letter) => ENDS[letter] === word);
    if (word[0] === \"=\") return ({ value }) => value === text || value?.[0] === \"#\" && readable(value) === `\\u201c${text}\\u201d`;
    const numbered = { p: ({ pid }) => pid === number, step: ({ place }) => place === number - 1, before: ({ place }) => place < number - 1,
        port: ({ ports }) => ports.includes(number), deadlock: ({ journal, place }) => journal.stallAt(place)?.calls[0] >= 0,
        waited: (step) => step.waits && step.waited === number, \"waited >\": (step) => step.waits && step.waited > number };
    return numbered[name?.toLowerCase()] ?? (end ? (step) => step.end.letter === end : (step) => step.title.includes(word));
}
";
