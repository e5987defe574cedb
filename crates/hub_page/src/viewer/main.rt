//! `viewer/main.js`, as `tools/embed_viewer.py` writes it.

pub(super) const TEXT: &str =
    "// The page: what is chosen, and what search, links, wheel, mouse and keys do.
const byId = (id) => document.getElementById(id), ENDMOST = [\"first\", \"last\"], KNOWN = `Find knows words as ${byId(\"find\").placeholder}; Help has all.`;
class Page {
    constructor(journal, story, view = new View(journal, () => this.draw())) {
        const ownStep = (direction) => this.chosen && journal.stepsOfProcess(this.chosen, direction).next().value?.place;
        tellWhole(journal, story);
        Object.assign(this, { journal, story, view, painter: new Painter(this, view, journal), words: \"\", found: [], marks: new Set(), dragged: 0 });
        this.keys = {
            ArrowLeft: () => view.pan(-view.steps / 8), ArrowRight: () => view.pan(view.steps / 8), 0: () => view.show(0, journal.steps),
            Home: () => view.show(0, view.steps), End: () => view.show(journal.steps, view.steps), Escape: () => [this.endFind(), this.choose(null)],
            \"+\": () => view.zoom(0.7), \"-\": () => view.zoom(1 / 0.7), J: () => this.choose(ownStep(1)), K: () => this.choose(ownStep(-1)),
            j: () => this.choose(this.chosen ? this.chosen.place + 1 : Math.ceil(view.first)), g: () => this.choose(this.chosen?.partner?.place),
            k: () => this.choose((this.chosen?.place ?? Math.floor(view.first + view.steps)) - 1), w: () => this.choose(this.chosen?.end.by),
            f: () => (!this.chosen?.value || this.isFollowing && this.words[0] !== \"=\" ? this.endFind() : location.assign(`#${wayLink(this.chosen)}`)),
            \"/\": () => [byId(\"find\").focus(), byId(\"find\").select()], \"?\": () => byId(\"help\").showModal(), Enter: () => this.goFound(1),
            n: () => this.goFound(1), p: () => this.goFound(-1), \"<\": () => this.goFound(0, null), \">\": () => this.goFound(-1, null),
        };
        document.title = byId(\"journal\").textContent = location.pathname.split(\"/\").pop().replace(/\\.html$/, \"\").replace(/%../g, \"_\");
        new ResizeObserver(() => this.layOut()).observe(byId(\"scroll\"));
        this.layOut();
        this.readLink(journal);
    }
    layOut() {
        Object.assign(this.view, { width: byId(\"scroll\").clientWidth, height: byId(\"scroll\").clientHeight - 4 });
        this.painter.paintWhole(byId(\"strip\"), this.found);
        this.draw();
    }
    draw() {
        this.frame ||= requestAnimationFrame(() => this.paint());
        clearTimeout(this.writing);
        this.writing = setTimeout(() => this.writeLink(), 200);
    }
    paint() {
        this.frame = cancelAnimationFrame(this.frame);
        this.painter.paint(byId(\"lanes\"), byId(\"far\"), byId(\"axis\"));
    }
    choose(place) {  // chooses the step at a place if it is told, or none
        const step = this.journal.step(place ?? NaN);
        byId(\"none\").textContent = step || place === null ? \"\" : step === null ? `Step ${place + 1} is not told.` : \"No such step is told.\";
        if (!step && place !== null) return;
        if ((this.chosen = step)) [this.view.reveal(place), tellStep(step, this)];
        [byId(\"step\").hidden, byId(\"whole\").hidden] = [!this.chosen, !!this.chosen];
        this.draw();
    }
    changeSetting({ target: { id, dataset: { process, port }, value, checked } }) {
        const { lanes, ports } = this.view, { waits } = this.journal, byWaits = (one, other) => waits[other.pid] - waits[one.pid];
        if (port) ports[checked ? \"add\" : \"delete\"](Number(port));
        if (id === \"order\") lanes.sort((one, other) => (value === \"by number\" ? 0 : byWaits(one, other)) || one.pid - other.pid);
        byId(\"processes\").append(...lanes.map(({ pid }) => document.querySelector(`tr:has([data-process=\"${pid}\"])`)));
        for (const lane of lanes) if (process === \"all\" || lane.pid === Number(process)) lane.form = value;
        this.layOut();
    }
    async find(words) {  // search, list by list, so that the page stays awake: all steps, or those of the way of a value
        const { journal } = this, [, way] = /^way (\\d+)$/i.exec(words) ?? [], start = journal.step(way - 1)?.sender, found = [];
        const parts = way ? [] : words.match(/(port|step|before|waited) >?\\d+|\\S+/gi) ?? [], isAt = (end) => parts.some((part) => end.test(part));
        const tests = parts.filter((part) => !ENDMOST.includes(part)).map((part) => testOf(part));
        let told = performance.now();
        Object.assign(this, { words, found, marks: new Set() });
        for (const steps of start?.value ? journal.wayOf(start) : words && !way ? journal.allSteps() : []) {
            for (const step of steps) if (tests.every((test) => test(step))) found.push(step.place);
            if (performance.now() - told < 15) continue;
            byId(\"count\").textContent = `${found.length}, searching`;
            await new Promise(requestAnimationFrame);
            if (this.found !== found) return;
            told = performance.now();
        }
        this.marks = new Set(found);
        this.goFound(isAt(/^(last$|before )/i) ? -1 : 0, isAt(/^(first$|last$|before )/i) ? null : this.chosen ?? { place: Math.ceil(this.view.first) });
        this.layOut();
    }
    goFound(direction, from = this.chosen) {
        const { found, words } = this, own = found.indexOf(from?.place), behind = found.findIndex((place) => place > (from?.place ?? -1));
        const next = own < 0 ? (behind < 0 ? found.length : behind) - (direction < 0) : own + direction, at = (next + found.length) % found.length;
        const begin = from?.place > 0 && direction === 0 ? `, ${own < 0 && behind < 0 ? \"none \" : \"\"}from step ${from.place + 1} on` : \"\";
        byId(\"count\").textContent = found.length ? `${at + 1} of ${found.length}${begin}` : words && \"none\";
        if (found.length || this.chosen) this.choose(found[at] ?? this.chosen.place);
        const nothing = (words[0] === \"=\" ? `No value ${words.slice(1)} moved` : `Nothing is found by ${words}`) + this.journal.told;
        byId(\"none\").textContent = words && !found.length ? `${nothing}. ${KNOWN}${this.chosen ? \" What was chosen stays:\" : \"\"}` : \"\";
    }
    endFind() { this.find(byId(\"find\").value = \"\"); }
    get isFollowing() { return /^(=|way \\d+$)/i.test(this.words) && this.marks.has(this.chosen?.place); }  // the chosen step's value
    writeLink({ view: { first, steps }, words: find, chosen } = this) {  // links: #step=60&find=P3&from=1&to=100
        const parts = { from: Math.round(first) + 1, to: Math.round(first + steps) };
        history.replaceState(null, \"\", `#${new URLSearchParams(Object.assign(parts, find && { find }, chosen && { step: chosen.place + 1 }))}`);
    }
    readLink(opening) {
        const link = Object.fromEntries(new URLSearchParams(location.hash.slice(1))), { step, find, from, to } = { ...(link.step ? {} : opening), ...link };
        const go = () => [this.choose(step ? step - 1 : null), Number(from) <= Number(to) && this.view.show(from - 1, to - from + 1)];
        go();
        if (find && find !== this.words) this.find(byId(\"find\").value = find).then(() => step && go());
    }
    drag({ movementX, movementY }) {
        this.dragged += Math.abs(movementX) + Math.abs(movementY);
        this.view.pan(-movementX / this.view.dots);
        byId(\"scroll\").scrollTop -= movementY;
    }
    click({ target: { dataset: { link, strip } }, offsetX }) {
        if (link) location.hash = link;
        else if (strip) this.choose(new RegExp(`^port ${strip} .* most \\\\d+ at step (\\\\d+)`, \"m\").exec(this.story)?.[1] - 1);
        else if (this.view.steps > MOST_NEAR && offsetX >= LEFT) this.view.reveal(this.view.stepAt(offsetX));
    }
    wheel({ shiftKey, deltaX, deltaY, offsetX }) {
        if (shiftKey || Math.abs(deltaX) > Math.abs(deltaY)) this.view.pan((deltaX + deltaY) / this.view.dots);
        else this.view.zoom(Math.exp(deltaY * 0.0018), offsetX);
    }
    moveWhole({ offsetX }, steps = this.view.steps < this.journal.steps ? this.view.steps : this.view.width / CLOSE) {
        this.view.show(offsetX / byId(\"strip\").clientWidth * this.journal.steps - steps / 2, steps);
    }
    leaveFind(words) {  // what was typed is looked for when the cursor leaves the field, as it does by Enter
        if (words === this.words) this.goFound(1);
        byId(\"scroll\").focus();
    }
    key(event) {
        const { key, target } = event, isOwn = target.matches(key === \"Enter\" ? \"select, input, a, button\" : \"select, input\");
        if (isOwn || event.ctrlKey || event.metaKey || event.altKey || byId(\"help\").open || !(key in this.keys)) return;
        event.preventDefault();
        this.keys[key]();
    }
}
var page = new Page(new Journal(byId(\"data\").firstChild.data.trimStart()), byId(\"story\").textContent.replace(/^\\n.*\\n/, \"\"));
document.body.inert = false;
";
