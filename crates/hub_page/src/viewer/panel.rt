//! `viewer/panel.js`, as `tools/embed_viewer.py` writes it.

pub(super) const TEXT: &str =
    "// Tells of a step, or of the whole, in words: puts them where body.html has room for them. What stays empty is not shown.
const items = (texts) => texts.map((text) => html`<li>${text}</li>`), GONE = \"; all who received there have left\";
const rowsOf = (rows) => rows.map((row) => html`<tr>${row.map((cell) => html`<td>${cell}</td>`)}</tr>`);
const stepLink = (place) => `step=${place + 1}`, wayLink = ({ place }) => `${stepLink(place)}&find=way ${place + 1}`;
const link = (place, words = `step ${place + 1}`, to = stepLink(place)) => html`<a href=\"#${to}\">${words}</a>`;
const when = (step) => html`${who(step)}${step.waits && html`, waiting until ${link(step.end.by, step.end.by + 1)}`}`;
const lay = ({ sender, receiver }) => (receiver.end.by > sender.end.by ? `; ${counted(receiver.end.by - sender.end.by, \"step\")} in the port` : \"\");
const ender = (step) => (step.endsBy(\"S\") ? html`the deadlock at ${link(step.end.by)}` : whoAt(step.end.by, step.journal.step(step.end.by)));
const who = (step) => html`P${step.pid}, ${link(step.place)}`, isIn = ({ journal, place }) => journal.isIn(place);
const whoAt = (place, step) => (step ? who(step) : place >= 0 ? `step ${place + 1} (not told)` : place < 0 ? \"nobody\" : \"not told\");
const kept = (step, where) => (step.endsBy(\"g\") ? `from ${whoAt(step.end.sender)}` : isIn(step) ? `stays ${where}` : \"who got it is not told\");
const called = (step, number, answer = step.answer) => html`${number} <code>${step.line}</code> <span class=\"dim\">${answer}</span>`;
const caseText = (text) => text.replace(/^s(\\d+):(.*)/, (_, port, value) => `send ${readable(value)} on port ${port}`).replace(/^r/, \"receive from port \");
function tellStep(step, page) {
    const { place, end, cases, partner, value } = step, { journal } = page, fired = step.endsBy(\"sgdc\") ? end.number : -1;
    const ended = journal.endsOf(place, place + 1).filter((call) => call.place < place && !call.endsBy(\"S\"));
    const moved = partner ? html`${step.endsBy(\"g\") ? \"from\" : \"to\"} ${when(partner)}${lay(step)}` : kept(step, `in port ${step.port}`);
    const at = (way) => journal.stepsOfProcess(step, way).next().value, told = (own) => (own ? link(own.place) : own === null ? \"not told\" : \"none\");
    const short = (one) => called(one, link(one.place, one.place + 1), one.end.by >= place ? \"waits\" : one.answer);  // told by then
    put({
        name: `Step ${place + 1} of P${step.pid}`, line: step.line, number: `line ${place + 3} of the journal`,
        answer: html`<b class=\"${step.isTrouble ? \"trouble\" : \"\"}\">${step.answer}</b>`,
        waited: step.waits && html`${counted(step.waited, \"step\")}${end.letter && html`; ended by ${ender(step)}`}`,
        value: step.endsBy(\"sg\") && html`<b>${readable(value) ?? \"not told\"}</b> ${moved}${value && html`<br>${link(place, \"Follow it\", wayLink(step))}`}`,
        cases: items((cases.length > 1 ? cases : []).map((text, at) => html`<span class=\"${at === fired ? \"fired\" : \"\"}\">${caseText(text)}</span>`)),
        ended: items(ended.map((call) => html`the wait of ${who(call)}`)), process: html`P${step.pid}: ${told(at(-1))} before, ${told(at(1))} after`,
        before: items(numbers(Math.max(0, place - 6), place).map((at) => (journal.step(at) ? short(journal.step(at)) : `${at + 1} not told`))),
        ...movesText(place, page), ...stallText(journal.stallAt(place) ?? { calls: [], last: [] }, journal),
    });
}
function movesText(place, { journal, found, words, isFollowing }) {  // those found near a step, each from its sender on
    const at = found.indexOf(place), isOwn = (send) => [send, send.receiver].some((one) => one?.place === place);
    const near = isFollowing ? found.slice(Math.max(0, at - 20), at + 21).map((one) => journal.step(one)) : [];
    const sends = [...new Set(near.map((one) => one.sender.place))].map((one) => journal.step(one));
    const end = (send) => (send.receiver ? html`got by ${when(send.receiver)}${lay(send)}` : kept(send, \"there\")), isWay = words[0] !== \"=\";
    const way = `${isWay ? \"The way\" : \"Moves\"} of ${readable(near[0]?.value)}: ${near.length} of ${counted(found.length, \"step\")}${journal.told}`;
    return { way, moves: items(sends.map((one) => html`<span class=\"${isOwn(one) && \"fired\"}\">port ${one.port}: sent by ${when(one)}, ${end(one)}</span>`)) };
}
function stallText(stall, journal) {  // a cause, what full ports hold, who waits, with guesses for whom, and who was there last
    const cases = journal.casesOf(stall), calls = stall.calls.map((call) => journal.step(call)), mover = (place) => whoAt(place, journal.step(place));
    const absent = cases.filter(({ port, offer, movers }) => port > 0 && offer && !(movers[offer[0] === \"s\" ? 1 : 0] >= 0));
    const nobody = absent.map(({ port, offer }) => `Before it nobody ${offer[0] === \"s\" ? \"received from\" : \"sent on\"} port ${port}.`);
    const isMutual = ({ step, other }) => step?.pid < other && cases.some((one) => one.step.pid === other && one.other === step.pid);
    const mutual = cases.filter(isMutual).map(({ step, other }) => `P${step.pid} and P${other} perhaps wait for each other.`);
    const sent = (send, at) => html`${at > 0 ? \"; \" : \": \"}${readable(send.value)}, sent by P${send.pid} at ${link(send.place)}`;
    const holds = ({ port, count, held }) => html`port ${port} holds ${counted(count, \"value\")}${held.slice(0, 4).map(sent)}${held[4] && \"; ..\"}`;
    const whom = (call) => cases.filter(({ step, other }) => step === call && other >= 0).map(({ other }) => `; perhaps for P${other}`);
    const left = cases.filter((one) => one.gone), byPort = (of) => [...new Map([...cases, ...left].filter(of).map((one) => [one.port, one])).values()];
    const last = byPort(({ port }) => port > 0).map(({ port, movers: [sent, got], gone }) => [port, mover(sent), html`${mover(got)}${gone && GONE}`]);
    const waits = (step, at) => html`${whoAt(stall.calls[at], step)} waits${step && ` to ${step.cases.map(caseText).join(\" or to \")}`}${whom(step)}`;
    const rest = calls.length === 1 && journal.procs > 1 ? [\"All others have exited.\"] : [], cause = items([...new Set(nobody.concat(mutual, rest))]);
    return { cause, full: items(byPort(({ count }) => count > 0).map(holds)), stalled: items(calls.map(waits)), last: rowsOf(last) };
}
function tellWhole(journal, story) {  // of deadlocks the first and the last four
    const { steps, first, end, from, to, procs, stalls, rooms, asks, waits, lives } = journal, left = stalls.length - 5;
    const names = (steps) => [...steps.filter(Boolean).map(({ pid }) => \"P\" + pid), `${steps.filter((one) => !one).length} not told`].join(\", \");
    const stalled = (place) => html`${link(place)} stalls ${names(journal.stallAt(place).calls.map((one) => journal.step(one))).replace(\", 0 not told\", \"\")}`;
    const gap = left > 0 ? [html`and <a href=\"#find=deadlock\">${left} more</a>, then`] : [];
    const longest = [...story.matchAll(/^ *(\\d+) +(P\\d+) .* (\\d+), /gm)], least = longest.at(-1)?.[3];
    const wait = (step, place, pid) => (step ? [called(step, who(step)), step.end.letter ? ender(step) : \"the end\"] : [`${pid}, ${whoAt(place)}`]);
    const shownAs = (lane) => html`<select data-process=\"${lane}\" aria-label=\"${lane} shown as\">${{ html: byId(\"forms\").innerHTML }}</select>`;
    const exit = ({ begun, exited }) => [begun !== null && html`back at ${link(begun)} `, exited !== null && link(exited)];
    const back = link(first, `Steps ${first + 1} to ${end}`, `from=${from}&to=${to}`);
    const box = (port) => html`<label><input type=\"checkbox\" data-port=\"${port}\" ${rooms[port - 1] > 0 && \"checked\"}> port ${port}</label> `;
    const boxes = (isHeld) => numbers(1, rooms.length + 1).filter((port) => isHeld === rooms[port - 1] > 0).map(box);
    put({
        size: `${counted(steps, \"step\")} of ${procs} processes on ${counted(rooms.length, \"port\")}`, deadlocks: counted(stalls.length, \"deadlock\"),
        told: journal.told && `Steps ${first + 1} to ${end} are told, and of the others those that bear on them.`,
        part: journal.told && back, early: `not told: steps 1 to ${first}, but for boxes`, late: `not told: steps ${end + 1} to ${steps}, but for boxes`,
        stalls: items([...stalls.slice(0, 1).map(stalled), ...gap, ...stalls.slice(1).slice(-4).map(stalled)]),
        longest: rowsOf(longest.map(([, step, pid, waited]) => [waited, ...wait(journal.step(step - 1), step - 1, pid)])),
        ties: longest[4] && html`<a href=\"#find=waited ${least}\">Find all that waited ${least}</a>`,
        processes: rowsOf(waits.map((waited, lane) => [journal.nameOf(lane), asks[lane], waited, exit(lives[lane].at(-1)), shownAs(lane)])), held: boxes(true),
        empty: boxes(false), end: { html: story.replace(/^ *\\d+ +P.*\\n|, the longest first.*|^ {10}/gm, \"\").replace(/(?<=step )\\d+/g, (step) =>
            (journal.step(step - 1) ? link(step - 1, step).html : step)) },
    });
}
";
