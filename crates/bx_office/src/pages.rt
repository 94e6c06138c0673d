//! The pages of the office and of its counter, which need nothing from elsewhere.

ghost use Rattle.std.specs.Prelude.{◌≡◌, true, false, IfSome, IfNone};
ghost use Rattle.bx_office.specs.Pages.{is_page, allowed_at};
ghost use Rattle.bx_office.specs.declared.reply.Status.TheVariants as Statuses;

use crate::gate::{Route, Side};
use crate::reply::{Allowed, Kind, Reply, Status};

/// A page: how the day stands, a form in which a call is asked for and booked, and what comes after that.
macro_rules! page {
    ($title:literal, $rest:literal) => {
        concat!(
            "<!doctype html>
<html lang=\"en\">
<head>
<meta charset=\"utf-8\">
<meta name=\"viewport\" content=\"width=device-width, initial-scale=1\">
<title>",
            $title,
            "</title>
<link rel=\"stylesheet\" href=\"/office.css\">
<script src=\"/office.js\" defer></script>
</head>
<body>
<header>
<h1>",
            $title,
            "</h1>
<p id=\"health\" role=\"status\">Asking the office ...</p>
</header>
<main>
<section aria-labelledby=\"call-title\">
<h2 id=\"call-title\">A call</h2>
<form id=\"call\">
<p><label for=\"start\">Start, by the clock of this device</label>
<input id=\"start\" name=\"start\" type=\"datetime-local\" step=\"1\" required></p>
<p><label for=\"end\">End</label>
<input id=\"end\" name=\"end\" type=\"datetime-local\" step=\"1\" required></p>
<p><label for=\"number\">Number to be called, 1 to 15 digits</label>
<input id=\"number\" name=\"number\" inputmode=\"numeric\" pattern=\"[0-9]{1,15}\" maxlength=\"15\" autocomplete=\"off\"></p>
<p><label for=\"pay\">Pay, 1 to 1000000000</label>
<input id=\"pay\" name=\"pay\" inputmode=\"numeric\" pattern=\"[0-9]{1,10}\" maxlength=\"10\" autocomplete=\"off\"></p>
<p><label for=\"direction\">Who calls</label>
<select id=\"direction\" name=\"direction\"><option value=\"out\">the exchange</option><option value=\"in\">the far end</option></select></p>
<p><button id=\"quote\" type=\"submit\" value=\"quote\">What would it have to pay?</button>
<button id=\"book\" type=\"submit\" value=\"book\">Book it</button></p>
</form>
<p id=\"answer\" role=\"status\"></p>
</section>
",
            $rest,
            "</main>
</body>
</html>
"
        )
    };
}

/// The page of the office, with figures, the day as it goes, and what is promised.
const OFFICE: &str = page!(
    "Booking office",
    "<section aria-labelledby=\"day-title\">
<h2 id=\"day-title\">The day as it goes</h2>
<p id=\"age\"></p>
<div class=\"chart\"><img id=\"chart\" src=\"/chart.svg\" alt=\"Channels over the hours of the day: what is planned, carried and missed\"></div>
<table>
<caption>Bookings of the last plan</caption>
<thead><tr><th scope=\"col\">What has become of them</th><th scope=\"col\">Bookings</th><th scope=\"col\">Their pay</th></tr></thead>
<tbody id=\"outcomes\"></tbody>
</table>
<p id=\"maintenance\"></p>
<dl id=\"figures\"></dl>
<p><a href=\"/chart.svg\">The picture by itself</a>, with the row, the number and the times of each booking under the pointer. As text: <a href=\"/plan\">the plan</a>, <a href=\"/outcomes\">the outcomes</a>, <a href=\"/records\">the call records</a>, <a href=\"/metrics\">the figures</a>.</p>
</section>
<section aria-labelledby=\"promised-title\">
<h2 id=\"promised-title\">Bookings that are live or wait for their start</h2>
<form id=\"search\">
<p><label for=\"sought\">Row of the plan, or number; nothing for all</label>
<input id=\"sought\" name=\"sought\" inputmode=\"numeric\" pattern=\"[0-9]{1,15}\" maxlength=\"15\" autocomplete=\"off\"></p>
<p><button id=\"seek\" type=\"submit\">Show them</button></p>
</form>
<p id=\"told\" role=\"status\"></p>
<div class=\"list\"><table>
<thead><tr><th scope=\"col\">Row</th><th scope=\"col\">Change</th><th scope=\"col\">State</th><th scope=\"col\">Number</th><th scope=\"col\">Start</th><th scope=\"col\">End</th><th scope=\"col\">Pay</th></tr></thead>
<tbody id=\"promised\"></tbody>
</table></div>
</section>
"
);

/// The page of the counter.
const COUNTER: &str = page!("Book a call", "");

const SCRIPT: &str = "\"use strict\";
const at = (id) => document.getElementById(id);
const faults = {
  B3: \"A time is no time.\",
  B4: \"A time has a part of a second.\",
  B5: \"A time lies outside this day.\",
  B6: \"The end is not after the start.\",
  B7: \"The number is not 1 to 15 digits.\",
  B8: \"The pay is not 1 to 1000000000.\",
  K1: \"The channels do not carry what is promised.\",
  K2: \"The plan has 16000 bookings already.\",
  Q1: \"At some moment of it other promises have all channels: no pay is enough.\",
  NoBooking: \"No booking of this row is promised.\",
  Late: \"Its start or its end has come, and it stands.\",
  Memory: \"The office has no memory left. Ask again.\",
};
const reasons = {
  Late: \"it begins by now\",
  Full: \"the plan has 16000 bookings already\",
  NoChannel: \"at some moment of it no channel is left\",
  TookOver: \"this day took over from another\",
  Memory: \"the office has no memory left\",
  AfterTheDay: \"it begins after the day that runs\",
  BelowRate: \"it pays less than the office asks for so long a call\",
};
const inWords = (text) => {
  const word = text.split(\" \")[0].trim();
  return faults[word] || (reasons[word] ? `Not done: ${reasons[word]}.` : text.trim());
};
const ask = async (path, options) => {
  const reply = await fetch(path, options);
  return { isFine: reply.ok, isSure: reply.status < 500, text: await reply.text() };
};
// What is shown is asked for anew soon, so no answer is waited for long.
const look = (path) => ask(path, { signal: AbortSignal.timeout(6000) });
const utc = (time) => new Date(time).toISOString().replace(\".000Z\", \"Z\");
// A time by the clock of this device.
const byClock = (time) => new Date(time).toLocaleString();
const bookingText = (start, end, number, pay, direction) => {
  const row = [start, end, number, pay, \"no\", direction];
  return `start,end,number,pay,must,direction\\n${row.join(\",\")}\\n`;
};

const priced = (text) => {
  const above = /^taken above (\\d+)$/m.exec(text);
  return above ? `It is taken for more than ${above[1]}.` : inWords(text);
};
// Where no channel is left for a call: from when on one as long has one.
const freeLater = async (start, end) => {
  const length = (Date.parse(end) - Date.parse(start)) / 1000;
  const reply = await ask(`/free?${new URLSearchParams({ length, from: start })}`);
  if (!reply.isFine) {
    return \"\";
  }
  const [, ...free] = reply.text.trim().split(\"\\n\");
  if (free.length === 0) {
    return \" From then on the day is booked in full for so long a call.\";
  }
  const [from, until] = free[0].split(\",\").map(byClock);
  return ` So long a call may start from ${from} to ${until}.`;
};
const sold = async (text, call) => {
  const fields = text.split(\"\\n\")[1].split(\",\");
  if (fields[1] !== \"accepted\") {
    const later = fields[3] === \"NoChannel\" ? await freeLater(call.start, call.end) : \"\";
    return `Not booked: ${reasons[fields[3]] || fields[3]}.${later}`;
  }
  const warning = fields[3] === \"TooShort\" ? \" It lasts less than three seconds, and may be too short to be carried.\" : \"\";
  return `Booked: row ${fields[2]} of the plan, number ${call.number}, ${byClock(call.start)} to ${byClock(call.end)}, pay ${call.pay}.${warning}`;
};
const quote = async (call) => {
  const reply = await ask(`/quote?${new URLSearchParams({ start: call.start, end: call.end })}`);
  const later = reply.text.startsWith(\"Q1 \") ? await freeLater(call.start, call.end) : \"\";
  return priced(reply.text) + later;
};
// What is filled in has a key until it is sure what has become of it: whoever asks again after an answer that was lost asks for the same.
let unanswered = { body: null, key: null };
const randomKey = () => {
  if (typeof crypto.randomUUID === \"function\") {
    return crypto.randomUUID();
  }
  return [...crypto.getRandomValues(new Uint8Array(16))].map((octet) => octet.toString(16).padStart(2, \"0\")).join(\"\");
};
const book = async (call) => {
  const body = bookingText(call.start, call.end, call.number, call.pay, call.direction);
  if (unanswered.body !== body) {
    unanswered = { body, key: randomKey() };
  }
  const headers = { \"Content-Type\": \"text/csv\", \"Idempotency-Key\": `\"${unanswered.key}\"` };
  const reply = await ask(\"/bookings\", { method: \"POST\", headers, body });
  if (reply.isSure) {
    unanswered = { body: null, key: null };
  }
  return reply.isFine ? sold(reply.text, call) : inWords(reply.text);
};

const filledIn = () => ({
  start: utc(at(\"start\").value),
  end: utc(at(\"end\").value),
  number: at(\"number\").value,
  pay: at(\"pay\").value,
  direction: at(\"direction\").value,
});

at(\"call\").addEventListener(\"submit\", async (event) => {
  event.preventDefault();
  const isBooking = event.submitter !== null && event.submitter.value === \"book\";
  at(\"answer\").textContent = \"Asking the office ...\";
  at(\"book\").disabled = true;
  try {
    at(\"answer\").textContent = isBooking ? await book(filledIn()) : await quote(filledIn());
  } catch (fault) {
    at(\"answer\").textContent = isBooking ? \"The office does not answer. Ask again as it stands here: it is booked once at most.\" : \"The office does not answer.\";
  }
  at(\"book\").disabled = false;
  show();
});

const samples = (text) => text.split(\"\\n\").map((line) => /^(\\w+)(?:\\{\\w+=\"(\\w+)\"\\})? (\\d+)$/.exec(line)).filter((found) => found !== null);
const outcomes = { waiting: \"wait for their start\", live: \"are live\", carried: \"were carried\", unanswered: \"were not answered\", missed: \"were missed\", refused: \"are not in the plan\" };
const figures = {
  bx_moment_seconds: \"So much of the day is over\",
  bx_rows_left: \"Bookings for which the plan has room\",
  bx_seconds_without_link: \"Seconds without a link\",
  bx_late_seconds: \"Seconds that began late\",
  bx_bookings_sold: \"Bookings sold\",
  bx_bookings_dropped: \"Bookings given up since a channel was lost\",
  bx_sync_age_seconds: \"Seconds since the journal was saved\",
};
const hours = (seconds) => [Math.floor(seconds / 3600), Math.floor(seconds / 60) % 60, seconds % 60].map((part) => String(part).padStart(2, \"0\")).join(\":\");
const element = (name, text) => {
  const made = document.createElement(name);
  made.textContent = text;
  return made;
};
const row = (words, cells) => {
  const made = document.createElement(\"tr\");
  const head = element(\"th\", words);
  head.scope = \"row\";
  made.append(head, ...cells.map((cell) => element(\"td\", cell)));
  return made;
};
// The figures have only the count: the numbers stand in the last line of the outcomes.
const inMaintenance = async (count) => {
  if (count === \"0\") {
    return \"none\";
  }
  const found = /^maintenance (.+)$/m.exec((await look(\"/outcomes\")).text);
  return found ? found[1].replaceAll(\" \", \", \") : `${count} in number`;
};
const tell = async (text) => {
  const all = samples(text);
  const value = (name, label) => (all.find((found) => found[1] === name && found[2] === label) || [])[3];
  at(\"outcomes\").replaceChildren(...Object.keys(outcomes).map((label) => row(outcomes[label], [value(\"bx_bookings\", label), value(\"bx_pay\", label)])));
  const told = Object.keys(figures).filter((name) => value(name) !== undefined);
  const causes = all.filter((found) => found[1] === \"bx_clearings_received\");
  at(\"figures\").replaceChildren(
    ...told.flatMap((name) => [element(\"dt\", figures[name]), element(\"dd\", name === \"bx_moment_seconds\" ? hours(Number(value(name))) : value(name))]),
    ...causes.flatMap((found) => [element(\"dt\", `Cleared with cause ${found[2]}`), element(\"dd\", found[3])]),
  );
  at(\"maintenance\").textContent = `Channels in maintenance: ${await inMaintenance(value(\"bx_channels_in_maintenance\"))}`;
};
const states = { \"not begun\": \"The day has not begun.\", \"in time\": \"The day goes on in time.\", late: \"The last second began late.\" };
const inState = (text) => {
  const lines = text.trim().split(\"\\n\");
  return `${states[lines[0]] || lines[0]}${lines.includes(\"link none\") ? \" There is no link.\" : \"\"}`;
};
// When the figures came that are shown, by the clock of this device.
let shownAt = null;
const tellAge = () => {
  if (shownAt !== null) {
    at(\"age\").textContent = `Age of these figures: ${Math.round((Date.now() - shownAt) / 1000)} s`;
  }
};
// Of the day itself the counter has nothing.
const isOffice = at(\"day-title\") !== null;
const showDay = async () => {
  const metrics = await look(\"/metrics\");
  if (metrics.isFine) {
    shownAt = Date.now();
    await tell(metrics.text);
  }
  at(\"chart\").src = `/chart.svg?${Date.now()}`;
};
const show = async () => {
  try {
    if (isOffice) {
      await showDay();
    }
    at(\"health\").textContent = inState((await look(\"/healthz\")).text);
  } catch (fault) {
    at(\"health\").textContent = \"The office does not answer.\";
  }
  tellAge();
};
// Of the bookings that are live or wait for their start so many are shown at once.
const MOST = 40;
const isSought = (fields, sought) => sought === \"\" || fields[0] === sought || fields[2] === sought;
const list = async () => {
  const reply = await ask(\"/records\");
  if (!reply.isFine) {
    return inWords(reply.text);
  }
  const found = reply.text.split(\"\\n\").map((line) => line.split(\",\")).filter((fields) => isSought(fields, at(\"sought\").value));
  const live = found.filter((fields) => fields[7] === \"live\");
  const waiting = found.filter((fields) => fields[7] === \"waiting\");
  at(\"promised\").replaceChildren(...[...live, ...waiting].slice(0, MOST).map(promised));
  const some = live.length + waiting.length > MOST ? `, of which ${MOST} are shown` : \"\";
  return `${live.length} live, ${waiting.length} waiting${some}.`;
};
const cancel = async (place) => {
  const reply = await ask(`/bookings/${place}`, { method: \"DELETE\" });
  return reply.isFine ? `Cancelled: row ${place} of the plan.` : inWords(reply.text);
};
// By the fields of its record: the same call with another end and pay.
const extend = async (fields, end, pay) => {
  const body = bookingText(fields[4], end, fields[2], pay, fields[1]);
  const reply = await ask(`/bookings/${fields[0]}`, { method: \"PUT\", headers: { \"Content-Type\": \"text/csv\" }, body });
  return reply.isFine ? `Extended: row ${fields[0]} of the plan ends at ${byClock(end)}.` : inWords(reply.text);
};
const telling = async (asked) => {
  at(\"told\").textContent = \"Asking the office ...\";
  try {
    at(\"told\").textContent = await asked();
  } catch (fault) {
    at(\"told\").textContent = \"The office does not answer. Ask again.\";
  }
};
// A button that asks a question first; what is done by its answer is told.
const button = (label, place, question, change) => {
  const made = element(\"button\", label);
  made.type = \"button\";
  made.setAttribute(\"aria-label\", `${label}, row ${place}`);
  made.addEventListener(\"click\", async () => {
    const answer = question();
    if (!answer) {
      return;
    }
    made.disabled = true;
    await telling(() => change(answer));
    await list().catch(() => {});
    made.disabled = false;
    show();
  });
  return made;
};
const TEN_MINUTES = 600000;
const promised = (fields) => {
  const [place, , number, , start, end, pay, state] = fields;
  const later = utc(Date.parse(end) + TEN_MINUTES);
  const extending = () => prompt(`Row ${place} of the plan gets ten minutes more. What does it pay then?`, pay);
  const buttons = [button(\"Ten minutes more\", place, extending, (more) => extend(fields, later, more))];
  if (state === \"waiting\") {
    const cancelling = () => confirm(`Cancel the booking of row ${place} of the plan?`);
    buttons.unshift(button(\"Cancel\", place, cancelling, () => cancel(place)));
  }
  const made = row(place, [\"\", state, number, start, end, pay]);
  made.cells[1].append(...buttons);
  return made;
};
if (isOffice) {
  at(\"search\").addEventListener(\"submit\", (event) => {
    event.preventDefault();
    telling(list);
  });
  at(\"chart\").addEventListener(\"error\", () => { at(\"chart\").hidden = true; });
  at(\"chart\").addEventListener(\"load\", () => { at(\"chart\").hidden = false; });
  setInterval(tellAge, 1000);
}
show();
setInterval(show, 7000);
";

const STYLE: &str =
    "body { font-family: system-ui, sans-serif; line-height: 1.5; margin: 0 auto; max-width: 70rem; padding: 1rem; color: #111; background: #fff; }
h1, h2 { line-height: 1.2; }
main { display: grid; gap: 2rem; grid-template-columns: minmax(0, 1fr); }
@media (min-width: 60rem) {
  main { grid-template-columns: minmax(0, 1fr) minmax(0, 2fr); }
  main section:last-child { grid-column: 1 / -1; }
}
.chart, .list { overflow-x: auto; }
.list td { white-space: nowrap; }
.list button { margin: 0 0 0 0.5rem; padding: 0.25rem 0.5rem; }
.chart img { display: block; min-width: 40rem; width: 100%; }
.chart img[hidden] { display: none; }
table { border-collapse: collapse; margin: 1rem 0; width: 100%; }
caption { text-align: left; font-weight: bold; }
th, td { border-bottom: 1px solid #767676; padding: 0.25rem 0.5rem 0.25rem 0; text-align: left; font-weight: normal; }
td, dd { font-variant-numeric: tabular-nums; }
th:not(:first-child), td { text-align: right; }
dl { display: grid; grid-template-columns: 1fr auto; gap: 0.25rem 1rem; }
dd { margin: 0; text-align: right; }
label { display: block; }
input, select { box-sizing: border-box; font: inherit; padding: 0.5rem; width: 100%; border: 1px solid #595959; border-radius: 0.25rem; color: #111; background: #fff; }
button { font: inherit; padding: 0.5rem 1rem; margin: 0 0.5rem 0.5rem 0; border: 2px solid #111; border-radius: 0.25rem; color: #111; background: #fff; }
button:disabled { border-color: #767676; color: #595959; }
:focus-visible { outline: 3px solid #005fcc; outline-offset: 2px; }
#answer:not(:empty) { border-left: 4px solid #111; padding-left: 0.75rem; }
";

/// What the answer says is allowed: of the office as a whole, all its methods.
fn allowed_at(route: Route) -> Allowed
    ensures { result ≡ allowed_at route }
{
    match route {
        Route::Office => Allowed::All,
        _ => Allowed::Unsaid,
    }
}

/// The page of a side.
fn home_of(side: Side) -> &'static str {
    match side {
        Side::Operators => OFFICE,
        Side::Customers => COUNTER,
    }
}

/// What stands at a path of a side whatever the day is: its page with its parts, and which methods there are.
pub fn page(side: Side, route: Route) -> Option<Reply<'static>>
    ensures none { IfNone result (is_page route ≡ false) }
    ensures some { IfSome result (λ reply. (is_page route ≡ true) × (reply.status ≡ Statuses.Fine) × (reply.allowed ≡ allowed_at route)) }
{
    let (kind, body) = match route {
        Route::Home => (Kind::Html, home_of(side)),
        Route::Script => (Kind::Script, SCRIPT),
        Route::Style => (Kind::Style, STYLE),
        Route::Office => (Kind::Text, ""),
        _ => return None,
    };
    Some(Reply {
        status: Status::Fine,
        kind,
        allowed: allowed_at(route),
        body: body.as_bytes(),
    })
}
