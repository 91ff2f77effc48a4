//! The page for people.

/// What `/` shows: a page that asks the other paths twice a second, and needs no other host. It shows the replicas and the last blocks,
/// sends a transaction, and asks for a key. `tests/browser.py` uses it.
pub(crate) const PAGE: &str = r##"<!DOCTYPE html>
<html lang="en">
<head>
<meta charset="utf-8">
<meta name="viewport" content="width=device-width">
<title>abft</title>
<link rel="icon" href="data:,">
<style>
body { font: 16px/1.4 sans-serif; margin: 1em auto; max-width: 60em; padding: 0 1em; color: #111; background: #fff }
h1 { font-size: 1.4em } h2 { font-size: 1.1em; margin: 1.2em 0 .3em }
table { border-collapse: collapse; width: 100% }
th, td { text-align: left; padding: .2em .6em .2em 0; border-bottom: 1px solid #ccc; vertical-align: top; overflow-wrap: anywhere }
form { display: flex; flex-wrap: wrap; gap: .5em; align-items: center }
input { font: inherit; flex: 1 1 10em; min-width: 0; padding: .3em }
button { font: inherit; padding: .3em .8em }
meter { width: 6em }
output { display: block; min-height: 1.4em; overflow-wrap: anywhere }
:focus-visible { outline: 3px solid #06c }
</style>
</head>
<body>
<h1>abft: one ledger, <span id="count">?</span> replicas</h1>
<p id="state" role="status">Connecting.</p>
<h2>Replicas</h2>
<table>
<thead><tr><th scope="col">Replica<th scope="col">Height<th scope="col">Round<th scope="col">Waiting<th scope="col">Signatures left</tr></thead>
<tbody id="replicas"></tbody>
</table>
<h2>Send a transaction</h2>
<form id="send"><label for="tx">Transaction</label><input id="tx" value="name=satoshi" maxlength="64" required><button>Send</button></form>
<output id="sent" for="tx"></output>
<h2>Ask for a key</h2>
<form id="ask"><label for="key">Key</label><input id="key" value="name" maxlength="64" required><button>Ask</button></form>
<output id="found" for="key"></output>
<h2>Last blocks</h2>
<table>
<thead><tr><th scope="col">Height<th scope="col">Transactions</tr></thead>
<tbody id="blocks"></tbody>
</table>
<p>Numbers for Prometheus: <a href="/metrics">/metrics</a>. Other paths: <code>docs/HTTP.md</code>.</p>
<script>
"use strict";
const by = id => document.getElementById(id);
const hex = text => "0x" + Array.from(new TextEncoder().encode(text), b => b.toString(16).padStart(2, "0")).join("");
const shown = b64 => new TextDecoder().decode(Uint8Array.from(atob(b64), c => c.charCodeAt(0)));
const blocks = new Map();
let leaves = 32;

// The result of a path, or an error that says why there is none.
async function get(path) {
  const body = await (await fetch(path)).json();
  if (body.error) throw new Error(body.error.data || body.error.message);
  return body.result;
}

// The numbers of each replica, by the names of their metrics.
function numbers(text) {
  const replicas = [];
  for (const [, name, replica, value] of text.matchAll(/^abft_(\w+)\{replica="(\d+)"\} (\d+)$/gm))
    (replicas[replica] ??= {})[name] = Number(value);
  return replicas;
}

function row(cells) {
  const tr = document.createElement("tr");
  for (const cell of cells) tr.insertCell().append(cell);
  return tr;
}

// How many signatures are left, as a bar, and how many blocks they last at the pace so far.
function left(replica) {
  const of = replica.signatures_left, bar = document.createElement("meter"), used = leaves - of;
  bar.max = leaves;
  bar.value = of;
  bar.textContent = of;
  const last = replica.height && used ? ", some " + Math.floor(of * replica.height / used) + " blocks" : "";
  const cell = document.createElement("span");
  cell.append(bar, " " + of + last);
  return cell;
}

async function refresh() {
  const replicas = numbers(await (await fetch("/metrics")).text());
  if (replicas.some(r => r.signatures_left > 32)) leaves = 1024;
  by("count").textContent = replicas.length;
  by("replicas").replaceChildren(...replicas.map((r, n) => row([n, r.height, r.rounds, r.pool_transactions, left(r)])));
  const height = replicas[0].height;
  for (let h = Math.max(1, height - 9); h <= height; h++)
    if (!blocks.has(h)) blocks.set(h, (await get("/block?height=" + h)).block.data.txs.map(shown));
  for (const h of blocks.keys()) if (h < height - 9) blocks.delete(h);
  by("blocks").replaceChildren(...[...blocks].sort((a, b) => b[0] - a[0]).map(([h, txs]) => row([h, txs.join(", ") || "none"])));
  by("state").textContent = "Replica 0 committed " + height + " blocks.";
}

async function watch() {
  try { await refresh(); } catch (error) { by("state").textContent = "No answer: " + error.message; }
  setTimeout(watch, 500);
}

by("send").addEventListener("submit", async event => {
  event.preventDefault();
  by("sent").textContent = "Waiting for a block.";
  try {
    const done = await get("/broadcast_tx_commit?tx=" + hex(by("tx").value));
    by("sent").textContent = done.check_tx.code ? "Refused with code " + done.check_tx.code + "." : "In block " + done.height + ", code " + done.deliver_tx.code + ".";
  } catch (error) { by("sent").textContent = error.message; }
});

by("ask").addEventListener("submit", async event => {
  event.preventDefault();
  try {
    const { response } = await get("/abci_query?data=" + hex(by("key").value));
    by("found").textContent = response.value === null ? "Not there at height " + response.height + "." : shown(response.value) + " (height " + response.height + ")";
  } catch (error) { by("found").textContent = error.message; }
});

watch();
</script>
</body>
</html>
"##;
