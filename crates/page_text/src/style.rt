// The head of a page: its title, and the styles of `btview page` and of play.html (scripts/pages/play_page.py takes them from here).

pub const STYLE: &str = r#"<!DOCTYPE html>
<html lang="en">
<head>
<meta charset="utf-8">
<meta name="viewport" content="width=device-width, initial-scale=1">
<title>btview</title>
<style>
:root { --ink: #1c2430; --soft: #55606f; --line: #d5dae1; --panel: #ffffff; --back: #f1f3f6; --mark: #0b5cad; --mark-fill: #0b5cad; --button: #ffffff; --button-line: #b8c0ca; --hover: #eef4fb;
  --head: #e9edf2; --row: #edf0f3; --chosen: #dcebfb; --detail: #fbfcfe; --cover: rgba(255,255,255,.88);
  --success: #1d7f4e; --failure: #c02a2a; --running: #4f637f; --load: #8a6100; --signal: #7a4a1e;
  --outer: #e3e7ec; --floor: #fdfdfb; --wall: #5b6675; --grid: rgba(60,75,95,.13); --place: #cfe3f7; --place-ink: #174a7c; --door: #8a5426; --door-open: #f7ead9;
  --strip: #f4f6f8; --success-fill: #3aa873; --failure-fill: #dc5a5a; --moved-fill: #6f9fd8; --stayed-fill: #cfd7e1; --lighter: 0;
  --success-pale: #e3f4eb; --failure-pale: #fbe6e6; --running-pale: #e6edf6; --success-deep: #1a7446; --key: #6a3fa0; --text: #2c5f3c;
  --logic: #6a3fb5; --think: #1668b8; --path: #b35c00; --draw: #1d7f4e; --lane: #eaeef3; --lane-other: #f3f5f8; --axis: #d3dae3; }
:root { color-scheme: light dark; }
@media (prefers-color-scheme: dark) { :root {
  --ink: #e4e9f0; --soft: #9aa7b8; --line: #333d4b; --panel: #1a212b; --back: #11161d; --mark: #6fb1f2; --mark-fill: #1b66b0; --button: #242d39; --button-line: #4d5b6d; --hover: #2d3947;
  --head: #232c38; --row: #262f3b; --chosen: #1d3c5c; --detail: #171d26; --cover: rgba(20,26,34,.88);
  --success: #5cc795; --failure: #f07f7f; --running: #9db4d3; --load: #e0b040; --signal: #e0a56c;
  --outer: #0d1116; --floor: #3b4757; --wall: #1b222b; --grid: rgba(215,228,245,.07); --place: #2f587f; --place-ink: #d3e7fb; --door: #9a5c27; --door-open: #3a3129;
  --strip: #232c38; --success-fill: #349767; --failure-fill: #c95252; --moved-fill: #5688c4; --stayed-fill: #445063; --lighter: 28;
  --success-pale: #1c3a2c; --failure-pale: #452428; --running-pale: #26364a; --success-deep: #1a7446; --key: #c3a4f0; --text: #9fd0ae;
  --logic: #9a79dd; --think: #4f97de; --path: #d68a3c; --draw: #45a878; --lane: #1d2530; --lane-other: #202935; --axis: #3a4656; } }
* { box-sizing: border-box; }
[hidden] { display: none !important; }
html, body { margin: 0; height: 100%; }
body { display: grid; grid-template-rows: auto minmax(0, 1fr) auto auto; gap: 6px; padding: 6px 10px; height: 100vh; min-height: 560px;
  background: var(--back); color: var(--ink); font: 14px/1.35 system-ui, "Segoe UI", Roboto, "DejaVu Sans", sans-serif; }
.mono, textarea { font-family: ui-monospace, "SF Mono", Consolas, "DejaVu Sans Mono", monospace; }
.panel { background: var(--panel); border: 1px solid var(--line); border-radius: 6px; min-width: 0; min-height: 0; position: relative; }

/* controls */
button { font: inherit; color: var(--ink); background: var(--button); border: 1px solid var(--button-line); border-radius: 5px; min-width: 34px; height: 28px; padding: 0 8px; cursor: pointer; white-space: nowrap; }
button:hover { background: var(--hover); }
select, input { font: inherit; height: 28px; border: 1px solid var(--button-line); border-radius: 5px; background: var(--button); color: var(--ink); }
input[type=number] { width: 70px; text-align: right; padding: 0 4px; }
:is(button, input, select, textarea, summary, [tabindex]):focus-visible { outline: 2px solid var(--mark); outline-offset: 1px; }
label { color: var(--soft); white-space: nowrap; }
kbd { font-family: inherit; border: 1px solid var(--button-line); border-bottom-width: 2px; border-radius: 4px; padding: 0 6px; background: var(--head); white-space: nowrap; }
header h1 { font-size: 17px; margin: 0; font-weight: 650; overflow-wrap: anywhere; }

/* map and side */
main { display: grid; grid-template-columns: minmax(0, 1fr) minmax(0, 530px); gap: 8px; min-height: 0; }
#map { position: absolute; inset: 0; width: 100%; height: 100%; display: block; touch-action: none; }
#frameName { position: absolute; left: 10px; top: 6px; font-size: 20px; font-weight: 650; background: var(--cover); padding: 0 7px; border-radius: 5px; pointer-events: none; }
#frameName small { font-size: 13px; font-weight: 500; color: var(--soft); margin-left: 6px; }
#mapInfo { position: absolute; right: 8px; bottom: 6px; font-size: 12px; color: var(--soft); background: var(--cover); padding: 0 6px; border-radius: 5px; pointer-events: none; }

/* agents */
.roster { display: flex; flex-direction: column; overflow: hidden; }
#agentsBox { overflow: auto; flex: 0 1 auto; min-height: 60px; }
#agentsBox table { border-collapse: collapse; width: 100%; font-size: 13px; table-layout: fixed; }
#agentsBox th { position: sticky; top: 0; background: var(--head); text-align: left; font-weight: 600; font-size: 12px; padding: 2px 6px; z-index: 1; white-space: nowrap; overflow: hidden; }
#agentsBox td { padding: 0 6px; border-top: 1px solid var(--row); white-space: nowrap; }
#agentsBox tr.agent { cursor: pointer; scroll-margin-top: 22px; }
#agentsBox tr.agent:hover { background: var(--hover); }
#agentsBox tr.chosen { background: var(--chosen) !important; }
#agentsBox :is(th, td).num { text-align: right; font-variant-numeric: tabular-nums; }
.letter { display: inline-block; min-width: 1.45em; height: auto; border: 0; padding: 0; text-align: center; border-radius: 50%; color: #fff; font-weight: 700; font-size: 13px; line-height: 1.35; }
.letter:hover { filter: brightness(1.15); }
.answer { font-weight: 650; }
.S { color: var(--success); } .F { color: var(--failure); } .R { color: var(--running); }
td.tree { overflow: hidden; text-overflow: ellipsis; color: var(--soft); max-width: 0; }
td.load { color: var(--load); font-weight: 700; }
td canvas { display: block; }
#detail { flex: 1 1 0; min-height: 0; overflow: auto; padding: 6px 10px 8px; font-size: 13px; border-top: 1px solid var(--line); background: var(--detail); }
#detail h2 { font-size: 13.5px; margin: 0 0 2px; } #detail .later { margin-top: 8px; }
#detail ul { margin: 0; padding: 0 0 0 2px; list-style: none; } #detail p { margin: 6px 0 0; color: var(--soft); }
.many #agentsBox td { border-top: 0; } .many #agentsBox tbody tr:nth-child(even) { background: var(--detail); }
.many .letter { font-size: 10.5px; line-height: 13px; min-width: 1.7em; }
.many #detail { display: none; } .many.picked #detail { display: block; flex: 0 0 45%; }
#detail .outline, #detail .outline ul { padding: 0; } #detail .outline ul { margin-left: 7px; padding-left: 13px; border-left: 1px solid var(--line); }
.outline li { line-height: 1.45; }
.outline .then { color: var(--soft); margin: 0 5px; }
.outline b { font-weight: 650; } .outline .leaf b { color: var(--mark); font-weight: 500; } .outline code { color: var(--soft); font-size: 12.5px; }
.outline .said { display: inline-block; width: 1.3em; margin-right: 3px; text-align: center; font-weight: 700; font-size: 12px; border-radius: 3px; }
.outline .said.S { background: var(--success-fill); color: #fff; } .outline .said.F { background: var(--failure-fill); color: #fff; } .outline .said.R { background: var(--moved-fill); color: #fff; }
.outline .silent { opacity: .5; }

/* the run */
#run { padding: 5px 10px 3px; }
#bar { display: flex; flex-wrap: wrap; align-items: center; gap: 5px 6px; }
#bar label { display: flex; align-items: center; gap: 5px; }
#play { min-width: 74px; font-weight: 650; background: var(--mark-fill); border-color: var(--mark-fill); color: #fff; }
#overKeys { margin-left: auto; display: flex; gap: 10px; font-size: 12px; }
.key { display: inline-flex; align-items: center; gap: 5px; white-space: nowrap; } .key i { width: 12px; height: 12px; border-radius: 3px; }
#overview { display: block; width: calc(100% - 16px); margin: 5px 8px 0; cursor: pointer; touch-action: none; }
#slider { width: 100%; margin: 1px 0 0; height: 15px; accent-color: var(--mark); display: block; border: 0; background: none; }

/* help */
#help { position: fixed; inset: 0; display: flex; align-items: center; justify-content: center; background: rgba(20,28,40,.5); z-index: 20; padding: 10px; }
#agentsBox th small { font: inherit; }
#help > div { background: var(--panel); border-radius: 8px; padding: 14px 24px 18px; box-shadow: 0 6px 30px rgba(0,0,0,.3); max-width: 640px; max-height: 100%; overflow: auto; }
#help h2 { margin: 0 0 8px; font-size: 17px; }
#help td { padding: 2px 12px 2px 0; vertical-align: top; } #help td:first-child { white-space: nowrap; }
@media (max-width: 1180px) { #overKeys { display: none; } }
@media (max-width: 900px) { #agentsBox .since, #agentsBox th small { display: none; } #agentsBox col.wide { width: 82px !important; } }
"#;
