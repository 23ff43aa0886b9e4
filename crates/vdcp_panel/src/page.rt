//! Style and script that all pages share.

/// A page of this title: its styles, body and script stand behind those of every page.
#[macro_export]
macro_rules! page {
    ($title:literal, $style:literal, $body:literal, $script:literal) => {
        concat!(
            r#"<!doctype html>
<html lang="en">
<head>
<meta charset="utf-8">
<meta name="viewport" content="width=device-width, initial-scale=1">
<title>"#,
            $title,
            r#"</title>
<style>
:root {
  color-scheme: light dark;
  --ground: #f3f4f6; --card: #fff; --line: #d9dde3; --text: #14181f; --dim: #556070;
  --air: #b90f2a; --cue: #1c7a3d; --on: #fff;
}
@media (prefers-color-scheme: dark) {
  :root {
    --ground: #0d1014; --card: #161b22; --line: #2a313b; --text: #e8ecf1; --dim: #9aa7b7;
    --air: #ff6b79; --cue: #46c46f; --on: #0d1014;
  }
}
* { box-sizing: border-box; }
body { margin: 0; background: var(--ground); color: var(--text); font: 16px/1.4 system-ui, "DejaVu Sans", sans-serif; }
header { display: flex; flex-wrap: wrap; gap: 8px 16px; align-items: center; padding: 12px 20px; border-bottom: 1px solid var(--line); background: var(--card); }
h1 { font-size: 18px; margin: 0; }
h2 { font-size: 13px; letter-spacing: .06em; text-transform: uppercase; color: var(--dim); margin: 0 0 6px; }
#health { margin: 0 0 0 auto; font-weight: 600; }
.good { color: var(--cue); }
.idle { color: var(--dim); }
.gone { color: var(--air); }
main { display: grid; grid-template-columns: 1fr 1fr; gap: 16px; padding: 16px 20px; max-width: 1200px; margin: 0 auto; }
section { background: var(--card); border: 1px solid var(--line); border-radius: 10px; padding: 16px; min-width: 0; }
section.air { border-color: var(--air); }
section.air h2 { color: var(--air); }
section.ready { border-color: var(--cue); }
section.ready h2 { color: var(--cue); }
.item { font: 700 28px/1.2 ui-monospace, "DejaVu Sans Mono", monospace; white-space: pre-wrap; overflow-wrap: anywhere; margin: 0; }
.time { font-size: 22px; font-variant-numeric: tabular-nums; margin: 8px 0 0; }
.wide { grid-column: 1 / -1; }
dl { display: grid; grid-template-columns: repeat(auto-fit, minmax(120px, 1fr)); gap: 12px; margin: 0; }
dt { font-size: 13px; color: var(--dim); }
dd { margin: 0; font-weight: 600; }
.scroll { max-height: 50vh; overflow: auto; }
.scroll:focus-visible { outline: 3px solid var(--cue); outline-offset: 2px; }
table { border-collapse: collapse; width: 100%; font-variant-numeric: tabular-nums; }
caption { text-align: left; color: var(--dim); padding-bottom: 6px; }
th, td { text-align: left; padding: 6px 12px 6px 0; border-bottom: 1px solid var(--line); }
th { font-size: 13px; color: var(--dim); }
td.id { font-family: ui-monospace, "DejaVu Sans Mono", monospace; white-space: pre-wrap; overflow-wrap: anywhere; }
"#,
            $style,
            r#"@media (max-width: 700px) { main { grid-template-columns: 1fr; padding: 12px; } .item { font-size: 22px; } #health { margin-left: 0; } }
</style>
</head>
<body>
"#,
            $body,
            r#"</main>
<script>
'use strict';
const $ = id => document.getElementById(id);
const put = (id, text) => { const e = $(id); if (e.textContent !== text) e.textContent = text; };
const two = n => String(n).padStart(2, '0');
"#,
            $script,
            r#"</script>
</body>
</html>
"#
        )
    };
}
