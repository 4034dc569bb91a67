//! The page itself and its policy. Written by page/embed from page/: change the files there, and run it.
ghost use Rattle.std.specs.Prelude.{IsTrue};
ghost use Rattle.http_header.specs.FieldValue.{is_visible_text};

use serving_http::Document;

/// The first part of the page: HTML with one style and one script, and nothing from elsewhere.
pub const PAGE: &[u8] = br##"<!doctype html>
<html lang="en">
<head>
<meta charset="utf-8">
<meta name="viewport" content="width=device-width, initial-scale=1">
<title>IBM 1401</title>
<link rel="icon" href="data:image/svg+xml,%3Csvg xmlns='http://www.w3.org/2000/svg' viewBox='0 0 16 16'%3E%3Cpath
d='M3 2h12v12H1V4z' fill='%23f3e3bd' stroke='%2323303c'/%3E%3Cpath
d='M4 6h2v3H4zM8 4h2v3H8zM11 9h2v3h-2z'/%3E%3C/svg%3E">
<style>
:root{
--room:#d9d5ca;--cabinet:#efece3;--edge:#b5b0a1;--ink:#22262a;--soft:#55564f;
--panel:#1f2b36;--panel-light:#2e3e4d;--ivory:#f3eddc;--faint:#c3ccd3;--blue:#2a5f8a;--lamp:#ffb238;
--off:#435160;--well:#10171d;--red:#a8321f;--green:#28734a;--warm:#ffdf9d;
--paper:#fdfcf5;--bar:#d9eeda;--print-ink:#1c2530;--card:#f3e3bd;--card-ink:#39321f;
--read:#d3e3f2;--punch:#f6ddd0;--print:#d9eeda;--log:#fffdf4;--lit:#b35f00;--next:#1e4a6e;
--mono:ui-monospace,"DejaVu Sans Mono",Menlo,Consolas,"Liberation Mono",monospace;
--sans:"Helvetica Neue",Helvetica,Arial,"Liberation Sans",sans-serif;
}
*{box-sizing:border-box;}
html,body{margin:0;}
body{background:var(--room);color:var(--ink);font:15px/1.4 var(--sans);overflow-wrap:anywhere;}
button,input,select,textarea{font:inherit;color:inherit;}
button{cursor:pointer;}
button:disabled,[aria-disabled=true]{cursor:default;}
.unseen{position:absolute;width:1px;height:1px;overflow:hidden;clip-path:inset(50%);white-space:nowrap;}
:focus-visible{outline:3px solid #b35f00;outline-offset:2px;}
.board :focus-visible,header :focus-visible{outline-color:var(--lamp);}
[hidden]{display:none !important;}
.skip{position:absolute;left:8px;top:-60px;background:var(--ivory);color:var(--ink);padding:8px 14px;
z-index:9;}
.skip:focus{top:8px;}
header{display:flex;flex-wrap:wrap;align-items:center;gap:6px 14px;padding:6px 14px;
background:var(--panel);color:var(--ivory);border-bottom:4px solid var(--blue);}
header h1{font-size:24px;letter-spacing:.06em;margin:0;line-height:1;}
header .what{font-size:11px;letter-spacing:.15em;text-transform:uppercase;color:var(--faint);}
header .what span{display:block;}
.seats{display:flex;flex-wrap:wrap;gap:6px;margin-left:auto;align-items:center;font-size:13px;}
.seats span{margin-right:4px;}
.seats a{font:700 13px var(--mono);width:30px;height:30px;border-radius:50%;display:grid;
place-items:center;background:var(--off);color:#fff;text-decoration:none;}
.seats a:hover{background:var(--blue);}
.seats a.taken{border:2px dashed var(--lamp);}
.seats a[aria-current]{background:var(--lamp);color:#2b1d00;}
header .after{font:13px var(--mono);display:flex;gap:8px;align-items:center;min-width:8em;}
.after i{width:11px;height:11px;border-radius:50%;background:#64d08a;}
.after.lost i{background:#ff6b57;}
header button,header select{background:var(--panel);border:1px solid var(--faint);border-radius:4px;
padding:4px 10px;color:var(--ivory);font-size:13px;}
header button[aria-pressed=true]{background:var(--lamp);color:#2b1d00;}
header button:hover{background:var(--panel-light);color:var(--ivory);}
.notice{position:fixed;inset:auto 0 0;z-index:6;pointer-events:none;background:var(--ink);
color:#fff;font-weight:700;padding:9px 14px;}
.banner{background:var(--red);color:#fff;font-weight:700;padding:9px 14px;}
main{padding:8px 10px;max-width:2200px;margin:auto;}
.stage{display:grid;gap:8px 10px;align-items:start;grid-template:
"desk printer" auto "desk core" auto "cards core" 1fr / minmax(360px, 1fr) minmax(0, max(932px, 57%));}
.stand{grid-area:desk;display:flex;flex-direction:column;gap:8px;min-width:0;}
.reader{grid-area:cards;}
.below{margin-top:10px;}
section{background:var(--cabinet);border:1px solid var(--edge);border-radius:6px;min-width:0;
box-shadow:0 1px 0 #fff inset,0 2px 5px #0002;display:flex;flex-direction:column;}
.printing{grid-area:printer;}
.storage{grid-area:core;}
.title{display:flex;flex-wrap:wrap;gap:4px 14px;align-items:center;padding:4px 12px;min-height:34px;
border-bottom:1px solid var(--edge);}
h2{margin:0;font-size:12px;letter-spacing:.14em;text-transform:uppercase;font-weight:700;
color:var(--soft);}
.title small{font-size:13px;color:var(--soft);margin-left:auto;}
.small-key{border:1px solid #8d8878;background:#fffdf6;border-radius:4px;padding:4px 11px;font-size:13px;}
.small-key:hover:not([aria-disabled=true]){background:var(--warm);}
.small-key[aria-disabled=true]{color:#585851;background:#e4e0d4;}
.small-key[aria-pressed=true]{background:var(--blue);color:#fff;box-shadow:0 2px 4px #0006 inset;}
.small-key.main{background:var(--blue);border-color:var(--blue);color:#fff;font-weight:700;}
.small-key.main:hover:not([aria-disabled=true]){background:#1e4a6e;}
.small-key.main[aria-disabled=true]{background:#e4e0d4;border-color:#8d8878;color:#585851;}
details>summary{cursor:pointer;padding:7px 14px;font-size:13px;color:var(--soft);}
details>summary:hover{color:var(--ink);}
.guide .title{flex-wrap:nowrap;}
.guide .title .small-key{font-size:12px;padding:2px 7px;flex:none;}
.guide h2{letter-spacing:.05em;}
.guide .title .small-key:first-of-type{margin-left:auto;}
.steps{list-style:none;display:flex;margin:0;padding:7px 12px 0;gap:4px;counter-reset:step;}
.steps li{flex:1 1 auto;white-space:nowrap;font-size:12px;line-height:1.2;text-align:center;
color:var(--soft);border-top:4px solid #8d8878;padding-top:4px;counter-increment:step;}
.steps li::before{content:counter(step) " ";}
.steps li.done{border-top-color:var(--green);}
.steps li.done::before{content:"\2713\a0";}
.steps li[aria-current]{border-top-color:var(--lit);color:var(--ink);}
.guide{position:relative;}
.probe{position:absolute;visibility:hidden;min-height:0 !important;inset:0 0 auto;}
.guide p{margin:0;padding:6px 12px 8px;}
.guide .row{padding:0 12px 9px;margin:0;}
.guide .over-parts{position:absolute;inset:100% -1px auto;z-index:5;padding:10px 12px;
background:var(--cabinet);border:1px solid var(--edge);border-radius:0 0 6px 6px;
box-shadow:0 6px 14px #0005;}
.name-keys{display:grid;grid-template-columns:repeat(auto-fill, minmax(44px, 1fr));gap:5px;flex:1 1 100%;}
.name-keys button{height:44px;border:0;border-radius:4px;background:#2d3338;color:#fff;
font:700 17px var(--mono);box-shadow:0 2px 0 #14181b;}
.name-keys .wide{grid-column:span 2;background:var(--ivory);color:#1f2225;font:700 14px var(--sans);}
.name-keys button:active{transform:translateY(2px);box-shadow:none;}
#name-words{flex:1 1 100%;min-height:1.4em;}
#name{width:15em;font:15px var(--mono);padding:4px 8px;text-transform:uppercase;border:1px solid #8d8878;
border-radius:4px;background:#fff;}
.lit{outline:4px solid var(--lit) !important;outline-offset:2px;animation:lit 1.2s steps(3) infinite alternate;}
.board .lit{outline-color:var(--lamp) !important;}
.lit[aria-disabled=true]{outline:0 !important;animation:none;}
@keyframes lit{from{outline-offset:1px;}to{outline-offset:4px;}}
.attracts .guide{border:2px solid var(--lit);}
#home-figure{position:absolute;top:100%;right:8px;z-index:4;width:230px;padding:8px;background:#fff;
border:1px solid var(--edge);border-radius:6px;font-size:13px;text-align:center;}
#home-code{width:100%;display:block;}
#home-code .ground{fill:#fff;}
.home-page{padding:16px;max-width:1100px;margin:auto;}
.home-page pre{font:700 max(20px, 2.4vw)/1.5 var(--mono);background:var(--paper);border:solid #8f8a7a;
border-width:1px 12px;padding:8px 14px;margin:8px 0;overflow-x:auto;}
.home>header,.home>main,.home>footer,.home .banner,.home .skip{display:none;}
.board{background:linear-gradient(var(--panel-light), var(--panel));color:var(--ivory);padding:10px 12px;
display:flex;flex-wrap:wrap;gap:9px 14px;align-items:flex-end;align-content:flex-start;flex:1;}
.shown{display:flex;flex-wrap:wrap;gap:6px 12px;}
.name{display:block;font-size:11px;letter-spacing:.1em;text-transform:uppercase;color:var(--faint);
margin-bottom:3px;}
.digits{display:flex;gap:2px;}
.digits b{font:700 19px/28px var(--mono);width:19px;text-align:center;background:var(--well);
color:var(--lamp);border-radius:2px;}
.lamps{display:flex;gap:7px;}
.lamps>div{text-align:center;}
.lamp{width:50px;height:22px;border-radius:3px;background:var(--off);box-shadow:0 1px 3px #0006 inset;
margin:auto;}
.lamp.on{background:var(--lamp);border:3px solid #fff;box-shadow:0 0 13px #ffb238a0;}
.next{flex:1 1 100%;min-width:0;}
.next div{display:flex;flex-wrap:wrap;justify-content:space-between;column-gap:14px;padding:0 11px;
font:700 17px/30px var(--mono);background:var(--well);color:var(--lamp);border-radius:2px;
white-space:pre;overflow:hidden;min-height:30px;}
.next small{font:13px/30px var(--sans);color:var(--faint);}
.switches{display:flex;gap:5px;}
.switches button{width:28px;height:40px;border:0;border-radius:3px;padding:0 0 16px;color:#26221a;
background:linear-gradient(#dcd5c0 50%, #a9a28d 50%);font:700 13px var(--mono);}
.switches button[aria-pressed=true]{background:linear-gradient(#a9a28d 50%, #ffdf9d 50%);padding:16px 0 0;}
.keys{flex:1 1 100%;display:flex;flex-wrap:wrap;gap:8px;align-items:flex-end;}
.key{border:0;border-radius:4px;min-width:58px;height:44px;padding:0 10px;font-weight:700;
font-size:13px;letter-spacing:.07em;background:var(--ivory);color:#1f2225;box-shadow:0 3px 0 #8f8a79;}
.key.go{background:var(--green);color:#fff;box-shadow:0 3px 0 #174a2e;}
.key.halt{background:var(--red);color:#fff;box-shadow:0 3px 0 #651a0f;}
.key:active:not([aria-disabled=true]){transform:translateY(2px);box-shadow:none;}
.key[aria-disabled=true]{background:var(--off);color:#d5dce2;box-shadow:none;}
.start{display:flex;align-items:flex-end;}
.start input{width:4.6em;height:44px;border:0;border-radius:4px 0 0 4px;background:var(--well);
color:var(--lamp);font:700 17px var(--mono);text-align:center;padding:0;}
.start .key{border-radius:0 4px 4px 0;}
.pace{margin-left:auto;}
.pace select{height:34px;border:1px solid var(--faint);border-radius:4px;background:var(--panel);
color:var(--ivory);padding:0 6px;max-width:100%;}
.said{flex:1 1 100%;background:var(--cabinet);color:var(--ink);border-radius:4px;padding:6px 10px;
min-height:70px;}
.said p{margin:0;font-size:16px;font-weight:700;}
.said code{font:13px var(--mono);color:var(--soft);}
.bulbs{font:11px var(--mono);color:var(--faint);}
.bulbs>div{display:flex;gap:3px;align-items:center;}
.bulbs i{width:15px;height:15px;border-radius:50%;background:var(--off);font-style:normal;color:#fff;
text-align:center;line-height:15px;font-size:11px;}
.bulbs i.on{background:var(--lamp);color:#2b1d00;font-weight:700;}
.bulbs b{min-width:3.2em;color:var(--ivory);}
.tabs{display:flex;flex-wrap:wrap;gap:4px;}
.tabs button{border:1px solid #8d8878;background:#fffdf6;border-radius:3px;padding:2px 8px;
font:12px/18px var(--mono);}
.tabs button:hover{background:var(--warm);}
.tabs button[aria-pressed=true]{background:var(--blue);color:#fff;border-color:var(--blue);}
.find{display:flex;gap:6px 12px;align-items:center;padding:2px 14px 6px;font-size:13px;flex-wrap:wrap;}
.find label{display:flex;gap:6px;align-items:center;}
.find input[type=text]{width:4.2em;padding:2px 6px;font:13px var(--mono);border:1px solid #8d8878;
border-radius:3px;background:#fff;}
.core{padding:8px 12px 4px;container-type:inline-size;}
.core table{border-collapse:separate;border-spacing:0;font-family:var(--mono);table-layout:fixed;
width:100%;font-size:min(17px,calc((100cqi - 46px) / 50));}
.core.narrow table{font-size:14px;}
.core th{font:11px/20px var(--mono);color:var(--soft);text-align:right;padding:0 8px 0 0;width:46px;}
.core thead th{text-align:left;padding:0;font-size:10px;line-height:14px;width:auto;}
.core thead th:first-child{width:46px;}
.core td{height:21px;text-align:center;padding:0;border-bottom:3px solid transparent;background:#fff;
border-top:1px solid #e7e4da;line-height:17px;cursor:cell;overflow:hidden;}
.core td.ten{border-left:1px solid #bdb8a8;}
.core td.read{background:var(--read);}
.core td.punch{background:var(--punch);}
.core td.print{background:var(--print);}
.core td.next{background:var(--next);color:#fff;}
.core td.next.mark{border-bottom-color:#ffb238;}
.core td.mark{border-bottom-color:#14181c;}
.core td:focus{outline:2px solid #b35f00;outline-offset:-1px;}
.cell{margin:0;flex:1 1 300px;text-align:right;font-size:14px;}
.legend{display:flex;gap:4px 16px;font-size:12.5px;color:var(--soft);padding:4px 14px 2px;
flex-wrap:wrap;}
.legend i{display:inline-block;width:14px;height:13px;margin-right:5px;vertical-align:-2px;
border:1px solid #0003;}
.legend .read{background:var(--read);}
.legend .punch{background:var(--punch);}
.legend .print{background:var(--print);}
.legend .next{background:var(--next);}
.legend .mark{background:#fff;border-bottom:3px solid #14181c;}
.as-text{margin:0;padding:0 14px 10px;font:13px/18px var(--mono);white-space:pre;overflow-x:auto;}
.about-program{margin:0;padding:0 14px 6px;white-space:pre-line;}
#source{max-height:24em;overflow:auto;}
#source.whole{max-height:none;}
.cards{padding:10px 14px;}
.transport{display:flex;gap:10px;padding:2px 12px 4px;align-items:flex-end;}
.track{flex:1;text-align:center;font-size:12.5px;color:var(--soft);}
.station{height:40px;margin-bottom:3px;border-bottom:3px solid #8d8878;position:relative;overflow:hidden;
background:linear-gradient(90deg, #0000, #0002 50%, #0000);}
.station i{position:absolute;left:calc(50% - 36px);bottom:1px;width:72px;height:32px;
background:var(--card);border:1px solid #8a6d2c;border-radius:3px;}
.station i.none{visibility:hidden;}
.stack{text-align:center;font-size:12.5px;color:var(--soft);}
.stack b{font:700 15px var(--mono);color:var(--ink);}
.stack .tray{width:78px;height:40px;display:flex;align-items:flex-end;justify-content:center;
margin-bottom:3px;border:solid #8d8878;border-width:0 2px 3px;border-radius:0 0 4px 4px;
background:linear-gradient(#0000, #0001);}
.stack em{display:block;width:70px;height:calc(var(--cards, 0) * .07px + 2px);border:1px solid #c7ae74;
border-bottom:0;background:repeating-linear-gradient(#f6e9c9 0 2px, #d9c28c 2px 3px);}
.stack em.none{visibility:hidden;}
.card svg{width:100%;display:block;filter:drop-shadow(0 2px 2px #0003);}
.card svg text{white-space:pre;font-family:var(--mono);}
.card figcaption{font-size:12.5px;color:var(--soft);margin-bottom:3px;}
.card .edge{fill:var(--card);stroke:#cbb27a;}
.card .typed{fill:var(--card-ink);font-size:8.2px;font-weight:700;}
.card .rows{fill:#765a1d;font-size:5px;}
.card .holes{fill:#2c271d;}
.card .columns{fill:#765a1d;font-size:4px;}
.card.none svg{visibility:hidden;}
figure{margin:0;}
.pair{display:grid;grid-template-columns:minmax(0, 1fr) minmax(0, 1fr);gap:14px;padding:0 14px 10px;}
.feed{padding:8px 12px;display:flex;flex-wrap:wrap;gap:8px 10px;
align-items:center;}
.how{flex:1 1 100%;font-size:13.5px;color:var(--soft);margin:0;padding:0 12px 6px;min-height:1.7em;}
.feed select{height:31px;max-width:100%;border:1px solid #8d8878;border-radius:4px;background:#fff;}
.feeder .row{padding:0 12px;margin:0;}
.feeder .how{min-height:3.3em;}
body:not(.exhibit) .feeder .how:empty::before{content:attr(title);}
progress{flex:1 1 120px;height:16px;accent-color:var(--blue);}
.over{outline:3px dashed #b35f00;outline-offset:-4px;}
.wrong,.how.wrong{color:var(--red);font-weight:700;}
.desk{border-top:1px solid var(--edge);}
.desk .inside{padding:0 14px 12px;}
textarea{width:100%;font:13px/18px var(--mono);border:1px solid #8d8878;border-radius:4px;
padding:6px 8px;background:#fff;white-space:pre;overflow-x:auto;resize:vertical;}
.row{display:flex;flex-wrap:wrap;gap:8px 10px;align-items:center;margin-top:8px;}
.keyed{width:100%;font:14px var(--mono);border:1px solid #8d8878;border-radius:4px;padding:6px 8px;
background:#fff;text-transform:uppercase;margin:8px 0;}
.keyboard{display:grid;gap:5px;justify-content:center;background:#6c7276;padding:10px;
border-radius:6px;}
.keyboard div{display:flex;gap:5px;justify-content:center;flex-wrap:wrap;}
.keyboard button{min-width:28px;height:30px;border:0;border-radius:4px;background:#2d3338;color:#fff;
padding:0 6px;font:700 14px var(--mono);box-shadow:0 2px 0 #14181b;}
.keyboard button.wide{background:var(--ivory);color:#1f2225;box-shadow:0 2px 0 #8f8a79;
font:700 12px var(--sans);}
#card-to-print{display:none;}
.keyboard button:active{transform:translateY(2px);box-shadow:none;}
.printer{display:grid;grid-template:minmax(0, 1fr) / 30px minmax(0, 1fr);gap:6px;padding:6px;}
.tape{width:30px;height:100%;}
.tape .strip{fill:#fbf6e4;stroke:#b3a885;}
.tape .hole{fill:#2c271d;}
.tape .feed-hole{fill:#d9cfae;}
.tape .pointer{fill:var(--red);}
.machine{min-width:0;display:flex;flex-direction:column;container-type:inline-size;}
.slot{flex:0 0 13px;background:linear-gradient(#5d646a, #2b2f33);border-radius:5px 5px 2px 2px;}
.fold{margin:0 2px;overflow:auto;background:#a6a294;box-shadow:0 4px 9px #0003;position:relative;
scrollbar-width:thin;height:clamp(110px,calc(var(--lines, 0) * 1.1em + 100px),46vh);}
.sheet{position:relative;border-bottom:1px dashed #8f8a7a;padding:0 16px;width:calc(32px + 79.6em);
min-width:100%;font:max(11px,calc((100cqi - 48px) / 79.6))/1.18 var(--mono);
background:repeating-linear-gradient(var(--paper) 0 3.54em, var(--bar) 3.54em 7.08em);}
.sheet pre{margin:0;font:inherit;color:var(--print-ink);height:77.88em;overflow:hidden;}
.sheet span{display:block;height:1.18em;position:relative;}
.large .sheet{font-size:max(16px,calc((100cqi - 48px) / 79.6 * 1.4));}
.sheet::before,.sheet::after{content:"";position:absolute;top:0;bottom:0;width:15px;
background:radial-gradient(circle at 50% 50%, #8f8a7a 0 .42em, transparent .48em) 0 0/15px 3.54em var(--paper);}
.sheet::before{left:0;border-right:1px dotted #c8c3b2;}
.sheet::after{right:0;border-left:1px dotted #c8c3b2;}
.sheet span.at{box-shadow:-16px 0 0 #ffb23866,16px 0 0 #ffb23866;background:#ffb23833;}
.paper-keys{display:flex;flex-wrap:wrap;gap:8px;padding:0 14px 11px;align-items:center;font-size:13px;
color:var(--soft);}
#sheets-to-print{display:none;}
.newest{display:none;position:fixed;inset:auto 0 0;z-index:4;padding:6px 14px;
font:700 17px/1.4 var(--mono);
white-space:pre;overflow:hidden;color:var(--print-ink);background:var(--bar);border-top:2px solid #8f8a7a;}
.log{height:250px;overflow:auto;padding:9px 15px;
font:14px/20px var(--mono);background:var(--log);border-bottom:1px solid var(--edge);}
.log p{margin:0;white-space:pre-wrap;}
.log .you{color:var(--blue);}
.log .you::before{content:"> ";}
.log .bad{color:var(--red);}
.log .words{color:var(--soft);font-family:var(--sans);font-size:13px;padding-left:1.2em;}
.console form{display:flex;gap:8px;padding:6px 8px;}
.console form input{flex:1;min-width:0;font:15px var(--mono);padding:8px 10px;border:1px solid #8d8878;
border-radius:4px;background:#fff;}
.console form input::placeholder{color:#6b6b64;}
.console form button{border:0;border-radius:4px;background:var(--blue);color:#fff;padding:0 18px;
font-weight:700;}
@media (min-width:900px) and (min-height:700px){
.sends{scroll-padding-bottom:200px;}
.sends .below{position:sticky;bottom:0;z-index:6;}
.sends .log{height:86px;}
.sends #lines-details[open]{max-height:200px;overflow:auto;}
}
.lines{border-collapse:collapse;margin:0 14px 12px;font-size:13.5px;}
.lines td{padding:2px 16px 2px 0;vertical-align:top;}
.lines td:first-child{font:13px/19px var(--mono);white-space:nowrap;}
footer{font-size:13px;color:#45463f;padding:0 22px 16px;max-width:1900px;margin:auto;}
dialog{border:1px solid var(--edge);border-radius:8px;background:var(--cabinet);color:var(--ink);
padding:18px 22px;max-width:min(46em, calc(100vw - 24px));box-shadow:0 8px 40px #0008;}
dialog::backdrop{background:#10171dcc;}
dialog h2{margin:14px 0 6px;font-size:13px;}
dialog h2:first-child{margin-top:0;}
dialog ol{margin:0;padding-left:1.4em;}
dialog .row{justify-content:flex-end;margin-top:16px;}
dialog .lines{margin:0;}
dialog svg{width:100%;height:auto;background:var(--panel);border-radius:6px;}
dialog dt{font-weight:700;}
dialog dd{margin:0 0 5px;}
dialog svg text{fill:#fff;font-size:14px;text-anchor:middle;}
dialog svg rect{fill:#2e3e4d;stroke:#c3ccd3;}
dialog svg path{stroke:#ffb238;stroke-width:3;fill:none;}
.stage-screen{position:fixed;inset:0;z-index:2;container-type:size;overflow:hidden;
background:var(--room);}
.exhibit,.watch{overflow:hidden;padding:0;}
.exhibit>header,.exhibit>.skip,.exhibit>footer,.exhibit .newest,.watch>header,.watch>.skip,
.watch>main,
.watch>footer,.watch .newest{display:none;}
.exhibit>main{display:none;}
.exhibit.more>main{display:block;position:fixed;inset:60px 0 0;z-index:6;overflow:auto;
background:var(--room);}
.exhibit .console,.exhibit .guide,.exhibit #pick-key,.exhibit .paper-keys,.exhibit #save-cards-key,
.exhibit .notice,
.exhibit #card-print-key,.exhibit .reader .title small,.exhibit .said code{display:none !important;}
.exhibit #watch-stop,.exhibit #watch-hold,.watch #more-key,.watch #turn-key,.watch #why-key,.watch .stage-keys,
.watch .stage-said,.watch #name-form{display:none !important;}
.stage-screen>*{position:absolute;left:14px;right:14px;margin:0;}
.stage-screen button,.stage-screen select{min-height:56px;min-width:56px;font-size:17px;}
.stage-head{top:0;height:60px;display:flex;align-items:center;gap:14px;left:0;right:0;padding:0 14px;
background:var(--panel);color:var(--ivory);border-bottom:4px solid var(--blue);z-index:7;}
.stage-screen>.stage-head{left:0;right:0;}
.stage-head h1{margin:0;font-size:min(26px, 5.4cqw);}
.stage-head div{margin-left:auto;display:flex;gap:8px;}
.stage-head button,.stage-head select{min-height:48px;background:var(--panel);color:var(--ivory);
border:1px solid
var(--faint);border-radius:4px;padding:0 12px;}
.stage-head .small-key:hover:not([aria-disabled=true]){background:var(--panel-light);}
#machines{top:66px;height:21cqh;width:calc(100% - 28px);}
#machines text{font:700 17px var(--sans);fill:var(--ink);text-anchor:middle;}
#machines .cabinet{fill:var(--cabinet);stroke:var(--edge);stroke-width:2;}
#machines .tray,#machines .slot{fill:var(--panel);stroke:#8d8878;}
#machines .pile{fill:var(--card);stroke:#8a6d2c;}
#machines .pile.none{visibility:hidden;}
#machines .light{fill:#0b0f13;stroke:var(--off);stroke-width:2;}
#machines .light.on{fill:var(--lamp);stroke:#fff1cf;}
#machines .paper{fill:var(--paper);stroke:#8f8a7a;}
#machines .row{fill:var(--print-ink);}
#machines .chain{stroke:#d5dce2;stroke-width:8;stroke-dasharray:7 5;}
.stage-screen #stage-card{top:calc(74px + 21cqh);height:29cqh;right:auto;width:min(47cqw, 76cqh);}
#stage-card svg{height:calc(100% - 22px);width:100%;}
#stage-card figcaption{font-size:15px;font-weight:700;color:var(--ink);}
#stage-card .cuts{stroke:var(--room);stroke-width:2.4;}
#stage-card .lit-part{fill:var(--lamp);opacity:.45;}
.stage-screen .strip{top:calc(74px + 21cqh);height:29cqh;left:auto;width:min(49cqw, 90cqh);display:grid;
gap:1px;
grid-template-columns:2.6em repeat(20, minmax(0, 1fr));font:700 min(1.9cqw, 3.4cqh)/1.35 var(--mono);}
.strip b{font-size:.72em;color:var(--soft);align-self:center;}
.strip span{background:var(--read);text-align:center;border-bottom:4px solid transparent;overflow:hidden;}
.strip .print{background:var(--print);}
.strip .mark{border-bottom-color:#14181c;}
.strip .next{background:var(--next);color:#fff;}
.strip .next.mark{border-bottom-color:var(--lamp);}
.strip .touched{background:var(--lamp);color:#2b1d00;}
.stage-screen .tour{top:66px;height:21cqh;padding:8px 14px;background:var(--paper);
border:3px solid var(--blue);
border-radius:8px;display:flex;gap:10px 16px;align-items:center;justify-content:space-between;z-index:3;}
.tour p{margin:0;font-size:min(26px, 3.6cqh);font-weight:700;flex:1;}
.tour div{display:flex;gap:8px;align-items:center;flex-wrap:wrap;}
.tour button,#why-key{border:1px solid #8d8878;border-radius:6px;background:#fffdf6;padding:0 14px;
font-weight:700;}
.tour button[aria-disabled=true]{color:#585851;background:#e4e0d4;}
#why-key[aria-pressed=true]{background:var(--blue);color:#fff;box-shadow:0 2px 4px #0006 inset;}
.stage-screen .band{top:calc(84px + 50cqh);max-height:calc(48cqh - 190px);overflow:hidden;display:flex;
flex-direction:column;justify-content:flex-end;background:var(--paper);border:solid #8f8a7a;
border-width:0 12px 1px;}
.band p{margin:0;padding:0 10px;font:max(24px,min(4.4cqh, 158cqw / var(--columns, 26)))/1.4 var(--mono);
white-space:pre;color:var(--print-ink);flex:none;}
.band p:nth-last-child(even){background:var(--bar);}
.band p:last-child{font-weight:700;}
.stage-screen .stage-said{bottom:14px;right:auto;width:calc(100% - 28px - 110px - min(560px, 52cqw));
height:92px;
display:flex;align-items:center;background:var(--cabinet);border-radius:6px;padding:6px 12px;
overflow:hidden;}
.stage-said p{margin:0;font-size:min(30px, 2.1cqw);font-weight:700;line-height:1.2;}
.stage-screen #guide-said{min-height:0 !important;}
.stage-screen #why-key{bottom:14px;height:92px;width:92px;left:auto;right:calc(24px + min(560px, 52cqw));}
.stage-screen .stage-keys{bottom:14px;height:92px;left:auto;width:min(560px, 52cqw);display:grid;gap:10px;
grid-template-columns:repeat(4, minmax(0, 1fr));}
.stage-screen .stage-keys button{height:auto;min-height:64px;min-width:0;padding:0 4px;
font-size:min(22px, 2.2cqw);font-weight:700;
border-radius:8px;}
.stage-keys .small-key.main{background:var(--blue);}
.stage-screen #name-form{inset:66px 14px auto;z-index:4;padding:14px;border-radius:8px;
box-shadow:0 8px 30px #0006;
background:var(--cabinet);margin:0;font-size:20px;}
.stage-screen #name{font-size:24px;height:56px;width:min(15em, 60cqw);}
.stage-screen .name-keys{grid-template-columns:repeat(auto-fill, minmax(56px, 1fr));}
.stage-screen .name-keys button{font-size:22px;}
.stage-screen .leaving{inset:30% 14px auto;z-index:9;background:var(--ink);color:#fff;text-align:center;
border-radius:10px;padding:20px;font-size:min(34px, 6cqw);font-weight:700;}
.stage-screen .touch-me{inset:calc(100cqh - max(120px, 20cqh)) 0 0;z-index:8;display:grid;place-items:center;
text-align:center;
background:#10171dd9;color:#fff;}
.touch-me p{margin:0;font-size:max(60px, 9cqh);line-height:1.1;font-weight:700;}
#stage #home-figure{top:auto;left:auto;right:14px;bottom:116px;width:min(240px, 30cqh);z-index:3;}
.watch .band{max-height:calc(50cqh - 100px);}
.watch .band p{font-size:max(24px,min(6.4cqh, 158cqw / var(--columns, 26)));}
.watch .strip{font-size:max(24px, min(1.9cqw, 3.4cqh));}
.stage-head #stage-who{font-size:24px;}
@container (max-width:640px){
.stage-screen>*{left:8px;right:8px;}
.stage-screen>.stage-head{padding:0 6px;gap:6px;}
.stage-head h1{font-size:15px;}
.stage-head div{gap:4px;}
.stage-head button,.stage-head select{padding:0 6px;font-size:14px;}
.stage-head select{max-width:84px;}
#more-key{white-space:nowrap;}
#machines{height:12cqh;width:calc(100% - 16px);}
.stage-screen #stage-card{top:calc(70px + 12cqh);height:19cqh;width:calc(100% - 16px);}
.stage-screen .strip{top:calc(74px + 31cqh);height:18cqh;left:8px;width:auto;
font-size:min(3.6cqw, 2.2cqh);}
.stage-screen .tour{height:calc(4px + 31cqh);flex-direction:column;top:66px;}
.tour p{font-size:20px;}
.stage-screen .band{top:calc(80px + 49cqh);max-height:calc(50cqh - 290px);border-width:0 6px 1px;}
.band p{padding:0 4px;}
.stage-screen .stage-said{bottom:92px;height:88px;width:calc(100% - 16px - 82px);right:auto;}
.stage-said p{font-size:16px;}
.stage-screen #why-key{bottom:92px;right:8px;width:74px;height:88px;padding:0;}
.stage-screen .stage-keys{bottom:10px;height:72px;width:calc(100% - 16px);gap:6px;}
.stage-screen .stage-keys button{font-size:15px;}
.stage-screen #name-form{inset:66px 8px auto;font-size:17px;padding:10px;}
.stage-screen .name-keys{grid-template-columns:repeat(auto-fill, minmax(44px, 1fr));}
.stage-screen .name-keys button{min-width:44px;min-height:50px;}
.touch-me p{font-size:60px;}
#stage #home-figure{bottom:190px;width:150px;}
}
@media (max-width:1579px){
.tape{display:none;}
.printer{grid-template:minmax(0, 1fr) / minmax(0, 1fr);padding:4px;}
}
@media (max-width:1299px){
.stage{grid-template-columns:minmax(360px, 400px) minmax(0, 1fr);}
.pair{grid-template-columns:minmax(0, 1fr);}
}
@media (max-width:899px){
.stage{grid-template:"desk" "printer" "core" "cards" / minmax(0, 1fr);}
.newest{display:block;}
.notice{bottom:38px;}
body{padding-bottom:44px;}
}
@media (max-width:640px){
main{padding:6px;}
.seats{margin-left:0;}
.steps li{font-size:11px;}
.pace{margin-left:0;}
.title small{margin-left:0;}
.cell{text-align:left;}
.pair{grid-template-columns:minmax(0, 1fr);padding:0 10px 10px;}
.keyboard{padding:7px 4px;}
.keyboard button{min-width:25px;padding:0 3px;}
.lines td:first-child{white-space:normal;}
.lines td{padding-right:8px;}
}
@media (min-width:3000px){
body{zoom:1.75;}
}
@media (pointer:coarse){
button,select,summary,.find label{min-height:44px;min-width:44px;}
}
@media (prefers-reduced-motion:reduce){
*{animation:none !important;transition:none !important;scroll-behavior:auto !important;}
}
@media (forced-colors:active){
.core td,.core td.read,.core td.punch,.core td.print{forced-color-adjust:none;background:Canvas;
color:CanvasText;border-bottom-color:Canvas;border-top-color:Canvas;}
.core td.mark.mark{border-bottom-color:CanvasText;}
.core td.next.next{background:Highlight;color:HighlightText;}
.core td.next.mark.mark{border-bottom-color:HighlightText;}
.lamp,.bulbs i,header .after i{forced-color-adjust:none;background:Canvas;color:CanvasText;
border:1px solid CanvasText;}
.bulbs i{line-height:13px;}
.lamp.on{border:3px solid CanvasText;}
.lamp.on,.bulbs i.on{background:Highlight;color:HighlightText;}
.switches button,.keyboard button,.key,.tabs button,header button{border:1px solid ButtonText;}
[aria-pressed=true]{forced-color-adjust:none;background:Highlight !important;color:HighlightText !important;}
.seats a[aria-current]{forced-color-adjust:none;background:Highlight;color:HighlightText;}
.steps li[aria-current]{border-top-color:Highlight;}
.sheet span.at{outline:1px solid Highlight;}
.lit{outline-color:Highlight !important;}
}
@page{size:A4 landscape;margin:8mm;}
@media print{
body>*{display:none !important;}
body{background:#fff;}
body:not(.prints-card)>#sheets-to-print{display:block !important;}
body.prints-card>#card-to-print{display:block !important;width:187mm;}
#sheets-to-print .sheet{font:2.5mm/1.14 var(--mono);min-width:0;width:100%;padding:0 10mm;border:0;
break-after:page;break-inside:avoid;
background:repeating-linear-gradient(#fff 0 3.42em, var(--bar) 3.42em 6.84em);print-color-adjust:exact;
-webkit-print-color-adjust:exact;}
#sheets-to-print .sheet pre{height:75.24em;width:132ch;margin:0 auto;}
#sheets-to-print .sheet span{height:1.14em;}
#sheets-to-print .sheet::before,#sheets-to-print .sheet::after{background-size:15px 3.42em;
background-color:#fff;}
}
</style>
</head>
<body>
<a class="skip" href="#feed-key" data-text="skip"></a>
<header>
<h1>1401</h1>
<div class="what"><span data-text="headline"></span><span data-text="subline"></span></div>
<nav class="seats" id="seats" data-label="seatsLabel"></nav>
<div class="after lost" id="link"><i></i><span id="after"></span></div>
<button type="button" id="about-key" data-text="aboutKey"></button>
<button type="button" id="help-key" data-text="helpKey"></button>
<button type="button" id="sound-key" data-text="soundKey" aria-pressed="false"></button>
<select id="language" data-label="languageLabel"></select>
</header>
<div class="banner" id="banner" role="alert" hidden></div>
<div class="notice" id="notice" role="status" hidden><span id="notice-words"></span><span id="notice-left"
aria-hidden="true"></span></div>
<noscript><p class="banner">This page needs JavaScript, which it has within itself.</p></noscript>
<div class="home-page" id="home" hidden>
<h1 data-text="homeTitle"></h1>
<figure class="card" id="home-card"></figure>
<h2 data-text="homeLine"></h2><pre id="home-line"></pre>
</div>
<div class="stage-screen" id="stage" hidden>
<div class="stage-head"><h1 id="stage-name"></h1><span id="stage-who"></span><div id="stage-more">
<button type="button" class="small-key" id="watch-stop" data-text="watchStop"></button>
<button type="button" class="small-key" id="watch-hold" data-text="watchHold" aria-pressed="false"></button>
<button type="button" class="small-key" id="more-key" data-text="moreKey" aria-expanded="false"></button>
</div></div>
<svg id="machines" viewBox="0 0 900 180" role="img" data-label="machinesLabel"></svg>
<figure class="card" id="stage-card"><figcaption id="stage-card-name"></figcaption></figure>
<div class="strip" id="strip" role="img"></div>
<div class="tour" id="tour" role="group" data-label="tourLabel" hidden>
<p id="tour-words" aria-live="polite"></p>
<div><button type="button" id="tour-back" data-text="tourBack"></button>
<button type="button" id="tour-pause"></button>
<button type="button" id="tour-next" data-text="tourNext"></button><span id="tour-at"></span></div></div>
<div class="band" id="band" role="region" data-label="paperLabel"></div>
<div class="stage-said" id="stage-said"></div>
<button type="button" id="why-key" data-text="whyKey" aria-pressed="false"></button>
<div class="stage-keys" id="stage-keys"></div>
<div class="leaving" id="leaving" role="alert" hidden><p id="leaving-words"></p></div>
<div class="touch-me" id="touch-me" hidden><p id="touch-words"></p></div>
</div>
<main>
<div class="stage">
<div class="stand">
<section class="guide" id="guide" aria-labelledby="guide-title">
<div class="title"><h2 id="guide-title" data-text="guideTitle"></h2>
<button type="button" class="small-key" id="turn-key" hidden></button>
<button type="button" class="small-key" id="guide-key"></button>
<button type="button" class="small-key" id="afresh-key" data-text="afreshKey" data-title="afreshTitle"></button>
</div>
<ol class="steps" id="guide-steps"></ol>
<div id="guide-said"><p id="guide-now" aria-live="polite"></p>
<div class="row" id="guide-end" hidden>
<button type="button" class="small-key" id="card-print-key" data-text="cardPrintKey"></button></div></div>
<figure id="home-figure" hidden><figcaption data-text="homeCode"></figcaption>
<svg id="home-code" role="img" data-label="homeCode"></svg></figure>
<form class="row over-parts" id="name-form" hidden>
<label><span data-text="nameLabel"></span> <input id="name" maxlength="40" autocomplete="off"
spellcheck="false" autocapitalize="characters"></label>
<button class="small-key main" id="name-key" data-text="nameKey"></button>
<span id="name-words" role="status"></span>
<div class="name-keys" id="name-keys" role="group" data-label="nameKeys"></div></form>
</section>
<section class="feeder" id="feeder" aria-labelledby="feeder-title">
<h2 id="feeder-title" class="unseen" data-text="feeder"></h2>
<div class="feed">
<label><span class="unseen" data-text="programLabel"></span><select id="program"></select></label>
<button type="button" class="small-key main" id="feed-key" data-text="feedKey"></button>
<button type="button" class="small-key" id="pick-key" data-text="pickKey"></button>
<input type="file" id="file" hidden>
</div>
<div class="transport" id="transport" role="img">
<div class="stack"><div class="tray"><em id="hopper-pile" class="none"></em></div>
<span><b id="HOPPER">000</b> <span data-text="hopper"></span></span></div>
<div class="track"><div class="station"><i id="moving-card" class="none"></i></div>
<span data-text="readStation"></span></div>
<div class="stack"><div class="tray"><em id="stacker-pile" class="none"></em></div>
<span><b id="STACKER">000</b> <span data-text="stacker"></span></span></div>
</div>
<div class="row" id="feeding" hidden>
<progress id="feed-bar" max="1" value="0" data-label="feedingLabel"></progress><span id="feed-count"></span>
<button type="button" class="small-key" id="feed-stop" data-text="feedStop"></button></div>
<p class="how" id="deck-words" role="status" data-title="lessonsHint"></p>
</section>
<section class="panel" aria-labelledby="panel-title">
<div class="title"><h2 id="panel-title" data-text="panel"></h2><small id="running"></small>
<button type="button" class="small-key" id="view-key" data-text="viewKey" aria-pressed="false"></button></div>
<div class="board">
<div class="keys">
<button type="button" class="key" id="load-key" data-text="loadKey" data-title="loadTitle"></button>
<button type="button" class="key go" id="run-key" data-text="runKey" data-title="runTitle"></button>
<button type="button" class="key halt" id="stop-key" data-text="stopKey" data-title="stopTitle"></button>
<button type="button" class="key" id="step-key" data-text="stepKey" data-title="stepTitle"></button>
<form class="start" id="start-form">
<input id="start-at" inputmode="numeric" maxlength="5" value="0001" autocomplete="off"
data-label="startLabel">
<button class="key" id="start-key" data-text="startKey" data-title="startTitle"></button>
</form>
<label class="pace"><span class="name" data-text="pace"></span><select id="pace"></select></label>
</div>
<div class="said" role="status"><p id="said-words"></p><code id="said-reply"></code></div>
<div class="shown" id="registers">
<div><span class="name" data-text="registerI"></span><div class="digits" id="I" role="img"></div></div>
<div><span class="name" data-text="registerA"></span><div class="digits" id="A" role="img"></div></div>
<div><span class="name" data-text="registerB"></span><div class="digits" id="B" role="img"></div></div>
</div>
<div class="shown bulbs" id="bulbs" hidden></div>
<div class="next" role="group" aria-labelledby="next-name">
<span class="name" id="next-name" data-text="next"></span>
<div><span id="next"></span><small id="next-words"></small></div></div>
<div class="lamps" id="lamps"></div>
<div><span class="name" id="switches-name" data-text="switches"></span>
<div class="switches" id="switches" role="group" aria-labelledby="switches-name"></div></div>
</div>
</section>
</div>
<section class="printing" aria-labelledby="printer-title">
<div class="title"><h2 id="printer-title" data-text="printer"></h2><small id="paper-at"></small></div>
<div class="printer">
<svg class="tape" id="tape" viewBox="0 0 60 330" preserveAspectRatio="none" role="img"></svg>
<div class="machine"><div class="slot"></div>
<div class="fold" id="fold" tabindex="0" role="region" data-label="paperLabel"></div></div>
</div>
<div class="paper-keys">
<button type="button" class="small-key" id="tear-key" data-text="tearKey" data-title="tearTitle"></button>
<button type="button" class="small-key" id="save-key" data-text="saveKey"></button>
<button type="button" class="small-key" id="print-key" data-text="printKey"></button>
<button type="button" class="small-key" id="large-key" data-text="largeKey" aria-pressed="false"></button>
<button type="button" class="small-key" id="to-carriage" data-text="toCarriage" hidden></button>
<span id="torn-words"></span>
<button type="button" class="small-key" id="take-stop" data-text="takeStop" hidden></button>
<button type="button" class="small-key" id="drop-key" data-text="dropKey" hidden></button>
</div>
</section>
<section class="storage" aria-labelledby="core-title">
<div class="title"><h2 id="core-title" data-text="core"></h2>
<span class="tabs" id="tabs" role="group" data-label="tabsLabel"></span></div>
<div class="core" id="core"></div>
<form class="find" id="find">
<label><span data-text="findLabel"></span><input type="text" id="find-at" inputmode="numeric" maxlength="5"
autocomplete="off"></label>
<button class="small-key" data-text="findKey"></button>
<label><input type="checkbox" id="follow" checked><span data-text="follow"></span></label>
<span class="cell" id="cell"></span></form>
<div class="legend">
<span><i class="read"></i><span data-text="legendRead"></span></span>
<span><i class="punch"></i><span data-text="legendPunch"></span></span>
<span><i class="print"></i><span data-text="legendPrint"></span></span>
<span><i class="next"></i><span data-text="legendNext"></span></span>
<span><i class="mark"></i><span data-text="legendMark"></span></span>
</div>
<details id="core-details" data-label="coreText"><summary data-text="coreText"></summary>
<pre class="as-text" id="core-text" tabindex="0" data-label="coreText"></pre></details>
<details id="source-details" aria-labelledby="source-title" open><summary id="source-title"></summary>
<p class="about-program" id="source-about"></p>
<pre class="as-text" id="source" tabindex="0" role="region" data-label="sourceLabel"></pre></details>
</section>
<section class="reader" id="reader" aria-labelledby="cards-title">
<div class="title"><h2 id="cards-title" data-text="cards"></h2><small data-text="dropHere"></small></div>
<div class="cards">
<figure class="card" id="card-read"><figcaption data-text="cardRead"></figcaption></figure>
</div>
<div class="pair">
<figure class="card" id="card-next"><figcaption id="card-next-name"></figcaption></figure>
<figure class="card" id="card-punched"><figcaption id="card-punched-name"></figcaption></figure>
</div>
<div class="feed">
<button type="button" class="small-key" id="card-key" data-text="cardKey" data-title="cardTitle"></button>
<button type="button" class="small-key" id="all-cards-key" data-text="allCardsKey"></button>
<button type="button" class="small-key" id="save-cards-key" data-text="saveCardsKey" hidden></button>
<button type="button" class="small-key" id="feed-again-key" data-text="feedAgainKey" hidden></button>
<span class="how" id="taken-words" role="status"></span>
</div>
<details class="desk" id="keypunch" data-label="keypunch"><summary data-text="keypunch"></summary>
<div class="inside">
<figure class="card" id="card-keyed"></figure>
<input class="keyed" id="keyed" maxlength="80" spellcheck="false" autocomplete="off" autocapitalize="characters"
data-label="keyedLabel">
<div class="keyboard" id="keyboard" role="toolbar" data-label="keyboardLabel"></div>
<div class="row"><button type="button" class="small-key main" id="release-key" data-text="releaseKey"></button>
<button type="button" class="small-key" id="program-key" data-text="programKey"></button>
<span id="keyed-words"></span></div>
</div></details>
<details class="desk" data-label="typedDeck"><summary data-text="typedDeck"></summary><div class="inside">
<textarea id="deck" rows="6" spellcheck="false" autocapitalize="characters" data-label="typedDeck"></textarea>
<div class="row"><button type="button" class="small-key main" id="deck-key" data-text="deckKey"></button></div>
</div></details>
</section>
</div>
<div class="below">
<section class="console" aria-labelledby="console-title">
<div class="title"><h2 id="console-title" data-text="console"></h2><small id="others"></small>
<button type="button" class="small-key" id="hold-key" data-title="holdTitle" hidden></button></div>
<div class="log" id="log" role="log" aria-live="off" tabindex="0" data-label="logLabel"></div>
<form id="line-form">
<input id="line" maxlength="200" autocomplete="off" autocapitalize="characters" spellcheck="false"
data-label="lineLabel" data-hint="lineHint"><button id="send-key" data-text="sendKey"></button></form>
<details id="lines-details" data-label="linesTitle"><summary data-text="linesTitle"></summary>
<table class="lines" id="lines"></table></details>
</section>
</div>
</main>
<div class="newest" id="newest" aria-hidden="true" hidden></div>
<footer data-text="footer"></footer>
<dialog id="help" aria-labelledby="help-title">
<h2 id="help-title" data-text="shortcutsTitle"></h2><table class="lines" id="help-shortcuts"></table>
<div class="row"><button type="button" class="small-key main" id="help-close" data-text="closeKey"></button></div>
</dialog>
<dialog id="about" aria-labelledby="about-title">
<h2 id="about-title" data-text="aboutKey"></h2>
<p data-text="aboutFirst"></p>
<svg id="about-drawing" viewBox="0 0 640 190" role="img" data-label="aboutDrawing"></svg>
<h2 data-text="wordsTitle"></h2><dl id="about-words"></dl>
<h2 data-text="numbersTitle"></h2><p data-text="aboutNumbers"></p>
<div class="row"><button type="button" class="small-key main" id="about-close" data-text="closeKey"></button></div>
</dialog>
<dialog id="ask" aria-labelledby="ask-text">
<p id="ask-text"></p>
<div class="row"><button type="button" class="small-key" id="ask-no" data-text="noKey"></button>
<button type="button" class="small-key main" id="ask-yes" data-text="yesKey"></button></div>
</dialog>
<div id="sheets-to-print"></div>
<figure class="card" id="card-to-print"></figure>
<script>
'use strict';
const PROGRAM_FILES = {"banner":{"source":"~F* A BANNER: THE LETTERS OF COLUMNS 1 TO 20, EACH SEVEN LINES HIGH\n~PORG  400\n~FPLACE~FEQU  89~SINDEX REGISTER 1: IN THE NAME\n~FSHAPE~FEQU  94~SINDEX REGISTER 2: IN THE TABLE\n~FRIGHT~FEQU  99~SINDEX REGISTER 3: ON THE LINE\n~FSTART~FSW~DPLACE-2,SHAPE-2\n~PSW~DRIGHT-2\n~FNEXT~GR~YSTOPS HERE UNTIL A CARD IS FED\n~PMLC  ZERO,ROW\n~FLINE~GCS~D332\n~PCS\n~PMLC  ZERO,PLACE\n~PMLC  ZERO,RIGHT\n~FLETTER~ESW~D201+X3\n~PMLC  ZERO,SHAPE\n~PMLC  1+X1,KEY\n~FLOOK~GC~EKEY,TABLE+1+X2\n~PBE~DFOUND\n~PA~ESIZE,SHAPE\n~PC~ESHAPE,LAST\n~PBU~DLOOK\n~PB~EAFTER\n~FFOUND~FA~EROW,SHAPE\n~PMLC  TABLE+6+X2,205+X3\n~FAFTER~FA~EONE,PLACE\n~PA~ESIX,RIGHT\n~PC~EPLACE,TWENTY\n~PBU~DLETTER\n~PW\n~PA~EFIVE,ROW\n~PC~EROW,HEIGHT\n~PBU~DLINE\n~PCS~D332\n~PCS\n~PW\n~PB~ENEXT\n~FZERO~GDCW  000\n~FONE~HDCW  001\n~FFIVE~GDCW  005\n~FSIX~HDCW  006\n~FTWENTY~EDCW  020\n~FSIZE~GDCW  036\n~FHEIGHT~EDCW  035\n~FLAST~GDCW  936\n~FROW~HDCW  000\n~FKEY~HDCW  @ @\n~F* EACH ENTRY HAS A LETTER, AND FIVE PLACES FOR EACH OF SEVEN LINES\n~FTABLE~FDCW  @ @\n~PDCW  @A AAA A~DAA~DAAAAAAA~DAA~DAA~DA@\n~PDCW  @BBBBB B~DBB~DBBBBB B~DBB~DBBBBB @\n~PDCW  @C CCC C~DCC~EC~EC~EC~DC CCC @\n~PDCW  @DDDDD D~DDD~DDD~DDD~DDD~DDDDDD @\n~PDCW  @EEEEEEE~EE~EEEEE E~EE~EEEEEE@\n~PDCW  @FFFFFFF~EF~EFFFF F~EF~EF~E@\n~PDCW  @G GGG G~DGG~EG GGGG~DGG~DG GGG @\n~PDCW  @HH~DHH~DHH~DHHHHHHH~DHH~DHH~DH@\n~PDCW  @I III~DI~EI~EI~EI~EI~DIII @\n~PDCW  @J  JJJ~DJ~EJ~EJ~EJ J  J  JJ  @\n~PDCW  @KK~DKK  K K K  KK~DK K  K  K K~DK@\n~PDCW  @LL~EL~EL~EL~EL~EL~ELLLLL@\n~PDCW  @MM~DMMM MMM M MM M MM~DMM~DMM~DM@\n~PDCW  @NN~DNNN  NNN  NN N NN  NNN  NNN~DN@\n~PDCW  @O OOO O~DOO~DOO~DOO~DOO~DO OOO @\n~PDCW  @PPPPP P~DPP~DPPPPP P~EP~EP~E@\n~PDCW  @Q QQQ Q~DQQ~DQQ~DQQ Q QQ  Q  QQ Q@\n~PDCW  @RRRRR R~DRR~DRRRRR R R  R  R R~DR@\n~PDCW  @S SSSSS~ES~FSSS~FS~ESSSSS @\n~PDCW  @TTTTTT  T~ET~ET~ET~ET~ET  @\n~PDCW  @UU~DUU~DUU~DUU~DUU~DUU~DU UUU @\n~PDCW  @VV~DVV~DVV~DVV~DVV~DV V V~DV  @\n~PDCW  @WW~DWW~DWW~DWW W WW W WWW WWW~DW@\n~PDCW  @XX~DXX~DX X X~DX~DX X X~DXX~DX@\n~PDCW  @YY~DYY~DY Y Y~DY~EY~EY~EY  @\n~PDCW  @ZZZZZZ~EZ~DZ~DZ~DZ~DZ~EZZZZZ@\n~PEND  START\n","cards":[",008015,022029,036040,044051,056060/I99H039C039062B036/1001099",",047055,059063,067071,075079)044056,181L199099)060)081)181/039,0011040",",087092,0971M563587/332/M563089M563099 L038437,407,411,412,419,423,424,4311040",",2?1M563094M0'1588C5885R0B491SA578094C0L039476,442,449,456,463,468,475,0401040","94584B456/B505A587094M5R52?5A566089A572M039515,482,487,491,498,505,512,0401040","099C089575B438/2A569587C587581B419//332M039554,519,526,531,532,539,546,5511040","/2B411000001005006020~SL021575,556,557,561,564,567,570,5731040","036035936000  A AAA A~DAA~DAAAAAAA~DL039614,579,582,585,588,589,590,0401040","AA~DAA~DABBBBB B~DBB~DBBBBB B~DBB M039653,626,040,040,040,040,040,0401040","BBBBB C CCC C~DCC~EC~EC~EC~DC CM039694,662,040,040,040,040,040,0401040","CC DDDDD D~DDD~DDD~DDD~DDD~DDDDDD M039733,698,040,040,040,040,040,0401040","EEEEEEE~EE~EEEEE E~EE~EEEEEEFFFL039772,770,040,040,040,040,040,0401040","FFFF~EF~EFFFF F~EF~EF~EG GGG M039811,806,040,040,040,040,040,0401040","G~DGG~EG GGGG~DGG~DG GGG HH~DHH  M039850,842,040,040,040,040,040,0401040","HH~DHHHHHHH~DHH~DHH~DHI III~DI~EM039890,878,040,040,040,040,040,0401040","I~EI~EI~EI~DIII J  JJJ~DJ~EJ M039929,914,040,040,040,040,040,0401040","J~EJ J  J  JJ  KK~DKK  K K K  KK~DKM039971,950,040,040,040,040,040,0401040","K  K  K K~DKLL~EL~EL~EL~EL~EM039'11,986,040,040,040,040,040,0401040","L~ELLLLLMM~DMMM MMM M MM M MM~DMM  M039'50,'22,040,040,040,040,040,0401040","MM~DMNN~DNNN  NNN  NN N NN  NNN  NNN M039'90,'58,040,040,040,040,040,0401040","NO OOO O~DOO~DOO~DOO~DOO~DO OOO PPM039/31,'94,/30,040,040,040,040,0401040","PPP P~DPP~DPPPPP P~EP~EP~EQ QQQM039/70,/66,040,040,040,040,040,0401040","Q~DQQ~DQQ~DQQ Q QQ  Q  QQ QRRRRR R  M039S10,S02,040,040,040,040,040,0401040","RR~DRRRRR R R  R  R R~DRS SSSSS~ES M039S50,S38,040,040,040,040,040,0401040","SSS~FS~ESSSSS TTTTTT  T~ET~ET M039S93,S74,040,040,040,040,040,0401040","T~ET~ET  UU~DUU~DUU~DUU~DUU~DUM039T35,T10,040,040,040,040,040,0401040","U~DU UUU VV~DVV~DVV~DVV~DVV~DV V M039T74,T46,040,040,040,040,040,0401040","V~DV  WW~DWW~DWW~DWW W WW W WWW WWWM039U13,T82,040,040,040,040,040,0401040","WXX~DXX~DX X X~DX~DX X X~DXX~DXYYM039U55,U18,U54,040,040,040,040,0401040","YY~DY Y Y~DY~EY~EY~EY  ZZZZZZ  M039U97,U90,040,040,040,040,040,0401040","Z~DZ~DZ~DZ~DZ~EZZZZZ~NM039V38,040,040,040,040,040,040,0401040","~Z~O/400080","HELLO"]},"calculation":{"source":"~F* THE POWERS OF TWO: A NUMBER IS ADDED TO ITSELF, TWENTY TIMES\n~PORG  400\n~FSTART~FCS~D332\n~PCS\n~PMLC  HEAD,217\n~PW\n~FNEXT~GCS~D332\n~PCS\n~PA~E+1,COUNT\n~PA~EPOWER,POWER\n~PMCS  COUNT,204\n~PLCA  WORD,217\n~PMCE  POWER,217\n~PW\n~PC~ECOUNT,LAST\n~PBU~DNEXT\n~PH~E*-3\n~FHEAD~GDCW  @THE POWERS OF TWO@\n~FCOUNT~FDCW  000\n~FLAST~GDCW  020\n~FPOWER~FDCW  0000001\n~FWORD~GDCW  @ ,~D,  0@\n~PEND  START\n","cards":[",008015,022029,036040,044051,056060/I99H039C039062B036/1001099",",047055,059063,067071,075079)044056,181L199099)060)081)181/039,0011040","/332/M4862172/332/A509489A499499~HL032431,404,405,412,413,417,418,4251040","Z489204L508217E4992172C489492B413/.466TL039470,439,446,453,454,461,466,4701040","HE POWERS OF TWO0000200000001 ,~D,  0AM039509,487,490,493,500,509,040,0401040","~Z~O/400080"]},"game":{"source":"~F* HIGHER AND LOWER: THE FIRST CARD HAS A SECRET NUMBER OF TWO DIGITS,\n~F* EACH OTHER CARD A GUESS\n~PORG  400\n~FSTART~FSW~D1\n~PR\n~PMLC  2,SECRET\n~PCS~D332\n~PCS\n~PMLC  HEAD,237\n~PW\n~FNEXT~GR~YSTOPS HERE UNTIL A CARD IS FED\n~PCS~D332\n~PCS\n~PA~E+1,COUNT\n~PMLC  2,202\n~PC~E2,SECRET\n~PBE~DFOUND\n~PBH~DMORE\n~PMLC  LOWER,224\n~PW\n~PB~ENEXT\n~FMORE~GMLC  HIGHER,225\n~PW\n~PB~ENEXT\n~FFOUND~FMLC  RIGHT,217\n~PMCS  COUNT,221\n~PMLC  TRIES,230\n~PW\n~PH~E*-3\n~FSECRET~EDCW  00\n~FCOUNT~FDCW  000\n~FHEAD~GDCW  @WHICH NUMBER DO I HAVE, FROM 01 TO 99@\n~FLOWER~FDCW  @THE SECRET IS LOWER@\n~FHIGHER~EDCW  @THE SECRET IS HIGHER@\n~FRIGHT~FDCW  @IS RIGHT AFTER@\n~FTRIES~FDCW  @GUESSES@\n~PEND  START\n","cards":[",008015,022029,036040,044051,056060/I99H039C039062B036/1001099",",047055,059063,067071,075079)044056,181L199099)060)081)181/039,0011040",",0011M002513/332/M55323721~NL026425,404,405,412,416,417,424,4251040","/332/A614516M002202C002513B486SB474UM57L039464,430,431,438,445,452,457,4621040","22242B425M5922252B425M606217Z516221~EM035499,469,470,474,481,482,486,4931040","M6132302.50800000WHICH NUMBER DO I HAVEL039538,507,508,512,514,517,040,0401040",", FROM 01 TO 99THE SECRET IS LOWERTHE SM039577,554,573,040,040,040,040,0401040","ECRET IS HIGHERIS RIGHT AFTERGUESSESA  M039616,593,607,614,040,040,040,0401040","~Z~O/400080"]},"payroll":{"source":"~F* PAYROLL: NAME IN COLUMNS 1 TO 20, HOURS IN 21 TO 23, AND THE RATE\n~F* OF AN HOUR IN CENTS IN 24 TO 27; A CARD WITH AN ASTERISK IS THE LAST\n~PORG  400\n~FSTART~FSW~D1,21\n~PSW~D24\n~PCS~D332\n~PCS\n~PMLC  HEAD,247\n~PW\n~FNEXT~GR\n~PBCE  DONE,1,*\n~PCS~D332\n~PCS\n~PMLC  20,220\n~PMCS  23,225\n~PLCA  SMALL,234\n~PMCE  27,234\n~PZA~D+0,PAY\n~PZA~D23,LEFT\n~FHOUR~GC~ELEFT,+000~LHOURS TIMES RATE, BY ADDING\n~PBE~DPAID\n~PA~E27,PAY\n~PS~E+1,LEFT\n~PB~EHOUR\n~FPAID~GA~EPAY,TOTAL\n~PLCA  WORD,247\n~PMCE  PAY,247\n~PW\n~PB~ENEXT\n~FDONE~GCS~D332\n~PCS\n~PMLC  NAME,220\n~PLCA  WORD,247\n~PMCE  TOTAL,247\n~PW\n~PH~E*-3\n~FHEAD~GDCW  @NAME~QHOURS~FRATE~KPAY@\n~FNAME~GDCW  @TOTAL~P@\n~FLEFT~GDCW  000\n~FPAY~HDCW  00000000\n~FTOTAL~FDCW  00000000\n~FSMALL~FDCW  @ 0.  @\n~FWORD~GDCW  @~D,  0.  @\n~PEND  START\n","cards":[",008015,022029,036040,044051,056060/I99H039C039062B036/1001099",",047055,059063,067071,075079)044056,181L199099)060)081)181/039,0011040",",001021,024/332/M61324721B536001*~GL033432,407,411,415,416,423,424,4251040","/332/M020220Z023225L657234E027234?66864L039471,437,438,445,452,459,466,0401040","4?023636C636671B510SA027644S672636B480AM039510,473,480,487,492,499,506,5101040","644652L667247E6442472B424/332/M633220  M037547,517,524,531,532,536,540,5411040","L667247E6522472.563NAME~QL039586,555,562,563,567,040,040,0401040","HOURS~FRATE~KPAYTOTAL~HM039625,614,040,040,040,040,040,0401040","0000000000000000000 0.~F,  0.  ?00?AL039672,637,645,653,658,668,669,6721040","~Z~O/400080","ANDREWS M.~K0400215","BAKER J.~M0380185","CLARK T.~M0420240","DAVIS R.~M0200150","*"]},"lesson1":{"source":"~U* A CARD IS READ, AND ITS NAME, ITS TOWN AND ITS YEAR ARE PRINTED\n00400~ZORG  400\n00400 /332~KSTART~FCS~D332\n00404 /~XCS\n00405 M495244~RMLC  HEAD,244\n00412 2~XW\n00413 /332~UCS~D332\n00417 /~XCS\n00418 ,001019~RSW~D1,19\n00425 1~XR\n00426 M018218~RMLC  18,218\n00433 M030235~RMLC  30,235\n00440 M034244~RMLC  34,244\n00447 2~XW\n00448 .448~UH~E*-3\n00452 NAME~KHEAD~GDCW  @NAME~TTOWN~NYEAR@\n00400~ZEND  START\n","cards":[",008015,022029,036040,044051,056060/I99H039C039062B036/1001099",",047055,059063,067071,075079)044056,181L199099)060)081)181/039,0011040","/332/M4952442/332/,0010191~NL026425,404,405,412,413,417,418,4251040","M018218M030235M0342442.448NAME~JL039464,433,440,447,448,452,040,0401040","TOWN~NYEAR~SM039513,040,040,040,040,040,040,0401040","~Z~O/400080","ADAMS AND SON~FBOSTON~G1931"]},"lesson2":{"source":"~U* EACH CARD IS LISTED, AND AFTER THE LAST ONE THE TOTAL\n00400~ZORG  400\n00400 ,001019~HSTART~FSW~D1,19\n00407 1~NNEXT~GR\n00408 /332~UCS~D332\n00412 /~XCS\n00413 M018218~RMLC  18,218\n00420 Z024230~RMCS  24,230\n00427 2~XW\n00428 B444A~TBLC  DONE\n00433 A024475~RA~E24,TOTAL\n00440 B407~UB~ENEXT\n00444 /332~KDONE~GCS~D332\n00448 /~XCS\n00449 M480205~RMLC  @TOTAL@,205\n00456 Z475230~RMCS  TOTAL,230\n00463 2~XW\n00464 .464~UH~E*-3\n00468 00000000~GTOTAL~FDCW  00000000\n00476 TOTAL~E@TOTAL@\n00400~ZEND  START\n","cards":[",008015,022029,036040,044051,056060/I99H039C039062B036/1001099",",047055,059063,067071,075079)044056,181L199099)060)081)181/039,0011040",",0010191/332/M018218Z0242302B444A~GL033432,407,408,412,413,420,427,4281040","A024475B407/332/M480205Z4752302.464~EL035467,440,444,448,449,456,463,4641040","00000000TOTAL~Z L039506,476,040,040,040,040,040,0401040","~Z~O/400080","ADAMS AND SON~F001250","BAKER~N000495","CLARK BROTHERS~E012000","DAVIS~N000680"]},"lesson3":{"source":"~U* EACH CARD IS LISTED WITH ITS AMOUNT, AND THEN THEIR TOTAL\n00400~ZORG  400\n00400 ,001019~HSTART~FSW~D1,19\n00407 1~NNEXT~GR\n00408 /332~UCS~D332\n00412 /~XCS\n00413 M018218~RMLC  18,218\n00420 L500233~RLCA  WORD,233\n00427 E024233~RMCE  24,233\n00434 2~XW\n00435 A024489~RA~E24,TOTAL\n00442 B451A~TBLC  DONE\n00447 B407~UB~ENEXT\n00451 /332~KDONE~GCS~D332\n00455 /~XCS\n00456 M505205~RMLC  @TOTAL@,205\n00463 L500233~RLCA  WORD,233\n00470 E489233~RMCE  TOTAL,233\n00477 2~XW\n00478 .478~UH~E*-3\n00482 00000000~GTOTAL~FDCW  00000000\n00490  ,  0.~IWORD~GDCW  @ ,  0.  &CR@\n00501 TOTAL~E@TOTAL@\n00400~ZEND  START\n","cards":[",008015,022029,036040,044051,056060/I99H039C039062B036/1001099",",047055,059063,067071,075079)044056,181L199099)060)081)181/039,0011040",",0010191/332/M018218L500233E0242332~EL035434,407,408,412,413,420,427,4341040","A024489B451AB407/332/M505205L500233E489L039473,442,447,451,455,456,463,4701040","2332.47800000000 ,  0.  &CRTOTAL~HM039512,477,478,482,490,501,040,0401040","~Z~O/400080","ADAMS AND SON~F425000","BAKER~N000005","CLARK BROTHERS~E397650","DAVIS~N00125N","EVANS~N512500"]},"lesson4":{"source":"~U* THE PRICE OF EACH ARTICLE IS LOOKED UP IN A TABLE BY ITS CODE\n00400~ZORG  400\n00089~PINDEX~FEQU  89~SINDEX REGISTER 1\n00400 ,001004~HSTART~FSW~D1,4\n00407 ,087~USW~DINDEX-2\n00411 M545089~RMLC  @000@,INDEX\n00418 1~NNEXT~GR\n00419 /332~UCS~D332\n00423 /~XCS\n00424 M020220~RMLC  20,220\n00431 M002202~RMLC  2,202\n00438 C0025/4~HLOOK~GC~E2,CODE+X1\n00445 B480S~TBE~DFOUND\n00450 A548089~RA~E@006@,INDEX\n00457 C089551~RC~EINDEX,@030@\n00464 B438/~TBU~DLOOK\n00469 M559230~RMLC  @NO PRICE@,230\n00476 B494~UB~EWRITE\n00480 L512230~HFOUND~FLCA  WORD,230\n00487 E5/8230~RMCE  PRICE+X1,230\n00494 2~NWRITE~FW\n00495 B504A~TBLC  DONE\n00500 B418~UB~ENEXT\n00504 .504~KDONE~GH~E*-3\n00508  0.~LWORD~GDCW  @ 0.  @\n~U* EACH ENTRY HAS A CODE OF TWO PLACES AND A PRICE OF FOUR\n00513 10~MCODE~GDCW  10\n00515 0125~KPRICE~FDCW  0125\n00519 20~WDCW  20\n00521 0250~UDCW  0250\n00525 35~WDCW  35\n00527 1999~UDCW  1999\n00531 40~WDCW  40\n00533 0005~UDCW  0005\n00537 72~WDCW  72\n00539 0880~UDCW  0880\n00543 000~G@000@\n00546 006~G@006@\n00549 030~G@030@\n00552 NO PRICE @NO PRICE@\n00400~ZEND  START\n","cards":[",008015,022029,036040,044051,056060/I99H039C039062B036/1001099",",047055,059063,067071,075079)044056,181L199099)060)081)181/039,0011040",",001004,087M5450891/332/M020220M002202 L038437,407,411,418,419,423,424,4311040","C0025/4B480SA548089C089551B438/M559230BL039476,445,450,457,464,469,476,0401040","494L512230E5/82302B504AB418.504 0.~FM036512,480,487,494,495,500,504,5081040","100125200250351999400005~PL024536,515,519,521,525,527,531,5331040","720880000006030NO PRICE~QL039575,539,543,546,549,552,040,0401040","~Z~O/400080","20 HINGES","72 SAW","51 LADDER","10 NAILS","35 LAMP"]},"lesson5":{"source":"~U* A SALES LIST WITH A TOTAL AFTER EACH DEPARTMENT\n00400~ZORG  400\n00400 ,001003~HSTART~FSW~D1,3\n00407 ,021~USW~D21\n00411 /332~UCS~D332\n00415 /~XCS\n00416 1~XR\n00417 M002568~HNEW~HMLC  2,HELD\n00424 M002202~HSAME~GMLC  2,202\n00431 M020222~RMLC  20,222\n00438 L582233~RLCA  WORD,233\n00445 E026233~RMCE  26,233\n00452 B553~UB~EPRINT\n00456 A026574~RA~E26,SUM\n00463 B489A~TBLC  DONE\n00468 1~XR\n00469 C002568~RC~E2,HELD\n00476 B424S~TBE~DSAME\n00481 B497~UB~ETOTAL\n00485 B417~UB~ENEW\n00489 B497~KDONE~GB~ETOTAL\n00493 .493~UH~E*-3\n~U* THE TOTAL OF THE DEPARTMENT THAT IS HELD\n00497 /332~KTOTAL~FCS~D332\n00501 /~XCS\n00502 H552~USBR  TOTEX+3\n00506 M590212~RMLC  @TOTAL OF@,212\n00513 M568215~RMLC  HELD,215\n00520 L582233~RLCA  WORD,233\n00527 E574233~RMCE  SUM,233\n00534 B553~UB~EPRINT\n00538 B553~UB~EPRINT~PAN EMPTY LINE AFTER IT\n00542 ?591574~RZA~D+0,SUM\n00549 B000~KTOTEX~FB~E0\n~U* WHAT IS IN THE PRINT AREA IS PRINTED AND CLEARED\n00553 H566~KPRINT~FSBR  EXIT+3\n00557 2~XW\n00558 /332~UCS~D332\n00562 /~XCS\n00563 B000~KEXIT~GB~E0\n00567~PHELD~GDCW  #2\n00569 000000~ISUM~HDCW  000000\n00575  ,  0.~IWORD~GDCW  @ ,  0.  @\n00583 TOTAL OF @TOTAL OF@\n00591 ?~I+0\n00400~ZEND  START\n","cards":[",008015,022029,036040,044051,056060/I99H039C039062B036/1001099",",047055,059063,067071,075079)044056,181L199099)060)081)181/039,0011040",",001003,021/332/1M002568M002202M020222 L038437,407,411,415,416,417,424,4311040","L582233E026233B553A026574B489A1C002568BL039476,445,452,456,463,468,469,4761040","424SB497B417B497.493/332/H552~KM029505,481,485,489,493,497,501,5021040","M590212M568215L582233E574233B553B553?59L039544,513,520,527,534,538,542,0401040","1574B000H5662/332/B000~RM024568,549,553,557,558,562,563,5671040","000000 ,  0.  TOTAL OF?~QL039607,575,583,591,040,040,040,0401040","~Z~O/400080","01ADAMS AND SON~F001250","01BAKER~N000495","02CLARK BROTHERS~E012000","03DAVIS~N000680","03EVANS~N010025","03FOSTER~M000200"]},"lesson6":{"source":"~U* A STOCK LIST WITH A HEADING AND A NUMBER ON EACH FORM\n00400~ZORG  400\n00400 ,001005~HSTART~FSW~D1,5\n00407 ,025~USW~D25\n00411 F1~WCC~D1~TTHE FIRST LINE OF A FORM\n00413 B468~UB~EHEADER\n00417 1~NNEXT~GR\n00418 B456@~TBCV  FULL~QTHE FORM IS FULL\n00423 M004204~HLIST~GMLC  4,204\n00430 M024226~RMLC  24,226\n00437 Z028232~RMCS  28,232\n00444 FT~WCC~DT~TTHREE SPACES AFTER AN ARTICLE\n00446 2~XW\n00447 B464A~TBLC  DONE\n00452 B417~UB~ENEXT\n00456 B468~KFULL~GB~EHEADER\n00460 B423~UB~ELIST\n00464 .464~KDONE~GH~E*-3\n~U* A HEADING ON THE NEXT FORM\n00468 H509~KHEADER~ESBR  HEADEX+3\n00472 /332~UCS~D332\n00476 /~XCS\n00477 A553552~RA~E+1,PAGE\n00484 M549240~RMLC  HEAD,240\n00491 Z552244~RMCS  PAGE,244\n00498 FS~WCC~DS~TTWO SPACES AFTER THE HEADING\n00500 2~XW\n00501 /332~UCS~D332\n00505 /~XCS\n00506 B000~KHEADEX~EB~E0\n00510 ITEM  AR~GHEAD~GDCW  @ITEM  ARTICLE~OSTOCK~EPAGE@\n00550 000~LPAGE~GDCW  000\n00553 A~I+1\n00400~ZEND  START\n","cards":[",008015,022029,036040,044051,056060/I99H039C039062B036/1001099",",047055,059063,067071,075079)044056,181L199099)060)081)181/039,0011040",",001005,025F1B4681B456@M004204M024226  L037436,407,411,413,417,418,423,4301040","Z028232FT2B464AB417B468B423.464~IL031467,444,446,447,452,456,460,4641040","H509/332/A553552M549240Z552244FS2~GL033500,472,476,477,484,491,498,5001040","/332/B000ITEM  ARTICLE~OSTOL039539,505,506,510,040,040,040,0401040","CK~EPAGE000A~ZM039578,550,553,040,040,040,040,0401040","~Z~O/400080","1001NAILS~P0005","1004SCREWS~O0053","1007HINGES~O0175","1010HASPS~P0371","1013BOLTS~P0641","1016WASHERS~N0985","1019HAMMERS~N1403","1022SAWS~Q1895","1025CHISELS~N2461","1028PLANES~O3101","1031FILES~P3815","1034AWLS~Q0603","1037DRILLS~O1465","1040CLAMPS~O2401","1043VISES~P3411","1046LADDERS~N0495","1049LAMPS~P1653","1052ROPE~Q2885","1055TWINE~P0191","1058CHAIN~P1571","1061HOOKS~P3025","1064LOCKS~P0553","1067KEYS~Q2155","1070PAINT~P3831"]},"lesson7":{"source":"~U* UP TO TWELVE CARDS ARE SORTED BY COLUMNS 1 TO 18 AND LISTED\n00400~ZORG  400\n00089~PINDEX~FEQU  89~SINDEX REGISTER 1\n00400 ,001087~HSTART~FSW~D1,INDEX-2\n00407 M915089~RMLC  @000@,INDEX\n~U* EACH CARD GOES INTO THE NEXT AREA OF THE TABLE\n00414 1~NREAD~GR\n00415 M0246U8~RMLC  24,CARD+X1\n00422 ?089599~RZA~DINDEX,LAST~KSO FAR THIS IS THE LAST CARD\n00429 B457A~TBLC  PASS\n00434 A918089~RA~E@024@,INDEX\n00441 C089921~RC~EINDEX,@288@\n00448 B414/~TBU~DREAD\n00453 .453~UH~E*-3~RMORE THAN TWELVE CARDS\n~U* NEIGHBOURS IN THE WRONG ORDER ARE EXCHANGED, UNTIL THERE ARE NONE\n00457 M915089~HPASS~GMLC  @000@,INDEX\n00464 M922600~RMLC  @N@,MOVED\n00471 C089599~HPAIR~GC~EINDEX,LAST\n00478 B506S~TBE~DOVER\n00483 C6U26W6~RC~ENAME+X1,NAME+24+X1\n00490 B565T~TBL~DSWAP~QTHE SECOND NAME IS LOW\n00495 A918089~HOTHER~FA~E@024@,INDEX\n00502 B471~UB~EPAIR\n00506 C600923~HOVER~GC~EMOVED,@Y@\n00513 B457S~TBE~DPASS\n~U* THE TABLE IS PRINTED\n00518 /332~UCS~D332\n00522 /~XCS\n00523 M915089~RMLC  @000@,INDEX\n00530 M6U8224~HLIST~GMLC  CARD+X1,224\n00537 2~XW\n00538 C089599~RC~EINDEX,LAST\n00545 B561S~TBE~DDONE\n00550 A918089~RA~E@024@,INDEX\n00557 B530~UB~ELIST\n00561 .561~KDONE~GH~E*-3\n00565 M6U8624~HSWAP~GMLC  CARD+X1,HELD\n00572 M6X26U8~RMLC  CARD+24+X1,CARD+X1\n00579 M6246X2~RMLC  HELD,CARD+24+X1\n00586 M923600~RMLC  @Y@,MOVED\n00593 B495~UB~EOTHER\n00597 000~LLAST~GDCW  000\n00600~PMOVED~FDCW  #1\n00601~PHELD~GDCW  #24\n00625~ZDA~D12X24\n00625~PNAME~L1,18\n00625~PCARD~L1,24\n00913 000~G@000@\n00916 024~G@024@\n00919 288~G@288@\n00922 N~I@N@\n00923 Y~I@Y@\n00400~ZEND  START\n","cards":[",008015,022029,036040,044051,056060/I99H039C039062B036/1001099",",047055,059063,067071,075079)044056,181L199099)060)081)181/039,0011040",",001087M9150891M0246U8?089599B457AA9180L039438,407,414,415,422,429,434,0401040","89C089921B414/.453M915089M922600C089599M039477,441,448,453,457,464,471,0401040","B506SC6U26W6B565TA918089B471C600923B457L039516,483,490,495,502,506,513,0401040","S/332/M915089M6U82242C089599B561S~GM033549,518,522,523,530,537,538,5451040","A918089B530.561M6U8624M6X26U8M6246X2M92L039588,557,561,565,572,579,586,0401040","3600B495000~Z~DM039627,593,597,600,601,625,040,0401040","~Z~OL039687,673,040,040,040,040,040,0401040","~Z~OL039735,721,040,040,040,040,040,0401040","~Z~OL039783,769,040,040,040,040,040,0401040","~Z~OL039831,817,040,040,040,040,040,0401040","~Z~OL039879,865,040,040,040,040,040,0401040","~Y000024288NY~EL039927,913,916,919,922,923,040,0401040","~Z~O/400080","SMYTH~N000495","BAKER~N001250","OAKLEY~M012000","ADAMS AND SON~F000680","NORTON~M010025","CLARK BROTHERS~E000200"]},"lesson8":{"source":"~U* PAYROLL: HOURS TIMES RATE, LESS TAX OF 18 PERCENT, AND TOTALS\n00400~ZORG  400\n00400 ,001019~HSTART~FSW~D1,19\n00407 ,022~USW~D22\n00411 /332~UCS~D332\n00415 /~XCS\n00416 M696258~RMLC  HEAD,258\n00423 2~XW\n00424 1~NNEXT~GR\n00425 /332~UCS~D332\n00429 /~XCS\n00430 M018218~RMLC  18,218\n00437 L700224~RLCA  SMALL,224\n00444 E021224~RMCE  21,224\n00451 L021727~RLCA  21,GROSS-5~KTHE HOURS, IN TENTHS\n00458 @025732~RM~E25,GROSS~MTIMES THE RATE, IN CENTS\n00465 A766732~RA~E@5@,GROSS~LHALF A CENT, TO ROUND\n00472 L768757~RLCA  @18@,TAX-8~KTHE TAX IN PERCENT\n00479 @731765~RM~EGROSS-1,TAX~JTIMES THE GROSS PAY, IN CENTS\n00486 A770765~RA~E@50@,TAX~MHALF A CENT AGAIN\n00493 ?731724~RZA~DGROSS-1,NET\n00500 S763724~RS~ETAX-2,NET\n00507 A731740~RA~EGROSS-1,SUMGRO\n00514 A763748~RA~ETAX-2,SUMTAX\n00521 A724756~RA~ENET,SUMNET\n00528 L708236~RLCA  WORD,236\n00535 E731236~RMCE  GROSS-1,236\n00542 L708247~RLCA  WORD,247\n00549 E763247~RMCE  TAX-2,247\n00556 L708258~RLCA  WORD,258\n00563 E724258~RMCE  NET,258\n00570 2~XW\n00571 B580A~TBLC  DONE\n00576 B424~UB~ENEXT\n00580 /332~KDONE~GCS~D332\n00584 /~XCS\n00585 M776206~RMLC  @TOTALS@,206\n00592 L718236~RLCA  WIDE,236\n00599 E740236~RMCE  SUMGRO,236\n00606 L718247~RLCA  WIDE,247\n00613 E748247~RMCE  SUMTAX,247\n00620 L718258~RLCA  WIDE,258\n00627 E756258~RMCE  SUMNET,258\n00634 2~XW\n00635 .635~UH~E*-3\n00639 NAME~UDCW  @NAME~PHOURS@\n00663~IG~GHEAD~GDC~D@~HGROSS~ITAX~INET@\n00697  0.~LSMALL~FDCW  @ 0. @\n00701  ,  0.~IWORD~GDCW  @ ,  0.  @\n00709~E,  0.~GWIDE~GDCW  @~D,  0.  @\n00719 000000~INET~HDCW  000000\n00725 00000000~GGROSS~FDCW  00000000\n00733 00000000~GSUMGRO~EDCW  00000000\n00741 00000000~GSUMTAX~EDCW  00000000\n00749 00000000~GSUMNET~EDCW  00000000\n00757 00000000~GTAX~HDCW  000000000\n00766 5~I@5@\n00767 18~H@18@\n00769 50~H@50@\n00771 TOTALS~D@TOTALS@\n00400~ZEND  START\n","cards":[",008015,022029,036040,044051,056060/I99H039C039062B036/1001099",",047055,059063,067071,075079)044056,181L199099)060)081)181/039,0011040",",001019,022/332/M69625821/332~KL029428,407,411,415,416,423,424,4251040","/M018218L700224E021224L021727@025732A76L039467,430,437,444,451,458,465,0401040","6732L768757@731765A770765?731724S763724M039506,472,479,486,493,500,040,0401040","A731740A763748A724756L708236E731236L708L039545,514,521,528,535,542,040,0401040","247E763247L708258E7242582B580AB424/332 M038583,549,556,563,570,571,576,5801040","/M776206L718236E740236L718247E748247L71L039622,585,592,599,606,613,620,0401040","8258E7562582.635NAME~PHOURM039661,627,634,635,639,040,040,0401040","S~HGROSS~ITAX~INET 0. M039700,697,040,040,040,040,040,0401040"," ,  0.~F,  0.  000000000000000000000L039739,709,719,725,733,040,040,0401040","0000000000000000000000000051850TOTALS  M039778,741,749,757,766,767,769,7711040","~Z~O/400080","ADAMS~N4000250","BAKER~N4250195","CLARK~N3850310","DAVIS~N4000425"]}};
const LANGUAGES={};
let TEXTS;
function languageWanted(){
const asked=[FRAGMENT.get('lang'),...navigator.languages].filter(Boolean),known=Object.keys(LANGUAGES);
const first=tag=>tag.split('-')[0];
for(const wanted of asked){
const found=known.find(tag=>tag===wanted)||known.find(tag=>first(tag)===first(wanted));
if(found)return found;
}
return 'en';
}
function chooseLanguage(name){
TEXTS=LANGUAGES[name];
putTexts();
drawAnew();
}
LANGUAGES.en={
language:'en',name:'English',dir:'ltr',languageLabel:'language',thousands:',',
documentTitle:'IBM 1401, seat {seat}',
skip:'To the deck and the keys',
headline:'Data processing system',subline:'Shared machine room',
seatsLabel:'The seats of this room',seats:'seats',seat:'seat {n}',thisSeat:'seat {n}, this one',
takenSeat:'seat {n}, taken',
after:{one:'1 command',many:'{n} commands'},afterTitle:'how many commands the machine was given, by all seats',
answers:'The machine answers.',
aboutKey:'What am I looking at?',soundKey:'Sound',helpKey:'Keys',closeKey:'Close',yesKey:'Yes',noKey:'No',
panel:'Operator\'s panel',registerI:'I register',registerA:'A register',registerB:'B register',
lamps:{UNEQUAL:'unequal',LOW:'low',HIGH:'high',OVERFLOW:'overflow'},
lampLabel:'{name}: {state}',on:'on',off:'off',
next:'next instruction',nextNone:'none begins at I',nextEnded:'the program has ended',
viewKey:'Lamps',bulbAddress:'I',
switches:'sense switches',switchLabel:'sense switch {name}',
loadKey:'LOAD',loadTitle:'reads the first card of the hopper into 001 to 080 and goes to 001 (Alt+L)',
startKey:'START AT',startLabel:'address of the next instruction',startTitle:'sets the I register; RUN starts',
runKey:'RUN',runTitle:'carries out instructions until the program stops (Alt+R)',
stopKey:'STOP',stopTitle:'ends the run after its present part (Escape)',
stepKey:'STEP',stepTitle:'carries out one instruction (Alt+N)',
pace:'pace of RUN',
paces:['10 steps a second','100 a second','1,000 a second','4,000 a second','1,000,000 a second',
'the pace of 1960'],
running:'running: {steps} steps',
waits:{READER:'The run waits for the next cards.',FORMS:'The run waits: tear the paper off.',
STACKER:'The run waits: take the punched cards.'},
core:'Core storage',tabsLabel:'which 600 places are shown',
findLabel:'address',findKey:'Show',follow:'follow I',
findWrong:'Core storage has the places 0000 to {last}.',
coreLabel:'core storage from {from} on; the arrow keys go from place to place',
operations:{
A:'add',S:'subtract',ZA:'zero and add',ZS:'zero and subtract',MCW:'move characters',
LCA:'load characters',MN:'move the digit',MZ:'move the zone',SW:'set word marks',CW:'clear word marks',
CS:'clear storage',C:'compare',MCS:'move and suppress zeros',MCE:'move and edit',B:'branch',
BWZ:'branch by word mark or zone',BW:'branch on a word mark',BU:'branch if unequal',BE:'branch if equal',
BL:'branch if low',BH:'branch if high',BAV:'branch on overflow',BLC:'branch after the last card',
BC9:'branch at channel 9',BCV:'branch at channel 12',BSS:'branch by a sense switch',
BCE:'branch if the character is equal',SAR:'store the A register',SBR:'store the B register',
NOP:'no operation',H:'halt',SS:'select a stacker',R:'read a card',W:'print a line',WM:'print word marks',
P:'punch a card',WR:'print and read',RP:'read and punch',WP:'print and punch',WRP:'print, read and punch',
CC:'control the carriage',M:'multiply',D:'divide',MCM:'move a record',MA:'modify an address',
CU:'control a tape unit',
BBE:'branch if bits are equal',SRF:'start the read feed',SPF:'start the punch feed',
},
legendRead:'card read 001-080',legendPunch:'card punched 101-180',legendPrint:'line printed 201-332',
legendNext:'next instruction',legendMark:'word mark',
coreText:'These places as text (~ before a word mark)',
blank:'blank',withMark:' with a word mark',cellLabel:'{at} {graphic}{mark}',noBits:'none',noHoles:'no hole',
cell:'{at}: {graphic}{mark}. Bits {bits}; on a card {holes}.',
cellHint:'Choose a place to see its bits and its holes.',
sourceTitle:'The program: {name}',sourceLabel:'the source of the program',
feeder:'Card reader',programLabel:'program',feedKey:'Feed this program',readStation:'read station',
transportLabel:'hopper: {hopper} cards; read: {station}; stacker: {stacker} cards',
cards:'Cards',dropHere:'a deck can be dropped anywhere',hopper:'hopper',stacker:'punched',
cardRead:'Places 001 to 080 as a card',
cardNext:'Next card in the hopper',cardNoNext:'The hopper is empty',
cardPunched:'Card punched last',cardNoPunched:'No punched card waits',
cardLabel:'punched card: {text}',cardBlank:'blank card',cardNone:'no card',
cardPrintKey:'Print the card with your name',
pickKey:'From a file',
cardKey:'Take a punched card',cardTitle:'takes the oldest card from the stacker, for good',
allCardsKey:'Take all punched cards',takingCards:'{n} of {all} cards taken',takeStop:'Stop taking',
takenAll:{one:'1 card was taken.',many:'{n} cards were taken.'},
saveCardsKey:'Save taken cards',feedAgainKey:'Feed taken cards again',
taken:'Card taken: {text}',takenBlank:'A blank card was taken.',
typedDeck:'Type or paste a deck, a card a line',deckKey:'Feed these cards',
feedingLabel:'cards fed',feedingCount:'{n} of {all} cards fed',feedStop:'Stop feeding',
feedWaits:'The hopper is full. Feeding goes on when the machine has read some cards. {n} of {all} fed.',
fedAll:{one:'The card was fed.',many:'{n} cards were fed.'},
fedName:'The card of {name} is in the hopper.',
fedPart:'Cards fed: {n} of {all}. Then it ended: {why}',stoppedByYou:'you stopped it',
alreadyFeeding:'Another deck is being fed.',deckEmpty:'The deck has no cards.',
deckLarge:'The file is larger than a deck of 10,000 cards.',deckUnread:'The file couldn\'t be read.',
deckWrong:'Nothing was fed. Line {line}, column {column}: {what}',
noGraphic:'no card has this character',noAccent:'no card has {letter}; write {spelt}',
tooLong:'a card has 80 columns',
keypunch:'Keypunch: make a card',keyedLabel:'the card\'s columns',releaseKey:'RELEASE: feed this card',
programKey:'The hello card, to change its columns 41 to 80',columnTold:'next column: {n}',
cardFull:'all 80 columns are full',
columnWrong:'Column {column}: {what}.',keyboardLabel:'the keypunch\'s keys; the arrow keys go from key to key',
keys:{space:'SPACE',back:'BACK',dup:'DUP',clear:'CLEAR'},
dupTitle:'copies this column of the card released last',keyTitle:'key {graphic}',
printer:'Printer',paperLabel:'the paper in the printer',formLabel:'form {form}',
paperAt:{one:'form {form}, line {line}; 1 line printed',many:'form {form}, line {line}; {n} lines printed'},
tapeLabel:'carriage tape: channel 1 at line 4, channel 9 at line 60, channel 12 at line 63; '
+ 'the carriage is at line {line}',
tearKey:'Tear off',tearTitle:'takes the printed lines from the printer, for good (Alt+T)',
tearAsk:{one:'This takes the printed line from the printer, and no other seat sees it any more. '
+ 'This page keeps it, to be saved or printed. Tear the paper off?',
many:'This takes {n} printed lines from the printer, and no other seat sees them any more. '
+ 'This page keeps them, to be saved or printed. Tear the paper off?'},
tearing:'{n} of {all} lines taken',noPaper:'There is no printed line.',
torn:{one:'torn off, and here to be saved: 1 line',many:'torn off, and here to be saved: {n} lines'},
dropKey:'Throw away',dropAsk:'Throw away the torn-off paper?',
saveKey:'Save as text',printKey:'Print',largeKey:'Larger',toCarriage:'To the carriage',
console:'Console',logLabel:'lines and replies',lineLabel:'a line of the console',lineHint:'EXAMINE 0500 11',
sendKey:'SEND',linesTitle:'The lines, and what they do (or type HELP)',
others:{one:'others gave 1 command since you came',many:'others gave {n} commands since you came'},
othersNow:'Another seat is at work, on this machine too.',
othersRun:'Another seat runs a program: LOAD, RUN, STEP and START AT would act in the middle of it.',
othersRunning:'another seat runs a program',
seatNow:'Seat {seat} is at work ({line}), on this machine too.',
seatRun:'Seat {seat} runs a program: LOAD, RUN, STEP and START AT would act in the middle of it.',
seatRunning:'seat {seat} runs a program',seatLast:'; the last command is of seat {seat}: {line}',
holdKey:'Hold the machine',releaseHold:'Let others go on',
holdTitle:'for a minute no other page gives the machine lines; consoles still do',
releaseTitle:'this page holds the machine, as its guide does while you work: the keys of other pages are off; this '
+ 'key ends that',
holder:'You hold the machine: the keys of the other pages are off.',
keptOff:'Seat {seat} holds the machine, so the keys are off here.',secondsLeft:'({n} s)',
fedInLog:{one:'(1 card fed)',many:'({n} cards fed)'},tornInLog:{one:'(1 line taken)',
many:'({n} lines taken)'},
cardsInLog:{one:'(1 card taken)',many:'({n} cards taken)'},
notText:'A line has only letters, digits and signs of the 1401.',
footer:'A simulated IBM 1401. All that you see is of one moment, after the number of commands at the top.',
lost:'The machine doesn\'t answer, so the keys are off. This page tries again.',
closed:'The room is closed: the machine has been put away. This page tries again.',
taken503:'Somebody sits at this seat with a console. This page goes on when that operator has left.',
busy:'Too many requests wait at this page. It tries again.',
unkept:'The journal\'s file can\'t be written, so the machine takes no more commands. Please call the staff.',
renewal:{one:'This machine is put away in 1 second, and a new one follows.',
many:'This machine is put away in {n} seconds, and a new one follows.'},
full:'The journal is full, so the machine takes no more commands. Please call the staff.',
nearlyFull:'The journal has {n} of its 100,000 entries. Please call the staff.',
refusedStatus:'The server refused what this page asked for ({status}).',
unread:'This page doesn\'t understand what the server shows. Is the page of another version?',
proxyAlone:'The proxy answers, but the room doesn\'t. Start the room; this page then goes on by itself.',
foreign:'The room doesn\'t know this page\'s address. Start it with --origin and the address that is shown above.',
noMemory:'The server had no memory for a picture. This page tries again.',
outcomes:{
off:'Not sent: the machine doesn\'t take commands now.',
broken:'Not sent: it was meant for the machine before the connection broke.',
409:'Not carried out: this seat has given another command meanwhile, perhaps in another window. '
+ 'Look, and send it again.',
403:'Not carried out: the server doesn\'t take lines from this page.',
410:'Not carried out: the room is closed.',
423:'Not carried out: seat {seat} holds the machine for {left} more seconds.',
503:'Not carried out: a console sits at this seat.',
busy:'Not carried out: too many requests wait at this page.',
507:'Carried out, but there was no memory for its reply.',
500:'Carried out, but its entry wasn\'t kept in the journal\'s file.',
other:'Not carried out: the server refused it ({status}).',
},
lostAsking:'The connection failed while this line was sent. This page doesn\'t send it again; it looks first.',
lostDone:'It was carried out; its reply was lost.',
lostNotDone:'It was not carried out so far.',
lostNewRoom:'The room was opened again since, so this page can\'t say whether it was carried out.',
lostUnclear:'This seat has given {n} commands since, so this page can\'t tell whether it was carried out.',
said:{
firstNote:'Here is each line that you and the keys send to the machine, with its reply.',
welcome:'Choose a program and feed it, press LOAD, then RUN.',
welcomeCards:{one:'There is 1 card in the hopper. LOAD reads it.',
many:'There are {n} cards in the hopper. LOAD reads the first one.'},
welcomeProgram:'A program is in core storage. RUN carries it out.',
welcomePrepared:'The staff has put a program into core storage. START AT its address, then RUN.',
load:'The first card was read into 001 to 080. RUN carries it out.',
start:'The I register is set. RUN begins there.',
step:'One instruction was carried out.',
limit:{one:'1 instruction was carried out, as asked. RUN goes on.',
many:'{n} instructions were carried out, as asked. RUN goes on.'},
stopped:{one:'Stopped by you after 1 step. RUN goes on.',many:'Stopped by you after {n} steps. RUN goes on.'},
pause:'Paused after {steps} steps, since the journal is nearly full. Please call the staff.',
afterEnd:'The program has ended. Feed another one and press LOAD. (Press again to go on after its halt.)',
newRoom:'The staff has started another machine. What you did before isn\'t in it.',
resumed:'The room was opened again; its machine is as you see it.',
renewing:'A new machine is asked for ..',
clearing:'The machine is being cleared ..',clear:'The machine is clear: no card, no paper, nothing in core. '
+ 'The lamps and the A and B registers have no key that clears them.',
prepared:'A new machine is here, with what the staff has prepared.',
nothing:'The machine is empty: feed a program first.',
loadFirst:'Nothing is in core storage yet: press LOAD first.',
yourTurn:'It is your turn.',
notClear:'The machine isn\'t clear. Perhaps somebody else is at work. Try again.',
},
stops:{
HALT:'The program has ended. Its result is on the paper; feed another program and press LOAD.',
READER:'The reader is empty: feed cards, then RUN.',
FORMS:'The printer has 500 lines: tear the paper off, then RUN.',
STACKER:'The stacker has 500 cards: take the punched cards, then RUN.',
NOMARK:'No instruction begins at I: there is no word mark at that place.',
OPCODE:'The character at I is no operation.',
NOTFITTED:'The operation at I belongs to a feature that this machine hasn\'t got.',
LENGTH:'The instruction at I has a length that its operation doesn\'t have. Is a word mark missing?',
ADDRESS:'The instruction at I needs a place that isn\'t in core, or a field without an end.',
OVERLAP:'The fields of the instruction at I share places.',
CARRIAGE:'A skip to a channel without a hole in the carriage tape: it has 1, 9 and 12.',
DCHAR:'The last character of the instruction at I asks for nothing that it can do.',
TAPE:'The tape unit that the instruction at I names has no reel.',
},
tooLong:'The instruction at {at} is too long: is the word mark missing that should begin the next one? In DEPOSIT, '
+ '~ sets it.',
noMarkAt:'No instruction begins at {at}: there is no word mark at that place.',
lostMark:'Perhaps the instruction before it, at {before}, has lost its own.',
longBefore:'The instruction before it, at {before}, is too long: is a word mark missing in it?',
replies:{
'REFUSED 1':'That place isn\'t in core.',
'REFUSED 2':'The hopper holds 500 cards, and is full.',
'REFUSED 3':'There is no card in the hopper. Feed a deck first.',
'REFUSED 4':'There is nothing to take.',
'REFUSED 5':'RUN takes 1 to 1,000,000 instructions.',
'REFUSED 6':'EXAMINE shows 1 to 40 places.',
'ERROR 1':'A word isn\'t known. HELP shows the lines.',
'ERROR 2':'A number or an address is missing, or isn\'t one. Is a blank missing after it?',
'ERROR 3':'A character that no card and no place has, or a ~ with none after it.',
'ERROR 4':'The text is empty or too long.',
'ERROR 5':'Something follows the end of the line\'s command.',
'FAULT 1':'The memory for the journal\'s next entry was refused.',
'FAULT 2':'The journal is full.',
'FAULT 3':'The command wasn\'t carried out: the seat couldn\'t be compared with the journal.',
'FAULT 4':'The journal\'s file can\'t be written.',
'GLANCE FAULT 1':'That place isn\'t in core.',
'GLANCE FAULT 2':'There was nothing to read.',
BYE:'The seat stays; the next line takes it up again.',
},
lines:[
['DEPOSIT 0500 ~ABC','puts characters into core from 0500 on; ~ sets a word mark on the next one'],
['EXAMINE 0500 11','shows 11 places from 0500 on, 40 at most'],
['REGS','shows registers, indicators, switches, cards and paper'],
['START 0600','sets the I register'],
['SWITCH A ON','turns a sense switch on, or OFF; A to G'],
['FEED HELLO','puts a card into the hopper; FEED alone a blank one'],
['LOAD','the load key'],
['RUN 1000','carries out 1,000 instructions at most; 1,000,000 are the most'],
['LINE','takes the oldest printed line'],
['CARD','takes the oldest punched card'],
['GLANCE 0500','shows a place without a command'],
['HELP','shows this list; it isn\'t sent'],
],
lessonSaid:{
halt:'The program has ended. Lesson {n} goes on with step 2, below core storage.',
mended:'The program has ended. Step 5 of lesson {n} says what is on the paper if it is mended.',
again:'The program had already ended; nothing new was printed. Press "Start afresh", and go back to step 3.',
againMended:'The program had already ended; nothing new was printed.',
loaded:'The program is loaded, and has not begun. Lesson {n} goes on with step 4, below core storage.',
noSwitch:'No cards are left and sense switch A is off, so the program didn\'t notice the last card. Press "Start '
+ 'afresh", and begin again with A on.',
loadFirst:'The cards of this lesson are in the hopper: press LOAD first. RUN would read them as data.',
deposited:'Filled: {from} to {to}. Word marks there: {marks}.',none:'none',
},
lessonTitle:'Lesson {n}',lessonsHint:'Lessons 1 to 8 are in this list; their steps are below core storage.',
guideTitle:'Your first program',guideOn:'Begin the guide',guideOff:'Without the guide',
guideSteps:['Feed','LOAD','STEP','RUN','Your name'],stepDone:'step {n}, {name}: done',
stepOpen:'step {n}, {name}',
guideWords:{
feed:'Press "Feed this program": a card with the program Hello goes into the hopper. One card is a whole program.',
load:'Press LOAD: the machine reads the card into its places 001 to 080.',
step:'Press STEP: the machine carries out one instruction. The first ones set word marks, which divide the '
+ 'card into instructions.',
run:'Press RUN: the machine carries out the others, prints a line, and halts. Watch the paper.',
name:'The line is printed. Now your name: write it here, and punch a card of your own.',
loadName:'Your card is in the hopper. Press LOAD to read it.',
runName:'Press RUN, and look at the paper.',
done:'Your name is on the paper. Save it, print the card to take home, or choose another program.',
other:'Somebody has left cards or a program in the machine. Press "Start afresh" to clear it; or go on with it.',
program:'The program {name} is in the machine. Go on with it; or press "Start afresh", and the guide begins.',
paper:'The printer is full: it holds 500 lines. Press "Tear off" to go on.',
lessonFeed:'Press "Feed this program": the cards of this lesson go into the hopper.',
lessonSwitch:'Lesson {n} is in the hopper. Turn sense switch A on, then press LOAD and RUN. The steps are below '
+ 'core storage.',
lessonLoad:'Press LOAD: the machine reads the first card.',
lessonRun:'Press RUN, and read the paper. Something on it is wrong, or the machine stops with a message.',
lessonLook:'What is wrong? Step 2, below core storage, helps. When you know it, go on with step 3: press "Start '
+ 'afresh".',
lessonNoSwitch:'Sense switch A was off, so the program didn\'t notice the last card. Press "Start afresh", and '
+ 'turn A on this time.',
lessonOther:'Something else is in the machine. Press "Start afresh", and lesson {n} begins.',
lessonSend:'At the console send {loads}: it loads the program, and stops before its first instruction.',
lessonMend:'At the console send the DEPOSIT that mends the program. Step 4, below core storage, helps.',
lessonAgain:'When all of step 4 is sent, press RUN, and read the paper.',
lessonDone:'Step 5 says what is on the paper now. If it isn\'t, press "Start afresh" and try again.',
},
guide:{
off:'The guide leads you to a printed line with your name, in about two minutes.',
prepared:'The staff has prepared this machine: it was begun with a program or with cards. Press LOAD if there are '
+ 'cards, then RUN. "Start afresh" would clear it.',
preparedAgain:'The staff has prepared this machine: it was begun with a program or with cards. Press LOAD if '
+ 'there are cards, then RUN. "Start afresh" brings a new one, prepared in the same way.',
aside:'The guide has stepped aside. It begins again when you like.',
attract:'Nobody is here, so the machine runs by itself. Touch the screen or a key to take over.',
},
turn:{
busy:'Seat {seat} is at the machine. Press "Wait in line", and your turn comes.',
next:'Seat {seat} is at the machine; you are next.',
later:{one:'Seat {seat} is at the machine. At most 1 other seat comes before you.',
many:'Seat {seat} is at the machine. At most {n} other seats come before you.'},
soon:'The machine is free. The next in line is called.',
wait:'Wait in line',leave:'Leave the line',give:'Give it to the next',
},
childWords:{
feed:'Press FEED. A card goes into the machine.',load:'Press LOAD. The machine reads the holes of the card.',
step:'Press STEP. The machine does the first thing that the card asks for.',
run:'Press RUN. The machine does all the rest, and prints.',
name:'It has printed! Now write your own name.',loadName:'This is your card. Press LOAD.',
runName:'Press RUN, and look at the paper.',done:'There is your name! Press FEED to begin again.',
other:'Somebody was here before you. Press CLEAR.',program:'The program {name} is in the machine. Press CLEAR.',
paper:'The paper is full. Press CLEAR.',
},
childKeys:{feed:'FEED',clear:'CLEAR'},
stage:{
name:'IBM 1401',more:'More',back:'Back',stripLabel:'core storage from {from} on, and the print area',
cardRead:'The card that was read',cardNext:'The next card',cardNone:'No card yet',
machines:{reader:'Card reader 1402',unit:'Computer 1401',printer:'Printer 1403'},
who:'Seat {seat} is at the machine',nobody:'Nobody is at the machine',touch:'TOUCH ME',
leaving:{one:'Are you still there? Touch the screen. (1)',many:'Are you still there? Touch the screen. ({n})'},
},
homeCode:'Take your card home: point a telephone here.',homeTitle:'Your card from an IBM 1401',
homeLine:'It printed this line',
machinesLabel:'the card reader, the computer and the printer',moreKey:'More',whyKey:'Why?',
watchStop:'Stop the run',watchHold:'Hold for all',
tourLabel:'what the machine does',tourBack:'Back',tourNext:'Next',
scenes:{
and:' and ',at:'{n} of {all}',pause:'Pause',play:'Go on',
none:'Feed a card and press LOAD. Then each step is explained here.',
load:'The card is in the machine: each of its 80 columns is now a character in one of the places 001 to 080.',
SW:'It has set word marks at {places}. A word mark says that something begins there; the card is cut into its '
+ 'parts.',
MCW:'It has carried letters from place {from} on to place {to} on: "{text}".',
W:'The chain of the printer has printed the places from 201 on: "{line}".',
H:'The program has ended, and the machine stops.',A:'It has added the number at {a} to the one at {b}.',
S:'It has subtracted the number at {a} from the one at {b}.',
other:'The machine has carried out: {what}.',
},
nameLabel:'Your name',nameKey:'Punch and feed',nameEmpty:'Write a name first.',
nameWrong:'No card has {letter}. Choose a name in A to Z.',nameSpelt:'On the card: {name}',
nameKeys:'keys for your name',alphabet:'ABCDEFGHIJKLMNOPQRSTUVWXYZ',wipe:'wipe',
afreshKey:'Start afresh',afreshTitle:'clears the machine: cards, paper, switches and core storage',
afreshAsk:'This clears the simulated machine that the seats at the top share: cards, paper, switches and core '
+ 'storage. What this page has torn off and taken goes too. Start afresh?',
afreshOthers:'Another seat is at work at this moment, and would lose its cards, paper and program. Start '
+ 'afresh all the same?',
programs:{
hello:{name:'Hello',about:'One card: its first columns are instructions, the rest is the text that they print.',
fed:'The card is in the hopper. Press LOAD, then RUN, and look at the printer.'},
banner:{name:'Banner',about:'Reads cards, and prints the letters of columns 1 to 20, each seven lines high.',
fed:'Press LOAD, then RUN. Then punch a card with a name, and RUN.'},
calculation:{name:'Calculation',about:'A table of the powers of two, each added to itself.',
fed:'Press LOAD, then RUN. At a pace of 100 steps a second you can watch it add.'},
payroll:{name:'Payroll',about:'Reads a card for each worker, with hours and the rate in cents; multiplies '
+ 'by adding, '
+ 'edits the amounts, and prints the total.',fed:'Press LOAD, then RUN.'},
game:{name:'Higher and lower',about:'The last card of the deck has a secret number from 01 to 99. Punch '
+ 'your guess, two '
+ 'digits, on a card, press RELEASE and RUN: the machine prints whether the secret is higher or lower.',
fed:'Press LOAD, then RUN. Then punch a card with your guess, two digits, and RUN again.'},
listing:{name:'Listing',about:'Lists and copies the cards after it. Turn sense switch A on before RUN; '
+ 'then it halts '
+ 'after the last card.',fed:'Turn sense switch A on, press LOAD, then RUN. At 100 steps a second you can '
+ 'watch it.'},
},
aboutFirst:'This is a simulated IBM 1401, a computer of 1959, with its card reader, its punch and its printer. '
+ 'All that you '
+ 'see is one machine, which everybody in this room shares. Lessons 1 to 8 in the list of programs have a '
+ 'mistake to find.',
aboutDrawing:'Cards go from the reader to the processing unit, and results from there to the printer and the punch.',
aboutParts:{reader:['Card reader','and punch'],unit:['Processing unit','with core storage'],
printer:['Printer','132 columns'],
below:['800 cards a minute','1,400 to 16,000 places','600 lines a minute']},
wordsTitle:'Ten words',
aboutWords:[
['card','a piece of cardboard with 80 columns; the holes in a column are a letter, a digit or a sign'],
['hopper','where the cards lie that are read next'],
['LOAD','the key that reads the first card into places 001 to 080 and begins there'],
['core storage','the memory, of small magnetic rings: each place has one character'],
['word mark','a bit next to a character; it says where a field or an instruction begins'],
['instruction','a character for the operation, and addresses of what it works on'],
['I register','the place of the next instruction'],
['sense switch','a switch that a program can ask for'],
['form','a page of the endless paper, with 66 lines'],
['carriage tape','a loop of paper with holes, which says where the paper stops'],
],
numbersTitle:'Where the numbers come from',
aboutNumbers:'The page asks the machine four times a second, and each picture is of one moment. At the pace of '
+ '1960 it waits '
+ 'as long as the reader, the punch and the printer took. Each operation of the simulator was proved correct.',
shortcutsTitle:'Keys',
shortcuts:[
['Alt+F','feeds the chosen program'],['Alt+L','LOAD'],['Alt+R','RUN'],['Escape','STOP'],['Alt+N',
'STEP'],['Alt+T','tear the paper off'],
['Alt+C','to the console line; the arrow keys up and down bring back earlier lines'],
['Alt+A','to the address of core storage'],['Alt+K','to the keypunch; Enter releases the card'],
['Alt+P','to the paper; the arrow keys move it'],
['Tab, arrow keys','from part to part; in core storage the arrow keys go from place to place'],
],
};
LANGUAGES.de={
language:'de',name:'Deutsch',dir:'ltr',languageLabel:'Sprache',thousands:'.',
documentTitle:'IBM 1401, Platz {seat}',
skip:'Zum Stapel und zu den Tasten',
headline:'Datenverarbeitungssystem',subline:'Gemeinsamer Maschinenraum',
seatsLabel:'Die Pl\xe4tze dieses Raums',seats:'Pl\xe4tze',seat:'Platz {n}',thisSeat:'Platz {n}, dieser hier',
takenSeat:'Platz {n}, besetzt',
after:{one:'1 Eingabe',many:'{n} Eingaben'},
afterTitle:'wie viele Eingaben die Maschine von allen Pl\xe4tzen bekam',
answers:'Die Maschine antwortet.',
aboutKey:'Was sehe ich hier?',soundKey:'Ton',helpKey:'Tasten',closeKey:'Schlie\xdfen',yesKey:'Ja',
noKey:'Nein',
panel:'Bedienfeld',registerI:'I-Register',registerA:'A-Register',registerB:'B-Register',
lamps:{UNEQUAL:'ungleich',LOW:'kleiner',HIGH:'gr\xf6\xdfer',OVERFLOW:'\xdcberlauf'},
lampLabel:'{name}: {state}',on:'an',off:'aus',
next:'n\xe4chster Befehl',nextNone:'bei I beginnt keiner',nextEnded:'das Programm ist zu Ende',
viewKey:'Lampen',bulbAddress:'I',
switches:'Schalter',switchLabel:'Schalter {name}',
loadKey:'LOAD',loadTitle:'liest die erste Karte des Magazins nach 001 bis 080 und geht zu 001 (Alt+L)',
startKey:'START AT',startLabel:'Adresse des n\xe4chsten Befehls',startTitle:'setzt das I-Register; RUN startet',
runKey:'RUN',runTitle:'f\xfchrt Befehle aus, bis das Programm anh\xe4lt (Alt+R)',
stopKey:'STOP',stopTitle:'beendet den Lauf nach seinem jetzigen Teil (Escape)',
stepKey:'STEP',stepTitle:'f\xfchrt einen Befehl aus (Alt+N)',
pace:'Tempo von RUN',
paces:['10 Schritte je Sekunde','100 je Sekunde','1.000 je Sekunde','4.000 je Sekunde','1.000.000 je Sekunde',
'das Tempo von 1960'],
running:'l\xe4uft: {steps} Schritte',
waits:{READER:'Der Lauf wartet auf die n\xe4chsten Karten.',FORMS:'Der Lauf wartet: Papier abrei\xdfen.',
STACKER:'Der Lauf wartet: gestanzte Karten nehmen.'},
core:'Kernspeicher',tabsLabel:'welche 600 Stellen gezeigt werden',
findLabel:'Adresse',findKey:'Zeigen',follow:'I folgen',
findWrong:'Der Kernspeicher hat die Stellen 0000 bis {last}.',
coreLabel:'Kernspeicher ab {from}; die Pfeiltasten gehen von Stelle zu Stelle',
operations:{
A:'addieren',S:'subtrahieren',ZA:'l\xf6schen und addieren',ZS:'l\xf6schen und subtrahieren',
MCW:'Zeichen \xfcbertragen',LCA:'Zeichen laden',MN:'Ziffer \xfcbertragen',MZ:'Zone \xfcbertragen',
SW:'Wortmarken setzen',CW:'Wortmarken l\xf6schen',CS:'Speicher l\xf6schen',C:'vergleichen',
MCS:'\xfcbertragen, Nullen unterdr\xfccken',MCE:'\xfcbertragen und aufbereiten',B:'springen',
BWZ:'springen bei Wortmarke oder Zone',BW:'springen bei Wortmarke',BU:'springen, wenn ungleich',
BE:'springen, wenn gleich',BL:'springen, wenn kleiner',BH:'springen, wenn gr\xf6\xdfer',
BAV:'springen bei \xdcberlauf',BLC:'springen nach der letzten Karte',BC9:'springen bei Kanal 9',
BCV:'springen bei Kanal 12',BSS:'springen nach einem Schalter',BCE:'springen, wenn das Zeichen gleich ist',
SAR:'A-Register speichern',SBR:'B-Register speichern',NOP:'keine Operation',H:'anhalten',
SS:'Ablage w\xe4hlen',R:'Karte lesen',W:'Zeile drucken',WM:'Wortmarken drucken',P:'Karte stanzen',
WR:'drucken und lesen',RP:'lesen und stanzen',WP:'drucken und stanzen',WRP:'drucken, lesen und stanzen',
CC:'Vorschub steuern',M:'multiplizieren',D:'dividieren',MCM:'Satz \xfcbertragen',MA:'Adresse \xe4ndern',
CU:'Bandeinheit steuern',
BBE:'springen, wenn Bits gleich sind',SRF:'Lesevorschub ansto\xdfen',SPF:'Stanzvorschub ansto\xdfen',
},
legendRead:'gelesene Karte 001-080',legendPunch:'gestanzte Karte 101-180',legendPrint:'Druckzeile 201-332',
legendNext:'n\xe4chster Befehl',legendMark:'Wortmarke',
coreText:'Diese Stellen als Text (~ vor einer Wortmarke)',
blank:'leer',withMark:' mit Wortmarke',cellLabel:'{at} {graphic}{mark}',noBits:'keine',noHoles:'kein Loch',
cell:'{at}: {graphic}{mark}. Bits {bits}; auf einer Karte {holes}.',
cellHint:'Eine Stelle zeigt ihre Bits und ihre L\xf6cher.',
sourceTitle:'Das Programm: {name}',sourceLabel:'der Quelltext des Programms',
feeder:'Kartenleser',programLabel:'Programm',feedKey:'Programm einlegen',readStation:'Lesestation',
transportLabel:'Magazin: {hopper} Karten; gelesen: {station}; Ablage: {stacker} Karten',
cards:'Karten',dropHere:'ein Stapel kann \xfcberall abgelegt werden',hopper:'Magazin',stacker:'gestanzt',
cardRead:'Stellen 001 bis 080 als Karte',
cardNext:'N\xe4chste Karte im Magazin',cardNoNext:'Das Magazin ist leer',
cardPunched:'Zuletzt gestanzte Karte',cardNoPunched:'Keine gestanzte Karte wartet',
cardLabel:'Lochkarte: {text}',cardBlank:'leere Karte',cardNone:'keine Karte',
cardPrintKey:'Karte mit Ihrem Namen drucken',
pickKey:'Aus einer Datei',
cardKey:'Gestanzte Karte nehmen',cardTitle:'nimmt die \xe4lteste Karte aus der Ablage, endg\xfcltig',
allCardsKey:'Alle gestanzten Karten nehmen',takingCards:'{n} von {all} Karten genommen',takeStop:'Aufh\xf6ren',
takenAll:{one:'1 Karte wurde genommen.',many:'{n} Karten wurden genommen.'},
saveCardsKey:'Genommene Karten speichern',feedAgainKey:'Genommene Karten wieder einlegen',
taken:'Karte genommen: {text}',takenBlank:'Eine leere Karte wurde genommen.',
typedDeck:'Einen Stapel tippen oder einf\xfcgen, eine Karte je Zeile',deckKey:'Diese Karten einlegen',
feedingLabel:'eingelegte Karten',feedingCount:'{n} von {all} Karten eingelegt',feedStop:'Aufh\xf6ren',
feedWaits:'Das Magazin ist voll. Es geht weiter, wenn die Maschine Karten gelesen hat. {n} von {all} eingelegt.',
fedAll:{one:'Die Karte wurde eingelegt.',many:'{n} Karten wurden eingelegt.'},
fedName:'Die Karte von {name} liegt im Magazin.',
fedPart:'Eingelegte Karten: {n} von {all}. Dann war Schluss: {why}',stoppedByYou:'Sie haben aufgeh\xf6rt',
alreadyFeeding:'Ein anderer Stapel wird gerade eingelegt.',deckEmpty:'Der Stapel hat keine Karten.',
deckLarge:'Die Datei ist gr\xf6\xdfer als ein Stapel von 10.000 Karten.',deckUnread:'Die Datei lie\xdf sich nicht lesen.',
deckWrong:'Nichts wurde eingelegt. Zeile {line}, Spalte {column}: {what}',
noGraphic:'keine Karte hat dieses Zeichen',noAccent:'keine Karte hat {letter}; schreiben Sie {spelt}',
tooLong:'eine Karte hat 80 Spalten',
keypunch:'Kartenlocher: eine Karte machen',keyedLabel:'die Spalten der Karte',
releaseKey:'RELEASE: Karte einlegen',
programKey:'Die Hallo-Karte, um ihre Spalten 41 bis 80 zu \xe4ndern',columnTold:'n\xe4chste Spalte: {n}',
cardFull:'alle 80 Spalten sind voll',columnWrong:'Spalte {column}: {what}.',
keyboardLabel:'die Tasten des Lochers; die Pfeiltasten gehen von Taste zu Taste',
keys:{space:'LEER',back:'ZUR\xdcCK',dup:'DUP',clear:'L\xd6SCHEN'},
dupTitle:'kopiert diese Spalte der letzten Karte',keyTitle:'Taste {graphic}',
printer:'Drucker',paperLabel:'das Papier im Drucker',formLabel:'Blatt {form}',
paperAt:{one:'Blatt {form}, Zeile {line}; 1 Zeile gedruckt',many:'Blatt {form}, Zeile {line}; {n} Zeilen '
+ 'gedruckt'},
tapeLabel:'Vorschubstreifen: Kanal 1 bei Zeile 4, Kanal 9 bei Zeile 60, Kanal 12 bei Zeile 63; '
+ 'der Vorschub ist bei Zeile {line}',
tearKey:'Abrei\xdfen',tearTitle:'nimmt die gedruckten Zeilen aus dem Drucker, endg\xfcltig (Alt+T)',
tearAsk:{one:'Das nimmt die gedruckte Zeile aus dem Drucker, und kein anderer Platz sieht sie mehr. '
+ 'Diese Seite beh\xe4lt sie, zum Speichern oder Drucken. Abrei\xdfen?',
many:'Das nimmt {n} gedruckte Zeilen aus dem Drucker, und kein anderer Platz sieht sie mehr. '
+ 'Diese Seite beh\xe4lt sie, zum Speichern oder Drucken. Abrei\xdfen?'},
tearing:'{n} von {all} Zeilen genommen',noPaper:'Es gibt keine gedruckte Zeile.',
torn:{one:'abgerissen und noch hier: 1 Zeile',many:'abgerissen und noch hier: {n} Zeilen'},
dropKey:'Wegwerfen',dropAsk:'Das abgerissene Papier wegwerfen?',
saveKey:'Als Text speichern',printKey:'Drucken',largeKey:'Gr\xf6\xdfer',toCarriage:'Zum Vorschub',
console:'Konsole',logLabel:'Zeilen und Antworten',lineLabel:'eine Zeile der Konsole',
lineHint:'EXAMINE 0500 11',
sendKey:'SENDEN',linesTitle:'Die Zeilen, und was sie tun (oder HELP)',
others:{one:'andere machten 1 Eingabe, seit Sie da sind',many:'andere machten {n} Eingaben, seit Sie da sind'},
othersNow:'Ein anderer Platz arbeitet auch an dieser Maschine.',
othersRun:'Ein anderer Platz l\xe4sst ein Programm laufen: LOAD, RUN, STEP und START AT w\xfcrden mitten darin wirken.',
othersRunning:'ein anderer Platz l\xe4sst ein Programm laufen',
seatNow:'Platz {seat} arbeitet auch an dieser Maschine ({line}).',
seatRun:'Platz {seat} l\xe4sst ein Programm laufen: LOAD, RUN, STEP und START AT w\xfcrden mitten darin wirken.',
seatRunning:'Platz {seat} l\xe4sst ein Programm laufen',seatLast:'; die letzte Eingabe ist von Platz {seat}: {line}',
holdKey:'Maschine halten',releaseHold:'Andere weitermachen lassen',
holdTitle:'eine Minute lang gibt keine andere Seite der Maschine Zeilen; Konsolen schon',
releaseTitle:'diese Seite h\xe4lt die Maschine, wie es ihre F\xfchrung tut, solange Sie arbeiten: die Tasten der anderen '
+ 'Seiten sind aus; diese Taste beendet das',
holder:'Sie halten die Maschine: die Tasten der anderen Seiten sind aus.',
keptOff:'Platz {seat} h\xe4lt die Maschine, darum sind die Tasten hier aus.',secondsLeft:'({n} s)',
fedInLog:{one:'(1 Karte eingelegt)',many:'({n} Karten eingelegt)'},
tornInLog:{one:'(1 Zeile genommen)',many:'({n} Zeilen genommen)'},
cardsInLog:{one:'(1 Karte genommen)',many:'({n} Karten genommen)'},
notText:'Eine Zeile hat nur Buchstaben, Ziffern und Zeichen der 1401.',
footer:'Eine simulierte IBM 1401. Alles, was Sie sehen, ist von einem Augenblick, nach so vielen Eingaben wie oben.',
lost:'Die Maschine antwortet nicht, darum sind die Tasten aus. Diese Seite versucht es weiter.',
closed:'Der Raum ist geschlossen: die Maschine wurde wegger\xe4umt. Diese Seite versucht es weiter.',
taken503:'An diesem Platz sitzt jemand mit einer Konsole. Diese Seite geht weiter, wenn er gegangen ist.',
busy:'Zu viele Anfragen warten bei dieser Seite. Sie versucht es weiter.',
unkept:'Die Datei des Journals l\xe4sst sich nicht schreiben; die Maschine nimmt keine Eingaben an. Bitte das '
+ 'Personal rufen.',
renewal:{one:'Diese Maschine wird in 1 Sekunde wegger\xe4umt, und eine neue folgt.',
many:'Diese Maschine wird in {n} Sekunden wegger\xe4umt, und eine neue folgt.'},
full:'Das Journal ist voll; die Maschine nimmt keine Eingaben mehr an. Bitte das Personal rufen.',
nearlyFull:'Das Journal hat {n} seiner 100.000 Eintr\xe4ge. Bitte das Personal rufen.',
refusedStatus:'Der Server hat abgelehnt, was diese Seite wollte ({status}).',
unread:'Diese Seite versteht nicht, was der Server zeigt. Ist sie von einer anderen Version?',
proxyAlone:'Der Proxy antwortet, der Raum aber nicht. Starten Sie den Raum; die Seite geht dann von selbst weiter.',
foreign:'Der Raum kennt die Adresse dieser Seite nicht. Starten Sie ihn mit --origin und der Adresse von oben.',
noMemory:'Der Server hatte keinen Speicher f\xfcr ein Bild. Diese Seite versucht es weiter.',
outcomes:{
off:'Nicht gesendet: die Maschine nimmt jetzt keine Eingaben an.',
broken:'Nicht gesendet: es war f\xfcr die Maschine vor dem Abbruch der Verbindung gemeint.',
409:'Nicht ausgef\xfchrt: dieser Platz hat inzwischen etwas anderes eingegeben, vielleicht in einem anderen Fenster. '
+ 'Sehen Sie nach, und senden Sie es noch einmal.',
403:'Nicht ausgef\xfchrt: der Server nimmt keine Zeilen von dieser Seite.',
410:'Nicht ausgef\xfchrt: der Raum ist geschlossen.',
423:'Nicht ausgef\xfchrt: Platz {seat} h\xe4lt die Maschine noch {left} Sekunden lang.',
503:'Nicht ausgef\xfchrt: an diesem Platz sitzt eine Konsole.',
busy:'Nicht ausgef\xfchrt: zu viele Anfragen warten bei dieser Seite.',
507:'Ausgef\xfchrt, aber f\xfcr die Antwort war kein Speicher da.',
500:'Ausgef\xfchrt, aber der Eintrag steht nicht in der Datei des Journals.',
other:'Nicht ausgef\xfchrt: der Server hat es abgelehnt ({status}).',
},
lostAsking:'Die Verbindung brach ab, als diese Zeile gesendet wurde. Diese Seite sendet sie nicht noch einmal, '
+ 'sie sieht erst nach.',
lostDone:'Sie wurde ausgef\xfchrt; ihre Antwort ging verloren.',
lostNotDone:'Sie wurde bis jetzt nicht ausgef\xfchrt.',
lostNewRoom:'Der Raum wurde seitdem neu ge\xf6ffnet; ob sie ausgef\xfchrt wurde, l\xe4sst sich nicht sagen.',
lostUnclear:'Dieser Platz hat seitdem {n} Eingaben gemacht; ob sie ausgef\xfchrt wurde, l\xe4sst sich nicht sagen.',
said:{
firstNote:'Hier steht jede Zeile, die Sie und die Tasten an die Maschine senden, mit ihrer Antwort.',
welcome:'W\xe4hlen Sie ein Programm und legen Sie es ein; dann LOAD, dann RUN.',
welcomeCards:{one:'Im Magazin liegt 1 Karte. LOAD liest sie.',
many:'Im Magazin liegen {n} Karten. LOAD liest die erste.'},
welcomeProgram:'Ein Programm ist im Kernspeicher. RUN f\xfchrt es aus.',
welcomePrepared:'Das Museum hat ein Programm in den Kernspeicher gelegt. START AT seine Adresse, dann RUN.',
load:'Die erste Karte wurde nach 001 bis 080 gelesen. RUN f\xfchrt sie aus.',
start:'Das I-Register ist gesetzt. RUN beginnt dort.',
step:'Ein Befehl wurde ausgef\xfchrt.',
limit:{one:'1 Befehl wurde ausgef\xfchrt, wie verlangt. RUN geht weiter.',
many:'{n} Befehle wurden ausgef\xfchrt, wie verlangt. RUN geht weiter.'},
stopped:{one:'Von Ihnen angehalten nach 1 Schritt. RUN geht weiter.',
many:'Von Ihnen angehalten nach {n} Schritten. RUN geht weiter.'},
pause:'Pause nach {steps} Schritten, denn das Journal ist fast voll. Bitte das Personal rufen.',
afterEnd:'Das Programm ist zu Ende. Legen Sie ein anderes ein und dr\xfccken Sie LOAD. (Noch einmal: weiter '
+ 'nach dem Halt.)',
newRoom:'Das Personal hat eine andere Maschine gestartet. Was Sie vorher taten, ist nicht darin.',
resumed:'Der Raum wurde neu ge\xf6ffnet; seine Maschine ist, wie Sie sie sehen.',
renewing:'Eine neue Maschine wird verlangt ..',
clearing:'Die Maschine wird geleert ..',clear:'Die Maschine ist leer: keine Karte, kein Papier, nichts im '
+ 'Speicher. Die Lampen, A- und B-Register haben keine Taste, die sie l\xf6scht.',
prepared:'Eine neue Maschine ist da, mit dem, was das Museum vorbereitet hat.',
nothing:'Die Maschine ist leer: legen Sie erst ein Programm ein.',
loadFirst:'Im Kernspeicher ist noch nichts: dr\xfccken Sie erst LOAD.',yourTurn:'Sie sind an der Reihe.',
notClear:'Die Maschine ist nicht leer. Vielleicht arbeitet jemand anders. Versuchen Sie es noch einmal.',
},
stops:{
HALT:'Das Programm ist zu Ende. Sein Ergebnis ist auf dem Papier; f\xfcr ein anderes: einlegen, LOAD.',
READER:'Der Leser ist leer: Karten einlegen, dann RUN.',
FORMS:'Der Drucker hat 500 Zeilen: Papier abrei\xdfen, dann RUN.',
STACKER:'Die Ablage hat 500 Karten: Karten nehmen, dann RUN.',
NOMARK:'Bei I beginnt kein Befehl: dort ist keine Wortmarke.',
OPCODE:'Das Zeichen bei I ist keine Operation.',
NOTFITTED:'Die Operation bei I geh\xf6rt zu einer Einrichtung, die diese Maschine nicht hat.',
LENGTH:'Der Befehl bei I hat eine L\xe4nge, die seine Operation nicht hat. Fehlt eine Wortmarke?',
ADDRESS:'Der Befehl bei I braucht eine Stelle, die es nicht gibt, oder ein Feld ohne Ende.',
OVERLAP:'Die Felder des Befehls bei I teilen sich Stellen.',
CARRIAGE:'Ein Sprung zu einem Kanal ohne Loch im Vorschubstreifen: er hat 1, 9 und 12.',
DCHAR:'Das letzte Zeichen des Befehls bei I verlangt nichts, was er kann.',
TAPE:'Die Bandeinheit, die der Befehl bei I nennt, hat kein Band.',
},
tooLong:'Der Befehl bei {at} ist zu lang: fehlt die Wortmarke, mit der der n\xe4chste beginnen sollte? In DEPOSIT '
+ 'setzt ~ sie.',
noMarkAt:'Bei {at} beginnt kein Befehl: dort ist keine Wortmarke.',
lostMark:'Vielleicht hat der Befehl davor, bei {before}, seine verloren.',
longBefore:'Der Befehl davor, bei {before}, ist zu lang: fehlt eine Wortmarke darin?',
replies:{
'REFUSED 1':'Diese Stelle gibt es nicht.',
'REFUSED 2':'Das Magazin fasst 500 Karten und ist voll.',
'REFUSED 3':'Im Magazin ist keine Karte. Legen Sie erst einen Stapel ein.',
'REFUSED 4':'Es gibt nichts zu nehmen.',
'REFUSED 5':'RUN nimmt 1 bis 1.000.000 Befehle.',
'REFUSED 6':'EXAMINE zeigt 1 bis 40 Stellen.',
'ERROR 1':'Ein Wort ist nicht bekannt. HELP zeigt die Zeilen.',
'ERROR 2':'Eine Zahl oder Adresse fehlt oder ist keine. Fehlt danach ein Leerzeichen?',
'ERROR 3':'Ein Zeichen, das keine Karte und keine Stelle hat, oder ein ~ ohne Zeichen danach.',
'ERROR 4':'Der Text ist leer oder zu lang.',
'ERROR 5':'Nach dem Ende der Eingabe kommt noch etwas.',
'FAULT 1':'F\xfcr den n\xe4chsten Eintrag des Journals war kein Speicher da.',
'FAULT 2':'Das Journal ist voll.',
'FAULT 3':'Nicht ausgef\xfchrt: der Platz lie\xdf sich nicht mit dem Journal vergleichen.',
'FAULT 4':'Die Datei des Journals l\xe4sst sich nicht schreiben.',
'GLANCE FAULT 1':'Diese Stelle gibt es nicht.',
'GLANCE FAULT 2':'Es gab nichts zu lesen.',
BYE:'Der Platz bleibt; die n\xe4chste Zeile nimmt ihn wieder ein.',
},
lines:[
['DEPOSIT 0500 ~ABC','schreibt Zeichen ab 0500; ~ setzt eine Wortmarke beim n\xe4chsten'],
['EXAMINE 0500 11','zeigt 11 Stellen ab 0500, h\xf6chstens 40'],
['REGS','zeigt Register, Anzeigen, Schalter, Karten und Papier'],
['START 0600','setzt das I-Register'],
['SWITCH A ON','legt einen Schalter um, ON oder OFF; A bis G'],
['FEED HELLO','legt eine Karte ein; FEED allein eine leere'],
['LOAD','die Taste LOAD'],
['RUN 1000','f\xfchrt h\xf6chstens 1.000 Befehle aus; mehr als 1.000.000 gehen nicht'],
['LINE','nimmt die \xe4lteste gedruckte Zeile'],
['CARD','nimmt die \xe4lteste gestanzte Karte'],
['GLANCE 0500','zeigt eine Stelle, ohne dass es als Eingabe z\xe4hlt'],
['HELP','zeigt diese Liste; es wird nicht gesendet'],
],
lessonSaid:{
halt:'Das Programm ist zu Ende. Lektion {n} geht mit Schritt 2 weiter, unter dem Kernspeicher.',
mended:'Das Programm ist zu Ende. Schritt 5 von Lektion {n} sagt, was auf dem Papier steht, wenn es richtig ist.',
again:'Das Programm war schon zu Ende; nichts Neues wurde gedruckt. Dr\xfccken Sie "Von vorn", und zur\xfcck zu '
+ 'Schritt 3.',
againMended:'Das Programm war schon zu Ende; nichts Neues wurde gedruckt.',
loaded:'Das Programm ist geladen und hat noch nicht begonnen. Lektion {n} geht mit Schritt 4 weiter, unter dem '
+ 'Kernspeicher.',
noSwitch:'Es sind keine Karten mehr da, und Schalter A ist aus, darum bemerkte das Programm die letzte Karte '
+ 'nicht. Dr\xfccken Sie "Von vorn", und beginnen Sie noch einmal, mit A an.',
loadFirst:'Die Karten dieser Lektion sind im Magazin: dr\xfccken Sie erst LOAD. RUN l\xe4se sie als Daten.',
deposited:'Gef\xfcllt: {from} bis {to}. Wortmarken dort: {marks}.',none:'keine',
},
lessonTitle:'Lektion {n}',
lessonsHint:'Die Lektionen 1 bis 8 sind in dieser Liste; ihre Schritte sind unter dem Kernspeicher.',
guideTitle:'Ihr erstes Programm',guideOn:'F\xfchrung beginnen',guideOff:'Ohne F\xfchrung',
guideSteps:['Einlegen','LOAD','STEP','RUN','Ihr Name'],stepDone:'Schritt {n}, {name}: erledigt',
stepOpen:'Schritt {n}, {name}',
guideWords:{
feed:'Dr\xfccken Sie "Programm einlegen": eine Karte mit dem Programm Hallo kommt ins Magazin. Sie ist ein ganzes '
+ 'Programm.',
load:'Dr\xfccken Sie LOAD: die Maschine liest die Karte in ihre Stellen 001 bis 080.',
step:'Dr\xfccken Sie STEP: die Maschine f\xfchrt einen Befehl aus. Die ersten setzen Wortmarken, die die '
+ 'Karte in Befehle teilen.',
run:'Dr\xfccken Sie RUN: die Maschine f\xfchrt die anderen aus, druckt eine Zeile und h\xe4lt an. Sehen Sie aufs Papier.',
name:'Die Zeile ist gedruckt. Nun Ihr Name: schreiben Sie ihn hier, und stanzen Sie eine eigene Karte.',
loadName:'Ihre Karte ist im Magazin. Dr\xfccken Sie LOAD, um sie zu lesen.',
runName:'Dr\xfccken Sie RUN, und sehen Sie aufs Papier.',
done:'Ihr Name ist auf dem Papier. Speichern Sie es, drucken Sie die Karte, oder w\xe4hlen Sie ein anderes Programm.',
other:'Jemand hat Karten oder ein Programm in der Maschine gelassen. "Von vorn" leert sie; oder machen Sie damit '
+ 'weiter.',
program:'Das Programm {name} ist in der Maschine. Machen Sie damit weiter; oder dr\xfccken Sie "Von vorn", dann '
+ 'beginnt die F\xfchrung.',
paper:'Der Drucker ist voll: er fasst 500 Zeilen. Dr\xfccken Sie "Abrei\xdfen".',
lessonFeed:'Dr\xfccken Sie "Programm einlegen": die Karten dieser Lektion kommen ins Magazin.',
lessonSwitch:'Lektion {n} ist im Magazin. Schalter A an, dann LOAD und RUN. Die Schritte sind unter dem '
+ 'Kernspeicher.',
lessonLoad:'Dr\xfccken Sie LOAD: die Maschine liest die erste Karte.',
lessonRun:'Dr\xfccken Sie RUN, und lesen Sie das Papier. Etwas darauf ist falsch, oder die Maschine h\xe4lt mit einer '
+ 'Meldung.',
lessonLook:'Was ist falsch? Schritt 2, unter dem Kernspeicher, hilft. Wenn Sie es wissen, weiter mit Schritt 3: '
+ '"Von vorn".',
lessonNoSwitch:'Schalter A war aus, darum bemerkte das Programm die letzte Karte nicht. Dr\xfccken Sie "Von vorn", '
+ 'und diesmal A an.',
lessonOther:'Etwas anderes ist in der Maschine. Dr\xfccken Sie "Von vorn", dann beginnt Lektion {n}.',
lessonSend:'Schicken Sie an der Konsole {loads}: das l\xe4dt das Programm und h\xe4lt vor seinem ersten Befehl an.',
lessonMend:'Schicken Sie an der Konsole das DEPOSIT, das den Fehler behebt. Schritt 4, unter dem Kernspeicher, '
+ 'hilft.',
lessonAgain:'Wenn Schritt 4 ganz gesendet ist, dr\xfccken Sie RUN, und lesen Sie das Papier.',
lessonDone:'Schritt 5 sagt, was jetzt auf dem Papier steht. Wenn nicht: "Von vorn", und noch einmal.',
},
guide:{
off:'Die F\xfchrung bringt Sie in etwa zwei Minuten zu einer gedruckten Zeile mit Ihrem Namen.',
prepared:'Das Museum hat diese Maschine vorbereitet: sie begann mit einem Programm oder mit Karten. Dr\xfccken Sie '
+ 'LOAD, wenn Karten da sind, dann RUN. "Von vorn" w\xfcrde sie leeren.',
preparedAgain:'Das Museum hat diese Maschine vorbereitet: sie begann mit einem Programm oder mit Karten. Dr\xfccken '
+ 'Sie LOAD, wenn Karten da sind, dann RUN. "Von vorn" bringt eine neue, die genauso vorbereitet ist.',
aside:'Die F\xfchrung ist zur Seite getreten. Sie beginnt wieder, wenn Sie wollen.',
attract:'Niemand ist hier, darum l\xe4uft die Maschine allein. Ein Druck auf den Bildschirm oder eine Taste '
+ '\xfcbernimmt sie.',
},
turn:{
busy:'Platz {seat} ist an der Maschine. Dr\xfccken Sie "Anstellen", dann kommen Sie an die Reihe.',
next:'Platz {seat} ist an der Maschine; Sie sind der N\xe4chste.',
later:{one:'Platz {seat} ist an der Maschine. H\xf6chstens 1 anderer Platz ist vor Ihnen dran.',
many:'Platz {seat} ist an der Maschine. H\xf6chstens {n} andere Pl\xe4tze sind vor Ihnen dran.'},
soon:'Die Maschine ist frei. Der N\xe4chste kommt an die Reihe.',
wait:'Anstellen',leave:'Nicht mehr warten',give:'An den N\xe4chsten geben',
},
childWords:{
feed:'Dr\xfccke KARTE. Eine Karte kommt in die Maschine.',
load:'Dr\xfccke LOAD. Die Maschine liest die L\xf6cher der Karte.',
step:'Dr\xfccke STEP. Die Maschine tut das Erste, was auf der Karte steht.',
run:'Dr\xfccke RUN. Die Maschine tut alles andere, und druckt.',
name:'Sie hat gedruckt! Nun schreibe deinen eigenen Namen.',loadName:'Das ist deine Karte. Dr\xfccke LOAD.',
runName:'Dr\xfccke RUN, und sieh aufs Papier.',done:'Da ist dein Name! Dr\xfccke KARTE, um neu zu beginnen.',
other:'Vor dir war jemand hier. Dr\xfccke LEEREN.',
program:'Das Programm {name} ist in der Maschine. Dr\xfccke LEEREN.',
paper:'Das Papier ist voll. Dr\xfccke LEEREN.',
},
childKeys:{feed:'KARTE',clear:'LEEREN'},
stage:{
name:'IBM 1401',more:'Mehr',back:'Zur\xfcck',stripLabel:'Kernspeicher ab {from}, und der Druckbereich',
cardRead:'Die gelesene Karte',cardNext:'Die n\xe4chste Karte',cardNone:'Noch keine Karte',
machines:{reader:'Kartenleser 1402',unit:'Computer 1401',printer:'Drucker 1403'},
who:'Platz {seat} ist an der Maschine',nobody:'Niemand ist an der Maschine',touch:'BER\xdcHRE MICH',
leaving:{one:'Ist noch jemand da? Bitte ber\xfchren. (1)',many:'Ist noch jemand da? Bitte ber\xfchren. ({n})'},
},
homeCode:'Nimm deine Karte mit: richte ein Telefon hierher.',homeTitle:'Deine Karte von einer IBM 1401',
homeLine:'Sie hat diese Zeile gedruckt',
machinesLabel:'der Kartenleser, der Computer und der Drucker',moreKey:'Mehr',whyKey:'Warum?',
watchStop:'Lauf anhalten',watchHold:'F\xfcr alle halten',
tourLabel:'was die Maschine tut',tourBack:'Zur\xfcck',tourNext:'Weiter',
scenes:{
and:' und ',at:'{n} von {all}',pause:'Pause',play:'Weiterlaufen',
none:'Lege eine Karte ein und dr\xfccke LOAD. Dann wird hier jeder Schritt erkl\xe4rt.',
load:'Die Karte ist in der Maschine: jede ihrer 80 Spalten ist nun ein Zeichen in einer der Stellen 001 bis 080.',
SW:'Sie hat Wortmarken bei {places} gesetzt. Eine Wortmarke sagt, dass dort etwas beginnt; sie teilen die Karte.',
MCW:'Sie hat Buchstaben von Stelle {from} an nach Stelle {to} gebracht: "{text}".',
W:'Die Kette des Druckers hat die Stellen ab 201 gedruckt: "{line}".',
H:'Das Programm ist zu Ende, und die Maschine h\xe4lt an.',A:'Sie hat die Zahl bei {a} zu der bei {b} addiert.',
S:'Sie hat die Zahl bei {a} von der bei {b} subtrahiert.',
other:'Die Maschine hat ausgef\xfchrt: {what}.',
},
nameLabel:'Ihr Name',nameKey:'Stanzen und einlegen',nameEmpty:'Schreiben Sie erst einen Namen.',
nameWrong:'Keine Karte hat {letter}. W\xe4hlen Sie einen Namen mit A bis Z.',nameSpelt:'Auf der Karte: {name}',
nameKeys:'Tasten f\xfcr Ihren Namen',alphabet:'ABCDEFGHIJKLMNOPQRSTUVWXYZ\xc4\xd6\xdc\xdf',wipe:'l\xf6schen',
afreshKey:'Von vorn',afreshTitle:'leert die Maschine: Karten, Papier, Schalter und Kernspeicher',
afreshAsk:'Das leert die simulierte Maschine, die sich die Pl\xe4tze von oben teilen: Karten, Papier, Schalter und '
+ 'Kernspeicher. Was diese Seite abgerissen und genommen hat, ist auch fort. Von vorn beginnen?',
afreshOthers:'Ein anderer Platz arbeitet gerade und verl\xf6re Karten, Papier und Programm. Trotzdem von vorn '
+ 'beginnen?',
programs:{
hello:{name:'Hallo',about:'Eine Karte: die ersten Spalten sind Befehle, der Rest ist der Text, den sie '
+ 'drucken.',
fed:'Die Karte ist im Magazin. Dr\xfccken Sie LOAD, dann RUN, und sehen Sie auf den Drucker.'},
banner:{name:'Banner',about:'Liest Karten und druckt die Buchstaben der Spalten 1 bis 20 sieben Zeilen hoch.',
fed:'Dr\xfccken Sie LOAD, dann RUN. Stanzen Sie dann eine Karte mit einem Namen, und RUN.'},
calculation:{name:'Rechnung',about:'Eine Tafel der Zweierpotenzen, jede zu sich selbst addiert.',
fed:'Dr\xfccken Sie LOAD, dann RUN. Bei 100 Schritten je Sekunde sehen Sie zu.'},
payroll:{name:'Lohnliste',about:'Liest f\xfcr jeden Arbeiter eine Karte mit Stunden und Stundenlohn in Cent, '"##;

/// The rest of the page.
pub const REST: &[u8] = br##"
+ 'multipliziert durch Addieren, bereitet die Betr\xe4ge auf und druckt die Summe.',
fed:'Dr\xfccken Sie LOAD, dann RUN.'},
game:{name:'Gr\xf6\xdfer oder kleiner',about:'Die letzte Karte des Stapels hat eine geheime Zahl von 01 bis 99. '
+ 'Stanzen '
+ 'Sie Ihren Tipp, zwei Ziffern, dann RELEASE und RUN: die Maschine druckt, ob die Zahl gr\xf6\xdfer oder kleiner ist.',
fed:'Dr\xfccken Sie LOAD, dann RUN. Stanzen Sie dann eine Karte mit zwei Ziffern, und wieder RUN.'},
listing:{name:'Liste',about:'Druckt und kopiert die Karten nach ihr. Mit Schalter A h\xe4lt es nach der '
+ 'letzten Karte an.',
fed:'Schalter A an, LOAD, dann RUN. Bei 100 Schritten je Sekunde sehen Sie zu.'},
},
aboutFirst:'Das ist eine simulierte IBM 1401, ein Rechner von 1959, mit Kartenleser, Stanzer und Drucker. '
+ 'Alles, was '
+ 'Sie sehen, ist eine Maschine, die sich alle in diesem Raum teilen. Die Lektionen 1 bis 8 in der Liste der '
+ 'Programme haben einen Fehler, den Sie finden sollen.',
aboutDrawing:'Karten gehen vom Leser zur Recheneinheit, Ergebnisse von dort zum Drucker und zum Stanzer.',
aboutParts:{reader:['Kartenleser','und Stanzer'],unit:['Recheneinheit','mit Kernspeicher'],
printer:['Drucker','132 Spalten'],
below:['800 Karten je Minute','1.400 bis 16.000 Stellen','600 Zeilen je Minute']},
wordsTitle:'Zehn W\xf6rter',
aboutWords:[
['Karte','ein St\xfcck Karton mit 80 Spalten; die L\xf6cher einer Spalte sind ein Buchstabe, eine Ziffer oder ein '
+ 'Zeichen'],
['Magazin','wo die Karten liegen, die als n\xe4chste gelesen werden'],
['LOAD','die Taste, die die erste Karte nach 001 bis 080 liest und dort beginnt'],
['Kernspeicher','der Speicher aus kleinen Magnetringen: jede Stelle hat ein Zeichen'],
['Wortmarke','ein Bit neben einem Zeichen; es sagt, wo ein Feld oder ein Befehl beginnt'],
['Befehl','ein Buchstabe f\xfcr die Operation und Adressen, mit denen sie arbeitet'],
['I-Register','die Stelle des n\xe4chsten Befehls'],
['Schalter','nach ihm kann ein Programm fragen'],
['Blatt','eine Seite des endlosen Papiers, mit 66 Zeilen'],
['Vorschubstreifen','eine Schleife aus Papier mit L\xf6chern, die sagt, wo das Papier anh\xe4lt'],
],
numbersTitle:'Woher die Zahlen kommen',
aboutNumbers:'Die Seite fragt die Maschine viermal in der Sekunde, und jedes Bild ist von einem Augenblick. Im '
+ 'Tempo von '
+ '1960 wartet sie so lange, wie Leser, Stanzer und Drucker brauchten. Jede Operation des Simulators wurde '
+ 'als korrekt bewiesen.',
shortcutsTitle:'Tasten',
shortcuts:[
['Alt+F','legt das gew\xe4hlte Programm ein'],['Alt+L','LOAD'],['Alt+R','RUN'],['Escape','STOP'],
['Alt+N','STEP'],['Alt+T','rei\xdft das Papier ab'],
['Alt+C','zur Konsole; die Pfeiltasten bringen fr\xfchere Zeilen zur\xfcck'],
['Alt+A','zur Adresse des Kernspeichers'],['Alt+K','zum Locher; Enter legt die Karte ein'],
['Alt+P','zum Papier; die Pfeiltasten bewegen es'],
['Tab, Pfeiltasten','von Teil zu Teil; im Kernspeicher gehen die Pfeiltasten von Stelle zu Stelle'],
],
};
const PLACES_SHOWN=600;
const FORM_LINES=66;
const FORMS=10000;
const CARD_COLUMNS=80;
const MOST_CARDS=500;
const DECK_CARDS=10000;
const JOURNAL_ENTRIES=100000;
const JOURNAL_NEARLY=95000;
const CHANNELS=[[1,4],[9,60],[12,63]];
const SWITCHES='ABCDEFG';
const GRAPHICS=' 1234567890#@:>(^/STUVWXYZ\',%=\\+-JKLMNOPQR!$*];_&ABCDEFGHI?.)[<"';
const KEYBOARD=['1234567890-&','QWERTYUIOP','ASDFGHJKL','ZXCVBNM,./','#@$*%+=:;\'"','()<>[]^_?!\\'];
const OWN_PACE='own';
const OWN_STEPS=12;
const PACES=[1,10,100,400,100000,OWN_PACE];
const FASTEST=4;
const SLICE_MS=100;
const CHUNK=100;
const GROW_AFTER_MS=60000;
const GROW_MS=3000;
const MOST_GROWN=60;
const MOST_STEPS=1000000;
const POLL_MS=250;
const WAIT_MS=50;
const HIDDEN_POLL_MS=1000;
const RETRY_MS=1000;
function rowsOf(graphic){
const code=GRAPHICS.indexOf(graphic),zone=code>>4,low=code&15;
const zoneRows=[[],[0],[11],[12]][zone];
if(code===16)return[2,8];
if(low===10)return zone===1?[0,2,8]:zone===0?[0]:[...zoneRows,0];
if(low===0)return zoneRows;
return low<10?[...zoneRows,low]:[...zoneRows,low - 8,8];
}
function bitsOf(graphic){
const code=GRAPHICS.indexOf(graphic);
return['B','A','8','4','2','1'].filter((_,at)=>code&(32>>at)).join(' ');
}
function instructionLength(cells,at){
if(!cells[at]||!cells[at].mark)return 0;
let length=1;
while(length<8&&cells[at + length]&&!cells[at + length].mark)length++;
const operation=cells[at].graphic;
if(operation===','||operation==='/')return Math.min(length,7);
if(operation==='B'&&length>4&&cells[at + 4].graphic===' ')return 4;
return length;
}
const HELLO=',008015,022029,036037,038041M0802402.   HELLO FROM AN IBM 1401';
const NAME_COLUMN=40;
const LISTING=[
',008015,022029,036040,047054,061068,072/047499/054399/061299/0681991040',
'                                       )008015)022029)036036N0000001040',
',001F1FS/332/M4792192                  L021420,404406,408412,4134201040',
'/332/1M080280M080180FT6                L023443,425426,427434,4414431040',
'B460AB404@B421  .LISTING OF THE DECK   L036479,449454,460461,4614611040',
'                                       /400080',
'0001 CARD READ PUNCH     1402','0002 PROCESSING UNIT     1401','0003 PRINTER             1403',
'0004 MAGNETIC TAPE UNIT   729','0005 DISK STORAGE        1405','0006 PAPER TAPE READER   1011',
'0007 CONSOLE INQUIRY     1407','0008 STORAGE UNIT        1406','0009 MAGNETIC READER     1412',
'0010 OPTICAL READER      1418','0011 CARD SORTER          083','0012 CARD COLLATOR        088',
'0013 KEY PUNCH            026','0014 VERIFIER             056','0015 INTERPRETER          557',
'0016 REPRODUCING PUNCH    519','0017 ACCOUNTING MACHINE   407','0018 CALCULATING PUNCH    604',
'0019 STATISTICAL MACHINE  101','0020 CARD PUNCH           024','0021 THE LAST CARD',
];
const HELLO_SOURCE=`,008015        SW   8,15        word marks for the next two
,022029        SW   22,29
,036037        SW   36,37
,038041        SW   38,41       and where the text begins
M080240        MLC  80,240      041 to 080 into the print area
2              W                print the line
.              H                halt`;
const secretCard=()=>[pad(1 + Math.floor(Math.random()*99),2)];
const widened=text=>text.replace(/~([D-Z])/g,(_,letter)=>' '.repeat(letter.charCodeAt()- 65));
function assembled(name){
const{source,cards}=PROGRAM_FILES[name];
return{source:widened(source),cards:cards.map(widened)};
}
const placesOf=listing=>[...listing.matchAll(/^0*(\d+) \S/gm)].map(([,place])=>Number(place));
const PROGRAMS=[
{name:'hello',cards:[HELLO],source:HELLO_SOURCE,alone:true},
{name:'banner',...assembled('banner')},
{name:'calculation',...assembled('calculation'),alone:true},
{name:'payroll',...assembled('payroll'),alone:true},
{name:'game',...assembled('game'),extra:secretCard},
{name:'listing',cards:LISTING,source:LISTING.join('\n'),switches:'A',alone:true},
];
const byId=id=>document.getElementById(id);
const pad=(number,width)=>String(number).padStart(width,'0');
const delay=ms=>new Promise(done=>setTimeout(done,ms));
const still=matchMedia('(prefers-reduced-motion: reduce)');
function filled(text,values={}){
return text.replace(/\{(\w+)\}/g,(whole,name)=>name in values?String(values[name]):whole);
}
function counted(forms,n,values={}){
const form=forms[new Intl.PluralRules(TEXTS.language).select(n)]??forms.many;
return filled(form,{n:withCommas(n),...values});
}
function withCommas(number){
return String(number).replace(/\B(?=(\d{3})+$)/g,TEXTS.thousands);
}
function setText(element,text){
if(element.textContent !==text)element.textContent=text;
}
function setAttribute(element,name,value){
if(element.getAttribute(name)!==value)element.setAttribute(name,value);
}
function added(parent,name,properties={}){
const element=Object.assign(document.createElement(name),properties);
parent.append(element);
return element;
}
function drawn(parent,name,attributes){
const element=document.createElementNS('http://www.w3.org/2000/svg',name);
for(const[key,value]of Object.entries(attributes))element.setAttribute(key,value);
parent.append(element);
return element;
}
function setOff(key,off){
setAttribute(key,'aria-disabled',String(off));
}
const isOff=key=>key.getAttribute('aria-disabled')==='true';
function glow(element){
if(!still.matches)element.animate([{backgroundColor:'#ffb238'},{}],1400);
}
function saveFile(name,text){
const address=URL.createObjectURL(new Blob([text],{type:'text/plain'}));
const link=added(document.body,'a',{href:address,download:name});
link.click();
link.remove();
setTimeout(()=>URL.revokeObjectURL(address),RETRY_MS);
}
const LESSON_TEXTS={
en:{
name:'Lesson {n}: {title}',
steps:'This program has a mistake; steps 3 to 5 mend it. Below, each line has its address and what it puts into '
+ 'core storage; the panel says MCW for MLC. A click on a place shows its address.\n1. If the machine isn\'t '
+ 'clear, press {afresh}. Press {feed}. Turn sense switch A on, if it isn\'t: it makes the program notice the '
+ 'last card. Press LOAD and RUN, and read the paper.\n2. {look}\n3. Press {afresh}, then {feed}, turn switch '
+ 'A on, and press LOAD. At the console send {run}: the program is loaded, and has not begun.\n4. {mend} DEPOSIT '
+ '0600 ~AB~C puts three characters into places 600 to 602: ~ sets a word mark on A and on C, and B loses any '
+ 'that was there. Every instruction begins with a word mark.\n5. Press RUN. {right} The paper is the proof: you '
+ 'mended core storage, not the cards, and feeding them again brings the mistake back.',
fed:'Lesson {n} is in the hopper. Turn sense switch A on, press LOAD, then RUN. The steps are below core storage.',
lessons:[
{title:'three fields',
look:'A card has a name, a town and a year, and the town comes out wrong. A move begins at the last place of '
+ 'a field and stops at the first word mark to its left. The card is in places 1 to 80, word marks are '
+ 'underlined. Which field has none?',
mend:'Set that mark: a card brings no word marks, and takes none away. Type any letter after ~: the card is '
+ 'read over it.',
right:'The town is in print positions 24 to 35, which are places 224 to 235, and the year in 41 to 44.'},
{title:'the last card',
look:'Amounts are listed and added. Add them by hand: by which amount is the total too low? BLC leaves the '
+ 'loop at the last card. What is not done for that card?',
mend:'Which order should the two instructions in places 428 to 439 have?',right:'The total is 14425.'},
{title:'edited amounts',
look:'The total lacks a digit. Its field ends at 489, and the control word that it is printed by ends at '
+ '500. How many digits has the one, and how many places for digits the other? In a control word each blank '
+ 'and the 0 take one digit; comma and point stay; & prints a blank; CR is printed only if the amount is '
+ 'negative. The last digit also carries the sign, so ? is a positive 0.',
mend:'Put a wider control word at 600, with as many blanks in front as digits are missing, and let the '
+ 'instruction at 463, L500233, name its last place.',
right:'The total is 13,339.00.'},
{title:'a table',
look:'The machine stops at the fourth card with a message: that is the mistake that you are to find. Prices '
+ 'are looked up with the index register in places 87 to 89: +X1 adds its number to an address. A letter in '
+ 'it stands for a digit and thousands, so D86 is 3486. The fourth search runs through all of core storage. '
+ 'What is in the register when a search begins? What sets it to 000, and how often?',
mend:'The loop has no room for one more instruction, so patch it. B418 at 500 goes back for the next card: '
+ 'lead it to 600, and put there what is missing, M545089, then B418.',
right:'There are five lines, and NO PRICE for the ladder alone.'},
{title:'a subroutine',
look:'The subroutine at 497 prints the total of a department. After the first the machine stops at 199, '
+ 'where no instruction is. A branch leaves the address of the return in the B register, H stores it, and '
+ '/ uses that register. In which order do they come?',
mend:'Put the three instructions at 497, /332 and / and H552, into the right order.',
right:'Each of the three departments has its total.'},
{title:'headings',
look:'The second heading is at the foot of the first form. F1 skips to the top of a form: where in the '
+ 'program is it, and how often is it carried out?',
mend:'Patch it. B468 at 456 calls the heading when a form is full: lead it to 600, and put there F1, then '
+ 'B468, then B423.',
right:'The second heading is in line 4 of its form.'},
{title:'sorting',
look:'Nothing is printed: the limit of the table, in places 597 to 599, is never found equal to the index '
+ 'register in 87 to 89. Look at the last character of each. Which operation puts a sign there?',
mend:'The instruction at 422 should only move the field. Its first character is its operation.',
right:'The six cards are in the order of their names.'},
{title:'a payroll',
look:'The room has to be opened with --fit multiply. The third total is nonsense. A product needs the '
+ 'places of both factors and one more. For the tax, seven digits times two, there are nine places from '
+ '757 on. Which field is to the left of them?',
mend:'Give that field another place: eight zeros at 900, named 907 by the instructions at 521, A724756, and '
+ 'at 627, E756258.',
right:'The third total is 387.23.'},
],
},
de:{
name:'Lektion {n}: {title}',
steps:'Dieses Programm hat einen Fehler; die Schritte 3 bis 5 beheben ihn. Unten hat jede Zeile ihre Adresse und '
+ 'was sie in den Kernspeicher bringt; das Bedienfeld sagt MCW statt MLC. Ein Klick auf einen Platz zeigt seine '
+ 'Adresse.\n1. Wenn die Maschine nicht leer ist, dr\xfccken Sie {afresh}. Dr\xfccken Sie {feed}. Schalter A an, wenn '
+ 'er es nicht ist: damit bemerkt das Programm die letzte Karte. Dann LOAD und RUN, und lesen Sie das Papier.\n'
+ '2. {look}\n3. Dr\xfccken Sie {afresh}, {feed}, Schalter A an, und LOAD. Schicken Sie an der Konsole {run}: das '
+ 'Programm ist geladen und hat noch nicht begonnen.\n4. {mend} DEPOSIT 0600 ~AB~C bringt drei Zeichen auf die '
+ 'Pl\xe4tze 600 bis 602: ~ setzt eine Wortmarke bei A und bei C, und B verliert eine, die dort war. Jeder Befehl '
+ 'beginnt mit einer Wortmarke.\n5. Dr\xfccken Sie RUN. {right} Das Papier ist der Beweis: Sie haben den '
+ 'Kernspeicher berichtigt, nicht die Karten; wieder eingelegt, bringen sie den Fehler zur\xfcck.',
fed:'Lektion {n} ist im Magazin. Schalter A an, LOAD, dann RUN. Die Schritte sind unter dem Kernspeicher.',
lessons:[
{title:'drei Felder',
look:'Eine Karte hat einen Namen, einen Ort und ein Jahr, und der Ort wird falsch gedruckt. Eine '
+ '\xdcbertragung beginnt am letzten Platz eines Feldes und h\xe4lt an der ersten Wortmarke links davon. Die Karte '
+ 'ist auf den Pl\xe4tzen 1 bis 80, Wortmarken sind unterstrichen. Welchem Feld fehlt sie?',
mend:'Setzen Sie diese Marke: eine Karte bringt keine Wortmarken und nimmt keine weg. Nach ~ kommt irgendein '
+ 'Buchstabe: die Karte wird dar\xfcber gelesen.',
right:'Der Ort ist in den Druckspalten 24 bis 35, das sind die Pl\xe4tze 224 bis 235, das Jahr in 41 bis 44.'},
{title:'die letzte Karte',
look:'Betr\xe4ge werden gedruckt und addiert. Addieren Sie von Hand: um welchen Betrag ist die Summe zu klein? '
+ 'BLC verl\xe4sst die Schleife bei der letzten Karte. Was geschieht mit dieser Karte nicht?',
mend:'In welcher Reihenfolge sollten die zwei Befehle auf den Pl\xe4tzen 428 bis 439 sein?',
right:'Die Summe ist 14425.'},
{title:'aufbereitete Betr\xe4ge',
look:'Der Summe fehlt eine Ziffer. Ihr Feld endet auf 489, und die Maske, mit der sie gedruckt wird, auf '
+ '500. Wie viele Ziffern hat das eine, und wie viele Pl\xe4tze f\xfcr Ziffern die andere? In einer Maske nehmen '
+ 'jedes Leerzeichen und die 0 eine Ziffer auf; Komma und Punkt bleiben; & druckt ein Leerzeichen; CR wird '
+ 'nur bei einem negativen Betrag gedruckt. Die letzte Ziffer tr\xe4gt auch das Vorzeichen, so ist ? eine '
+ 'positive 0.',
mend:'Bringen Sie eine breitere Maske nach 600, vorne mit so vielen Leerzeichen mehr, wie Ziffern fehlen, und '
+ 'der Befehl auf 463, L500233, soll ihren letzten Platz nennen.',
right:'Die Summe ist 13,339.00.'},
{title:'eine Tabelle',
look:'Die Maschine h\xe4lt bei der vierten Karte mit einer Meldung an: das ist der Fehler, den Sie suchen. '
+ 'Preise werden mit dem Indexregister auf den Pl\xe4tzen 87 bis 89 gesucht: +X1 addiert dessen Zahl zu einer '
+ 'Adresse. Ein Buchstabe darin steht f\xfcr eine Ziffer und Tausender, so ist D86 3486. Die vierte Suche l\xe4uft '
+ 'durch den ganzen Kernspeicher. Was ist im Register, wenn eine Suche beginnt? Was setzt es auf 000, und '
+ 'wie oft?',
mend:'In der Schleife ist kein Platz f\xfcr noch einen Befehl, also flicken Sie sie. B418 auf 500 geht zur '
+ 'n\xe4chsten Karte zur\xfcck: f\xfchren Sie ihn nach 600, und dorthin kommt, was fehlt, M545089, dann B418.',
right:'Es sind f\xfcnf Zeilen, und nur die Leiter hat NO PRICE.'},
{title:'ein Unterprogramm',
look:'Das Unterprogramm auf 497 druckt die Summe einer Abteilung. Nach der ersten h\xe4lt die Maschine auf '
+ '199, wo kein Befehl ist. Ein Sprung l\xe4sst die Adresse der R\xfcckkehr im B-Register, H speichert sie, und '
+ '/ ben\xfctzt dieses Register. In welcher Reihenfolge kommen sie?',
mend:'Bringen Sie die drei Befehle auf 497, /332 und / und H552, in die richtige Reihenfolge.',
right:'Jede der drei Abteilungen hat ihre Summe.'},
{title:'\xdcberschriften',
look:'Die zweite \xdcberschrift ist am Fu\xdf des ersten Formulars. F1 springt zum Kopf eines Formulars: wo im '
+ 'Programm ist es, und wie oft wird es ausgef\xfchrt?',
mend:'Flicken Sie es. B468 auf 456 ruft die \xdcberschrift, wenn ein Formular voll ist: f\xfchren Sie ihn nach '
+ '600, und dorthin kommt F1, dann B468, dann B423.',
right:'Die zweite \xdcberschrift ist in Zeile 4 ihres Formulars.'},
{title:'Sortieren',
look:'Nichts wird gedruckt: die Grenze der Tabelle, auf den Pl\xe4tzen 597 bis 599, ist dem Indexregister auf '
+ '87 bis 89 niemals gleich. Sehen Sie das letzte Zeichen von beiden an. Welche Operation bringt dort ein '
+ 'Vorzeichen hin?',
mend:'Der Befehl auf 422 soll das Feld nur \xfcbertragen. Sein erstes Zeichen ist die Operation.',
right:'Die sechs Karten sind in der Reihenfolge ihrer Namen.'},
{title:'eine Lohnliste',
look:'Der Raum muss mit --fit multiply er\xf6ffnet sein. Die dritte Summe ist Unsinn. Ein Produkt braucht die '
+ 'Pl\xe4tze beider Faktoren und einen mehr. F\xfcr die Steuer, sieben Ziffern mal zwei, sind neun Pl\xe4tze ab 757 '
+ 'da. Welches Feld ist links davon?',
mend:'Geben Sie diesem Feld einen anderen Platz: acht Nullen auf 900, die bei den Befehlen auf 521, '
+ 'A724756, und auf 627, E756258, den Namen 907 haben.',
right:'Die dritte Summe ist 387.23.'},
],
},
};
const LESSON_STEPS=[203,203,203,221,230,221,284,266];
LESSON_STEPS.forEach((steps,at)=>{
const name=`lesson${at + 1}`;
PROGRAMS.push({name,...assembled(name),loads:`RUN ${steps}`,number:at + 1});
for(const[language,{programs,feedKey,afreshKey}]of Object.entries(LANGUAGES)){
const texts=LESSON_TEXTS[language]||LESSON_TEXTS.en,lesson=texts.lessons[at];
const about=filled(texts.steps,{...lesson,run:`RUN ${steps}`,feed:feedKey,afresh:afreshKey});
programs[name]={name:filled(texts.name,{...lesson,n:at + 1}),about,
fed:filled(texts.fed,{n:at + 1})};
}
});
class Unreadable extends Error{}
function partsOf(line,form){
const parts=form.exec(line===undefined?'':line);
if(!parts)throw new Unreadable(line);
return parts.slice(1);
}
function afterWord(line,word){
if(line===word)return null;
return partsOf(line,new RegExp(`^${word} (.*)$`))[0];
}
function cellsOf(line,cells){
for(let at=0;at<line.length;at++){
const mark=line[at]==='~';
if(mark)at++;
cells.push({graphic:line[at],mark});
}
}
function registersOf(line){
const values={};
for(const[,name,value]of line.matchAll(/(\w+)=(\S+)/g)){
values[name]=name==='SWITCHES'?value:Number(value);
}
return values;
}
function pictureOf(text){
const[head,...lines]=text.split('\n'),[room]=partsOf(head,/^ROOM (\w+)$/);
const[seat,seats,made]=partsOf(lines[0],/^SEAT (\d+) OF (\d+) MADE (\d+)$/).map(Number);
const after=Number(partsOf(lines[1],/^AFTER (\d+)$/)[0]);
const[from,size]=partsOf(lines[7],/^CORE (\d+) OF (\d+)$/).map(Number);
const picture={
room,seat,seats,made,after,from,size,cells:[],lines:[],registers:registersOf(lines[2]),
next:afterWord(lines[3],'NEXT'),read:afterWord(lines[4],'READ')||'',
hopper:afterWord(lines[5],'HOPPER'),punched:afterWord(lines[6],'PUNCHED'),
};
for(const line of lines.slice(8,23))cellsOf(line,picture.cells);
if(picture.cells.length !==PLACES_SHOWN)throw new Unreadable('cells');
picture.first=Number(partsOf(lines[23],/^PAPER (\d+)$/)[0]);
for(const line of lines.slice(24,-1))picture.lines.push(printedLineOf(line));
return picture;
}
function printedLineOf(line){
const[form,at,text]=partsOf(line,/^LINE (\d{4}) (\d\d) (.*)$/);
return{form:Number(form),line:Number(at),text};
}
const sameLine=(one,other)=>one.form===other.form&&one.line===other.line&&one.text===other.text;
const view={
core:0,
picture:null,
paper:[],
posting:false,
made:null,
link:'lost',
status:0,
breaks:0,
unkept:false,full:false,
since:null,
others:{count:0,at:-Infinity,began:-Infinity,gap:0,last:null},
changed:0,
ended:null,
stop:null,
};
const OTHERS_MS=8000;
const LIMIT={requestMs:10000};
const timeLimit=()=>AbortSignal.timeout(LIMIT.requestMs);
const PROXY_STATUS=[502,504];
const PAUSE_MS=800;
const LONGEST_PART_MS=7000;
const torn=[];
const taken=[];
class Refused extends Error{
constructor(status){
super(`status ${status}`);
this.status=status;
}
}
function statusOf(response){
return response.status===503&&response.headers.has('Retry-After')?'busy':response.status;
}
let queue=Promise.resolve();
function inTurn(task){
const result=queue.then(task);
queue=result.catch(()=>{});
return result;
}
async function askForPicture(kept,after){
const room=view.picture?view.picture.room:'';
const part=`room=${room}&core=${pad(view.core, 4)}&paper=${Math.max(0, kept.length - 1)}`;
const query=after===null?part:`${part}&after=${after}`;
const response=await fetch(`/picture?${query}`,{cache:'no-store',signal:timeLimit()});
const text=await response.text();
if(response.status===204)return null;
if(response.status !==200)throw new Refused(statusOf(response));
return pictureOf(text);
}
function joined(kept,picture){
if(picture.first===0)return picture.lines;
const goesOn=kept.length===picture.first + 1&&picture.lines.length>0
&&sameLine(kept[picture.first],picture.lines[0]);
return goesOn?[...kept.slice(0,picture.first),...picture.lines]:null;
}
async function takeIn(picture){
const isNewRoom=view.picture !==null&&picture.room !==view.picture.room;
let lines=joined(isNewRoom?[]:view.paper,picture);
for(let turns=0;turns<2*MOST_CARDS / FORM_LINES;turns++){
if(lines !==null&&lines.length===picture.registers.PAPER)break;
picture=await askForPicture(lines||[],null);
lines=joined(lines||[],picture);
}
if(isNewRoom||view.since===null)view.since={after:picture.after,made:picture.made};
const shown=view.picture;
if(isNewRoom)enterRoom();
noteOthers(picture);
view.paper=lines||[];
view.made=picture.made;
view.picture=picture;
draw();
noteNewState(shown,isNewRoom);
}
function noteNewState(shown,isNewRoom){
if(!shown)return;
const{newRoom,resumed,clear}=TEXTS.said,words=view.picture.after<shown.after?newRoom:resumed;
if(isClearing)return;
if(isNewRoom)note('words',words);
if(isNewRoom)beginAnew(words);
else if(isClear(view.picture)&&!isClear(shown))beginAnew(clear);
}
function enterRoom(){
Object.assign(view,{full:false,unkept:false,ended:null,breaks:view.breaks + 1});
view.others.count=0;
forgetRenewal();
forgetHold();
}
function noteOthers({after,made}){
const count=after - view.since.after -(made - view.since.made),now=performance.now();
if(count>view.others.count){
const gap=now - view.others.at;
if(gap>PAUSE_MS)view.others.began=now;
Object.assign(view.others,{at:now,gap:gap>LONGEST_PART_MS||!isPart(lastOfOthers())?0:gap});
leaveClear('');
yieldToOthers();
}
view.others.count=count;
if(!view.picture||after !==view.picture.after)view.changed=now;
}
const othersAtWork=()=>performance.now()- view.others.at<OTHERS_MS;
function lastOfOthers(){
const{last}=view.others;
return last&&view.picture&&last.seat !==view.picture.seat?last:null;
}
const isPart=last=>last !==null&&/^RUN (?!1$)/.test(last.line);
function othersRun(){
const{at,began,gap}=view.others,since=performance.now()- at;
if(isPart(lastOfOthers()))return since<PAUSE_MS + 2*gap;
return since<PAUSE_MS&&at - began>2*PAUSE_MS;
}
async function look(){
const shown=view.picture;
const isCurrent=shown&&view.link==='fine'&&view.made !==null&&shown.from===view.core;
try{
const picture=await askForPicture(view.paper,isCurrent?shown.after:null);
if(picture !==null)await takeIn(picture);
setLink('fine');
return true;
}catch(why){
blame(why);
return false;
}
}
async function lookAside(){
try{
const picture=await askForPicture(view.paper,null),lines=joined(view.paper,picture);
const isLater=picture.room===view.picture.room&&picture.after>=view.picture.after;
if(!isLater||lines===null||lines.length !==picture.registers.PAPER)return;
noteOthers(picture);
Object.assign(view,{paper:lines,picture});
draw();
}catch(why){
blame(why);
}
}
const LINK_OF_STATUS={403:'foreign',410:'closed',429:'busy',502:'proxyAlone',503:'taken503',
504:'proxyAlone',507:'noMemory',busy:'busy'};
function blame(why){
if(why instanceof Unreadable)setLink('unread');
else if(!(why instanceof Refused))setLink('lost');
else{
if(why.status===404)view.core=0;
view.status=why.status;
setLink(LINK_OF_STATUS[why.status]||'refusedStatus');
}
}
function setLink(link){
if(link==='lost'&&view.link==='fine')view.breaks++;
view.link=link;
drawBanner();
drawKeys();
}
const COMMANDS=/^ *(DEPOSIT|START|SWITCH|FEED|LOAD|RUN|LINE|CARD)( |$)/;
const RECORDED=/^(OK|STOP |LINE |CARD |REFUSED )/;
function madeAfter(line,reply,count){
if(!COMMANDS.test(line))return null;
return RECORDED.test(reply)?count + 1:count;
}
async function post(path,body,breaks){
if(breaks !==view.breaks)return{failed:TEXTS.outcomes.broken};
if(view.made===null&&!(await look()))return{failed:bannerText()};
const count=view.made,{room}=view.picture;
view.made=null;
view.posting=true;
let response,text;
try{
const headers={'Content-Type':'text/plain','X-1401-Line':String(count),'X-1401-Room':room};
response=await fetch(path,{method:'POST',body,cache:'no-store',headers,signal:timeLimit()});
text=await response.text();
}catch{
return lostLine(count,room);
}finally{
view.posting=false;
}
if(PROXY_STATUS.includes(response.status))return lostLine(count,room);
if(response.status===200)return{text,count};
const done=response.status===423?repliesBefore(text):'';
return{...refusedLine(statusOf(response)),done};
}
function repliesBefore(text){
const at=text.search(/^HOLD /m);
if(at>=0)takeHold(text.slice(at));
return at>=0?text.slice(0,at):text;
}
async function send(line,breaks=view.breaks){
const{failed,text,count}=await post('/line',line,breaks);
if(failed)return{failed};
const reply=text.replace(/\n$/,'');
view.made=madeAfter(line,reply,count);
noteFault(reply);
return{reply};
}
async function sendAll(lines,breaks){
const{failed,text,count,done=''}=await post('/lines',lines.join('\n'),breaks);
const replies=(failed?done:text).split('\n').slice(0,-1);
if(failed)return{failed,replies};
view.made=count + replies.filter(reply=>RECORDED.test(reply)).length;
noteFault(replies[replies.length - 1]);
return{replies};
}
function noteFault(reply){
if(reply==='FAULT 2 JOURNAL FULL')view.full=true;
if(reply==='FAULT 4 UNKEPT')view.unkept=true;
drawBanner();
}
function refusedLine(status){
if(status===500)view.unkept=true;
if(LINK_OF_STATUS[status]&&status !==507)setLink(LINK_OF_STATUS[status]);
drawBanner();
const{seat,left}=hold;
return{failed:filled(TEXTS.outcomes[status]||TEXTS.outcomes.other,{status,seat,left})};
}
async function lostLine(count,room){
note('bad',TEXTS.lostAsking);
setLink('lost');
while(!(await look()))await delay(RETRY_MS);
const since=view.made - count;
if(view.picture.room !==room)return{failed:TEXTS.lostNewRoom};
if(since===0)return{failed:TEXTS.lostNotDone};
return{failed:since===1?TEXTS.lostDone:filled(TEXTS.lostUnclear,{n:since})};
}
async function say(line){
note('you',line);
const{breaks}=view;
const outcome=view.link==='fine'?await inTurn(()=>send(line,breaks)):{failed:TEXTS.outcomes.off};
noteOutcome(outcome);
await inTurn(look);
return outcome;
}
const onHappened=[];
function happened(event){
for(const call of onHappened)call(event);
}
function stopOf(reply){
const parts=/^STOP \d\d ([A-Z]+) STEPS (\d+) I (\d{5})$/.exec(reply||'');
return parts&&{name:parts[1],steps:Number(parts[2]),next:Number(parts[3])};
}
const EXPLAINED=['NOMARK','OPCODE','NOTFITTED','LENGTH','DCHAR','ADDRESS','OVERLAP'];
function markWords({name,next:at}){
const{from,cells}=view.picture,{before,isLost}=markBefore(at);
const isLong=place=>instructionLength(cells,place - from)===8&&cells[place - from + 8]?.mark===false;
if(!EXPLAINED.includes(name)||!cells[at - from])return '';
if(name !=='NOMARK')return isLong(at)?filled(TEXTS.tooLong,{at:pad(at,3)}):'';
const values={at:pad(at,3),before:pad(before,3)};
const why=isLost?TEXTS.lostMark:before===at - 8&&isLong(before)?TEXTS.longBefore:'';
return why&&filled(`${TEXTS.noMarkAt} ${why}`,values);
}
function markBefore(at){
const{from,cells}=view.picture,lesson=lessonChosen();
const has=place=>cells[place - from]&&cells[place - from].mark;
let marked=at - 1;
while(marked>from&&!has(marked))marked--;
const lost=lesson?placesOf(lesson.source).filter(place=>place>marked&&place<at):[];
return lost.length?{before:lost[lost.length - 1],isLost:true}:{before:marked,isLost:false};
}
function wordsOf(reply){
const stop=stopOf(reply);
if(stop)return lessonWords(stop)||markWords(stop)||TEXTS.stops[stop.name]||'';
const known=/^(BYE$|(REFUSED|ERROR|FAULT|GLANCE FAULT) \d(?= [A-Z]))/.exec(reply);
return known?TEXTS.replies[known[0]]||'':'';
}
function noteOutcome(outcome){
if(outcome.failed)return note('bad',outcome.failed);
const reply=outcome.reply;
if(/^LINE \d{4} \d\d /.test(reply))torn.push(printedLineOf(reply));
if(reply.startsWith('CARD '))taken.push(reply.slice(5));
if(reply !=='')note(/^(REFUSED|ERROR|FAULT|GLANCE FAULT) \d/.test(reply)?'bad':'',reply);
if(wordsOf(reply))note('words',wordsOf(reply));
drawTaken();
}
function note(kind,text){
const log=byId('log');
added(log,'p',{className:kind,textContent:text});
while(log.childElementCount>400)log.firstElementChild.remove();
log.scrollTop=log.scrollHeight;
}
function tell(words,reply=''){
setText(byId('said-words'),words);
setText(byId('said-reply'),reply);
}
function tellOutcome(outcome,words){
if(outcome.failed)tell(outcome.failed);
else tell(wordsOf(outcome.reply)||words,outcome.reply);
}
function welcomeWords(){
const{picture}=view;
if(!picture)return TEXTS.said.welcome;
const{HOPPER}=picture.registers;
if(HOPPER>0)return counted(TEXTS.said.welcomeCards,HOPPER);
if(TEXTS.operations[(picture.next||'').split(' ')[0]])return TEXTS.said.welcomeProgram;
return hold.isPrepared&&!isClear(picture)?TEXTS.said.welcomePrepared:TEXTS.said.welcome;
}
function moveCard(){
const card=byId('moving-card');
card.classList.remove('none');
if(still.matches)return;
card.animate([{transform:'translateX(-260px)',opacity:.3},{transform:'none',opacity:1}],260);
}
function movePaper(lines){
if(still.matches)return;
const by=`translateY(${Math.min(lines, 6) * 1.18}em)`;
for(const sheet of sheets.values())sheet.element.animate([{transform:by},{transform:'none'}],140);
tapePointer.animate([{opacity:.2},{opacity:1}],140);
}
function showChanges(before,now){
if(!before||before.size !==now.size)return;
const from=before.registers,to=now.registers;
const isRead=to.HOPPER<from.HOPPER||now.read !==before.read&&now.read !=='';
if(isRead)moveCard();
if(isRead&&isStage)moveReader();
const lines=to.LINE - from.LINE + FORM_LINES*(to.FORM - from.FORM);
if(lines>0)movePaper(lines);
if(lines>0&&isStage)movePrinter(lines);
if(to.STACKER>from.STACKER)sound('punch');
else if(to.PAPER>from.PAPER)sound('print');
else if(to.HOPPER<from.HOPPER)sound('read');
}
let run=null;
function mayCommand(){
const isFull=view.full||view.picture !==null&&view.picture.after>=JOURNAL_ENTRIES;
return view.link==='fine'&&!view.unkept&&!isFull&&!isKeptOff();
}
function warnsOfEnd(){
const{picture,ended}=view;
if(ended===null||!picture||picture.registers.I !==ended)return false;
view.ended=null;
if(TEXTS.operations[(picture.next||'').split(' ')[0]])return false;
tell(TEXTS.said.afterEnd);
return true;
}
function warnsOfNothing(){
const{cells,next,registers}=view.picture;
if(next !==null||!cells.every(cell=>cell.graphic===' '&&!cell.mark))return false;
tell(registers.HOPPER>0?TEXTS.said.loadFirst:TEXTS.said.nothing);
return true;
}
function noteStop(stop){
view.ended=stop&&stop.name==='HALT'?stop.next:null;
view.stop=stop;
if(view.ended !==null)happened('halt');
if(stop&&stop.name !=='LIMIT')happened('stop');
}
const ATTRACT_GROWN=10;
const GUARD_MS=400;
const guarded=new Set();
async function once(key,action){
if(guarded.has(key))return;
guarded.add(key);
drawKeys();
try{
await action();
}finally{
setTimeout(()=>{
guarded.delete(key);
drawKeys();
},GUARD_MS);
}
}
const pressLoad=()=>once('load-key',loadCard);
async function loadCard(){
if(run||!mayCommand())return;
view.ended=null;
const before=view.picture,outcome=await say('LOAD');
tellOutcome(outcome,TEXTS.said.load);
if(outcome.reply !=='OK')return;
tellDeck('');
sound('read');
noteScene(before,view.picture,true);
happened('load');
}
async function pressStep(){
if(run||!mayCommand()||warnsOfEnd()||warnsOfNothing()||warnsOfLesson())return;
const before=view.picture,outcome=await say('RUN 1'),stop=stopOf(outcome.reply);
tellOutcome(outcome,TEXTS.said.step);
noteStop(stop);
if(stop&&stop.steps===1)noteScene(before,view.picture,false);
if(stop)happened('step');
drawPanel();
}
async function pressStart(event){
event.preventDefault();
if(run||!mayCommand())return;
view.ended=null;
tellOutcome(await say(`START ${byId('start-at').value.trim()}`),TEXTS.said.start);
}
function pressStop(){
stopRun();
}
function stopRun(){
if(!run)return;
run.stop=true;
run.wake();
}
async function pressRun(){
if(run||!mayCommand()||warnsOfEnd()||warnsOfNothing()||warnsOfLesson())return;
run={stop:false,slices:0,steps:0,waits:'',began:performance.now(),grown:1,wake:()=>{}};
view.ended=null;
tell('');
drawKeys();
happened('run');
const outcome=await runParts();
const ended=run,stop=stopOf(outcome.reply);
await showStop(stop);
run=null;
drawKeys();
noteOutcome(outcome);
tellRun(ended,outcome,stop);
noteStop(stop);
await inTurn(look);
drawPanel();
}
async function showStop(stop){
if(!stop||!EXPLAINED.includes(stop.name)||stop.next>=view.picture.size)return;
view.core=windowWith(stop.next);
await inTurn(look);
}
function tellRun(ended,outcome,stop){
const counts={steps:withCommas(ended.steps)};
if(!stop)return tellOutcome(outcome,'');
const reply=outcome.reply.replace(/STEPS \d+/,`STEPS ${ended.steps}`);
if(stop.name !=='LIMIT')return tellOutcome({reply},'');
tell(ended.stop?counted(TEXTS.said.stopped,ended.steps,counts):filled(TEXTS.said.pause,counts));
}
async function runParts(){
for(;;){
const outcome=await runPart(),stop=stopOf(outcome.reply);
if(!stop||run.stop)return outcome;
const hasWaited=await waitsFor(stop.name);
if(hasWaited&&!run.stop)continue;
if(stop.name !=='LIMIT'||view.picture.after>=JOURNAL_NEARLY||run.stop)return outcome;
}
}
async function runPart(){
const pace=PACES[byId('pace').selectedIndex];
const idle=performance.now()- Math.max(run.began,attract.pressed);
run.grown=Math.max(grownBy(idle),isExhibit&&attract.on?ATTRACT_GROWN:1);
const steps=Math.min(MOST_STEPS,run.grown*(pace===OWN_PACE?OWN_STEPS:pace)),line=`RUN ${steps}`;
if(run.slices===0)note('you',line);
const began=performance.now(),before=view.picture,{breaks}=view;
const outcome=await inTurn(()=>send(line,breaks)),stop=stopOf(outcome.reply);
run.slices++;
run.steps +=stop?stop.steps:0;
drawRun();
const wanted=pace===OWN_PACE&&stop?await ownTime(before,stop.steps):SLICE_MS*run.grown;
const rest=attract.pressed>began?SLICE_MS:wanted + began - performance.now();
if(stop&&stop.name==='LIMIT')await napInRun(rest);
return outcome;
}
function grownBy(idle){
return Math.min(MOST_GROWN,Math.max(1,1 + Math.floor((idle - GROW_AFTER_MS)/ GROW_MS)));
}
function napInRun(ms){
return run.stop?null:new Promise(done=>{
run.wake=done;
setTimeout(done,Math.max(0,ms));
});
}
async function ownTime(before,steps){
await inTurn(look);
const{registers}=view.picture;
const more=(name,by)=>Math.max(0,by*(registers[name]- before.registers[name]));
return Math.max(SLICE_MS,steps*.2 + 75*more('HOPPER',-1)+ 240*more('STACKER',1)+ 100*more('PAPER',1));
}
async function waitsFor(stop){
const waiting={
READER:()=>feed !==null&&view.picture.registers.HOPPER===0,
FORMS:()=>taking !==null||view.paper.length>=MOST_CARDS,
STACKER:()=>taking !==null||view.picture.registers.STACKER>=MOST_CARDS,
}[stop];
await inTurn(look);
if(!waiting||!mayCommand()||stop==='READER'&&!feed)return false;
run.waits=stop;
tell(TEXTS.waits[stop]);
while(!run.stop&&mayCommand()&&waiting()){
drawRun();
await delay(WAIT_MS);
await inTurn(look);
}
run.waits='';
tell('');
return true;
}
const COMMAND_KEYS=['load-key','run-key','step-key','start-key','feed-key','pick-key','card-key',
'all-cards-key','tear-key','send-key','release-key','deck-key','name-key','afresh-key','feed-again-key'];
function drawKeys(){
const may=mayCommand(),{PAPER,STACKER}=view.picture?view.picture.registers:{PAPER:0,STACKER:0};
for(const id of COMMAND_KEYS)setOff(byId(id),!may||guarded.has(id));
for(const id of['load-key','run-key','step-key','start-key']){
setOff(byId(id),!may||run !==null||guarded.has(id));
}
for(const button of byId('switches').children)setOff(button,!may);
setOff(byId('stop-key'),run===null);
if(isExhibit)setOff(byId('run-key'),run===null&&(!may||guarded.has('run-key')));
setOff(byId('tear-key'),!may||taking !==null||PAPER===0);
for(const id of['card-key','all-cards-key'])setOff(byId(id),!may||taking !==null||STACKER===0);
drawRun();
}
function runWords(){
if(!run)return othersRun()?othersWords('Running'):'';
return run.waits?TEXTS.waits[run.waits]:filled(TEXTS.running,{steps:withCommas(run.steps)});
}
function drawRun(){
if(isExhibit)setText(byId('run-key'),run?TEXTS.stopKey:TEXTS.runKey);
setText(byId('running'),runWords());
}
let feed=null;
let fedAt=null;
function deckOf(text){
const lines=text.replace(/^\ufeff/,'').split('\n');
if(lines[lines.length - 1]==='')lines.pop();
const cards=[];
for(const[at,line]of lines.entries()){
const card=line.replace(/\r$/,'').replace(/[a-z]/g,letter=>letter.toUpperCase());
for(let column=0;column<card.length;column++){
const what=column>=CARD_COLUMNS?TEXTS.tooLong:GRAPHICS.includes(card[column])?'':noCard(card[column]);
if(what)return{fault:filled(TEXTS.deckWrong,{line:at + 1,column:column + 1,what})};
}
cards.push(card.trimEnd());
}
return cards.length?{cards}:{fault:TEXTS.deckEmpty};
}
function noCard(letter){
const known=plain(letter);
const isKnown=known !==letter&&known !==''&&[...known].every(each=>GRAPHICS.includes(each));
return isKnown?filled(TEXTS.noAccent,{letter,spelt:known}):TEXTS.noGraphic;
}
function tellDeck(text,isWrong=false){
byId('deck-words').classList.toggle('wrong',isWrong);
setText(byId('deck-words'),text);
}
async function feedText(text){
const deck=deckOf(text);
if(deck.fault)return tellDeck(deck.fault,true);
return feedDeck(deck.cards);
}
function textOf(bytes){
try{
return new TextDecoder('utf-8',{fatal:true}).decode(bytes);
}catch{
return new TextDecoder('latin1').decode(bytes);
}
}
async function feedFile(file){
if(file.size>DECK_CARDS*(CARD_COLUMNS + 2))return tellDeck(TEXTS.deckLarge,true);
try{
await feedText(textOf(await file.arrayBuffer()));
}catch{
tellDeck(TEXTS.deckUnread,true);
}
}
async function feedDeck(cards,words){
if(feed)return tellDeck(TEXTS.alreadyFeeding,true);
if(!mayCommand())return tellDeck(TEXTS.outcomes.off,true);
feed={fed:0,all:cards.length,stop:false,waits:false,drawn:0};
note('you',feedLine(cards[0]));
const why=await feedAll(cards);
const{fed,all}=feed;
endFeed();
note('',counted(TEXTS.fedInLog,fed));
await inTurn(look);
tellDeck(why?filled(TEXTS.fedPart,{n:fed,all,why}):words||counted(TEXTS.fedAll,all),why !=='');
if(why)return;
fedAt=words?view.picture.registers.HOPPER:null;
leaveClear(welcomeWords());
happened('fed');
}
async function feedAll(cards){
const{breaks}=view;
let why='';
while(!why&&feed.fed<feed.all){
drawFeed();
if(feed.stop)why=TEXTS.stoppedByYou;
else if(feed.waits)await waitForRoom();
else why=await feedSome(cards.slice(feed.fed,feed.fed + CHUNK),breaks);
}
return why;
}
const feedLine=card=>card===''?'FEED':`FEED ${card}`;
async function feedSome(cards,breaks){
const{failed,replies}=await inTurn(()=>sendAll(cards.map(feedLine),breaks));
feed.fed +=replies.filter(each=>each==='OK').length;
if(failed)return failed;
const reply=replies[replies.length - 1];
feed.waits=reply==='REFUSED 2 HOPPER';
return reply==='OK'||feed.waits?'':wordsOf(reply)||reply;
}
async function waitForRoom(){
await delay(WAIT_MS);
await inTurn(look);
feed.waits=view.picture.registers.HOPPER>=MOST_CARDS;
}
function endFeed(){
const hadFocus=document.activeElement===byId('feed-stop');
feed=null;
byId('feeding').hidden=true;
if(hadFocus)byId('feed-key').focus();
}
function drawFeed(){
const now=performance.now();
if(feed.fed>0&&now - feed.drawn<SLICE_MS)return;
feed.drawn=now;
byId('feeding').hidden=feed.all===1;
byId('feed-bar').value=feed.fed / feed.all;
setText(byId('feed-count'),filled(feed.waits?TEXTS.feedWaits:TEXTS.feedingCount,{n:feed.fed,all:feed.all}));
}
function chosenProgram(){
return PROGRAMS.find(program=>program.name===byId('program').value)||PROGRAMS[0];
}
const feedChosen=()=>once('feed-key',feedProgram);
async function feedProgram(){
if(feed||!mayCommand()||!(await takeTurn()))return;
const program=chosenProgram(),words=TEXTS.programs[program.name];
const cards=program.extra?[...program.cards,...program.extra()]:program.cards;
await feedDeck(cards,words.fed);
}
function chooseProgram(){
drawProgram();
forgetLesson();
guide.draw();
}
function drawProgram(){
const program=chosenProgram(),words=TEXTS.programs[program.name];
setText(byId('source-title'),filled(TEXTS.sourceTitle,{name:words.name}));
setText(byId('source-about'),words.about);
setText(byId('source'),program.source);
byId('source').classList.toggle('whole',program.loads !==undefined);
}
let taking=null;
async function takeMany(line,begins,all,each,drawn){
const{breaks}=view;
taking={stop:false};
drawKeys();
byId('take-stop').hidden=all<=CHUNK;
let n=0,outcome={replies:[]},isRefused=false;
while(n<all&&!isRefused&&!taking.stop){
outcome=await inTurn(()=>sendAll(Array(Math.min(CHUNK,all - n)).fill(line),breaks));
const found=outcome.replies.filter(reply=>reply.startsWith(begins));
found.forEach(each);
n +=found.length;
isRefused=found.length===0||found.length<outcome.replies.length;
drawn(n);
}
taking=null;
endTaking();
if(isRefused)noteOutcome(outcome.failed?outcome:{reply:outcome.replies[outcome.replies.length - 1]});
return n;
}
function endTaking(){
if(document.activeElement===byId('take-stop'))byId('tear-key').focus();
byId('take-stop').hidden=true;
drawKeys();
}
async function takeCard(){
if(!mayCommand()||taking)return;
const outcome=await say('CARD');
const text=outcome.reply&&outcome.reply.startsWith('CARD ')?outcome.reply.slice(5):null;
if(text===null)tellTaken(outcome.failed||wordsOf(outcome.reply),true);
else tellTaken(text===''?TEXTS.takenBlank:filled(TEXTS.taken,{text}));
}
async function takeAllCards(){
if(!mayCommand()||taking)return;
const all=view.picture.registers.STACKER;
note('you','CARD');
const n=await takeMany('CARD','CARD ',all,reply=>taken.push(reply.slice(5)),
n=>tellTaken(filled(TEXTS.takingCards,{n,all})));
note('',counted(TEXTS.cardsInLog,n));
tellTaken(counted(TEXTS.takenAll,n));
drawTaken();
await inTurn(look);
}
function tellTaken(text,isWrong=false){
byId('taken-words').classList.toggle('wrong',isWrong);
setText(byId('taken-words'),text);
}
async function tearOff(){
if(!mayCommand()||taking)return;
const all=view.paper.length;
if(all===0)return tell(TEXTS.noPaper);
if(!(await confirmed(counted(TEXTS.tearAsk,all))))return;
note('you','LINE');
const n=await takeLines(all);
note('',counted(TEXTS.tornInLog,n));
drawTaken();
byId('tear-key').focus();
await inTurn(look);
}
function takeLines(all){
return takeMany('LINE','LINE ',all,reply=>torn.push(printedLineOf(reply)),
n=>setText(byId('torn-words'),filled(TEXTS.tearing,{n,all})));
}
async function dropTorn(){
if(!(await confirmed(TEXTS.dropAsk)))return;
torn.length=0;
drawTaken();
byId('tear-key').focus();
}
function drawTaken(){
byId('save-cards-key').hidden=byId('feed-again-key').hidden=taken.length===0;
byId('drop-key').hidden=torn.length===0;
setText(byId('torn-words'),torn.length?counted(TEXTS.torn,torn.length):'');
}
function keepsPaper(event){
if(torn.length||taken.length)event.preventDefault();
}
function paperText(lines){
let text='',form=1,line=1;
for(const printed of lines){
if(printed.form !==form){
text +='\f'.repeat((printed.form - form + FORMS)% FORMS);
form=printed.form;
line=1;
}
text +='\n'.repeat(Math.max(0,printed.line - line))+ printed.text + '\n';
line=printed.line + 1;
}
return text;
}
function confirmed(question){
const dialog=byId('ask');
setText(byId('ask-text'),question);
dialog.returnValue='';
dialog.showModal();
return new Promise(done=>{
dialog.addEventListener('close',()=>done(dialog.returnValue==='yes'),{once:true});
});
}
const RENEWAL_MS=5000;
const renewal={mode:'',seconds:null,asked:-Infinity};
async function askRenewal(method){
const headers=method==='POST'?{'X-1401-Room':view.picture.room}:{};
const response=await fetch('/renewal',{method,headers,cache:'no-store',signal:timeLimit()});
const found=/^RENEWAL (?:(OFF|ON)|IN (\d+))\n$/.exec(await response.text());
if(response.status !==200||!found)return;
const{mode}=renewal;
renewal.mode=found[1]||'ON';
renewal.seconds=found[2]===undefined?null:Number(found[2]);
drawNotice();
if(mode !==renewal.mode)guide.draw();
}
async function lookForRenewal(){
const now=performance.now();
if(view.link !=='fine'||renewal.mode==='OFF'||now - renewal.asked<RENEWAL_MS)return;
renewal.asked=now;
try{
await askRenewal('GET');
}catch{
renewal.mode='';
}
}
async function renewRoom(){
const{room}=view.picture;
tell(TEXTS.said.renewing);
try{
await askRenewal('POST');
}catch{
setLink('lost');
}
for(let looks=0;looks<2*RENEWAL_MS / POLL_MS&&view.picture.room===room;looks++){
await delay(POLL_MS);
await inTurn(look);
}
return view.picture.room !==room;
}
function forgetRenewal(){
Object.assign(renewal,{seconds:null,asked:-Infinity});
drawNotice();
}
const HOLD_MS=1000;
const hold={asked:-Infinity,seat:0,left:0,until:0,last:0,taken:[],isPrepared:false};
const HOLD_FORM=/^HOLD (?:FREE|(\d+) FOR (\d+))\nLAST (?:NONE|(\d+) (.+))\nTAKEN([ \d]*)\nBEGAN (PLAIN|PREPARED)\n$/;
const isHeld=()=>hold.seat !==0&&performance.now()<hold.until;
const isHolder=()=>isHeld()&&view.picture !==null&&view.picture.seat===hold.seat;
const isKeptOff=()=>isHeld()&&!isHolder();
function takeHold(text){
const found=HOLD_FORM.exec(text);
if(!found)return;
const[,seat,left,last,line,taken,began]=found;
Object.assign(hold,{seat:Number(seat||0),left:Number(left||0),isPrepared:began==='PREPARED',
last:Number(seat||hold.last),taken:taken.split(' ').map(Number)});
hold.until=performance.now()+ 1000*hold.left;
view.others.last=last?{seat:Number(last),line}:null;
drawTakenSeats(taken.split(' '));
drawHold();
guide.draw();
}
function drawTakenSeats(taken){
for(const link of byId('seats').querySelectorAll('a:not([aria-current])')){
const n=link.textContent,isTaken=taken.includes(n);
link.classList.toggle('taken',isTaken);
setAttribute(link,'aria-label',filled(isTaken?TEXTS.takenSeat:TEXTS.seat,{n}));
}
}
function forgetHold(){
Object.assign(hold,{asked:-Infinity,seat:0,left:0,until:0});
view.others.last=null;
drawHold();
}
async function askForHold(path,method){
const headers=method==='POST'?{'X-1401-Room':view.picture.room}:{};
const response=await fetch(path,{method,headers,cache:'no-store',signal:timeLimit()});
const text=await response.text();
if(response.status===200||response.status===423)takeHold(text);
}
async function lookForHold(){
const now=performance.now(),isEnding=turn.has&&hold.until - now<HOLD_MS;
const pause=turn.wants||watching.holds||watching.stops||isEnding?TURN_LOOK_MS:HOLD_MS;
if(view.link !=='fine'||now - hold.asked<(isShared()?pause:Infinity))return;
hold.asked=now;
try{
await askForHold('/hold','GET');
}catch{
hold.seat=0;
}
}
async function askToHold(path){
try{
await askForHold(path,'POST');
}catch{
setLink('lost');
}
}
const pressHold=()=>turn.has?giveTurn():askToHold(isHolder()?'/release':'/hold');
function holdWords(){
if(!isHeld())return '';
if(isHolder()&&turn.has)return '';
return isHolder()?TEXTS.holder:filled(TEXTS.keptOff,{seat:hold.seat});
}
function drawHold(){
const isOne=!view.picture||view.picture.seats===1;
byId('hold-key').hidden=isOne;
setText(byId('hold-key'),isHolder()?TEXTS.releaseHold:TEXTS.holdKey);
setAttribute(byId('hold-key'),'title',isHolder()?TEXTS.releaseTitle:TEXTS.holdTitle);
setOff(byId('hold-key'),view.link !=='fine'||isKeptOff());
drawNotice();
drawKeys();
}
function drawNotice(){
const{seconds}=renewal,words=seconds===null?holdWords():counted(TEXTS.renewal,seconds);
setText(byId('notice-words'),words);
setText(byId('notice-left'),seconds===null&&words?` ${filled(TEXTS.secondsLeft, {n: hold.left})}`:'');
byId('notice').hidden=words==='';
}
const FRAGMENT=new URLSearchParams(location.hash.slice(1));
const isExhibit=FRAGMENT.has('exhibit'),isWatch=FRAGMENT.has('watch'),isStage=isExhibit||isWatch;
const STRIP_PLACES=80;
const PRINT_FROM=201,PRINT_PLACES=40;
const BAND_LINES=12;
const ON_STAGE={'stage-keys':['feed-key','load-key','step-key','run-key'],'stage-said':['guide-said'],
'stage-more':['turn-key','language'],stage:['name-form','home-figure']};
const strip={cells:[],shown:[],heads:[],from:1};
function buildStage(){
if(!isStage)return;
document.body.classList.add(isExhibit?'exhibit':'watch');
byId('stage').hidden=false;
for(const[place,parts]of Object.entries(ON_STAGE))byId(place).append(...parts.map(byId));
buildStrip();
for(const id of['run-key','feed-key'])byId(id).addEventListener('click',pressStageKey);
if(isExhibit)Object.assign(IDLE,{attractMs:10000,pauseMs:4000,seatMs:0});
}
function buildStrip(){
for(let at=0;at<STRIP_PLACES + PRINT_PLACES;at++){
if(at % 20===0)strip.heads.push(added(byId('strip'),'b'));
strip.cells.push(added(byId('strip'),'span',{className:at<STRIP_PLACES?'':'print'}));
}
}
function stripFrom({registers:{I},size}){
return I<=STRIP_PLACES?1:Math.min(I -(I - 1)% STRIP_PLACES,size - STRIP_PLACES);
}
const cellAt=({cells,from},place)=>cells[place - from]||{graphic:' ',mark:false};
function drawStage(picture,touched=[]){
if(!isStage)return;
const from=stripFrom(picture),moved=from !==strip.from;
const begin=picture.registers.I,end=begin + instructionLength(picture.cells,begin - picture.from);
strip.from=from;
strip.heads.forEach((head,row)=>setText(head,pad(row<4?from + 20*row:PRINT_FROM + 20*(row - 4),3)));
strip.cells.forEach((element,at)=>{
const place=at<STRIP_PLACES?from + at:PRINT_FROM + at - STRIP_PLACES;
const{graphic,mark}=cellAt(picture,place);
const isOther=strip.shown[at]!==undefined&&strip.shown[at]!==graphic + mark;
setText(element,graphic===' '?'\u00a0':graphic);
element.classList.toggle('mark',mark);
element.classList.toggle('next',place>=begin&&place<end);
element.classList.toggle('touched',touched.includes(place));
if(isOther&&!moved)glow(element);
strip.shown[at]=graphic + mark;
});
setAttribute(byId('strip'),'aria-label',filled(TEXTS.stage.stripLabel,{from:pad(from,3)}));
drawBand(view.paper);
drawStageCard(picture);
}
function drawBand(lines){
const shown=lines.slice(-BAND_LINES).map(line=>line.text),band=byId('band');
byId('band').style.setProperty('--columns',Math.max(26,...shown.map(text=>text.trimEnd().length + 2)));
while(band.childElementCount>shown.length)band.firstElementChild.remove();
while(band.childElementCount<shown.length)added(band,'p');
shown.forEach((text,at)=>setText(band.children[at],text||'\u00a0'));
}
function drawStageCard(picture){
const{read,hopper}=picture,isThere=read !=='';
cards.stage(isThere?read:hopper);
setText(byId('stage-card-name'),isThere?TEXTS.stage.cardRead:hopper===null?TEXTS.stage.cardNone
:TEXTS.stage.cardNext);
let cuts='';
for(let place=2;isThere&&place<=CARD_COLUMNS;place++){
const x=CARD.left +(place - 1.5)*CARD.column;
if(cellAt(picture,place).mark)cuts +=`M${x} 1V${CARD.height - 1}`;
}
setAttribute(stageCuts,'d',cuts);
const{I}=picture.registers,length=instructionLength(picture.cells,I - picture.from);
const isLit=isThere&&I>=1&&I + length<=CARD_COLUMNS + 1;
setAttribute(stageLit,'x',CARD.left +(I - 1.5)*CARD.column);
setAttribute(stageLit,'width',isLit?length*CARD.column:0);
}
function pressMore(){
const isMore=document.body.classList.toggle('more');
setText(byId('more-key'),isMore?TEXTS.stage.back:TEXTS.stage.more);
byId('more-key').setAttribute('aria-expanded',String(isMore));
if(view.picture&&isMore)resized();
}
function drawStageHead(){
if(!isStage)return;
const last=view.others.last,seat=isHeld()?hold.seat:last&&othersAtWork()?last.seat:0;
setText(byId('stage-name'),FRAGMENT.get('name')||TEXTS.stage.name);
setText(byId('stage-who'),!isWatch?'':seat?filled(TEXTS.stage.who,{seat}):TEXTS.stage.nobody);
}
function pressStageKey(event){
if(!isExhibit)return;
if(event.currentTarget.id==='run-key'&&run){
event.stopImmediatePropagation();
stopRun();
}
if(event.currentTarget.id==='feed-key'&&wantsClearing()&&mayCommand()){
event.stopImmediatePropagation();
once('feed-key',clearForGuide);
}
}
const wantsClearing=()=>isExhibit&&['other','paper'].includes(guide.step());
async function clearForGuide(){
if(!(await takeTurn()))return;
stopRun();
while(run)await delay(SLICE_MS);
await startAfresh(renewal.mode==='ON'?renewRoom:clearMachine);
guide.begin();
}
const watching={holds:false,stops:false,until:Infinity};
function watchStop(){
Object.assign(watching,{stops:true,until:Infinity});
return lookForWatch();
}
async function watchHold(){
watching.holds=!watching.holds;
if(!watching.holds&&!watching.stops&&isHolder())await askToHold('/release');
return lookForWatch();
}
async function lookForWatch(){
const{holds,stops}=watching;
if((holds||stops)&&!isHeld())await askToHold('/hold');
if(stops&&isHolder())watching.until=Math.min(watching.until,performance.now()+ LONGEST_PART_MS);
if(performance.now()>watching.until){
Object.assign(watching,{stops:false,until:Infinity});
if(!holds&&isHolder())await askToHold('/release');
}
for(const key of['hold','stop'])byId(`watch-${key}`).setAttribute('aria-pressed',String(watching[`${key}s`]));
}
const DRAWING={reader:20,unit:330,printer:640,width:240};
const machines={};
function box(parent,x,y,width,height,name,rx=3){
return drawn(parent,'rect',{x,y,width,height,rx,class:name});
}
function buildDrawings(){
const picture=byId('machines');
picture.replaceChildren();
for(const[name,x]of[['reader',DRAWING.reader],['unit',DRAWING.unit],['printer',DRAWING.printer]]){
const part=drawn(picture,'g',{transform:`translate(${x} 0)`});
box(part,0,40,DRAWING.width,110,'cabinet',8);
drawn(part,'text',{x:DRAWING.width / 2,y:172}).textContent=TEXTS.stage.machines[name];
machines[name]=part;
}
buildReader(machines.reader);
buildUnit(machines.unit);
buildPrinter(machines.printer);
}
function buildReader(part){
box(part,158,14,66,60,'tray');
box(part,14,84,66,56,'tray');
box(part,90,66,60,18,'slot');
Object.assign(machines,{hopper:box(part,161,72,60,0,'pile'),stacker:box(part,17,138,60,0,'pile'),
card:box(part,94,68,52,13,'pile none',1)});
}
function buildUnit(part){
box(part,14,54,212,82,'slot',4);
machines.lights=[];
for(let row=0;row<3;row++){
for(let at=0;at<7;at++){
machines.lights.push(drawn(part,'circle',{cx:36 + at*28,cy:70 + row*25,r:9,class:'light'}));
}
}
}
function buildPrinter(part){
machines.paper=drawn(part,'g',{});
box(machines.paper,50,4,140,78,'paper',0);
machines.rows=Array.from({length:6},(_,at)=>box(machines.paper,58,70 - at*12,0,5,'row',0));
box(part,34,80,172,14,'slot');
machines.chain=drawn(part,'path',{class:'chain',d:'M38 87H202'});
}
function drawPile(pile,n,foot){
const height=n===0?0:Math.min(52,4 + 8*Math.log2(n));
setAttribute(pile,'height',String(height));
setAttribute(pile,'y',String(foot - height));
}
function drawMachines({registers,from,cells}){
if(!isStage)return;
drawPile(machines.hopper,registers.HOPPER,72);
drawPile(machines.stacker,registers.STACKER,138);
const at=place=>cells[place - from]?cells[place - from].graphic:' ';
const bits=[registers.B,registers.A,registers.I].flatMap(place=>bitsWithCheck(at(place)));
machines.lights.forEach((light,n)=>light.classList.toggle('on',bits[n]&&registers.I>0));
const newest=view.paper.slice(-machines.rows.length).reverse();
const widthOf=line=>line?Math.min(124,3.2*line.text.length):0;
machines.rows.forEach((row,n)=>setAttribute(row,'width',String(widthOf(newest[n]))));
}
function moveReader(){
machines.card.classList.remove('none');
if(!still.matches)machines.card.animate([{transform:'translate(66px, -14px)'},{transform:'none'}],400);
}
function movePrinter(lines){
if(still.matches)return;
machines.paper.animate([{transform:`translateY(${Math.min(lines, 4) * 12}px)`},{transform:'none'}],300);
machines.chain.animate([{strokeDashoffset:0},{strokeDashoffset:48}],500);
}
const SCENE_MS=8000;
const MOST_SCENES=200;
const tour={scenes:[],at:-1,isOn:false,plays:false,since:0};
function noteScene(before,after,isLoad){
if(!isStage)return;
if(isLoad)Object.assign(tour,{scenes:[],at:-1});
if(tour.scenes.length===MOST_SCENES)tour.scenes.shift();
tour.scenes.push({before,after,isLoad,line:view.paper.at(-1)});
tour.at=tour.scenes.length - 1;
drawTour();
}
function instructionOf({next}){
const[operation,operands='']=(next||'').trim().split(/\s+/);
return{operation,places:operands.split(',').filter(place=>/^\d+$/.test(place)).map(Number)};
}
function fieldsOf({before,after}){
const{places:[a,b]}=instructionOf(before),length=a - after.registers.A;
if(b===undefined||!(length>0&&length<=STRIP_PLACES*2))return null;
return{a:a - length + 1,b:b - length + 1,length};
}
function textAt(picture,place,length){
return Array.from({length},(_,at)=>cellAt(picture,place + at).graphic).join('').trim();
}
function touchedBy(scene){
if(scene.isLoad)return[];
const{operation,places}=instructionOf(scene.before),fields=fieldsOf(scene);
if(operation==='SW'||operation==='CW'||!fields)return places;
return Array.from({length:fields.length},(_,at)=>[fields.a + at,fields.b + at]).flat();
}
function sceneWords(scene){
const{scenes,operations}=TEXTS;
if(scene.isLoad)return scenes.load;
const{operation,places}=instructionOf(scene.before),fields=fieldsOf(scene);
const values={places:places.join(TEXTS.scenes.and),what:operations[operation]||operation};
if(operation==='W'&&scene.line)return filled(scenes.W,{line:scene.line.text.trim()});
if(fields&&['MCW','LCA','MLC'].includes(operation)){
return filled(scenes.MCW,{from:fields.a,to:fields.b,text:textAt(scene.after,fields.b,fields.length)});
}
if(fields&&scenes[operation])return filled(scenes[operation],{...values,a:places[0],b:places[1]});
return filled(['SW','H'].includes(operation)?scenes[operation]:scenes.other,values);
}
function drawTour(){
const scene=tour.scenes[tour.at];
byId('tour').hidden=!tour.isOn;
byId('why-key').setAttribute('aria-pressed',String(tour.isOn));
setText(byId('why-key'),tour.isOn?TEXTS.closeKey:TEXTS.whyKey);
guide.draw();
if(!tour.isOn)return view.picture&&drawStage(view.picture);
setText(byId('tour-words'),scene?sceneWords(scene):TEXTS.scenes.none);
setText(byId('tour-at'),scene?filled(TEXTS.scenes.at,{n:tour.at + 1,all:tour.scenes.length}):'');
setText(byId('tour-pause'),tour.plays?TEXTS.scenes.pause:TEXTS.scenes.play);
setOff(byId('tour-back'),tour.at<=0);
if(scene)drawStage(scene.after,touchedBy(scene));
}
function pressWhy(){
Object.assign(tour,{isOn:!tour.isOn,plays:!tour.isOn,at:tour.isOn?tour.at:Math.min(tour.at,0)});
tour.since=performance.now();
drawTour();
}
function tourBack(){
Object.assign(tour,{plays:false,at:Math.max(0,tour.at - 1)});
drawTour();
}
async function tourNext(){
tour.since=performance.now();
if(tour.at<tour.scenes.length - 1)tour.at++;
else if(canGoOn())return pressStep();
else tour.plays=false;
drawTour();
}
function canGoOn(){
const{next,registers}=view.picture;
return tour.scenes.length>0&&next !==null&&registers.I !==view.ended&&!run&&mayCommand();
}
function pauseTour(){
Object.assign(tour,{plays:!tour.plays,since:performance.now()});
drawTour();
}
function lookForTour(){
if(tour.isOn&&tour.plays&&performance.now()- tour.since>SCENE_MS)tourNext();
}
function endTour(){
Object.assign(tour,{scenes:[],at:-1,isOn:false,plays:false});
drawTour();
}
const CLEARED_AT_ONCE=4000;
let isClearing=false;
function addressOf(place){
const digits=pad(place % 1000,3),thousands=Math.floor(place / 1000);
const zoned=(digit,zone)=>GRAPHICS[zone*16 +(Number(digit)||10)];
return zoned(digits[0],thousands % 4)+ digits[1]+ zoned(digits[2],Math.floor(thousands / 4));
}
function clearingLines(size){
const program='~/' .repeat(39)+ '~.',lines=[];
for(let top=size;top>0;top -=CLEARED_AT_ONCE){
lines.push(`DEPOSIT 0001 ~/${addressOf(top - 1)}${program.slice(0, 72)}`,`DEPOSIT 0041 ${program.slice(72)}`,
'START 0001',`RUN ${Math.min(top, CLEARED_AT_ONCE) / 100}`);
}
return[...lines,'START 0000'];
}
function isClear({registers,cells,next}){
const{I,HOPPER,STACKER,PAPER,SWITCHES}=registers;
return I + HOPPER + STACKER + PAPER===0&&!/[A-G]/.test(SWITCHES)&&next===null
&&cells.every(cell=>cell.graphic===' '&&!cell.mark);
}
async function pressAfresh(){
if(!mayCommand()||taking||feed)return;
const question=othersAtWork()?TEXTS.afreshOthers:TEXTS.afreshAsk;
if(!(await confirmed(question))||!(await takeTurn()))return;
stopRun();
while(run)await delay(SLICE_MS);
await startAfresh(renewal.mode==='ON'?renewRoom:clearMachine);
guide.beginAgain();
}
async function startAfresh(clear=clearMachine){
isClearing=true;
note('words',TEXTS.said.clearing);
tell(TEXTS.said.clearing);
const isDone=await clear(),{clear:empty,prepared,notClear}=TEXTS.said;
const words=isDone&&isClear(view.picture)?empty:isDone&&clear===renewRoom?prepared:notClear;
isClearing=false;
torn.length=taken.length=0;
drawTaken();
forgetWords();
followsPaper=byId('follow').checked=true;
view.ended=null;
byId('name').value=byId('keyed').value='';
drawKeyed();
tell(words);
note('words',words);
}
function forgetWords(){
byId('moving-card').classList.add('none');
fedAt=null;
tellDeck('');
tellTaken('');
}
function leaveClear(words){
if(byId('said-words').textContent===TEXTS.said.clear)tell(words);
}
function beginAnew(words){
forgetWords();
tell(words);
if(!['off','attract'].includes(guide.state))guide.beginAgain();
}
async function sendInTurn(lines,wanted){
const{breaks}=view;
for(let sent=0;sent<lines.length;){
const{replies}=await inTurn(()=>sendAll(lines.slice(sent),breaks));
if(replies.length===0||!replies.every(reply=>wanted.test(reply)))return false;
sent +=replies.length;
}
return true;
}
async function clearMachine(){
const{HOPPER,PAPER,STACKER,SWITCHES}=view.picture.registers,{size}=view.picture;
const lines=[...SWITCHES.replace(/-/g,'')].map(name=>`SWITCH ${name} OFF`);
const drawn=()=>{};
if(HOPPER)await takeMany('LOAD','OK',HOPPER,drawn,drawn);
if(PAPER)await takeMany('LINE','LINE ',PAPER,drawn,drawn);
if(STACKER)await takeMany('CARD','CARD ',STACKER,drawn,drawn);
if(!(await sendInTurn([...lines,...clearingLines(size)],/^(OK|STOP 01)/)))return false;
view.core=0;
await inTurn(look);
return true;
}
const TURN_IDLE_MS=60000;
const TURN_SLOT_MS=1500;
const TURN_LOOK_MS=200;
const turn={has:false,wants:false,freeSince:null};
const isShared=()=>view.picture !==null&&view.picture.seats>1;
function placeInLine(){
const{seat,seats}=view.picture,last=hold.seat||hold.last;
let place=0;
for(let by=1;by<=seats;by++){
const at=(last + by - 1)% seats + 1;
if(at===seat)return place + 1;
if(hold.taken.includes(at))place++;
}
return place + 1;
}
async function takeTurn(){
if(!isShared()||guide.state !=='on')return true;
if(!isHolder())await askToHold('/hold');
turn.has=isHolder();
turn.wants=isKeptOff();
turn.freeSince=null;
guide.draw();
return !isKeptOff();
}
async function giveTurn(){
turn.has=false;
if(isHolder())await askToHold('/release');
guide.draw();
}
async function pressTurn(){
if(turn.has){
await giveTurn();
return guide.stepAside();
}
turn.wants=!turn.wants;
turn.freeSince=null;
guide.draw();
}
function isTurnOver(){
return performance.now()- attract.touched>TURN_IDLE_MS||[null,'done','lessonDone'].includes(guide.step());
}
async function lookForTurn(){
if(!isShared()||view.link !=='fine')return;
if(turn.has&&isKeptOff())Object.assign(turn,{has:false,wants:true});
if(turn.has&&isTurnOver())await giveTurn();
else if(turn.has&&!isHeld()&&run===null)await takeTurn();
if(guide.state !=='on')turn.wants=false;
if(turn.wants)await waitInLine();
}
async function waitInLine(){
if(isHeld()){
turn.freeSince=null;
return guide.draw();
}
turn.freeSince??=performance.now();
if(performance.now()- turn.freeSince<placeInLine()*TURN_SLOT_MS||!(await takeTurn()))return;
noteHand();
tell(TEXTS.said.yourTurn);
}
function turnWords(){
if(!isHeld())return TEXTS.turn.soon;
const n=placeInLine()- 1,values={seat:hold.seat,n};
if(!turn.wants)return filled(TEXTS.turn.busy,values);
return n===0?filled(TEXTS.turn.next,values):counted(TEXTS.turn.later,n,values);
}
function drawTurn(){
const isHidden=!turn.has&&guide.step()!=='wait';
byId('turn-key').hidden=isHidden;
byId('guide-key').hidden=!isHidden;
setText(byId('turn-key'),turn.has?TEXTS.turn.give:turn.wants?TEXTS.turn.leave:TEXTS.turn.wait);
}
const NAME_MOST=CARD_COLUMNS - NAME_COLUMN;
const SPELLINGS=new Map((
'\u00e4AE \u00f6OE \u00fcUE \u00dfSS \u00e6AE \u0153OE \u00f8OE \u00e5AA \u0142L \u0111D \u00f0D \u00feTH '
+ '\u0127H \u0131I \u014bNG \u0167T \u0133IJ \u0138K \u017fS \u0259E \u0192F \u03b1A \u03b2V \u03b3G '
+ '\u03b4D \u03b5E \u03b6Z \u03b7I \u03b8TH \u03b9I \u03baK \u03bbL \u03bcM \u03bdN \u03beX \u03bfO \u03c0P '
+ '\u03c1R \u03c3S \u03c2S \u03c4T \u03c5Y \u03c6F \u03c7CH \u03c8PS \u03c9O \u0430A \u0431B \u0432V '
+ '\u0433G \u0434D \u0435E \u0436ZH \u0437Z \u0438I \u043aK \u043bL \u043cM \u043dN \u043eO \u043fP \u0440R '
+ '\u0441S \u0442T \u0443U \u0444F \u0445KH \u0446TS \u0447CH \u0448SH \u0449SHCH \u044a \u044bY \u044c '
+ '\u044dE \u044eYU \u044fYA \u0454YE \u0456I \u0457YI \u0491G \u0451YO \u0439Y \u045eU \u0452DJ \u0458J '
+ '\u0459LJ \u045aNJ \u045bC \u045fDZ \u0455DZ \u05d0A \u05d1B \u05d2G \u05d3D \u05d4H \u05d5V \u05d6Z '
+ '\u05d7H \u05d8T \u05d9Y \u05dbK \u05daK \u05dcL \u05deM \u05ddM \u05e0N \u05dfN \u05e1S \u05e2A \u05e4P '
+ '\u05e3F \u05e6TS \u05e5TS \u05e7K \u05e8R \u05e9SH \u05eaT \u0627A \u0628B \u062aT \u062bTH \u062cJ '
+ '\u062dH \u062eKH \u062fD \u0630DH \u0631R \u0632Z \u0633S \u0634SH \u0635S \u0636D \u0637T \u0638Z '
+ '\u0639A \u063aGH \u0641F \u0642Q \u0643K \u0644L \u0645M \u0646N \u0647H \u0648U \u064aI \u0629A \u0649A '
+ '\u0621 \u067eP \u0686CH \u06a9K \u06afG \u06ccI'
).split(' ').map(each=>[each[0],each.slice(1)]));
function spelt(letter){
const small=letter.toLowerCase();
if(SPELLINGS.has(small))return SPELLINGS.get(small);
const bare=small.normalize('NFD').replace(/[\u0300-\u036f\u064b-\u065f]/g,'');
return SPELLINGS.get(bare)??bare.toUpperCase();
}
function plain(text){
const quotes={'\u2019':'\'','\u2018':'\'','\u2013':'-','\u00a0':' '};
return[...text.normalize('NFC')].map(letter=>quotes[letter]||spelt(letter)).join('');
}
function nameOnCard(){
const name=plain(byId('name').value).trim().slice(0,NAME_MOST).trim();
return{name,wrong:[...name].find(letter=>!GRAPHICS.includes(letter))};
}
function drawName(){
const{name,wrong}=nameOnCard(),isSame=name===byId('name').value.trim().toUpperCase();
byId('name-words').classList.toggle('wrong',wrong !==undefined);
setText(byId('name-words'),wrong?filled(TEXTS.nameWrong,{letter:wrong})
:name===''||isSame?'':filled(TEXTS.nameSpelt,{name}));
}
function writeLetter(letter){
const field=byId('name');
if(field.value.length<NAME_MOST)field.setRangeText(letter,field.selectionStart,field.selectionEnd,'end');
drawName();
}
function wipeLetter(){
const field=byId('name'),{selectionStart:at,selectionEnd:end}=field;
if(end>at)field.setRangeText('',at,end,'end');
else if(at>0)field.setRangeText('',at - 1,at,'end');
drawName();
}
function buildNameKeys(){
const target=byId('name-keys');
target.replaceChildren();
const key=(textContent,onclick,label)=>{
const button=added(target,'button',{type:'button',textContent,onclick});
button.setAttribute('aria-label',label||filled(TEXTS.keyTitle,{graphic:textContent}));
return button;
};
for(const letter of `${TEXTS.alphabet}0123456789-`)key(letter,()=>writeLetter(letter));
key(TEXTS.keys.space,()=>writeLetter(' '),TEXTS.keys.space).className='wide';
key('\u232b',wipeLetter,TEXTS.wipe).className='wide';
}
let nameCard=HELLO;
async function punchName(event){
event.preventDefault();
return once('name-key',feedName);
}
async function feedName(){
const{name,wrong}=nameOnCard();
drawName();
if(name==='')setText(byId('name-words'),TEXTS.nameEmpty);
if(name===''||wrong||!mayCommand()||feed||!(await takeTurn()))return;
byId('name').value=name;
drawName();
nameCard=released=HELLO.slice(0,NAME_COLUMN)+ name;
Object.assign(guide,{card:nameCard,from:torn.length + view.paper.length});
sound('punch');
await feedDeck([nameCard],filled(TEXTS.fedName,{name}));
}
function printCard(){
cards.toPrint(nameCard);
document.body.classList.add('prints-card');
print();
document.body.classList.remove('prints-card');
}
const QR_BLOCKS=[[7,1],[10,1],[15,1],[20,1],[26,1],[18,2],[20,2],[24,2],[30,2],[18,4]];
const QR_BYTES=[26,44,70,100,134,172,196,242,292,346];
const QR_MARKS=[[],[6,18],[6,22],[6,26],[6,30],[6,34],[6,22,38],[6,24,42],[6,26,46],[6,28,50]];
const QR_MASKS=[
(x,y)=>(x + y)% 2,(x,y)=>y % 2,x=>x % 3,(x,y)=>(x + y)% 3,
(x,y)=>(Math.floor(x / 3)+ Math.floor(y / 2))% 2,(x,y)=>x*y % 2 + x*y % 3,
(x,y)=>(x*y % 2 + x*y % 3)% 2,(x,y)=>((x + y)% 2 + x*y % 3)% 2,
];
function timesInField(one,other){
let product=0;
for(let bit=7;bit>=0;bit--){
product=product<<1 ^(product>>7)*0x11d;
product ^=(other>>bit&1)*one;
}
return product;
}
function correctionOf(bytes,length){
const divisor=[...Array(length - 1).fill(0),1],rest=Array(length).fill(0);
for(let at=0,root=1;at<length;at++,root=timesInField(root,2)){
for(let to=0;to<length;to++)divisor[to]=timesInField(divisor[to],root)^(divisor[to + 1]??0);
}
for(const byte of bytes){
const factor=byte ^ rest.shift();
rest.push(0);
divisor.forEach((each,at)=>{rest[at]^=timesInField(each,factor);});
}
return rest;
}
function dataOf(bytes,version){
const[each,blocks]=QR_BLOCKS[version - 1],most=QR_BYTES[version - 1]- each*blocks;
const bits=[];
const put=(value,length)=>{for(let bit=length - 1;bit>=0;bit--)bits.push(value>>bit&1);};
put(4,4);
put(bytes.length,version<10?8:16);
for(const byte of bytes)put(byte,8);
if(bits.length>most*8)return null;
put(0,Math.min(4,most*8 - bits.length));
while(bits.length % 8)bits.push(0);
const data=[];
for(let at=0;at<bits.length;at +=8)data.push(parseInt(bits.slice(at,at + 8).join(''),2));
for(let pad=0xec;data.length<most;pad ^=0xec ^ 0x11)data.push(pad);
return data;
}
function woven(data,version){
const[length,count]=QR_BLOCKS[version - 1],short=Math.floor(data.length / count);
const blocks=[],longer=data.length % count;
for(let block=0,at=0;block<count;block++){
const end=at + short +(block>=count - longer?1:0);
blocks.push(data.slice(at,end));
at=end;
}
const corrections=blocks.map(block=>correctionOf(block,length)),found=[];
for(let at=0;at<=short;at++)for(const block of blocks)if(at<block.length)found.push(block[at]);
for(let at=0;at<length;at++)for(const block of corrections)found.push(block[at]);
return found;
}
function patternsOf(version){
const size=17 + 4*version,modules=Array.from({length:size},()=>Array(size));
const ring=(x,y,reach,dark)=>{
for(let dy=-reach;dy<=reach;dy++){
for(let dx=-reach;dx<=reach;dx++){
if(modules[y + dy]&&x + dx>=0&&x + dx<size){
modules[y + dy][x + dx]=dark(Math.max(Math.abs(dx),Math.abs(dy)));
}
}
}
};
for(let at=0;at<size;at++)modules[6][at]=modules[at][6]=at % 2===0;
const marks=QR_MARKS[version - 1],last=marks.length - 1;
marks.forEach((y,row)=>marks.forEach((x,column)=>{
const isCorner=row===0&&(column===0||column===last)||column===0&&row===last;
if(!isCorner)ring(x,y,2,far=>far !==1);
}));
for(const[x,y]of[[3,3],[size - 4,3],[3,size - 4]])ring(x,y,4,far=>far !==2&&far !==4);
putVersion(modules,version);
putFormat(modules,0);
return modules;
}
function remainder(value,divisor,bits){
let rest=value;
for(let at=0;at<bits;at++)rest=rest<<1 ^(rest>>bits - 1)*divisor;
return rest;
}
function putFormat(modules,mask){
const size=modules.length,value=8|mask,bits=(value<<10|remainder(value,0x537,10))^ 0x5412;
const bit=at=>(bits>>at&1)===1;
for(let at=0;at<6;at++)modules[at][8]=bit(at);
modules[7][8]=bit(6);
modules[8][8]=bit(7);
modules[8][7]=bit(8);
for(let at=9;at<15;at++)modules[8][14 - at]=bit(at);
for(let at=0;at<8;at++)modules[8][size - 1 - at]=bit(at);
for(let at=8;at<15;at++)modules[size - 15 + at][8]=bit(at);
modules[size - 8][8]=true;
}
function putVersion(modules,version){
if(version<7)return;
const size=modules.length,bits=version<<12|remainder(version,0x1f25,12);
for(let at=0;at<18;at++){
const near=Math.floor(at / 3),far=size - 11 + at % 3;
modules[near][far]=modules[far][near]=(bits>>at&1)===1;
}
}
function filledWith(patterns,bytes,mask){
const size=patterns.length,modules=patterns.map(row=>[...row]);
let at=0;
for(let right=size - 1;right>=1;right -=2){
if(right===6)right=5;
const isUp=(right + 1&2)===0;
for(let step=0;step<size;step++){
const y=isUp?size - 1 - step:step;
for(const x of[right,right - 1]){
if(patterns[y][x]!==undefined)continue;
const bit=(bytes[at>>3]>>7 -(at&7)&1)===1;
modules[y][x]=bit !==(QR_MASKS[mask](x,y)===0);
at++;
}
}
}
putFormat(modules,mask);
return modules;
}
function penaltyOf(modules){
const size=modules.length;
let penalty=0,dark=0;
for(let one=0;one<size;one++){
for(const at of[other=>modules[one][other],other=>modules[other][one]]){
for(let other=1,run=1;other<=size;other++){
if(other<size&&at(other)===at(other - 1))run++;
else{
penalty +=run>=5?run - 2:0;
run=1;
}
}
}
for(let x=0;x<size;x++){
dark +=modules[one][x];
const isBlock=one>0&&x>0&&modules[one][x]===modules[one - 1][x]
&&modules[one][x]===modules[one][x - 1]&&modules[one][x]===modules[one - 1][x - 1];
penalty +=isBlock?3:0;
}
}
return penalty + 10*Math.floor(Math.abs(20*dark / size**2 - 10));
}
function qrOf(text){
const bytes=new TextEncoder().encode(text);
for(let version=1;version<=QR_BYTES.length;version++){
const data=dataOf(bytes,version);
if(data===null)continue;
const patterns=patternsOf(version),all=woven(data,version);
const codes=QR_MASKS.map((_,mask)=>filledWith(patterns,all,mask));
const penalties=codes.map(penaltyOf);
return codes[penalties.indexOf(Math.min(...penalties))];
}
return null;
}
const isHome=FRAGMENT.has('card');
function homeAddress(card){
const isAlone=/^(127\.|localhost$|\[::1\]$)/.test(location.hostname)||location.protocol==='file:';
const page=FRAGMENT.get('home')||(isAlone?'':`${location.origin}/`);
return page&&`${page}#${new URLSearchParams({card, line: card.slice(NAME_COLUMN)})}`;
}
function drawHomeCode(isDone){
const address=isDone?homeAddress(nameCard):'',code=address&&qrOf(address),picture=byId('home-code');
byId('home-figure').hidden=!code;
if(!code||picture.dataset.address===address)return;
picture.dataset.address=address;
picture.setAttribute('viewBox',`-4 -4 ${code.length + 8} ${code.length + 8}`);
picture.replaceChildren();
const path=code.map((row,y)=>row.map((dark,x)=>dark?`M${x} ${y}h1v1h-1z`:'').join('')).join('');
drawn(picture,'rect',{x:-4,y:-4,width:code.length + 8,height:code.length + 8,class:'ground'});
drawn(picture,'path',{d:path});
}
function showHome(){
const text=name=>[...(FRAGMENT.get(name)||'').toUpperCase()].filter(each=>GRAPHICS.includes(each)).join('');
document.body.classList.add('home');
byId('home').hidden=false;
cardIn(byId('home-card'))(text('card').slice(0,CARD_COLUMNS));
setText(byId('home-line'),text('line').slice(0,132));
}
const LESSON_BEGINS=400;
const lesson={hasFed:false,hasRun:false,hasEnded:false,lacksSwitch:false,isMended:false};
function lessonChosen(){
const program=chosenProgram();
return !isStage&&program.loads?program:null;
}
function beginLessonAgain(hasFed=false){
Object.assign(lesson,{hasFed,hasEnded:false,lacksSwitch:false,isMended:false});
}
function forgetLesson(){
beginLessonAgain();
lesson.hasRun=false;
}
function noteLesson(event,name){
if(event==='fed')beginLessonAgain(true);
if(event==='stop'&&['lessonRun','lessonAgain'].includes(name)){
if(isWithoutSwitch(view.stop))lesson.lacksSwitch=true;
else lesson.hasRun=lesson.hasEnded=true;
}
if(event==='deposit'&&name==='lessonMend')lesson.isMended=true;
}
function isWithoutSwitch(stop){
return stop.name==='READER'&&!view.picture.registers.SWITCHES.includes('A');
}
function lessonWords(stop){
const chosen=lessonChosen(),words=TEXTS.lessonSaid;
if(!chosen||!lesson.hasFed||guide.state !=='on')return '';
if(isWithoutSwitch(stop))return words.noSwitch;
const isLoaded=stop.name==='LIMIT'&&stop.next===LESSON_BEGINS&&lesson.hasRun&&!lesson.isMended;
if(stop.name !=='HALT'&&!isLoaded)return '';
const ended=lesson.hasEnded?['again','againMended']:['halt','mended'];
const name=isLoaded?'loaded':ended[Number(lesson.isMended)];
return filled(words[name],{n:chosen.number});
}
function warnsOfLesson(){
if(!['lessonSwitch','lessonLoad'].includes(guide.step()))return false;
tell(TEXTS.lessonSaid.loadFirst);
return true;
}
function noteDeposit(line){
const[,at,text]=/^ *DEPOSIT +(\d+) (.*)$/.exec(line)||[];
if(!lessonChosen()||at===undefined)return;
const cells=[],from=Number(at);
cellsOf(text,cells);
const marks=cells.flatMap((cell,by)=>cell.mark?[pad(from + by,3)]:[]).join(', ');
const values={from:pad(from,3),to:pad(from + cells.length - 1,3),marks:marks||TEXTS.lessonSaid.none};
note('words',filled(TEXTS.lessonSaid.deposited,values));
}
function lessonStepOf(picture,{cards},{hasFed,hasRun,hasEnded,lacksSwitch,isMended}){
const{registers:{I,HOPPER,PAPER,SWITCHES},cells,next,read,hopper}=picture;
if(PAPER>=MOST_CARDS)return 'paper';
if(lacksSwitch)return 'lessonNoSwitch';
if(hasEnded)return isMended?'lessonDone':'lessonLook';
if(hopper !==null&&!cards.includes(hopper))return 'lessonOther';
if(HOPPER===cards.length)return SWITCHES.includes('A')?'lessonLoad':'lessonSwitch';
if(hasFed){
if(!hasRun)return 'lessonRun';
if(read===cards[0]&&I===1)return 'lessonSend';
return I===LESSON_BEGINS&&!isMended?'lessonMend':'lessonAgain';
}
return next===null&&cells.every(cell=>cell.graphic===' '&&!cell.mark)?'lessonFeed':'lessonOther';
}
const GUIDE_WAITS_MS=120000;
const HELLO_AT=[1,8,15,22,29,36,37];
const HELLO_END=38;
const GUIDE_STEPS={
feed:{key:'feed-key',shown:0},load:{key:'load-key',shown:1},step:{key:'step-key',shown:2},
run:{key:'run-key',shown:3},name:{key:'name-key',shown:4,focus:'name'},
loadName:{key:'load-key',shown:4},runName:{key:'run-key',shown:4},done:{key:'',shown:5},
lessonFeed:{key:'feed-key',shown:-1},lessonSwitch:{key:'switch-A',shown:-1},
lessonLoad:{key:'load-key',shown:-1},lessonRun:{key:'run-key',shown:-1},
lessonLook:{key:'afresh-key',shown:-1},lessonNoSwitch:{key:'afresh-key',shown:-1},
lessonOther:{key:'afresh-key',shown:-1},lessonSend:{key:'send-key',shown:-1,focus:'line'},
lessonMend:{key:'send-key',shown:-1,focus:'line'},lessonAgain:{key:'run-key',shown:-1},
lessonDone:{key:'',shown:-1},
other:{key:'afresh-key',shown:-1},paper:{key:'tear-key',shown:-1},wait:{key:'turn-key',shown:-1},
};
const PATIENT_STEPS=['feed','wait','lessonFeed','lessonLook','lessonNoSwitch','lessonOther','lessonMend'];
const CONSOLE_STEPS=['lessonSend','lessonMend','lessonAgain'];
function focusNear(key){
key.focus({preventScroll:true});
key.scrollIntoView({block:'nearest'});
}
const isHello=text=>text !==null&&text.startsWith(HELLO.slice(0,NAME_COLUMN));
function isPrinted(card,from){
return[...torn,...view.paper].slice(from).some(line=>line.text===card.slice(NAME_COLUMN));
}
function isFree({cells,from,read,next,registers}){
if(isHello(read)&&[...HELLO_AT,HELLO_END].includes(registers.I)){
return from>0||cells.slice(201,333).every(cell=>!cell.mark);
}
return next===null&&cells.every(cell=>cell.graphic===' '&&!cell.mark);
}
function stepOf(picture,{hasFed,card,from}){
const{registers:{I,HOPPER,PAPER},read,hopper}=picture,isOurs=text=>text===HELLO||text===card;
if(card !==null&&isPrinted(card,from))return 'done';
if(PAPER>=MOST_CARDS)return 'paper';
if(isOurs(read)&&HELLO_AT.includes(I))return card !==null?'runName':I===1?'step':'run';
if(HOPPER>0)return !isOurs(hopper)?'other':card !==null?'loadName':'load';
if(!isFree(picture))return 'other';
return hasFed&&isOurs(read)?'name':'feed';
}
function programThere({read,hopper}){
const has=({cards},card)=>cards.some(each=>each.trimEnd()===card);
const found=PROGRAMS.filter(each=>(hopper===null||has(each,hopper))&&(read===''||has(each,read)));
return(hopper !==null||read !=='')&&found.length===1?found[0].name:null;
}
const guide={
state:'off',hasFed:false,card:null,from:0,since:0,lit:'',
begin(){
byId('program').value='hello';
drawProgram();
forgetLesson();
this.goOn();
},
beginAgain(){
if(!lessonChosen())return this.begin();
beginLessonAgain();
this.goOn();
},
goOn(){
const isPrepared=hold.isPrepared&&view.picture !==null&&!isClear(view.picture);
Object.assign(this,{hasFed:false,card:null,since:performance.now(),state:isPrepared?'prepared':'on'});
this.draw();
},
on(event){
this.since=performance.now();
noteLesson(event,this.step());
if(event==='fed'){
if(this.step()==='done')this.card=null;
this.hasFed=true;
}
this.draw();
},
look(){
const now=performance.now(),isLeft=run !==null&&!attract.on&&now - attract.touched>IDLE.attractMs;
if(isLeft&&this.state==='aside')this.begin();
const isLate=now - Math.max(this.since,attract.touched)>GUIDE_WAITS_MS;
if(this.state==='on'&&!PATIENT_STEPS.includes(this.step())&&isLate&&!run)this.stepAside();
},
stepAside(){
if(isStage)return this.begin();
this.state='aside';
this.draw();
},
press(){
if(this.isOver())return lessonChosen()?this.goOn():this.begin();
this.state='off';
this.draw();
},
isOver(){
return this.state !=='on'||this.step()==='done';
},
step(){
if(this.state !=='on'||view.picture===null)return null;
const chosen=lessonChosen();
const step=chosen?lessonStepOf(view.picture,chosen,lesson):stepOf(view.picture,this);
return !['done','lessonDone'].includes(step)&&(turn.wants||isKeptOff())?'wait':step;
},
draw(){
const name=this.step(),step=name&&GUIDE_STEPS[name],shown=step?step.shown:-1;
this.light(this.keyFor(name),step&&!tour.isOn&&step.focus);
const chosen=lessonChosen();
byId('guide-steps').hidden=chosen !==null;
document.documentElement.classList.toggle('sends',CONSOLE_STEPS.includes(name));
setText(byId('guide-title'),chosen?filled(TEXTS.lessonTitle,{n:chosen.number}):TEXTS.guideTitle);
if(isExhibit)setText(byId('feed-key'),TEXTS.childKeys[wantsClearing()?'clear':'feed']);
[...byId('guide-steps').children].forEach((element,at)=>{
element.classList.toggle('done',at<shown);
element.toggleAttribute('aria-current',at===shown);
if(at===shown)element.setAttribute('aria-current','step');
setAttribute(element,'aria-label',filled(at<shown?TEXTS.stepDone:TEXTS.stepOpen,
{n:at + 1,name:TEXTS.guideSteps[at]}));
});
byId('name-form').hidden=name !=='name'||tour.isOn;
byId('guide-end').hidden=name !=='done';
setText(byId('guide-now'),this.words(name));
setText(byId('guide-key'),this.isOver()?TEXTS.guideOn:TEXTS.guideOff);
drawHomeCode(name==='done');
drawTurn();
},
keyFor(name){
if(name===null)return '';
return wantsClearing()?'feed-key':name==='name'&&tour.isOn?'why-key':GUIDE_STEPS[name].key;
},
light(lit,focus){
if(lit===this.lit)return;
const before=this.lit&&byId(this.lit);
this.lit=lit;
if(before)before.classList.remove('lit');
if(!lit)return;
byId(lit).classList.add('lit');
if(before&&before===document.activeElement)setTimeout(()=>focusNear(byId(focus||lit)));
},
words(name){
if(name===null)return TEXTS.guide[this.state==='on'?'off':this.preparedWords()];
if(name==='wait')return turnWords();
const words=isExhibit?TEXTS.childWords:TEXTS.guideWords;
const there=name==='other'?programThere(view.picture):null,{loads,number}=chosenProgram();
if(there)return filled(words.program,{name:TEXTS.programs[there].name});
return filled(words[name],{loads,n:number});
},
preparedWords(){
return this.state==='prepared'&&renewal.mode==='ON'?'preparedAgain':this.state;
},
};
onHappened.push(event=>guide.on(event));
function reserveGuide(){
if(isStage)return;
const probe=byId('guide-said').cloneNode(true),[words,end]=probe.children;
probe.id=words.id='';
probe.className='probe';
words.removeAttribute('aria-live');
byId('guide').append(probe);
const heights=Object.entries(TEXTS.guideWords).map(([name,text])=>{
words.textContent=text;
end.hidden=name !=='done';
return probe.offsetHeight + 1;
});
probe.remove();
byId('guide-said').style.minHeight=`${Math.max(...heights)}px`;
}
const IDLE={attractMs:180000,pauseMs:90000,seatMs:20000,mostAfter:JOURNAL_ENTRIES / 2};
const attract={on:false,stop:false,yields:false,press:false,touched:performance.now(),
pressed:performance.now(),ended:-Infinity};
const isHeldDown=({repeat,key,target})=>repeat&&['Enter',' '].includes(key)&&target.tagName==='BUTTON';
function touch(event){
attract.touched=attract.pressed=performance.now();
if(run)run.wake();
if(event.isTrusted===false)return;
const waited=VISIT.isFresh;
if(waited)greet();
if(isHeldDown(event))return event.preventDefault();
const isClick=event.type==='click',ends=guide.state==='attract'||waited,goesOn=isClick&&attract.press;
attract.press=ends&&!isClick;
if(ends){
if(attract.on)attract.stop=true;
else takeOver();
stopRun();
}else if(!goesOn)return;
if(event.key==='Tab')return;
event.preventDefault();
event.stopPropagation();
}
function noteHand(){
attract.touched=performance.now();
}
function isIdle(){
const now=performance.now(),{picture}=view;
if(!picture||hold.isPrepared||!mayCommand()||run||feed||taking||document.hidden)return false;
if(isStage&&!VISIT.isFresh)return false;
if(picture.after>IDLE.mostAfter)return false;
const wanted=IDLE.attractMs + picture.seat*IDLE.seatMs;
return now - attract.touched>wanted&&now - view.changed>wanted - IDLE.attractMs + IDLE.pauseMs
&&now - attract.ended>IDLE.pauseMs&&now - view.others.at>wanted;
}
async function attractIfIdle(){
if(attract.on||!isIdle())return;
Object.assign(attract,{on:true,stop:false,yields:false});
document.body.classList.add('attracts');
if(!isStage)asNew();
guide.state='attract';
guide.draw();
await playDeck();
if(attract.stop)return takeOver();
Object.assign(attract,{on:false,ended:performance.now()});
if(attract.yields)stepAside();
}
async function takeOver(){
Object.assign(attract,{on:true,stop:true});
const isOurs=!attract.yields&&mayCommand()&&!othersAtWork();
if(isOurs&&!isClear(view.picture))await startAfresh();
Object.assign(attract,{on:false,ended:performance.now()});
document.body.classList.remove('attracts');
guide.begin();
}
function yieldToOthers(){
attract.yields=true;
if(attract.on)stopRun();
else if(guide.state==='attract')stepAside();
}
function stepAside(){
document.body.classList.remove('attracts');
guide.stepAside();
}
async function playDeck(){
const ends=()=>attract.stop||attract.yields||!mayCommand();
await startAfresh();
if(ends())return;
const shown=PROGRAMS.filter(program=>program.alone&&!(isExhibit&&program.name==='hello'));
const program=shown[Math.floor(Math.random()*shown.length)],pace=byId('pace').selectedIndex;
byId('program').value=program.name;
drawProgram();
await feedDeck(program.cards);
if(ends())return;
if(program.switches)await say(`SWITCH ${program.switches} ON`);
await pressLoad();
if(ends())return;
byId('pace').selectedIndex=isExhibit?0:PACES.indexOf(OWN_PACE);
await pressRun();
byId('pace').selectedIndex=pace;
}
const VISIT={idleMs:60000,leaveMs:10000,wordsMs:4000,isFresh:false,at:0};
function lookForVisitor(){
if(!isExhibit)return;
const idle=performance.now()- attract.touched,left=VISIT.idleMs + VISIT.leaveMs - idle;
byId('leaving').hidden=VISIT.isFresh||idle<VISIT.idleMs;
setText(byId('leaving-words'),counted(TEXTS.stage.leaving,Math.max(0,Math.ceil(left / 1000))));
if(!VISIT.isFresh&&left<=0)welcomeNext();
drawTouchMe();
}
function drawTouchMe(){
byId('touch-me').hidden=!VISIT.isFresh;
const all=Object.values(LANGUAGES),texts=all[Math.floor(performance.now()/ VISIT.wordsMs)% all.length];
setText(byId('touch-words'),texts.stage.touch);
byId('touch-words').lang=texts.language;
}
function greet(){
VISIT.isFresh=false;
byId('touch-me').hidden=true;
}
async function welcomeNext(){
VISIT.isFresh=true;
stopRun();
turn.wants=false;
if(turn.has||isHolder())await giveTurn();
asNew();
guide.state='attract';
guide.draw();
const isOurs=mayCommand()&&!othersAtWork()&&!hold.isPrepared;
if(isOurs&&view.picture&&!isClear(view.picture))await startAfresh();
byId('log').replaceChildren();
}
function asNew(){
for(const dialog of document.querySelectorAll('dialog[open]'))dialog.close();
for(const field of document.querySelectorAll('input:not([type=file]), textarea')){
field.value=field.defaultValue;
field.checked=field.defaultChecked;
}
for(const part of document.querySelectorAll('details'))part.open=part.id==='source-details';
if(byId('fold').classList.contains('large'))enlargePaper();
if(byId('view-key').getAttribute('aria-pressed')==='true')pressView();
if(speaker)pressSound();
if(document.body.classList.contains('more'))pressMore();
byId('pace').selectedIndex=isExhibit?0:FASTEST;
byId('log').replaceChildren();
Object.assign(typed,{lines:[],at:0});
released='';
nameCard=HELLO;
Object.assign(guide,{card:null,hasFed:false});
torn.length=taken.length=0;
followsPaper=true;
view.ended=null;
forgetWords();
endTour();
chooseLanguage(languageWanted());
drawKeyed();
drawName();
document.activeElement.blur();
scrollTo(0,0);
}
const SOUNDS={read:{ms:90,hertz:700},print:{ms:130,hertz:1900},punch:{ms:160,hertz:350}};
let speaker=null;
function pressSound(){
if(speaker)speaker.close();
speaker=speaker?null:new AudioContext();
byId('sound-key').setAttribute('aria-pressed',String(speaker !==null));
sound('print');
}
function sound(name){
if(!speaker)return;
const{ms,hertz}=SOUNDS[name],length=Math.floor(speaker.sampleRate*ms / 1000);
const burst=speaker.createBuffer(1,length,speaker.sampleRate),samples=burst.getChannelData(0);
for(let at=0;at<length;at++)samples[at]=(Math.random()*2 - 1)*(1 - at / length)**2;
const source=speaker.createBufferSource(),filter=speaker.createBiquadFilter();
source.buffer=burst;
Object.assign(filter,{type:'bandpass'}).frequency.value=hertz;
source.connect(filter).connect(speaker.destination);
source.start();
}
function draw(){
drawHead();
drawPanel();
drawCore();
drawCards();
drawPaper();
drawKeys();
guide.draw();
drawMachines(view.picture);
if(!tour.isOn)drawStage(view.picture);
followI();
showChanges(drawnLast,view.picture);
drawnLast=view.picture;
}
let drawnLast=null;
function drawAnew(){
seatsDrawn='';
core.size=0;
core.from=null;
for(const sheet of sheets.values())sheet.element.remove();
sheets.clear();
tell(welcomeWords());
drawProgram();
guide.draw();
drawKeyed();
drawTaken();
drawBanner();
if(view.picture)draw();
}
function bannerText(){
if(view.unkept)return TEXTS.unkept;
if(view.link !=='fine')return filled(TEXTS[view.link],{status:view.status});
const after=view.picture?view.picture.after:0;
if(view.full||after>=JOURNAL_ENTRIES)return TEXTS.full;
return after>=JOURNAL_NEARLY&&renewal.mode !=='ON'?filled(TEXTS.nearlyFull,{n:withCommas(after)}):'';
}
function drawBanner(){
const text=bannerText();
setText(byId('banner'),text);
byId('banner').hidden=text==='';
byId('link').classList.toggle('lost',view.link !=='fine');
setAttribute(byId('link'),'title',view.link==='fine'?TEXTS.answers:text);
}
let seatsDrawn='';
function drawHead(){
const{seat,seats,after}=view.picture;
setText(byId('after'),counted(TEXTS.after,after));
drawOthers();
if(seatsDrawn===`${seat} ${seats}`)return;
seatsDrawn=`${seat} ${seats}`;
document.title=filled(TEXTS.documentTitle,{seat});
byId('seats').replaceChildren();
added(byId('seats'),'span',{textContent:TEXTS.seats});
const{protocol,hostname}=location;
const port=Number(location.port||(protocol==='https:'?443:80))- seat;
for(let n=1;n<=seats;n++){
const address=`${protocol}//${hostname}:${port + n}/`;
const link=added(byId('seats'),'a',{href:address,textContent:n});
link.setAttribute('aria-label',filled(n===seat?TEXTS.thisSeat:TEXTS.seat,{n}));
if(n===seat)link.setAttribute('aria-current','page');
}
}
function othersWords(what){
const last=lastOfOthers();
return last?filled(TEXTS[`seat${what}`],last):TEXTS[`others${what}`];
}
function drawOthers(){
const{count}=view.others;
const now=othersWords(othersRun()?'Run':'Now'),before=count>0?counted(TEXTS.others,count):'';
setText(byId('others'),othersAtWork()?now:before +(before&&lastOfOthers()?othersWords('Last'):''));
byId('others').classList.toggle('wrong',othersAtWork());
for(const id of['load-key','step-key','start-key','run-key']){
const why=isKeptOff()?holdWords():othersRun()?othersWords('Run'):'';
setAttribute(byId(id),'title',why||TEXTS[byId(id).dataset.title]);
}
drawRun();
}
function drawPanel(){
const registers=view.picture.registers;
for(const name of['I','A','B']){
const digits=pad(registers[name],5),element=byId(name);
[...digits].forEach((digit,at)=>setText(element.children[at],digit));
setAttribute(element,'aria-label',`${TEXTS[`register${name}`]} ${digits}`);
}
for(const[name,lamp]of lamps){
lamp.classList.toggle('on',registers[name]===1);
const state=registers[name]===1?TEXTS.on:TEXTS.off;
setAttribute(lamp,'aria-label',filled(TEXTS.lampLabel,{name:TEXTS.lamps[name],state}));
}
const hasEnded=view.ended !==null&&registers.I===view.ended;
const next=hasEnded?'':(view.picture.next||'').trim();
setText(byId('next'),next||(hasEnded?TEXTS.nextEnded:TEXTS.nextNone));
setText(byId('next-words'),TEXTS.operations[next.split(' ')[0]]||'');
for(const button of byId('switches').children){
setAttribute(button,'aria-pressed',String(registers.SWITCHES.includes(button.value)));
}
drawBulbs();
}
function bitsWithCheck(graphic){
const code=GRAPHICS.indexOf(graphic),bits=[32,16,8,4,2,1].map(bit=>(code&bit)>0);
return[bits.filter(Boolean).length % 2===0,...bits];
}
function bulbRows(){
const{registers,from,cells}=view.picture;
const at=place=>cells[place - from]?cells[place - from].graphic:' ';
const rows=[['B',at(registers.B)],['A',at(registers.A)],['OP',at(registers.I)]];
const address=[...pad(registers.I,5)].map((digit,at)=>[`${TEXTS.bulbAddress}${at + 1}`,digit]);
return[...rows,...address];
}
function drawBulbs(){
const isShown=byId('view-key').getAttribute('aria-pressed')==='true';
byId('bulbs').hidden=!isShown;
byId('registers').hidden=isShown;
if(!isShown||!view.picture)return;
byId('bulbs').replaceChildren();
for(const[name,graphic]of bulbRows()){
const row=added(byId('bulbs'),'div');
added(row,'b',{textContent:name});
bitsWithCheck(graphic).forEach((isOn,at)=>{
added(row,'i',{textContent:'CBA8421'[at],className:isOn?'on':''}).setAttribute('aria-hidden','true');
});
row.setAttribute('role','img');
row.setAttribute('aria-label',`${name} ${graphic === ' ' ? TEXTS.blank : graphic}`);
}
}
function pressView(){
const isShown=byId('view-key').getAttribute('aria-pressed')!=='true';
byId('view-key').setAttribute('aria-pressed',String(isShown));
drawBulbs();
}
const core={columns:0,heads:[],cells:[],shown:[],from:null,size:0,chosen:0};
function columnsWanted(){
return byId('core').clientWidth<560?20:50;
}
function buildCore(){
core.columns=columnsWanted();
Object.assign(core,{heads:[],cells:[],shown:[],from:null});
byId('core').classList.toggle('narrow',core.columns===20);
byId('core').replaceChildren();
const table=added(byId('core'),'table');
table.setAttribute('role','grid');
table.id='grid';
const head=added(added(table,'thead'),'tr');
added(head,'th');
for(let ten=0;ten<core.columns;ten +=10)added(head,'th',{colSpan:10,textContent:pad(ten,2)});
const body=added(table,'tbody');
for(let at=0;at<PLACES_SHOWN;at++){
if(at % core.columns===0)core.heads.push(added(added(body,'tr'),'th',{scope:'row'}));
const row=core.heads[core.heads.length - 1].parentElement;
core.cells.push(added(row,'td',{tabIndex:at===core.chosen?0:-1}));
}
}
function areaOf(place){
if(place>=1&&place<=80)return 'read ';
if(place>=101&&place<=180)return 'punch ';
return place>=201&&place<=332?'print ':'';
}
function drawCore(){
const{from,cells,registers}=view.picture;
const moved=core.from !==from;
core.from=from;
const begin=registers.I - from,end=begin + instructionLength(cells,begin);
if(moved)core.heads.forEach((head,row)=>setText(head,pad(from + row*core.columns,4)));
cells.forEach((cell,at)=>{
const name=areaOf(from + at)+(cell.mark?'mark ':'')+(at>=begin&&at<end?'next ':'')
+(at % 10===0&&at % core.columns>0?'ten':'');
const known=core.shown[at],text=cell.graphic + cell.mark;
if(!moved&&known&&known.name===name&&known.text===text)return;
const element=core.cells[at];
element.className=name;
setText(element,cell.graphic===' '?'\u00a0':cell.graphic);
const isOther=!known||known.text !==text;
if(moved||isOther)element.setAttribute('aria-label',filled(TEXTS.cellLabel,cellWords(at)));
if(!moved&&known&&isOther)glow(element);
core.shown[at]={name,text};
});
setAttribute(byId('grid'),'aria-label',filled(TEXTS.coreLabel,{from:pad(from,4)}));
drawTabs();
drawChosen();
if(byId('core-details').open)drawCoreText();
}
function cellWords(at){
const{graphic,mark}=view.picture.cells[at];
return{at:pad(view.picture.from + at,4),graphic:graphic===' '?TEXTS.blank:graphic,
mark:mark?TEXTS.withMark:''};
}
let hasChosen=false;
function drawChosen(){
if(!hasChosen)return setText(byId('cell'),TEXTS.cellHint);
const graphic=view.picture.cells[core.chosen].graphic;
const rows=rowsOf(graphic).join('-');
setText(byId('cell'),filled(TEXTS.cell,{...cellWords(core.chosen),bits:bitsOf(graphic)||TEXTS.noBits,
holes:rows||TEXTS.noHoles}));
}
function choose(at){
core.cells[core.chosen].tabIndex=-1;
core.chosen=at;
core.cells[at].tabIndex=0;
hasChosen=true;
if(view.picture)drawChosen();
}
function drawCoreText(){
const{from,cells}=view.picture;
const rows=[];
for(let at=0;at<PLACES_SHOWN;at +=40){
const row=cells.slice(at,at + 40).map(cell=>(cell.mark?'~':'')+ cell.graphic).join('');
rows.push(`${pad(from + at, 4)}  ${row.trimEnd()}`);
}
setText(byId('core-text'),rows.join('\n'));
}
function windowsOf(size){
const windows=[];
for(let at=0;at + PLACES_SHOWN<size;at +=PLACES_SHOWN)windows.push(at);
return[...windows,size - PLACES_SHOWN];
}
function drawTabs(){
const{size}=view.picture;
if(core.size !==size){
core.size=size;
byId('tabs').replaceChildren();
for(const at of windowsOf(size)){
added(byId('tabs'),'button',{type:'button',textContent:pad(at,4),value:at});
}
}
for(const tab of byId('tabs').children)setAttribute(tab,'aria-pressed',String(Number(tab.value)===view.core));
}
function windowWith(place){
const{size}=view.picture;
return Math.min(Math.floor(place / PLACES_SHOWN)*PLACES_SHOWN,size - PLACES_SHOWN);
}
function showWindow(from){
view.core=from;
drawTabs();
return inTurn(look);
}
function followI(){
const{registers,from,size}=view.picture;
const place=registers.I;
const isShown=place>=from&&place<from + PLACES_SHOWN;
if(byId('follow').checked&&!isShown&&place<size)view.core=windowWith(place);
}
async function findPlace(event){
event.preventDefault();
const place=Number(byId('find-at').value.trim()||NaN);
if(!view.picture)return;
if(!(Number.isInteger(place)&&place>=0&&place<view.picture.size)){
return setText(byId('cell'),filled(TEXTS.findWrong,{last:pad(view.picture.size - 1,4)}));
}
byId('follow').checked=false;
await showWindow(windowWith(place));
choose(place - view.picture.from);
core.cells[core.chosen].focus();
}
function moveInCore(event){
const by={ArrowLeft:-1,ArrowRight:1,ArrowUp:-core.columns,ArrowDown:core.columns,
Home:-(core.chosen % core.columns),End:core.columns - 1 - core.chosen % core.columns}[event.key];
const to=core.chosen + by;
if(by===undefined||event.altKey||event.ctrlKey)return;
event.preventDefault();
if(to<0||to>=PLACES_SHOWN)return;
choose(to);
core.cells[to].focus();
}
const CARD={width:516,height:176,left:20,column:6,top:17,row:12.6};
const rowOrder=[12,11,0,1,2,3,4,5,6,7,8,9];
const columnsAt=Array.from({length:CARD_COLUMNS},(_,at)=>CARD.left + at*CARD.column).join(' ');
function cardIn(figure){
const{width,height}=CARD;
const picture=drawn(figure,'svg',{viewBox:`0 0 ${width} ${height}`,role:'img'});
const edge=`M17 .5H${width - 6}q5.5 0 5.5 5.5V${height - 6}q0 5.5-5.5 5.5H6q-5.5 0-5.5-5.5V17z`;
drawn(picture,'path',{class:'edge',d:edge});
rowOrder.slice(2).forEach((row,at)=>{
const y=CARD.top +(at + 2)*CARD.row + 8.5;
const line=drawn(picture,'text',{class:'rows','text-anchor':'middle',x:columnsAt,y});
line.textContent=String(row).repeat(CARD_COLUMNS);
});
for(let column=10;column<=CARD_COLUMNS;column +=10){
const label=drawn(picture,'text',{class:'columns','text-anchor':'middle',
x:CARD.left +(column - 1)*CARD.column,y:height - 3});
label.textContent=column;
}
const print=drawn(picture,'text',{class:'typed','text-anchor':'middle',x:columnsAt,y:12.5});
const holes=drawn(picture,'path',{class:'holes'});
let shown;
return text=>{
if(shown===text)return;
shown=text;
figure.classList.toggle('none',text===null);
const columns=(text||'').padEnd(CARD_COLUMNS).slice(0,CARD_COLUMNS);
setText(print,columns);
holes.setAttribute('d',holesOf(columns));
picture.setAttribute('aria-label',cardLabel(text));
};
}
function cardLabel(text){
if(text===null)return TEXTS.cardNone;
return text.trim()===''?TEXTS.cardBlank:filled(TEXTS.cardLabel,{text});
}
function holesOf(columns){
let path='';
[...columns].forEach((graphic,column)=>{
if(!GRAPHICS.includes(graphic))return;
const x=CARD.left + column*CARD.column - 1.7;
for(const row of rowsOf(graphic)){
const y=CARD.top + rowOrder.indexOf(row)*CARD.row + 1.8;
path +=`M${x.toFixed(1)} ${y.toFixed(1)}h3.4v9h-3.4z`;
}
});
return path;
}
function drawCards(){
const{registers,read,hopper,punched}=view.picture;
for(const[name,pile]of[['HOPPER',byId('hopper-pile')],['STACKER',byId('stacker-pile')]]){
setText(byId(name),pad(registers[name],3));
pile.classList.toggle('none',registers[name]===0);
pile.style.setProperty('--cards',registers[name]);
}
if(fedAt !==null&&registers.HOPPER<fedAt){
fedAt=null;
tellDeck('');
}
cards.read(read);
cards.next(hopper);
cards.punched(punched);
setText(byId('card-next-name'),hopper===null?TEXTS.cardNoNext:TEXTS.cardNext);
setText(byId('card-punched-name'),punched===null?TEXTS.cardNoPunched:TEXTS.cardPunched);
const station=read.trim()===''?TEXTS.cardBlank:filled(TEXTS.cardLabel,{text:read.trim()});
setAttribute(byId('transport'),'aria-label',
filled(TEXTS.transportLabel,{hopper:registers.HOPPER,station,stacker:registers.STACKER}));
}
let released='';
const keyed=()=>byId('keyed').value.replace(/[a-z]/g,letter=>letter.toUpperCase());
function drawKeyed(){
const text=keyed(),wrong=[...text].findIndex(graphic=>!GRAPHICS.includes(graphic));
cards.keyed(text);
byId('keyed-words').classList.toggle('wrong',wrong>=0);
setText(byId('keyed-words'),wrong>=0
?filled(TEXTS.columnWrong,{column:wrong + 1,what:noCard(text[wrong])})
:text.length>=CARD_COLUMNS?TEXTS.cardFull:filled(TEXTS.columnTold,{n:text.length + 1}));
}
function keyIn(graphic){
const field=byId('keyed');
if(field.value.length<CARD_COLUMNS)field.setRangeText(graphic,field.selectionStart,field.selectionEnd,'end');
drawKeyed();
}
const KEY_ACTIONS={
space:()=>keyIn(' '),
back:()=>{
const field=byId('keyed'),at=field.selectionStart;
if(at>0)field.setRangeText('',at - 1,at,'end');
drawKeyed();
},
dup:()=>keyIn(released[byId('keyed').selectionStart]||' '),
clear:()=>{
byId('keyed').value='';
drawKeyed();
},
};
async function releaseCard(){
const deck=deckOf(`${keyed()}\n`);
if(deck.fault)return drawKeyed();
if(feed)return tellDeck(TEXTS.alreadyFeeding,true);
released=keyed();
KEY_ACTIONS.clear();
sound('punch');
await feedDeck(deck.cards);
}
function takeProgram(){
byId('keyed').value=HELLO;
drawKeyed();
byId('keyed').focus();
byId('keyed').setSelectionRange(NAME_COLUMN,HELLO.length);
}
function buildKeyboard(){
byId('keyboard').replaceChildren();
for(const row of KEYBOARD){
const line=added(byId('keyboard'),'div');
for(const graphic of row){
const onclick=()=>keyIn(graphic);
const key=added(line,'button',{type:'button',textContent:graphic,tabIndex:-1,onclick});
key.setAttribute('aria-label',filled(TEXTS.keyTitle,{graphic}));
}
}
const line=added(byId('keyboard'),'div');
for(const[name,action]of Object.entries(KEY_ACTIONS)){
const key=added(line,'button',{type:'button',className:'wide',tabIndex:-1,onclick:action});
key.textContent=TEXTS.keys[name];
if(name==='dup')key.title=TEXTS.dupTitle;
}
keysOf(byId('keyboard'))[0].tabIndex=0;
}
const keysOf=keyboard=>[...keyboard.querySelectorAll('button')];
function moveOnKeyboard(event){
const keys=keysOf(byId('keyboard')),at=keys.indexOf(event.target);
const by={ArrowLeft:-1,ArrowRight:1,ArrowUp:-10,ArrowDown:10}[event.key];
if(at<0||by===undefined||event.altKey)return;
event.preventDefault();
const to=Math.max(0,Math.min(keys.length - 1,at + by));
keys[at].tabIndex=-1;
keys[to].tabIndex=0;
keys[to].focus();
}
const sheets=new Map();
let followsPaper=true,handOnPaper=-Infinity;
function sheetIn(parent,form){
const element=added(parent,'div',{className:'sheet'});
element.setAttribute('role','group');
element.setAttribute('aria-label',filled(TEXTS.formLabel,{form:pad(form,4)}));
const text=added(element,'pre');
return{element,rows:Array.from({length:FORM_LINES},()=>added(text,'span'))};
}
function formsShown(){
const{FORM}=view.picture.registers;
return[...new Set([...view.paper.map(line=>line.form),FORM,(FORM + 1)% FORMS])];
}
function drawPaper(){
const{registers}=view.picture;
const forms=formsShown();
const isOther=[...sheets.keys()].some((form,at)=>forms[at]!==form);
if(isOther){
for(const sheet of sheets.values())sheet.element.remove();
sheets.clear();
}
const isFirst=sheets.size===0;
for(const form of forms)if(!sheets.has(form))sheets.set(form,sheetIn(byId('fold'),form));
const texts=textsByForm(view.paper);
for(const[form,sheet]of sheets){
drawSheet(sheet,texts.get(form)||[],form===registers.FORM?registers.LINE:0,!isFirst);
}
const place={form:pad(registers.FORM,4),line:registers.LINE};
setText(byId('paper-at'),counted(TEXTS.paperAt,view.paper.length,place));
drawTape(registers.LINE);
byId('fold').style.setProperty('--lines',view.paper.length);
byId('newest').hidden=view.paper.length===0;
setText(byId('newest'),view.paper.length===0?'':view.paper.at(-1).text);
followPaper();
}
function textsByForm(lines){
const texts=new Map();
for(const{form,line,text}of lines){
if(!texts.has(form))texts.set(form,[]);
texts.get(form)[line - 1]=text;
}
return texts;
}
function drawSheet(sheet,texts,carriage,glows){
sheet.rows.forEach((row,at)=>{
const text=texts[at]||'';
row.classList.toggle('at',at + 1===carriage);
if(row.textContent===text)return;
row.textContent=text;
if(glows)glow(row);
});
}
function followPaper(){
byId('to-carriage').hidden=followsPaper;
if(!followsPaper)return;
const fold=byId('fold'),{registers}=view.picture;
const{element,rows}=sheets.get(registers.FORM);
const line=rows[0].offsetHeight*registers.LINE;
fold.scrollTop=element.offsetTop + line - fold.clientHeight*.85;
}
function notePaperMoved(){
if(performance.now()- handOnPaper<RETRY_MS)followsPaper=false;
byId('to-carriage').hidden=followsPaper;
}
function goToCarriage(){
followsPaper=true;
followPaper();
}
function enlargePaper(){
const isLarge=byId('fold').classList.toggle('large');
byId('large-key').setAttribute('aria-pressed',String(isLarge));
goToCarriage();
}
function buildTape(){
const tape=byId('tape');
drawn(tape,'rect',{class:'strip',x:6,y:.5,width:48,height:329});
for(let line=1;line<=FORM_LINES;line +=2){
drawn(tape,'rect',{class:'feed-hole',x:29,y:line*5 - 3.5,width:2,height:2});
}
for(const[channel,line]of CHANNELS){
drawn(tape,'rect',{class:'hole',x:8 + channel*3.5 - 3.5,y:line*5 - 4.4,width:4,height:3.8});
}
return drawn(tape,'path',{class:'pointer',d:'M0 -3.4L6 0L0 3.4zM60 -3.4L54 0L60 3.4z'});
}
function drawTape(line){
tapePointer.setAttribute('transform',`translate(0 ${line * 5 - 2.5})`);
setAttribute(byId('tape'),'aria-label',filled(TEXTS.tapeLabel,{line}));
}
function layOutForPrint(){
const target=byId('sheets-to-print');
target.replaceChildren();
for(const[form,texts]of textsByForm([...torn,...view.paper]))drawSheet(sheetIn(target,form),texts,0,false);
}
const typed={lines:[],at:0};
async function sendLine(event){
event.preventDefault();
if(!mayCommand())return;
const line=byId('line').value.replace(/[a-z]/g,letter=>letter.toUpperCase());
if(line.trim()==='')return;
byId('line').value='';
typed.lines.push(line);
typed.at=typed.lines.length;
if(!/^[ -~]*$/.test(line)){
note('you',line);
return note('bad',TEXTS.notText);
}
if(line.trim()==='HELP'){
byId('lines-details').open=true;
byId('lines-details').scrollIntoView({block:'nearest'});
return;
}
view.ended=null;
const outcome=await say(line);
const stop=stopOf(outcome.reply);
if(stop)tellOutcome(outcome,counted(TEXTS.said.limit,stop.steps));
if(stop)noteStop(stop);
if(outcome.reply !=='OK'||!/^ *DEPOSIT /.test(line))return;
noteDeposit(line);
happened('deposit');
}
function recallLine(event){
const by={ArrowUp:-1,ArrowDown:1}[event.key];
const to=typed.at + by;
if(by===undefined||event.altKey||to<0||to>typed.lines.length)return;
event.preventDefault();
typed.at=to;
byId('line').value=typed.lines[to]||'';
}
const ABOUT_PARTS=[[20,'reader'],[235,'unit'],[450,'printer']];
function showAbout(){
byId('about').showModal();
byId('about').scrollTop=0;
}
function buildAbout(){
byId('about-drawing').replaceChildren();
for(const[x,name]of ABOUT_PARTS){
drawn(byId('about-drawing'),'rect',{x,y:40,width:170,height:90,rx:6});
for(const[at,text]of TEXTS.aboutParts[name].entries()){
drawn(byId('about-drawing'),'text',{x:x + 85,y:76 + 24*at}).textContent=text;
}
}
drawn(byId('about-drawing'),'path',{d:'M192 85h38m-8-6l8 6l-8 6M407 85h38m-8-6l8 6l-8 6'});
for(const[at,text]of TEXTS.aboutParts.below.entries()){
drawn(byId('about-drawing'),'text',{x:ABOUT_PARTS[at][0]+ 85,y:158}).textContent=text;
}
byId('about-words').replaceChildren();
for(const[word,meaning]of TEXTS.aboutWords){
added(byId('about-words'),'dt',{textContent:word});
added(byId('about-words'),'dd',{textContent:meaning});
}
}
function openKeypunch(){
byId('keypunch').open=true;
byId('keyed').focus();
}
const SHORTCUTS={
KeyF:feedChosen,KeyL:pressLoad,KeyR:pressRun,KeyN:pressStep,KeyT:tearOff,KeyK:openKeypunch,
KeyC:()=>byId('line').focus(),KeyA:()=>byId('find-at').select(),KeyP:()=>byId('fold').focus(),
};
function pressKey(event){
if(document.querySelector('dialog[open]'))return;
if(event.key==='Escape')return pressStop();
const action=SHORTCUTS[event.code];
if(isStage||!action||!event.altKey)return;
if(event.ctrlKey||event.metaKey||event.getModifierState('AltGraph'))return;
event.preventDefault();
if(!event.repeat)action();
}
function putTexts(){
document.documentElement.lang=TEXTS.language;
document.documentElement.dir=TEXTS.dir;
for(const element of document.querySelectorAll('[data-text], [data-label], [data-title], [data-hint]')){
const{text,label,title,hint}=element.dataset;
if(text)element.textContent=TEXTS[text];
if(label)element.setAttribute('aria-label',TEXTS[label]);
if(title)element.title=TEXTS[title];
if(hint)element.placeholder=TEXTS[hint];
}
byId('after').title=TEXTS.afterTitle;
putChoices();
for(const[table,rows]of[['lines',TEXTS.lines],['help-shortcuts',TEXTS.shortcuts]]){
byId(table).replaceChildren();
for(const row of rows){
const line=added(byId(table),'tr');
for(const text of row)added(line,'td',{textContent:text});
}
}
byId('guide-steps').replaceChildren();
for(const step of TEXTS.guideSteps)added(byId('guide-steps'),'li',{textContent:step});
buildAbout();
if(isStage)buildDrawings();
buildKeyboard();
buildNameKeys();
reserveGuide();
namePanel();
}
function putChoices(){
const pace=byId('pace').selectedIndex,program=byId('program').value;
byId('pace').replaceChildren();
for(const name of TEXTS.paces)added(byId('pace'),'option',{textContent:name});
byId('pace').selectedIndex=pace<0?FASTEST:pace;
byId('program').replaceChildren();
for(const{name}of PROGRAMS){
added(byId('program'),'option',{value:name,textContent:TEXTS.programs[name].name});
}
byId('program').value=program||'hello';
byId('language').replaceChildren();
for(const[name,texts]of Object.entries(LANGUAGES)){
added(byId('language'),'option',{value:name,textContent:texts.name,lang:name});
}
byId('language').value=TEXTS.language;
}
function namePanel(){
for(const button of byId('switches').children){
button.setAttribute('aria-label',filled(TEXTS.switchLabel,{name:button.value}));
}
for(const[name,lamp]of lamps)setText(lamp.previousElementSibling,TEXTS.lamps[name]);
}
function buildPanel(){
for(const name of['I','A','B']){
for(let digit=0;digit<5;digit++)added(byId(name),'b',{textContent:'0'});
}
for(const name of SWITCHES){
const id=`switch-${name}`;
const button=added(byId('switches'),'button',{type:'button',id,value:name,textContent:name});
button.setAttribute('aria-pressed','false');
button.addEventListener('click',()=>turnSwitch(button));
}
return['UNEQUAL','LOW','HIGH','OVERFLOW'].map(name=>{
const part=added(byId('lamps'),'div');
added(part,'span',{className:'name'}).setAttribute('aria-hidden','true');
const lamp=added(part,'div',{className:'lamp'});
lamp.setAttribute('role','img');
return[name,lamp];
});
}
function turnSwitch(button){
const isOn=button.getAttribute('aria-pressed')==='true';
if(!isOff(button))say(`SWITCH ${button.value} ${isOn ? 'OFF' : 'ON'}`);
}
function listenForClicks(){
const clicks={
'load-key':pressLoad,'run-key':pressRun,'stop-key':pressStop,'step-key':pressStep,
'pick-key':()=>byId('file').click(),'card-key':takeCard,'deck-key':()=>feedText(byId('deck').value),
'feed-key':feedChosen,'all-cards-key':takeAllCards,'afresh-key':pressAfresh,'guide-key':()=>guide.press(),
'view-key':pressView,'hold-key':pressHold,'turn-key':pressTurn,'more-key':pressMore,
'why-key':pressWhy,'tour-back':tourBack,'tour-pause':pauseTour,'tour-next':tourNext,
'watch-stop':watchStop,'watch-hold':watchHold,'sound-key':pressSound,'card-print-key':printCard,
'about-key':showAbout,'about-close':()=>byId('about').close(),
'feed-again-key':()=>feedDeck([...taken]),
'save-cards-key':()=>saveFile('taken.cards',`${taken.join('\n')}\n`),
'release-key':releaseCard,'program-key':takeProgram,'tear-key':tearOff,'drop-key':dropTorn,
'save-key':()=>saveFile('paper.txt',paperText([...torn,...view.paper])),'print-key':()=>print(),
'to-carriage':goToCarriage,'large-key':enlargePaper,
'help-key':()=>byId('help').showModal(),'help-close':()=>byId('help').close(),
'ask-yes':()=>byId('ask').close('yes'),'ask-no':()=>byId('ask').close(),
};
for(const[id,action]of Object.entries(clicks)){
byId(id).addEventListener('click',event=>{if(!isOff(byId(id)))action(event);});
}
byId('feed-stop').addEventListener('click',()=>{if(feed)feed.stop=true;});
byId('take-stop').addEventListener('click',()=>{if(taking)taking.stop=true;});
}
function listen(){
byId('file').addEventListener('change',()=>{
const[file]=byId('file').files;
byId('file').value='';
if(file)feedFile(file);
});
byId('program').addEventListener('change',chooseProgram);
byId('language').addEventListener('change',()=>chooseLanguage(byId('language').value));
byId('name-form').addEventListener('submit',punchName);
byId('name').addEventListener('input',drawName);
byId('keyboard').addEventListener('keydown',moveOnKeyboard);
byId('start-form').addEventListener('submit',pressStart);
byId('find').addEventListener('submit',findPlace);
byId('line-form').addEventListener('submit',sendLine);
byId('line').addEventListener('keydown',recallLine);
byId('keyed').addEventListener('input',drawKeyed);
byId('keyed').addEventListener('keydown',event=>{if(event.key==='Enter')releaseCard();});
byId('tabs').addEventListener('click',event=>{
if(event.target.value===''||event.target.tagName !=='BUTTON')return;
byId('follow').checked=false;
showWindow(Number(event.target.value));
});
byId('core-details').addEventListener('toggle',()=>{if(view.picture)drawCoreText();});
byId('fold').addEventListener('scroll',notePaperMoved);
for(const hand of['wheel','touchmove','pointerdown','keydown']){
byId('fold').addEventListener(hand,()=>{handOnPaper=performance.now();},{passive:true});
}
document.addEventListener('keydown',pressKey);
document.addEventListener('visibilitychange',()=>{if(!document.hidden)inTurn(look);});
window.addEventListener('beforeprint',layOutForPrint);
window.addEventListener('beforeunload',keepsPaper);
for(const hand of['keydown','pointerdown','click'])window.addEventListener(hand,touch,{capture:true});
for(const hand of['pointermove','wheel'])window.addEventListener(hand,noteHand,{passive:true});
window.addEventListener('resize',resized);
}
function listenForPlaces(places){
places.addEventListener('keydown',moveInCore);
places.addEventListener('focusin',event=>{
const at=core.cells.indexOf(event.target);
if(at>=0)choose(at);
});
places.addEventListener('click',event=>{if(event.target.tagName==='TD')event.target.focus();});
}
function listenForFiles(){
document.addEventListener('dragover',event=>{
event.preventDefault();
if(!isStage)byId('feeder').classList.add('over');
});
for(const name of['dragleave','drop']){
document.addEventListener(name,()=>byId('feeder').classList.remove('over'));
}
document.addEventListener('drop',event=>{
event.preventDefault();
const[file]=event.dataTransfer.files;
if(file&&!isStage)feedFile(file);
});
}
function resized(){
reserveGuide();
if(columnsWanted()!==core.columns)buildCore();
if(view.picture)draw();
}
async function poll(){
for(;;){
if(!taking&&!(feed&&!feed.waits))await(view.posting?lookAside():inTurn(look));
if(view.picture)drawOthers();
guide.look();
lookForRenewal();
lookForHold();
lookForTurn();
lookForVisitor();
lookForTour();
lookForWatch();
drawStageHead();
attractIfIdle();
await delay(view.link !=='fine'?RETRY_MS:document.hidden?HIDDEN_POLL_MS:POLL_MS);
}
}
async function begin(){
if(isHome)return showHome();
tell(TEXTS.said.welcome);
note('words',TEXTS.said.firstNote);
while(!(await inTurn(look)))await delay(RETRY_MS);
await lookForHold();
tell(welcomeWords());
guide.begin();
poll();
}
TEXTS=LANGUAGES[languageWanted()];
const lamps=buildPanel();
const tapePointer=buildTape();
const cards={read:cardIn(byId('card-read')),next:cardIn(byId('card-next')),punched:cardIn(byId('card-punched')),
keyed:cardIn(byId('card-keyed')),toPrint:cardIn(byId('card-to-print')),stage:cardIn(byId('stage-card'))};
const stageSvg=byId('stage-card').querySelector('svg');
const stageCuts=drawn(stageSvg,'path',{class:'cuts'});
const stageLit=drawn(stageSvg,'rect',{class:'lit-part',y:1,height:CARD.height - 2});
for(const card of[cards.read,cards.next,cards.punched,cards.stage])card(null);
buildStage();
putTexts();
buildCore();
drawKeyed();
drawProgram();
guide.draw();
drawKeys();
listenForClicks();
listen();
listenForPlaces(byId('core'));
listenForFiles();
begin();
</script>
</body>
</html>
"##;

/// The `content-security-policy` of the page: its own script and style by their SHA-256, exchanges with its own server,
/// and nothing else.
pub const POLICY: &str = "default-src 'none'; \
    script-src 'sha256-guJhLAF4CApEnKRRkUhPWmLrr2m6bZIOTtrRkAmyizo='; \
    style-src 'sha256-TiXmg+JbKG1wJQFzDzdflEIfNcuy/enN2RSBKSge8RQ='; \
    img-src data:; \
    connect-src 'self'; \
    form-action 'none'; \
    base-uri 'none'; \
    frame-ancestors 'none'";

/// The page and its policy.
pub fn document() -> Document
    ensures { IsTrue (is_visible_text result.policy.now) }
{
    Document {
        first: PAGE,
        rest: REST,
        policy: POLICY,
    }
}
