//! The style of a page (CSS).

/// The end of the title, and the style.
pub const STYLE: &str = "</title>
<style>
:root{color-scheme:light dark;--paper:#fbfaf5;--card:#fff;--ink:#23272b;--muted:#5a5e60;--line:#dcd7c9;--link:#14548c;--good:#17613f;--bad:#a3212f;--mark:#fff3c4;
--c0:#6b6250;--c1:#2359a7;--c2:#995d0d;--c3:#194e42;--c4:#690d6c;--c5:#ae1726;
--t0:#efe9da;--t1:#d3e3f6;--t2:#fbe0be;--t3:#c9e6da;--t4:#eed6f0;--t5:#f9d5d8}
@media(prefers-color-scheme:dark){:root{--paper:#15181a;--card:#1b1f22;--ink:#e9e5db;--muted:#a9a89f;--line:#363b3e;--link:#8cc1f2;--good:#7fd3a5;--bad:#f49aa0;--mark:#3f3a1c;
--c0:#b9ae96;--c1:#abccf2;--c2:#e9b352;--c3:#8ff0d4;--c4:#e275ea;--c5:#ff666c;
--t0:#2f2b23;--t1:#1c3552;--t2:#45320d;--t3:#123f33;--t4:#43204a;--t5:#4e1b20}}
.c0{--k:var(--c0);--t:var(--t0)}.c1{--k:var(--c1);--t:var(--t1)}.c2{--k:var(--c2);--t:var(--t2)}.c3{--k:var(--c3);--t:var(--t3)}.c4{--k:var(--c4);--t:var(--t4)}.c5{--k:var(--c5);--t:var(--t5)}
*{box-sizing:border-box}
html{scroll-behavior:smooth;scroll-padding-top:3.2rem;-webkit-text-size-adjust:100%}
@media(prefers-reduced-motion){html{scroll-behavior:auto}}
body{margin:0;background:var(--paper);color:var(--ink);font:15px/1.5 system-ui,-apple-system,\"Segoe UI\",Roboto,\"Liberation Sans\",sans-serif;font-variant-numeric:tabular-nums lining-nums;overflow-wrap:break-word}
bdi{overflow-wrap:anywhere}
a{color:var(--link);text-decoration:underline 1px var(--line);text-underline-offset:3px}a:hover{text-decoration-color:currentcolor}
a:focus-visible,summary:focus-visible,input:focus-visible+label{outline:2px solid var(--link);outline-offset:2px}
code,pre{font-family:ui-monospace,SFMono-Regular,Menlo,Consolas,\"Liberation Mono\",monospace;font-size:.86em}
code{color:var(--muted);white-space:nowrap}.id{display:inline-block;max-width:8ch;overflow:hidden;vertical-align:bottom}.id:hover,.id:focus{max-width:none}
.a+.a::before{content:\", \"}a code{color:inherit}
h1,h2,h3{font-family:\"Iowan Old Style\",Charter,\"Palatino Linotype\",Palatino,Georgia,\"Liberation Serif\",serif;font-weight:600;line-height:1.2;margin:0}
h1{font-size:2.1rem;letter-spacing:-.01em}h2{font-size:1.45rem}h3{font-size:1.08rem}
main,header>div,footer{max-width:70rem;margin:0 auto;padding:0 1.5rem}
header{padding:2rem 0 0}
.kick{margin:0 0 .3rem;font-size:.78rem;letter-spacing:.12em;text-transform:uppercase;color:var(--muted)}
.lead{margin:.5rem 0 0;color:var(--muted);max-width:46rem}
nav{position:sticky;top:0;z-index:2;background:var(--paper);border-bottom:1px solid var(--line);margin-top:1.4rem}
nav ul{display:flex;gap:1.4rem;list-style:none;max-width:70rem;margin:0 auto;padding:.6rem 1.5rem;overflow-x:auto;white-space:nowrap;font-size:.9rem}
nav a{text-decoration:none}nav a:hover{text-decoration:underline}
section{margin:2.6rem 0}
section>h3{margin:1.6rem 0 .6rem}
section>p{max-width:46rem;color:var(--muted);margin:.35rem 0 1rem}
.verdict{border:1px solid var(--line);outline:1px solid var(--line);outline-offset:3px;background:var(--card);padding:1.2rem 1.4rem;margin:2rem 4px 0}
.verdict h2{color:var(--good);font-size:1.6rem}.verdict.bad h2{color:var(--bad)}
.verdict>p{margin:.3rem 0 0;max-width:52rem}
.facts{list-style:none;margin:1.1rem 0 0;padding:0;display:flex;flex-wrap:wrap;gap:.9rem 2.6rem}
.facts b{display:block;font-weight:400;color:var(--muted);font-size:.82rem}.facts .big{flex:1 0 100%}
aside .facts{margin:0;gap:.5rem 1.6rem}
.sha{display:block;max-width:36ch;overflow-wrap:anywhere;white-space:normal;color:var(--ink);font-size:1.05rem;letter-spacing:.06em}
table{border-collapse:collapse;width:100%;background:var(--card);border:1px solid var(--line)}
caption{text-align:left;color:var(--muted);font-size:.86rem;padding:0 0 .5rem}
th,td{padding:.36rem .65rem;text-align:left;vertical-align:baseline;border-top:1px solid var(--line);font-weight:400}
thead th{font-size:.78rem;color:var(--muted);border-top:0;border-bottom:1px solid var(--ink);white-space:nowrap}
tbody th[scope=row]{min-width:9rem}.led th[scope=row]{min-width:0}
.n{text-align:right;white-space:nowrap}
.led .t,.v{white-space:nowrap}.t span,.t a{white-space:nowrap}.t span{color:var(--muted)}.led .t{color:var(--muted)}.led .t span{color:var(--ink)}
.led td,.led th{padding-top:.24rem;padding-bottom:.24rem}.v-split,.v-merge{box-shadow:inset 3px 0 var(--ink)}.v-split .v,.v-merge .v{font-weight:600}
tr:target,li:target{background:var(--mark)}
.sw{vertical-align:-3px;margin-right:.5rem;flex:none}
.sw rect{stroke:var(--k);stroke-width:1.5}
.f{fill:var(--t)}.s{stroke:var(--k);fill:none;stroke-width:1.3}.d{fill:var(--k)}
.h{display:inline-block;width:max-content;max-width:13rem;vertical-align:top}
.h::before{content:\"\";display:inline-block;width:.62em;height:.62em;margin-right:.4em;background:var(--k);border:1px solid var(--k)}
.g{--k:var(--muted)}.g::before{background:none}
.two{display:grid;grid-template-columns:minmax(0,38rem) minmax(19rem,1fr);gap:0 2.2rem;align-items:start}
aside h3{margin:1.4rem 0 .5rem}aside h3:first-child{margin-top:0}
.legend{list-style:none;margin:0;padding:0}.legend li{display:flex;align-items:baseline;padding:.35rem 0;border-top:1px solid var(--line)}.legend li>span>span{display:block;color:var(--muted);font-size:.86rem}
figure{margin:0;max-width:38rem;position:relative;background:var(--card);border:1px solid var(--ink)}
.l{position:absolute;inset:0;width:100%;height:100%;pointer-events:none}.l rect{stroke:var(--k);vector-effect:non-scaling-stroke;pointer-events:auto}
.l0 rect{stroke-width:2.5px}.l a:hover rect{stroke:var(--ink);stroke-width:4px}
.nm{position:absolute;transform:translate(.7em,-1.9em);max-width:9rem;font-size:.86rem;pointer-events:none;text-shadow:0 0 3px var(--card),0 0 3px var(--card),0 0 3px var(--card)}
.mk{position:absolute;width:16px;height:16px;margin:-8px 0 0 -8px;line-height:0}.mk use{fill:var(--k);stroke:var(--card);stroke-width:1.6;paint-order:stroke}.mk:hover use{stroke:var(--ink)}
details{border:1px solid var(--line);background:var(--card);margin:.5rem 0}
summary{cursor:pointer;padding:.55rem .9rem}summary span{color:var(--muted)}
.in{padding:.6rem .9rem}.hold td,.hold th{padding-top:.24rem;padding-bottom:.24rem}
.q{color:var(--muted)}
details table{border-width:1px 0 0}
details pre{margin:0;padding:.6rem .9rem;border-top:1px solid var(--line);white-space:pre-wrap;overflow-wrap:anywhere;color:var(--muted);font-size:.72rem;max-height:22rem;overflow:auto}
.yes{color:var(--good);white-space:nowrap}.no{color:var(--bad);white-space:nowrap;font-weight:600}.hit th{font-weight:600}
.line{white-space:normal;overflow-wrap:anywhere}
.sign{display:grid;grid-template-columns:1fr 1fr;gap:3.2rem 3rem;margin-top:3.4rem}
.sign div{border-top:1px solid var(--ink);padding-top:.3rem;font-size:.86rem;color:var(--muted)}
.acc tbody{border-top:1px solid var(--ink)}.acc tbody td,.acc tbody th{border-top:0;padding-top:.15rem;padding-bottom:.15rem}
.acc .name{padding-top:.5rem}.acc .sum>*{border-top:1px solid var(--line);font-weight:600;padding-bottom:.5rem}
ol.how{padding-left:1.3rem;max-width:50rem}ol.how li{margin:.5rem 0}
ol.how code{color:var(--ink);background:var(--card);border:1px solid var(--line);padding:.1rem .35rem}
footer{padding-top:1rem;padding-bottom:3rem;color:var(--muted);font-size:.86rem;border-top:1px solid var(--line)}
@media screen and (max-width:70rem){
.two{display:block}aside{margin-top:1.2rem}
.cards thead{position:absolute;width:1px;height:1px;overflow:hidden;clip-path:inset(50%)}
.cards tr{display:flex;flex-wrap:wrap;gap:.1rem .9rem;padding:.5rem .7rem;border-top:1px solid var(--line)}
.cards td,.cards th{border:0;padding:0;text-align:left;white-space:normal}
.cards th[scope=row]{flex:1 0 100%}.cards .n[data-l]::after{content:\" \" attr(data-l);color:var(--muted)}
.cards td[data-l]:not(.n)::before{content:attr(data-l) \" \";color:var(--muted)}
.cards.led tr{position:relative;padding-left:3.2rem;gap:.05rem .9rem}.led th[scope=row]{position:absolute;left:.2rem;width:2.3rem;text-align:right}.led .w{flex:1 0 100%}}
@media screen and (max-width:46rem){
body{font-size:14px}h1{font-size:1.6rem}main,header>div,footer,nav ul{padding-left:1rem;padding-right:1rem}code:not(.id){white-space:normal}
.verdict{padding:1rem}.verdict .facts{gap:.7rem 1.8rem}
.sign{grid-template-columns:1fr}
.acc{font-size:.82rem}.acc th,.acc td{padding-left:.2rem;padding-right:.2rem}.acc tbody th{min-width:0}}
@page{size:A4;margin:16mm 14mm 18mm;@bottom-left{content:\"sheetdesk report\";font:8pt sans-serif;color:#555}@bottom-right{content:counter(page) \" / \" counter(pages);font:8pt sans-serif;color:#555}}
@media print{
:root{color-scheme:light;font-size:9pt;--paper:#fff;--card:#fff;--ink:#000;--muted:#444;--line:#bbb;--link:#000;--good:#17613f;--bad:#a3212f}
body{font-size:9pt;line-height:1.35}nav,.raw{display:none}a{text-decoration:none}
header{padding:0}main,header>div,footer{padding:0;max-width:none}section{margin:6mm 0}#map{break-inside:avoid}section>p{break-after:avoid;break-inside:avoid}.h{max-width:34mm}
h2,h3,caption{break-after:avoid}tr,figure,.verdict,.acc tbody,#sign{break-inside:avoid}thead{display:table-header-group}
th,td{padding:.9mm 1.6mm}details{border:0;margin:3mm 0}details::details-content{content-visibility:visible;block-size:auto}
.two{grid-template-columns:minmax(0,100mm) 1fr;gap:0 6mm}
.h,.sw,figure{print-color-adjust:exact;-webkit-print-color-adjust:exact}}
</style>
";
