//! The fixed words of a page (HTML 5).

/// All before the title.
pub const HEAD: &str = "<!DOCTYPE html>
<html lang=\"en\">
<head>
<meta charset=\"utf-8\">
<meta name=\"viewport\" content=\"width=device-width, initial-scale=1\">
<meta name=\"color-scheme\" content=\"light dark\">
<title>";

pub(crate) const BODY: &str = "</head>
<body>
<header>
<div>
<p class=\"kick\">Register of lent map sheets</p>
<h1>";

pub(crate) const NAVIGATION: &str = "</div>
</header>
<nav aria-label=\"Sections\">
<ul><li><a href=\"#verdict\">Verdict</a></li><li><a href=\"#holders\">Who holds what</a></li><li><a href=\"#map\">Map</a></li><li><a href=\"#holdings\">Holdings</a></li><li><a href=\"#ledger\">Ledger</a></li><li><a href=\"#account\">Account</a></li><li><a href=\"#check\">How to check</a></li></ul>
</nav>
<main>
<svg width=\"0\" height=\"0\" aria-hidden=\"true\" style=\"position:absolute\"><defs>
";

/// The shapes of marks, and the end of what is drawn by reference.
pub const SHAPES: &str = "<path id=\"k0\" d=\"M-5 0a5 5 0 1 0 10 0a5 5 0 1 0-10 0z\"/>
<path id=\"k1\" d=\"M-5-5h10v10h-10z\"/>
<path id=\"k2\" d=\"M0-7l7 7l-7 7l-7-7z\"/>
<path id=\"k3\" d=\"M0-7l7 12h-14z\"/>
<path id=\"k4\" d=\"M-2-6h4v4h4v4h-4v4h-4v-4h-4v-4h4z\"/>
<path id=\"k5\" d=\"M0 7l7-12h-14z\"/>
<path id=\"k6\" d=\"M-3-6h6l4 6l-4 6h-6l-4-6z\"/>
<path id=\"k7\" d=\"M-6-6l6 3l6-3l-3 6l3 6l-6-3l-6 3l3-6z\"/>
</defs></svg>
";

pub(crate) const VERDICT: &str = "<section class=\"verdict\" id=\"verdict\" aria-labelledby=\"hv\">
<h2 id=\"hv\">&#10003; In order</h2>
<p>The folder was opened. Every sheet, medium, mark and link stands in one package, where its receipts put it, with the content with which it came in.</p>
<ul class=\"facts\">
<li><b>Receipts</b> ";

pub(crate) const HOLDERS_HEAD: &str = "<section id=\"holders\" aria-labelledby=\"hh\">
<h2 id=\"hh\">Who holds what</h2>
<p>Loans stand in the order in which they were made. A name leads to what is held, the number of a receipt to the ledger.</p>
<table class=\"cards\">
<caption>Live packages. Moments in UTC; after the dot, the number of the receipt.</caption>
<thead><tr><th scope=\"col\">package</th><th scope=\"col\" class=\"n\">sheets</th><th scope=\"col\" class=\"n\">media</th><th scope=\"col\" class=\"n\">marks</th><th scope=\"col\" class=\"n\">links</th><th scope=\"col\" class=\"n\">bytes</th><th scope=\"col\">lent by</th><th scope=\"col\">lent since</th><th scope=\"col\">last change</th></tr></thead>
<tbody>
";

pub(crate) const HOMES_HEAD: &str = "<h3>Home again</h3>
<table class=\"cards\">
<caption>Loans whose package is no more; all that they held is with their lender.</caption>
<thead><tr><th scope=\"col\">loan</th><th scope=\"col\">home to</th><th scope=\"col\">home</th><th scope=\"col\">with</th></tr></thead>
<tbody>
";

/// The end of a table.
pub const TABLE_END: &str = "</tbody>
</table>
";

pub(crate) const MAP_HEAD: &str = "</section>
<section id=\"map\" aria-labelledby=\"hm\">
<h2 id=\"hm\">Map</h2>
<p>Finer sheets lie inside coarser ones, and what a loan holds inside what its lender holds. Point at a sheet or a mark to read of it; the tables tell the same.</p>
<div class=\"two\">
<figure style=\"aspect-ratio:";

pub(crate) const LEGEND_HEAD: &str = "</figure>
<aside aria-label=\"Legend\">
<h3>Holders</h3>
<ul class=\"legend\">
";

pub(crate) const LEGEND_END: &str = "</ul>
</aside>
</div>
</section>
";

pub(crate) const HOLDINGS_HEAD: &str = "<section id=\"holdings\" aria-labelledby=\"hi\">
<h2 id=\"hi\">Holdings</h2>
<p>Each item and link, by its package. Of an identity and of a digest the beginning is seen; point at it for the rest.</p>
";

pub(crate) const HOLDING_HEAD: &str = "</summary>
<table class=\"cards hold\">
<thead><tr><th scope=\"col\">what</th><th scope=\"col\">identity</th><th scope=\"col\" class=\"n\">bytes</th><th scope=\"col\">SHA-256</th></tr></thead>
<tbody>
";

pub(crate) const HOLDING_END: &str = "</tbody>
</table>
</details>
";

pub(crate) const LEDGER_HEAD: &str = "</section>
<section id=\"ledger\" aria-labelledby=\"hl\">
<h2 id=\"hl\">Ledger</h2>
<p>Each accepted request left one receipt. A number is an anchor: <code>#r1</code> behind the address of this page leads to the first.</p>
<table class=\"led cards\">
<caption>The newest receipts, at most 2000, in order. <code>sheetdesk log FOLDER</code> lists all.</caption>
<thead><tr><th scope=\"col\" class=\"n\">receipt</th><th scope=\"col\">moment (UTC)</th><th scope=\"col\">done</th><th scope=\"col\">what</th><th scope=\"col\">from &rarr; to</th><th scope=\"col\" class=\"n\">bytes</th><th scope=\"col\">request</th></tr></thead>
<tbody>
";

pub(crate) const RAW_HEAD: &str = "</tbody>
</table>
<details class=\"raw\">
<summary>The receipts as they are hashed</summary>
<pre>
";

pub(crate) const ACCOUNT_HEAD: &str = "</pre>
</details>
</section>
<section id=\"account\" aria-labelledby=\"ha\">
<h2 id=\"ha\">Account</h2>
<p>What came in, less what went out, is what is held.</p>
<table class=\"acc\">
<caption>Sums of the receipts, and what the packages hold.</caption>
<thead><tr><th scope=\"col\">package</th><th scope=\"col\" class=\"n\">sheets</th><th scope=\"col\" class=\"n\">media</th><th scope=\"col\" class=\"n\">marks</th><th scope=\"col\" class=\"n\">links</th><th scope=\"col\" class=\"n\">bytes</th></tr></thead>
";

pub(crate) const CHECK: &str = "</table>
</section>
<section id=\"check\" aria-labelledby=\"hc\">
<h2 id=\"hc\">How to check this page</h2>
<p>None of these asks you to believe the page.</p>
<ol class=\"how\">
<li><code>grep '^{\"at\":' report.html | sha256sum</code> prints the SHA-256 above, while there are at most 2000 receipts: they stand in this page, a line each, as they are hashed.</li>
<li><code>sheetdesk audit FOLDER</code> opens the folder anew and prints <code>good</code> with the number of receipts.</li>
<li><code>sheetdesk report FOLDER | cmp - report.html</code> prints nothing: the page has no date of its own, and comes out the same each time.</li>
<li><code>sheetdesk explain FOLDER IDENTITY</code> tells the way of one item, from receipt to receipt.</li>
</ol>
</section>
</main>
<footer>
<p>Made by <code>sheetdesk report</code> from a folder that was opened and found in order. Nothing on this page comes from elsewhere.</p>
</footer>
</body>
</html>
";
