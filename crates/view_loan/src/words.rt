//! The fixed words of a custody page (HTML 5).

pub(crate) const BODY: &str = "</head>
<body>
<header>
<div>
<p class=\"kick\">Custody of a loan</p>
<h1>";

pub(crate) const NAVIGATION: &str = "</div>
</header>
<nav aria-label=\"Sections\">
<ul><li><a href=\"#verdict\">Verdict</a></li><li><a href=\"#lent\">What was lent</a></li><li><a href=\"#ledger\">Its receipts</a></li><li><a href=\"#due\">Due home</a></li><li><a href=\"#account\">Account</a></li><li><a href=\"#sign\">Signatures</a></li><li><a href=\"#map\">Map</a></li><li><a href=\"#check\">How to check</a></li></ul>
</nav>
<main>
<svg width=\"0\" height=\"0\" aria-hidden=\"true\" style=\"position:absolute\"><defs>
";

pub(crate) const VERDICT: &str = "<section class=\"verdict\" id=\"verdict\" aria-labelledby=\"hv\">
<h2 id=\"hv\">&#10003; On loan, and in order</h2>
<p>The folder was opened and found in order. Moments are in UTC; after the dot stands the number of the receipt.</p>
<ul class=\"facts\">
<li class=\"big\"><b>Loan</b> ";

pub(crate) const LENT_HEAD: &str = "<section id=\"lent\" aria-labelledby=\"hw\">
<h2 id=\"hw\">What was lent</h2>
<p>All that went out when the loan was made, and who has each thing now.</p>
<table class=\"cards hold\">
<thead><tr><th scope=\"col\">what</th><th scope=\"col\">identity</th><th scope=\"col\" class=\"n\">bytes</th><th scope=\"col\">SHA-256</th><th scope=\"col\">now with</th></tr></thead>
<tbody>
";

pub(crate) const LEDGER_HEAD: &str = "</tbody>
</table>
</section>
<section id=\"ledger\" aria-labelledby=\"hl\">
<h2 id=\"hl\">Its receipts</h2>
<p>Each receipt that names this loan; the first of them made it.</p>
<table class=\"led cards\">
<thead><tr><th scope=\"col\" class=\"n\">receipt</th><th scope=\"col\">moment (UTC)</th><th scope=\"col\">done</th><th scope=\"col\">what</th><th scope=\"col\">from &rarr; to</th><th scope=\"col\" class=\"n\">bytes</th><th scope=\"col\">request</th></tr></thead>
<tbody>
";

pub(crate) const DUE_HEAD: &str = "</tbody>
</table>
</section>
<section id=\"due\" aria-labelledby=\"hd\">
<h2 id=\"hd\">Due home</h2>
<p>What the loan holds now. A return brings home this.</p>
<table class=\"cards hold\">
<thead><tr><th scope=\"col\">what</th><th scope=\"col\">identity</th><th scope=\"col\" class=\"n\">bytes</th><th scope=\"col\">SHA-256</th></tr></thead>
<tbody>
";

pub(crate) const ACCOUNT_HEAD: &str = "</tbody>
</table>
</section>
<section id=\"account\" aria-labelledby=\"ha\">
<h2 id=\"ha\">Account</h2>
<p>What came in, less what went out, is what is held.</p>
<table class=\"acc\">
<caption>Sums of the receipts, and what the loan holds.</caption>
<thead><tr><th scope=\"col\">package</th><th scope=\"col\" class=\"n\">sheets</th><th scope=\"col\" class=\"n\">media</th><th scope=\"col\" class=\"n\">marks</th><th scope=\"col\" class=\"n\">links</th><th scope=\"col\" class=\"n\">bytes</th></tr></thead>
";

pub(crate) const SIGNATURES: &str = "</table>
</section>
<section id=\"sign\" aria-labelledby=\"hs\">
<h2 id=\"hs\">Signatures</h2>
<p>Both have seen these lists, and mean the ledger whose SHA-256 stands above.</p>
<div class=\"sign\">
<div>for the lender: name, signature</div>
<div>for the borrower: name, signature</div>
<div>place</div>
<div>date</div>
</div>
";

pub(crate) const CHECK: &str = "<section id=\"check\" aria-labelledby=\"hc\">
<h2 id=\"hc\">How to check this page</h2>
<p>None of these asks you to believe the page.</p>
<ol class=\"how\">
<li><code>sheetdesk audit FOLDER</code> opens the folder anew and prints <code>good</code> with the number of receipts.</li>
<li><code>sheetdesk report FOLDER LOAN | cmp - loan.html</code> prints nothing: the page has no date of its own, and comes out the same each time.</li>
<li>By telephone: the other office reads out its SHA-256 of the ledger. It is the same where both mean the same receipts.</li>
<li><code>sheetdesk explain FOLDER IDENTITY</code> tells the way of one item, from receipt to receipt.</li>
</ol>
</section>
</main>
<footer>
<p>Made by <code>sheetdesk report</code> from a folder that was opened and found in order. Nothing on this page comes from elsewhere.</p>
</footer>
</body>
</html>
";
