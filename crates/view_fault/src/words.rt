//! The fixed words of the page of a fault (HTML 5).

pub(crate) const VERDICT: &str = "</head>
<body>
<header>
<div>
<p class=\"kick\">Register of lent map sheets</p>
<h1>Register not in order</h1>
<p class=\"lead\">A page tells who holds what only of a folder that is in order. This one is not.</p>
</div>
</header>
<nav aria-label=\"Sections\">
<ul><li><a href=\"#verdict\">Verdict</a></li><li><a href=\"#do\">What to do</a></li><li><a href=\"#faults\">What was asked</a></li></ul>
</nav>
<main>
<section class=\"verdict bad\" id=\"verdict\" aria-labelledby=\"hv\">
<h2 id=\"hv\">&#10007; Not in order: ";

pub(crate) const DO_HEAD: &str = "</li>
</ul>
</section>
<section id=\"do\" aria-labelledby=\"ho\">
<h2 id=\"ho\">What to do</h2>
<ol class=\"how\">
<li>Send no request: none is taken while the fault holds. No file was changed.</li>
<li>Copy the whole folder aside, as it is.</li>
<li>";

pub(crate) const FAULTS_HEAD: &str = "</li>
<li><code>sheetdesk audit FOLDER</code> says whether the fault is gone, or which is next.</li>
</ol>
</section>
<section id=\"faults\" aria-labelledby=\"hf\">
<h2 id=\"hf\">What was asked</h2>
<p>The nine faults, in the order in which they are asked for. Those before the one that was found do not hold; those behind it were not asked for.</p>
<table class=\"cards\">
<thead><tr><th scope=\"col\">fault</th><th scope=\"col\">what it says</th><th scope=\"col\">here</th></tr></thead>
<tbody>
";

pub(crate) const END: &str = "</tbody>
</table>
</section>
</main>
<footer>
<p>Made by <code>sheetdesk report</code>. Nothing was changed.</p>
</footer>
</body>
</html>
";
