//! The style of a drawing: samples/drawing.css, which samples/make_report.py compares.

/// The end of the title, the style, and the beginning of what is drawn by reference.
pub(crate) const STYLE: &str = "</title>
<style>
text{font:13px system-ui,sans-serif;fill:#1f2328}
.paper{fill:#fff}.ground{fill:#faf8f2;stroke:#1f2328}
rect{stroke-width:1.5;vector-effect:non-scaling-stroke}.l0 rect{stroke-width:2.5}
.s{fill:none;stroke-width:1.3}
use{stroke:#fff;stroke-width:1.6;paint-order:stroke}
.nm{stroke:#fff;stroke-width:3px;paint-order:stroke}
.c0 .f{fill:#efe9da}.c0 .s,rect.c0{stroke:#6b6250}.c0 .d,use.c0{fill:#6b6250}
.c1 .f{fill:#d3e3f6}.c1 .s,rect.c1{stroke:#2359a7}.c1 .d,use.c1{fill:#2359a7}
.c2 .f{fill:#fbe0be}.c2 .s,rect.c2{stroke:#995d0d}.c2 .d,use.c2{fill:#995d0d}
.c3 .f{fill:#c9e6da}.c3 .s,rect.c3{stroke:#194e42}.c3 .d,use.c3{fill:#194e42}
.c4 .f{fill:#eed6f0}.c4 .s,rect.c4{stroke:#690d6c}.c4 .d,use.c4{fill:#690d6c}
.c5 .f{fill:#f9d5d8}.c5 .s,rect.c5{stroke:#ae1726}.c5 .d,use.c5{fill:#ae1726}
</style>
<svg width=\"0\" height=\"0\"><defs>
";
