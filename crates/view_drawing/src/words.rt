//! The fixed words of a drawing (SVG).

/// All before its height.
pub(crate) const HEAD: &str = "<svg xmlns=\"http://www.w3.org/2000/svg\" viewBox=\"0 0 512 ";

/// Between the shapes and the height of the map.
pub(crate) const MAP_HEAD: &str = "<rect class=\"paper\" width=\"100%\" height=\"100%\"/>
<svg x=\"16\" y=\"16\" width=\"480\" height=\"";

/// Between that and the zooms.
pub(crate) const GROUND: &str = "\" overflow=\"visible\">
<rect class=\"ground\" width=\"100%\" height=\"100%\"/>
";
