//! The colours of packages: twelve that are told apart by the colour-blind too (`tools/palette.py`).
ghost use Rattle.std.specs.Prelude.{◌≡◌};
ghost use Rattle.view_map.specs.Pieces.{colour};

/// The colour of the package at a place of the list: the twelve in turn.
pub fn colour(index: usize) -> &'static str
    ensures { result.now ≡ colour index }
{
    match index % 12 {
        0 => "#eedd66",
        1 => "#7799ee",
        2 => "#ee7788",
        3 => "#006644",
        4 => "#00ddee",
        5 => "#994400",
        6 => "#bbeebb",
        7 => "#664499",
        8 => "#aa9933",
        9 => "#cc77aa",
        10 => "#778844",
        _ => "#884477",
    }
}
