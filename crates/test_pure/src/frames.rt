//! Frames, grounds, edges and spans whose values were worked out by hand and by a second program. A
//! frame is written as a text, and a rectangle by its zoom, its first and last column and its first
//! and last row.

use crate::steps::{Of, Table, Told, cut, numbers, wrong_of};
use matrix_rules::axis::axes_at;
use matrix_rules::check::FrameRules;
use matrix_rules::ground::{
    block, ground, has_place, in_frame, is_good, point_inside, tile_inside,
};
use matrix_rules::levels::{level_count, zoom_at};
use matrix_rules::reach::span;
use sheet_types::frame::{Frame, FrameFault, Ground, Rect};
use sheet_types::reading::read_frame;

fn fault_name(fault: FrameFault) -> &'static str {
    match fault {
        FrameFault::BadSrs => "BadSrs",
        FrameFault::BadBounds => "BadBounds",
        FrameFault::BadTile => "BadTile",
        FrameFault::BadZoom => "BadZoom",
        FrameFault::BadMatrix => "BadMatrix",
        FrameFault::Uneven => "Uneven",
    }
}

// West, south, east and north.
fn tell_ground(found: Ground, told: &mut Told) {
    told.numbers(&[found.west, found.south, found.east, found.north]);
}

// The columns and rows of a zoom, and the width and height of its pixels.
fn tell_axes(frame: &Frame, zoom: i64, told: &mut Told) {
    if frame.check().is_err() || !has_place(frame, zoom, 0, 0) {
        return told.unread("no zoom");
    }
    let axes = axes_at(frame, zoom);
    let (across, down) = (axes.across, axes.down);
    told.numbers(&[across.tiles, down.tiles, across.pixel_size, down.pixel_size]);
}

fn tell_zoom(frame: &Frame, level: i64, told: &mut Told) {
    if frame.check().is_err() {
        return told.unread("no frame");
    }
    match u64::try_from(level) {
        Ok(level) if level < level_count(frame) => told.numbers(&[zoom_at(frame, level)]),
        _ => told.word("-"),
    }
}

// A rectangle, and three numbers behind it.
fn tell_rect(frame: &Frame, asks: &str, rect: &Rect, at: [i64; 3], told: &mut Told) {
    if frame.check().is_err() || !is_good(frame, rect) {
        return told.unread("no rectangle");
    }
    let [zoom, column, row] = at;
    match asks {
        "block" => tell_ground(block(frame, rect), told),
        "point_inside" => told.answer(point_inside(frame, rect, at[0], at[1])),
        "span" => match span(frame, rect, zoom) {
            Some(s) => told.numbers(&[s.column, s.last_column, s.row, s.last_row]),
            None => told.word("-"),
        },
        "tile_inside" if has_place(frame, zoom, column, row) => {
            told.answer(tile_inside(frame, rect, zoom, column, row));
        }
        asks => told.unread(asks),
    }
}

fn tell_frame(frame: &Frame, asks: &str, n: [i64; 8], told: &mut Told) {
    if let Err(fault) = frame.check() {
        return told.word(fault_name(fault));
    }
    let rect = Rect {
        zoom: n[0],
        column: n[1],
        last_column: n[2],
        row: n[3],
        last_row: n[4],
    };
    match asks {
        "check" => told.word("good"),
        "axes" => tell_axes(frame, n[0], told),
        "ground" => match ground(frame, n[0], n[1], n[2]) {
            Some(found) => tell_ground(found, told),
            None => told.word("-"),
        },
        "is_good" => told.answer(is_good(frame, &rect)),
        "has_place" => told.answer(has_place(frame, n[0], n[1], n[2])),
        "in_frame" => told.answer(in_frame(frame, n[0], n[1])),
        "level_count" => told.value(&level_count(frame)),
        "zoom_at" => tell_zoom(frame, n[0], told),
        asks => tell_rect(frame, asks, &rect, [n[5], n[6], n[7]], told),
    }
}

// Zooms 0 to 2 of pixel sizes 16, 8 and 4, of 1 x 1, 2 x 2 and 4 x 4 tiles; the same with a fourth
// zoom, of 8 x 8 tiles; negative bounds, zooms 2 and 3, of 3 x 2 and 6 x 4 tiles; the greatest
// bounds, tiles and zooms.
fn frame_text(word: &str) -> &str {
    match word {
        "square" => "25832,0,0,4096,4096,256,256,0,3,1,1",
        "deeper" => "25832,0,0,4096,4096,256,256,0,4,1,1",
        "oblong" => "-1,-3000,-700,3000,500,10,5,2,2,3,2",
        "greatest" => {
            "999999,-1000000000000,-1000000000000,1000000000000,1000000000000,4096,4096,19,2,\
            244140625,244140625"
        }
        word => word,
    }
}

/// A frame by its name or as a text, what is asked of it, and numbers.
pub(crate) fn frame_of(question: &str, told: &mut Told) {
    let (name, rest) = cut(question);
    let (asks, left) = cut(rest);
    match (read_frame(frame_text(name)), numbers(left)) {
        (Some(frame), Some(n)) => tell_frame(&frame, asks, n, told),
        _ => told.unread(question),
    }
}

const FRAMES: Table = Table(
    91,
    "# frames that are good, and first faults
square check => [good]
-2,0,0,4096,4096,256,256,0,3,1,1 check => [BadSrs]
25832,0,0,0,4096,256,256,0,3,1,1 check => [BadBounds]
25832,0,0,4096,4096,4097,256,0,3,1,1 check => [BadTile]
25832,0,0,4096,4096,256,256,0,22,1,1 check => [BadZoom]
25832,0,0,4096,4096,256,256,0,3,0,1 check => [BadMatrix]
25832,0,0,4096,4096,256,256,0,3,3,1 check => [Uneven]
25832,0,0,4096,4096,256,256,0,5,1,1 check => [good]
25832,0,0,4096,4096,256,256,0,6,1,1 check => [Uneven]
# of several faults the lowest
1000000,0,0,0,4096,256,256,0,0,1,1 check => [BadSrs]
25832,0,-9223372036854775808,4096,4096,256,0,0,3,1,1 check => [BadBounds]
25832,0,0,4096,4096,256,0,9223372036854775807,3,1,1 check => [BadTile]
25832,0,0,4096,4096,256,256,9223372036854775807,9223372036854775807,1,-1 check => [BadZoom]
25832,0,0,4096,4096,256,256,0,3,3,9223372036854775807 check => [BadMatrix]
# at the limits
greatest check => [good]
999999,-1000000000000,-1000000000000,1000000000001,1000000000000,4096,4096,19,2,244140625,244140625 check => \
    [BadBounds]
999999,-1000000000000,-1000000000000,1000000000000,1000000000000,4096,4097,19,2,244140625,244140625 check => \
    [BadTile]
999999,-1000000000000,-1000000000000,1000000000000,1000000000000,4096,4096,20,2,244140625,244140625 check => \
    [BadZoom]
999999,-1000000000000,-1000000000000,1000000000000,1000000000000,4096,4096,18,3,244140625,244140625 check => \
    [Uneven]
999999,-1000000000000,-1000000000000,1000000000000,1000000000000,4096,4096,19,2,2000000000000,244140625 check \
    => [Uneven]
999999,-1000000000000,-1000000000000,1000000000000,1000000000000,4096,4096,19,2,2000000000001,244140625 check \
    => [BadMatrix]
# 2^40 tiles of 2^12 pixels, twelve times doubled, are 2^64 pixels.
999999,-1000000000000,-1000000000000,1000000000000,1000000000000,4096,4096,0,13,1099511627776,244140625 check \
    => [Uneven]
999999,-1000000000000,-1000000000000,1000000000000,1000000000000,4096,4096,20,1,1,1 check => [good]
# 4096 over 4 tiles of 256; 6000 over 3 and over 6 tiles of 10, 1200 over 2 and over 4 tiles of 5; 2 * 10^12
# over 488281250 tiles of 4096
square axes 0 => [1;1;16;16;]
square axes 2 => [4;4;4;4;]
oblong axes 2 => [3;2;200;120;]
oblong axes 3 => [6;4;100;60;]
greatest axes 20 => [488281250;488281250;1;1;]
square level_count => [3]
oblong level_count => [2]
square zoom_at 2 => [2;]
oblong zoom_at 1 => [3;]
# grounds and places
square ground 2 3 3 => [3072;0;4096;1024;]
square ground 2 4 0 => [-]
square ground 3 0 0 => [-]
square ground 1 0 -1 => [-]
square ground 0 0 0 => [0;0;4096;4096;]
oblong ground 2 0 0 => [-3000;-100;-1000;500;]
oblong ground 3 5 3 => [2000;-700;3000;-400;]
oblong ground 1 0 0 => [-]
square block 2 1 3 0 1 => [1024;2048;4096;4096;]
square is_good 2 0 3 0 3 => [yes]
square is_good 1 2 2 0 0 => [no]
square is_good 1 1 0 0 0 => [no]
square is_good 1 0 0 1 0 => [no]
square is_good 3 0 0 0 0 => [no]
oblong has_place 3 5 3 => [yes]
oblong has_place 3 6 3 => [no]
oblong has_place 3 5 4 => [no]
oblong has_place -9223372036854775808 0 0 => [no]
square in_frame 0 0 => [no]
square in_frame 0 1 => [yes]
square in_frame 4096 1 => [no]
oblong in_frame -3000 500 => [yes]
oblong in_frame 9223372036854775807 -9223372036854775808 => [no]
oblong is_good 2 0 2 0 1 => [yes]
# points and tiles inside
square point_inside 1 0 0 0 0 0 4096 => [yes]
square point_inside 1 0 0 0 0 2047 2049 => [yes]
square point_inside 1 0 0 0 0 2048 3000 => [no]
square point_inside 1 0 0 0 0 0 2048 => [no]
deeper tile_inside 2 1 2 1 2 3 2 2 => [yes]
deeper tile_inside 2 1 2 1 2 3 5 5 => [yes]
deeper tile_inside 2 1 2 1 2 3 1 2 => [no]
deeper tile_inside 2 1 2 1 2 3 6 2 => [no]
deeper tile_inside 2 1 2 1 2 3 2 1 => [no]
deeper tile_inside 2 1 2 1 2 3 2 6 => [no]
deeper tile_inside 2 1 2 1 2 2 1 2 => [yes]
deeper tile_inside 2 1 2 1 2 1 0 0 => [no]
deeper tile_inside 2 1 2 1 2 1 1 1 => [no]
deeper tile_inside 2 0 1 2 3 1 0 1 => [yes]
deeper tile_inside 2 0 1 2 3 1 0 0 => [no]
deeper tile_inside 2 0 1 2 3 1 1 1 => [no]
deeper tile_inside 2 0 1 2 3 0 0 0 => [no]
deeper tile_inside 2 0 3 0 3 0 0 0 => [yes]
deeper tile_inside 2 0 3 0 3 3 7 7 => [yes]
# spans
square span 1 0 0 0 0 0 => [-]
square span 1 0 0 0 0 1 => [0;0;0;0;]
square span 1 0 0 0 0 2 => [0;1;0;1;]
square span 2 1 3 0 3 0 => [-]
square span 2 1 3 0 3 1 => [1;1;0;1;]
square span 2 1 3 0 3 2 => [1;3;0;3;]
square span 2 0 3 0 3 0 => [0;0;0;0;]
square span 2 0 3 0 3 1 => [0;1;0;1;]
square span 2 0 3 0 3 2 => [0;3;0;3;]
square span 2 0 3 0 3 3 => [-]
# between coarser tiles
deeper span 3 1 4 2 6 1 => [-]
deeper span 3 1 4 2 6 2 => [1;1;1;2;]
oblong span 3 1 4 0 2 2 => [1;1;0;0;]
oblong span 3 1 4 0 2 3 => [1;4;0;2;]
oblong span 2 0 2 0 1 3 => [0;5;0;3;]
oblong span 2 0 2 0 1 9223372036854775807 => [-]
",
);

#[test]
fn frames_grounds_and_spans(rt: HostRuntime) {
    assert_eq!(rt; wrong_of(rt.alloc(), Of::Frames, FRAMES).wrong(), "");
}
