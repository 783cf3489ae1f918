//! What a frame's rules say.
ghost use Rattle.sheet_examples.specs.Frames.{FrameFaults, FinestPixel, FrameLimits, FirstFault, GroundOfATile};
ghost use Rattle.sheet_examples.specs.Frames.{Places, PointsOnEdges, TilesInside, GoodRectangles};

/// One frame for each fault, and the frames beside it that are good.
pub fn frame_faults()
    ensures { FrameFaults }
{}

/// A tile of 256 pixels of one unit.
pub fn finest_pixel()
    ensures { FinestPixel }
{}

/// Each limit of a frame, from both sides.
pub fn frame_limits()
    ensures { FrameLimits }
{}

/// Of two faults the first is named.
pub fn first_fault()
    ensures { FirstFault }
{}

/// The ground of tiles, of a sheet below 0 too.
pub fn ground_of_a_tile()
    ensures { GroundOfATile }
{}

/// Which places there are.
pub fn places()
    ensures { Places }
{}

/// Points on the edges of a rectangle and of the frame.
pub fn points_on_edges()
    ensures { PointsOnEdges }
{}

/// Tiles of all zooms in a rectangle.
pub fn tiles_inside()
    ensures { TilesInside }
{}

/// Which rectangles are good.
pub fn good_rectangles()
    ensures { GoodRectangles }
{}
