//! What a crash leaves of a world between two calls, the contract of a function that does nothing.
ghost use Rattle.world.specs.Worlds.{LeftAsItStands};

use sqlite::Alter;

/// Whatever a crash leaves of the open stores of a world reads as the packages of the world that they stand for.
pub fn left_as_it_stands<S: Alter + Drop>()
    ensures { LeftAsItStands S.Store }
{}
