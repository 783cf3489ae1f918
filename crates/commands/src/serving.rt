//! A world, served to connections of this machine.
ghost use Rattle.std.specs.Prelude.{◌≡◌};
ghost use Rattle.commands.specs.Subcommands.{ServesOn, serve_ending};

use command_folder::endings::{DONE, Ending, FAILED};
use command_words::arguments::Desk;
use desk_http::clerks::Clerk;
use desk_http::connections::{DeskFault, serve_with};
use desk_http::listening::listen;
use desk_http::telling::DeskTeller;
use sqlite::Alter;
use store_shelf::shelf::Shelf;
use world::world::World;

/// How a desk that has ended ends the program.
fn serve_ending(ended: Result<(), DeskFault>) -> Ending
    ensures { result ≡ serve_ending ended }
{
    match ended {
        Ok(()) => DONE,
        Err(_) => FAILED,
    }
}

/// Serves so many connections of a port over a world, one after the other, until the world or the
/// listener fails. Where the port cannot be had, nothing is served. The teller is told of the port
/// once it is taken, and of each connection. The clerk carries out the commands of command lines.
pub(crate) fn serve_world<S: Alter + Drop, H: Shelf<S>, T: DeskTeller, K: Clerk>(
    rt: &HostRuntime,
    world: &mut World<S>,
    shelf: &mut H,
    desk: Desk,
    teller: &mut T,
    clerk: &mut K,
) -> Ending
    ensures { ServesOn S.Store desk.count world.old world.new result }
{
    let Ok(listener) = listen(rt, desk.port) else {
        return FAILED;
    };
    teller.tell_port(desk.port);
    let ended = serve_with(
        rt,
        rt.alloc(),
        world,
        shelf,
        &listener,
        desk.count,
        teller,
        clerk,
    );
    serve_ending(ended)
}
