//! Where connections come from: the loopback address alone.
ghost use Rattle.std.specs.Prelude.{◌≡◌, ◌++◌, IfOk, codes, decimal, string_bytes};
ghost use Rattle.desk_http.specs.Commands.{IsAddress};

use std::alloc::{AllocError, Global};
use std::io;
use std::net::{Ipv4Addr, Net, TcpListener, TcpStream};

/// Listens on 127.0.0.1, which only this machine reaches, at a port; at 0 the system picks a free one.
///
/// # Errors
///
/// The system's, as where the port is taken.
pub fn listen<N: Net<Listener = TcpListener, Stream = TcpStream>>(
    net: &N,
    port: u16,
) -> io::Result<TcpListener> {
    TcpListener::bind(net, (Ipv4Addr::LOCALHOST, port))
}

/// The address of a desk at a port, as a browser names it in an Origin field (RFC 6454, section 6.2).
fn address_at(alloc: Global, port: u16) -> Result<String, AllocError>
    ensures { IfOk result (λ text. string_bytes text ≡ codes "http://127.0.0.1:" ++ decimal port) }
{
    format!(in alloc; "http://127.0.0.1:{port}")
}

/// The address of the desk that listens here, as a browser names it.
///
/// # Errors
///
/// The system's, where it cannot tell the port, and want of memory.
pub fn own_address(alloc: Global, listener: &TcpListener) -> io::Result<String>
    ensures { IfOk result (λ text. IsAddress (string_bytes text)) }
{
    let address = listener.local_addr()?;
    Ok(address_at(alloc, address.port())?)
}
