//! The ports of this machine that servers listen at.
ghost use Rattle.std.specs.Prelude.{◌⊎◌, option_map, IfErr, IfOk, IfSome};
ghost use Rattle.cluster_service.specs.Ports.{IsAskedIfAny, IsAskedPort};
ghost use Rattle.cluster_service.specs.RunFaults.{IsPortFault};

use byte_streams::ProgramFault;
use cluster_setup::ServeSettings;
use std::net::{Ipv4Addr, Net, TcpListener, TcpStream};

/// A listener, and the port of 127.0.0.1 that it listens at.
#[derive(Drop)]
pub struct PortListener {
    pub listener: TcpListener,
    pub port: u16,
}

/// Listens at a port of 127.0.0.1, for port 0 at any free one.
pub fn listen_at<R: Net<Listener = TcpListener, Stream = TcpStream>>(
    rt: &R,
    port: u16,
) -> Result<PortListener, ProgramFault>
    ensures asked { IfOk result (λ l. IsAskedPort port l.port) }
    ensures fault { IfErr result (IsPortFault port) }
{
    match TcpListener::bind(rt, (Ipv4Addr::LOCALHOST, port)) {
        Ok(listener) => {
            if port != 0 {
                return Ok(PortListener { listener, port });
            }
            match listener.local_addr() {
                Ok(found) => Ok(PortListener {
                    listener,
                    port: found.port(),
                }),
                Err(error) => Err(ProgramFault::NoListener(port, error)),
            }
        }
        Err(error) => Err(ProgramFault::NoListener(port, error)),
    }
}

/// Listens for HTTP at a port of 127.0.0.1, for port 0 at any free one; `None` for no port.
pub fn listen_for_http<R: Net<Listener = TcpListener, Stream = TcpStream>>(
    rt: &R,
    port: Option<u16>,
) -> Result<Option<PortListener>, ProgramFault>
    ensures asked { IfOk result (λ http. IsAskedIfAny port (option_map (λ h. h.port) http)) }
    ensures fault { IfErr result (λ fault. IfSome port (λ p. IsPortFault p fault)) }
{
    match port {
        Some(port) => {
            let listener = listen_at(rt, port)?;
            Ok(Some(listener))
        }
        None => Ok(None),
    }
}

/// The listeners of a cluster: that of sessions, and that of HTTP, if it is served.
#[derive(Drop)]
pub struct Listeners {
    pub sessions: PortListener,
    pub http: Option<PortListener>,
}

/// Listens at the ports that the settings ask for, for port 0 at any free one.
pub fn open_listeners<R: Net<Listener = TcpListener, Stream = TcpStream>>(
    rt: &R,
    settings: &ServeSettings,
) -> Result<Listeners, ProgramFault>
    ensures asked { IfOk result (λ all. IsAskedPort settings.now.port all.sessions.port × IsAskedIfAny settings.now.http (option_map (λ h. h.port) all.http)) }
    ensures fault { IfErr result (λ fault. IsPortFault settings.now.port fault ⊎ IfSome settings.now.http (λ p. IsPortFault p fault)) }
{
    let sessions = listen_at(rt, settings.port)?;
    let http = listen_for_http(rt, settings.http)?;
    Ok(Listeners { sessions, http })
}
