//! The lines that `abft cluster` and `abft serve` write.
ghost use Rattle.std.specs.Prelude.{◌≡◌, option_map, IfOk, string_bytes};
ghost use Rattle.cluster_service.specs.Lines.{commit_lines, port_lines};

use crate::ports::PortListener;
use std::alloc::{AllocError, Global};

/// A line for each replica, by number, with the number of blocks that it committed.
pub(crate) fn commit_lines(alloc: Global, heights: &[u32]) -> Result<String, AllocError>
    ensures { IfOk result (λ text. string_bytes text ≡ commit_lines 0 heights.now) }
{
    let mut text = String::new(alloc);
    for replica in 0..heights.len() {
        let height = heights[replica];
        let line = format!(in alloc; "commits {replica} {height}\n")?;
        text.push_str(&line)?;
    }
    Ok(text)
}

/// The line with the port of the listener.
fn port_line(alloc: Global, port: u16) -> Result<String, AllocError>
    ensures { IfOk result (λ text. string_bytes text ≡ port_lines port None) }
{
    let line = format!(in alloc; "listening {port}\n")?;
    Ok(line)
}

/// That line, and one with the port of HTTP.
fn two_lines(alloc: Global, port: u16, http: u16) -> Result<String, AllocError>
    ensures { IfOk result (λ text. string_bytes text ≡ port_lines port (Some http)) }
{
    let lines = format!(in alloc; "listening {port}\nhttp {http}\n")?;
    Ok(lines)
}

/// The line with the port of the listener, and one with that of HTTP, if it is served.
pub(crate) fn port_lines(
    alloc: Global,
    port: u16,
    http: &Option<PortListener>,
) -> Result<String, AllocError>
    ensures { IfOk result (λ text. string_bytes text ≡ port_lines port (option_map (λ h. h.port) http.now)) }
{
    match http {
        Some(http) => two_lines(alloc, port, http.port),
        None => port_line(alloc, port),
    }
}
