//! `abft keys`: writes the public file of a cluster.
ghost use Rattle.std.specs.Prelude.{IfErr};
ghost use Rattle.byte_streams.specs.Faults.{IsMemoryOrAsked};
ghost use Rattle.program.specs.Publishing.{WritesFile};

use byte_streams::{ProgramFault, write_output};
use cluster_files::text_of;
use cluster_setup::{ClusterSeed, public_part};
use std::alloc::Global;
use std::io::Write;

/// Writes the public file of the cluster with this seed.
pub fn publish<W: Write>(
    alloc: Global,
    cluster: &ClusterSeed,
    writer: &mut W,
) -> Result<(), ProgramFault>
    ensures written { WritesFile cluster.now result (W.contents writer.old) (W.contents writer.new) }
    ensures fault { IfErr result IsMemoryOrAsked }
{
    let public = public_part(alloc, cluster)?;
    let text = text_of(alloc, &public)?;
    write_output(writer, text.as_bytes())
}
