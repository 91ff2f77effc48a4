//! The random keys of hash tables.
ghost use Rattle.std.specs.Prelude.{IfErr};
ghost use Rattle.byte_streams.specs.Faults.{IsMemoryOrRandom};

use crate::program_fault::ProgramFault;
use crate::resource::Resource;
use std::hash::RandomState;
use std::random::RandomSource;

/// A random key for hashes.
pub fn new_random_key<S: RandomSource>(source: &S) -> Result<RandomState, ProgramFault>
    ensures { IfErr result IsMemoryOrRandom }
{
    match RandomState::new(source) {
        Ok(key) => Ok(key),
        Err(error) => Err(ProgramFault::Refused(Resource::Random, error)),
    }
}
