//! The table of figures.
use crate::blocks::{blocks, key_generation_blocks, signature_blocks};
use crate::output::write_line;
use crate::rates::{Cost, measure_cost};
use crate::request::Operation;
use crate::timing::measure;
use crate::work::{IDENTIFIER, Keys, LONG_MESSAGE, LongDigests, MESSAGE, OneBlockDigests};
use lm_ots::{Identifier, Params, TreeHeight, Width};
use std::alloc::{AllocError, Global};
use std::io::{self, Write};
use std::num::nearest_u64_to_f64;
use std::time::{Clock, Duration};

/// The parameter sets, in the order of the table.
const ALL_KEYS: &[Params] = &[
    Params {
        width: Width::W4,
        height: TreeHeight::H5,
    },
    Params {
        width: Width::W4,
        height: TreeHeight::H10,
    },
    Params {
        width: Width::W8,
        height: TreeHeight::H5,
    },
    Params {
        width: Width::W8,
        height: TreeHeight::H10,
    },
];

/// The operations, in the order of the table.
const OPERATIONS: &[Operation] = &[
    Operation::KeyGeneration,
    Operation::Signature,
    Operation::Verification,
];

/// The number of blocks that the operation hashes; for a signature and its verification, the mean of those that are measured.
fn blocks_hashed(keys: &Keys) -> f64 {
    let identifier = Identifier::new(IDENTIFIER);
    let mut sum = 0.0;
    for (leaf, signature) in (0u32..32).zip(keys.signatures.iter()) {
        let randomizer = signature.get(8..40).unwrap_or(&[]);
        let found = signature_blocks(keys.params, &identifier, leaf, randomizer, &MESSAGE);
        sum += nearest_u64_to_f64(match keys.operation {
            Operation::KeyGeneration => key_generation_blocks(keys.params),
            Operation::Signature => found.signing,
            Operation::Verification => found.verification,
        });
    }
    sum / nearest_u64_to_f64(keys.signatures.len() as u64)
}

/// The nanoseconds for each block of a long message.
fn long_block<C: Clock>(clock: &C, alloc: Global, time: Duration) -> io::Result<f64> {
    let mut work = LongDigests {
        message: vec![in alloc; 0u8; LONG_MESSAGE]?,
        digest: [0; 32],
    };
    let digest = measure(clock, &mut work, time)?;
    Ok(digest / nearest_u64_to_f64(blocks(32 + LONG_MESSAGE as u64)))
}

/// The name of a parameter set.
fn keys_name(params: Params) -> &'static str {
    match (params.width, params.height) {
        (Width::W4, TreeHeight::H5) => "W4/H5",
        (Width::W4, TreeHeight::H10) => "W4/H10",
        (Width::W8, TreeHeight::H5) => "W8/H5",
        (Width::W8, TreeHeight::H10) => "W8/H10",
    }
}

/// The lines above the operations: the nanoseconds of a block alone, and of one in a long message.
fn heading(alloc: Global, block: f64, long: f64) -> Result<String, AllocError> {
    format!(in alloc;
        "\
SHA-256, a digest of 55 bytes (one block) {block:>10.1} ns
SHA-256, a block of a long message        {long:>10.1} ns

keys   operation          a second     time in blocks  blocks hashed    ratio"
    )
}

/// The line of an operation.
fn row(alloc: Global, keys: &Keys, cost: Cost) -> Result<String, AllocError> {
    let name = keys_name(keys.params);
    let operation = keys.operation.name();
    let rate = 1e9 / cost.operation;
    let found = cost.operation / cost.block;
    let hashed = blocks_hashed(keys);
    let ratio = found / hashed;
    format!(in alloc;
        "{name:<6} {operation:<14} {rate:>12.1} {found:>18.1} {hashed:>14.1} {ratio:>8.3}"
    )
}

/// Measures and writes the lines above the operations.
fn write_heading<C: Clock, W: Write>(
    clock: &C,
    alloc: Global,
    writer: &mut W,
    time: Duration,
) -> io::Result<()> {
    let block = measure(clock, &mut OneBlockDigests { block: [0; 55] }, time)?;
    let long = long_block(clock, alloc, time)?;
    let text = heading(alloc, block, long)?;
    write_line(writer, &text)
}

/// Measures the operation of the keys and one block in turn, and writes the line.
fn write_row<C: Clock, W: Write>(
    clock: &C,
    alloc: Global,
    writer: &mut W,
    keys: &mut Keys,
    time: Duration,
) -> io::Result<()> {
    let cost = measure_cost(clock, keys, time)?;
    let text = row(alloc, keys, cost)?;
    write_line(writer, &text)
}

/// Measures the operations of a parameter set, and writes their lines.
fn write_rows<C: Clock, W: Write>(
    clock: &C,
    alloc: Global,
    writer: &mut W,
    params: Params,
    time: Duration,
) -> io::Result<()> {
    let mut keys = Keys::new(alloc, params, Operation::KeyGeneration)?;
    for operation in OPERATIONS {
        keys.operation = *operation;
        write_row(clock, alloc, writer, &mut keys, time)?;
    }
    Ok(())
}

/// Measures and writes the table: for each kind of operation, how many are done per second, and how many SHA-256 blocks one takes,
/// both by its time and by what it hashes. The time is less if blocks are hashed in parallel. Each figure is the least of many
/// slices, in which a block and the operation are measured in turn for at least `time`, because a machine changes its pace.
pub fn write_table<C: Clock, W: Write>(
    clock: &C,
    alloc: Global,
    writer: &mut W,
    time: Duration,
) -> io::Result<()> {
    write_heading(clock, alloc, writer, time)?;
    for params in ALL_KEYS {
        write_rows(clock, alloc, writer, *params, time)?;
    }
    Ok(())
}
