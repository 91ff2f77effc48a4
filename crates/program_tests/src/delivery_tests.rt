//! `abft deliver` over streams.
use crate::streams::{Case, Sink, Source};
use app_kinds::AnyKind;
use byte_streams::ProgramFault;
use cluster_setup::{ClusterSeed, DeliverSettings, SignSettings, What};
use ledger_model::{AppKind, Config, Height, Phase, ReplicaId, Tx};
use lm_ots::{Params, TreeHeight, Width};
use program::{StreamEnd, deliver, signed_frame};
use std::alloc::{AllocError, Global};
use std::random::RandomSource;
use std::test::Fail;

/// Four replicas, one of which may lie, with the keys of the seed of 32 zeros.
fn cluster() -> Result<ClusterSeed, Fail> {
    Ok(ClusterSeed {
        config: Config::new(4, 1, AppKind::KvStore)?,
        params: Params {
            width: Width::W4,
            height: TreeHeight::H5,
        },
        seed: [0; 32],
    })
}

/// The settings that sign a report of replica 0 at height 1 in phase 1.
fn sign_settings(alloc: Global) -> Result<SignSettings, Fail> {
    let cluster = cluster()?;
    if cluster.config.replicas == 0 {
        return Err(Fail::from("there are replicas"));
    }
    Ok(SignSettings {
        cluster,
        what: What::Report,
        replica: ReplicaId::new(0),
        height: Height::new(1),
        phase: Phase::new(1),
        value: Tx::new(b"a=1".to_vec(alloc)?)?,
    })
}

/// The frame that these settings sign, twice.
fn twice(alloc: Global, settings: &SignSettings) -> Result<Vec<u8>, AllocError> {
    signed_frame(alloc, settings)?.as_bytes().repeat(alloc, 2)
}

/// The frame of the report, twice.
fn report_twice(alloc: Global) -> Result<Vec<u8>, Fail> {
    let settings = sign_settings(alloc)?;
    Ok(twice(alloc, &settings)?)
}

/// How a stream ended, or the fault, as a text.
fn text_of(alloc: Global, ended: Result<StreamEnd, ProgramFault>) -> Result<String, Fail> {
    Ok(match ended {
        Ok(end) => format!(in alloc; "{end:?}")?,
        Err(fault) => format!(in alloc; "{fault}")?,
    })
}

/// The settings with which replica 1 of `abft deliver` ends one round before it takes frames.
fn deliver_settings(alloc: Global) -> Result<DeliverSettings, Fail> {
    let cluster = cluster()?;
    if cluster.config.replicas <= 1 {
        return Err(Fail::from("there is a replica 1"));
    }
    Ok(DeliverSettings {
        cluster,
        replica: ReplicaId::new(1),
        value: Tx::new(b"a=1".to_vec(alloc)?)?,
        height: Height::new(1),
        rounds: 1,
    })
}

/// How `abft deliver` at replica 1 finds that a stream ended, or the fault.
fn outcome<S: RandomSource>(
    source: &S,
    alloc: Global,
    case: &Case<'_>,
    output: &mut Sink,
) -> Result<String, Fail> {
    let settings = deliver_settings(alloc)?;
    let mut reader = Source::new(case.text, case.fails);
    text_of(
        alloc,
        deliver::<AnyKind, _, _, _>(source, alloc, &settings, &mut reader, output),
    )
}

/// Whether `abft deliver` does with the stream what the case says.
fn delivers<S: RandomSource>(source: &S, alloc: Global, case: &Case<'_>) -> Result<bool, Fail> {
    let mut output = Sink::new(alloc, case.room);
    let outcome = outcome(source, alloc, case, &mut output)?;
    Ok(case.is(&outcome, &output))
}

#[test]
fn each_line_is_one_write_until_the_delivery_stops(rt: HostRuntime) -> Result<(), Fail> {
    let alloc = rt.alloc();
    let frames = report_twice(alloc)?;
    let cases = [
        Case {
            text: &frames,
            fails: false,
            room: 99,
            outcome: "Whole",
            output: b"accepted\nignored 7 Repeated\n",
            writes: 2,
        },
        Case {
            text: &frames,
            fails: false,
            room: 12,
            outcome: "error: standard output: failed to write whole buffer",
            output: b"accepted\nign",
            writes: 3,
        },
        Case {
            text: b"\x00\x00\x09\x45",
            fails: true,
            room: 99,
            outcome: "error: standard input: timed out",
            output: b"",
            writes: 0,
        },
    ];
    for case in &cases {
        assert!(rt;
            delivers(&rt, alloc, case)?,
            "another outcome: {}",
            case.outcome
        );
    }
    Ok(())
}
