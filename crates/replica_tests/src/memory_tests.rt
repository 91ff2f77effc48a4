//! A block whose application runs out of memory is run again, and its entry is followed again.
ghost use Rattle.std.specs.Prelude.{◌≡◌, [], vec_len, All, IfOk};
ghost use Rattle.ledger_model.specs.Kinds.{meaning_of};
ghost use Rattle.ledger_model.specs.Applications.{run};

use crate::fault::Fault;
use crate::following::{follower_with, is_taken, takes_all};
use crate::playing::{correct_of, history_of, new_simulation, play_all, scenario_of};
use crate::scripts::REFUSED_BLOCK;
use abci::Application;
use app_kinds::{AnyKind, Refusing};
use history_follower::Follower;
use ledger_model::{AppKind, Entry};
use locked_replica::Snapshot;
use scenario_texts::{Command, Setup};
use simulation::Simulation;
use std::alloc::{AllocError, Global};
use std::hash::RandomState;
use std::test::Fail;

/// `count` applications of a kind in their opening state, each of which finds no memory for its second transaction.
fn refusing_apps(
    alloc: Global,
    kind: AppKind,
    count: usize,
) -> Result<Vec<Refusing<AnyKind>>, AllocError>
    ensures count { IfOk result (λ apps. vec_len apps ≡ count) }
    ensures opening { IfOk result (λ apps. All (λ app. app.app ≡ run meaning_of kind []) apps.items) }
{
    let mut apps = Vec::with_capacity(alloc, count)?;
    for _ in 0..count {
        apps.push(Refusing::new(AnyKind::new(alloc, kind), 2))?;
    }
    Ok(apps)
}

/// Whether the command prints exactly this line.
fn prints<A: Application>(simulation: &mut Simulation<A>, command: &Command, line: &[u8]) -> bool {
    match simulation.play(command) {
        Ok(text) => text.as_bytes() == line,
        Err(_) => false,
    }
}

/// Whether the last command is refused because memory ran out, and runs the block when it is given again.
fn plays_at_second_try<A: Application>(
    simulation: &mut Simulation<A>,
    commands: &[Command],
) -> bool {
    let Some((last, others)) = commands.split_last() else {
        return false;
    };
    play_all(simulation, others).is_ok()
        && prints(simulation, last, b"refused 5\n")
        && prints(
            simulation,
            last,
            b"execute 1 1 [\\00,\\01,\\02] codes 0,0,0\n",
        )
}

/// Whether the follower finds no memory for the last entry, takes it when it is passed again, and then has one block.
fn takes_at_second_try<A: Application>(
    follower: &mut Follower<A>,
    alloc: Global,
    entries: &[Entry],
) -> Result<bool, AllocError> {
    let Some((last, others)) = entries.split_last() else {
        return Ok(false);
    };
    let are_taken = takes_all(follower, alloc, others)?;
    let is_first_taken = is_taken(follower, alloc, &last.event, &last.reply).is_ok();
    let is_next_taken = is_taken(follower, alloc, &last.event, &last.reply)?;
    Ok((are_taken, is_first_taken, is_next_taken, follower.height()) == (true, false, true, 1))
}

/// Whether a follower does so if its application finds no memory for its second transaction.
fn is_followed(alloc: Global, random: RandomState, told: &Snapshot) -> Result<bool, Fault> {
    let app = Refusing::new(AnyKind::new(alloc, told.config.kind), 2);
    let mut follower = follower_with(alloc, random, told, app)?;
    let entries = told.history.entries.as_slice();
    Ok(takes_at_second_try(&mut follower, alloc, entries)?)
}

/// The simulation of a scenario with such applications, at its start.
fn opened(
    alloc: Global,
    random: RandomState,
    setup: &Setup,
) -> Result<Simulation<Refusing<AnyKind>>, Fault> {
    let apps = refusing_apps(alloc, setup.config.kind, correct_of(setup))?;
    new_simulation(alloc, random, setup, apps)
}

/// The history of replica 1, whose last command is refused once.
fn history_of_refused(
    alloc: Global,
    random: RandomState,
    setup: &Setup,
    commands: &[Command],
) -> Result<Snapshot, Fault> {
    let mut simulation = opened(alloc, random, setup)?;
    if plays_at_second_try(&mut simulation, commands) {
        history_of(&simulation, 1)
    } else {
        Err(Fault::OtherLines)
    }
}

fn refused_block(alloc: Global, random: RandomState) -> Result<Snapshot, Fault> {
    let scenario = scenario_of(alloc, REFUSED_BLOCK)?;
    history_of_refused(alloc, random, &scenario.setup, &scenario.commands)
}

/// Whether the block is run again, and its entry followed again.
fn is_run_again(alloc: Global, random: RandomState) -> Result<bool, Fault> {
    let told = refused_block(alloc, random)?;
    is_followed(alloc, random, &told)
}

#[test]
fn a_block_that_found_no_memory_is_run_again(rt: HostRuntime) -> Result<(), Fail> {
    let random = RandomState::new(&rt)?;
    assert!(rt; is_run_again(rt.alloc(), random)?);
    Ok(())
}
