//! `abft draw`: reads histories, and writes a picture of their run.
ghost use Rattle.std.specs.Prelude.{◌≡◌, ◌⊎◌, None, MatchResult, IfErr, IfOk};
ghost use Rattle.cluster_setup.specs.KnownClusters.{known_config, known_ring};
ghost use Rattle.byte_streams.specs.Faults.{IsMemoryOrAsked, IsMemoryOrRandom};
ghost use Rattle.run_picture.specs.Pictures.{IsPictureOf};
ghost use Rattle.program.specs.HistoryInput.{OutputsDone, OutputsDoneSome};
ghost use Rattle.program.specs.Drawing.{Drawn, Draws, DrawsSome, part_of, picture_status};

use crate::history_input::{print_bad_history, read_history_input};
use crate::outcome::Conclusion;
use crate::status::{BAD_INPUT, DONE};
use app_states::{Opening, new_apps};
use byte_streams::{ProgramFault, new_random_key, write_output};
use cluster_setup::{DrawSettings, KnownCluster, all_keys};
use history_audit::AuditFault;
use ledger_model::{Config, Height, History};
use printed_lines::explanation;
use run_picture::{Part, Picture, picture_of, svg_of};
use std::alloc::{AllocError, Global};
use std::io::{Read, Write};
use std::random::RandomSource;

/// The part of the run that is drawn.
fn part_of(settings: &DrawSettings) -> Part
    ensures { result ≡ part_of settings.now }
{
    let height = if settings.height == 0 {
        None
    } else {
        Some(Height::new(settings.height))
    };
    Part {
        first: settings.first,
        last: settings.last,
        height,
    }
}

/// The picture of histories under the public keys of the cluster.
fn drawn<A: Opening, S: RandomSource>(
    source: &S,
    alloc: Global,
    settings: &DrawSettings,
    histories: &[History],
) -> Result<Picture, ProgramFault>
    ensures shows { IfOk result (IsPictureOf A.meaning (known_config settings.now.cluster) (known_ring settings.now.cluster) histories.now
        (part_of settings.now)) }
    ensures fault { IfErr result IsMemoryOrRandom }
{
    let config = settings.cluster.config();
    let part = part_of(settings);
    let apps = new_apps::<A>(alloc, config.kind, usize::from(config.replicas))?;
    let random = new_random_key(source)?;
    let picture = match &settings.cluster {
        KnownCluster::BySeed(seeded) => {
            let keys = all_keys(alloc, seeded)?;
            picture_of(alloc, config, &keys.ring, histories, apps, part, random)?
        }
        KnownCluster::ByKeys(public) => {
            picture_of(alloc, config, &public.ring, histories, apps, part, random)?
        }
    };
    Ok(picture)
}

/// The exit status: 0 if each history is a replay.
fn status_of(picture: &Picture) -> u8
    ensures { result ≡ picture_status picture.now.first_break }
{
    match &picture.first_break {
        Some(_) => BAD_INPUT,
        None => DONE,
    }
}

/// The sentence about the first history that isn't a replay, as an audit explains it.
fn explained(
    alloc: Global,
    config: &Config,
    histories: &[History],
    picture: &Picture,
) -> Result<Option<String>, AllocError>
    ensures { IfOk result (λ text. (text ≡ None) ⊎ (picture_status picture.now.first_break ≡ 1)) }
{
    match &picture.first_break {
        Some(first_break) => {
            let fault = AuditFault::NotReplay {
                replica: first_break.replica,
                index: first_break.entry,
            };
            Ok(Some(explanation(alloc, config, histories, &fault)?))
        }
        None => Ok(None),
    }
}

/// Draws histories, and writes the picture.
fn draw_histories<A: Opening, S: RandomSource, W: Write>(
    source: &S,
    alloc: Global,
    settings: &DrawSettings,
    histories: &[History],
    writer: &mut W,
) -> Result<Conclusion, ProgramFault>
    ensures draws { MatchResult result
        (λ ending. OutputsDone (Drawn A.meaning settings.now) histories.now ending.status (W.contents writer.old) (W.contents writer.new))
        (λ _. OutputsDoneSome (Drawn A.meaning settings.now) histories.now (W.contents writer.old) (W.contents writer.new)) }
    ensures explains { IfOk result (λ ending. (ending.explanation ≡ None) ⊎ (ending.status ≡ 1)) }
    ensures fault { IfErr result IsMemoryOrAsked }
{
    let picture = drawn::<A, S>(source, alloc, settings, histories)?;
    let svg = svg_of(alloc, &picture)?;
    let explanation = explained(alloc, settings.cluster.config(), histories, &picture)?;
    write_output(writer, &svg)?;
    Ok(Conclusion {
        status: status_of(&picture),
        explanation,
    })
}

/// Reads the histories of a stream to its end, follows them under the public keys of the settings' cluster, and writes a picture of their run.
/// Each history is drawn as far as it is a replay. If the bytes are no histories, it writes that. The random bytes are the keys of hashes.
///
/// The end has a sentence about the first history that isn't a replay.
pub fn draw<A: Opening, S: RandomSource, R: Read, W: Write>(
    source: &S,
    alloc: Global,
    settings: &DrawSettings,
    reader: &mut R,
    writer: &mut W,
) -> Result<Conclusion, ProgramFault>
    ensures draws { MatchResult result
        (λ ending. Draws A.meaning settings.now ending.status (R.remaining reader.old) (R.remaining reader.new) (W.contents writer.old)
        (W.contents writer.new))
        (λ _. DrawsSome A.meaning settings.now (R.remaining reader.old) (R.remaining reader.new) (W.contents writer.old)
        (W.contents writer.new)) }
    // Nothing is explained at status 0.
    ensures explains { IfOk result (λ ending. (ending.explanation ≡ None) ⊎ (ending.status ≡ 1)) }
    ensures fault { IfErr result IsMemoryOrAsked }
{
    match read_history_input(alloc, settings.cluster.config().frames, reader)? {
        Some(histories) => draw_histories::<A, S, W>(source, alloc, settings, &histories, writer),
        None => print_bad_history(writer),
    }
}
