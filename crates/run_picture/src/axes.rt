//! The rows of replicas and the columns of rounds.
ghost use Rattle.std.specs.Prelude.{◌≡◌, ◌++◌, ◌<◌, ◌≤◌, ◌^◌, ◌+◌, ◌-◌, OnOk};
ghost use Rattle.ledger_model.specs.Limits.{last_round};
ghost use Rattle.ledger_model.specs.Places.{number_of};
ghost use Rattle.run_picture.specs.Axes.{row_class, row_words, row_text, row_of, axis_rows_from, place_word, round_words, names_text, grid_text, round_axis, round_text, start_text, column_text, columns_from};

use crate::layout::{Layout, row_y};
use crate::shapes::{add_name, add_shape, add_word, band_of, line_down_to};
use crate::xml::add;
use ledger_model::{Place, ReplicaId, phase_of, place_of};
use std::alloc::AllocError;

/// The class of a replica's row.
fn row_class(opened: Option<u64>) -> &'static str
    ensures { result.now ≡ row_class opened }
{
    match opened {
        Some(_) => "row",
        None => "row absent",
    }
}

/// Appends a replica's number, and how many rounds it opened, if its history was handed in.
fn add_row_words(out: &mut Vec<u8>, number: u8, opened: Option<u64>) -> Result<(), AllocError>
    ensures { OnOk result (out.new.items ≡ out.old.items ++ row_words number opened) }
{
    let alloc = *out.allocator();
    match opened {
        Some(rounds) => {
            let text = format!(in alloc; "replica {number} opened {rounds} rounds")?;
            add(out, &text)
        }
        None => {
            let text = format!(in alloc; "replica {number}: no history was handed in")?;
            add(out, &text)
        }
    }
}

/// Appends a replica's row.
fn add_row(
    out: &mut Vec<u8>,
    layout: &Layout,
    number: u8,
    opened: Option<u64>,
) -> Result<(), AllocError>
    ensures { OnOk result (out.new.items ≡ out.old.items ++ row_text layout.now number opened) }
{
    let alloc = *out.allocator();
    let y = row_y(ReplicaId::new(number));
    let band = band_of(alloc, layout.width())?;
    add(out, "<g><title>")?;
    add_row_words(out, number, opened)?;
    add(out, "</title>")?;
    add_shape(out, row_class(opened), 0, y, &band)?;
    add_name(out, 8, y + 16, "replica", u64::from(number))?;
    add(out, "</g>\n")
}

/// The number of rounds that a replica opened, if its history was handed in.
fn row_of(rounds: &[Option<u64>], number: u8) -> Option<u64>
    ensures { result ≡ row_of rounds.now number }
{
    match rounds.get(usize::from(number)) {
        Some(opened) => *opened,
        None => None,
    }
}

/// Appends the rows of all replicas.
pub(crate) fn add_rows(
    out: &mut Vec<u8>,
    layout: &Layout,
    rounds: &[Option<u64>],
) -> Result<(), AllocError>
    ensures { OnOk result (out.new.items ≡ out.old.items ++ axis_rows_from layout.now rounds.now 0 layout.now.config.replicas) }
{
    for number in 0..layout.config.replicas {
        add_row(out, layout, number, row_of(rounds, number))?;
    }
    Ok(())
}

/// The word for a place.
fn place_word(place: Place) -> &'static str
    ensures { result.now ≡ place_word (number_of place) }
{
    match place {
        Place::Reports => "report",
        Place::Lock => "lock",
        Place::Acknowledgements => "acknowledge",
        Place::Release => "release",
    }
}

/// Appends what a round is.
fn add_round_words(
    out: &mut Vec<u8>,
    round: u32,
    place: &str,
    phase: u32,
    owner: u8,
) -> Result<(), AllocError>
    ensures { OnOk result (out.new.items ≡ out.old.items ++ round_words round place.now phase owner) }
{
    let alloc = *out.allocator();
    let text = format!(in alloc; "round {round}: {place}, in phase {phase} of replica {owner}")?;
    add(out, &text)
}

/// Appends the names above a round.
fn add_names(
    out: &mut Vec<u8>,
    x: u64,
    round: u32,
    place: &str,
    phase: u32,
    owner: u8,
) -> Result<(), AllocError>
    requires { x < 2 ^ 60 }
    ensures { OnOk result (out.new.items ≡ out.old.items ++ names_text x round place.now phase owner) }
{
    add_name(out, x + 4, 14, "phase", u64::from(phase))?;
    add_name(out, x + 4, 28, "owner", u64::from(owner))?;
    add_name(out, x + 4, 42, "round", u64::from(round))?;
    add_word(out, x + 4, 56, place)
}

/// Appends the line at which a round begins, and the cell of its owner.
fn add_grid(
    out: &mut Vec<u8>,
    layout: &Layout,
    x: u64,
    place: &str,
    owner: u8,
) -> Result<(), AllocError>
    ensures { OnOk result (out.new.items ≡ out.old.items ++ grid_text layout.now x place.now owner) }
{
    let alloc = *out.allocator();
    let line = line_down_to(alloc, layout.bottom())?;
    let y = row_y(ReplicaId::new(owner));
    add_shape(out, "owner", x, y, "h84v112h-84z")?;
    add_shape(out, place, x, 4, &line)
}

/// Appends a round whose place has this word, and whose phase has this number and owner.
fn add_round_at(
    out: &mut Vec<u8>,
    layout: &Layout,
    round: u32,
    place: &str,
    phase: u32,
    owner: u8,
) -> Result<(), AllocError>
    ensures { OnOk result (out.new.items ≡ out.old.items ++ round_axis layout.now round place.now phase owner) }
{
    let x = layout.column_x(round);
    add(out, "<g><title>")?;
    add_round_words(out, round, place, phase, owner)?;
    add(out, "</title>")?;
    add_grid(out, layout, x, place, owner)?;
    add_names(out, x, round, place, phase, owner)?;
    add(out, "</g>\n")
}

/// Appends a round from 1 on.
fn add_round(out: &mut Vec<u8>, layout: &Layout, round: u32) -> Result<(), AllocError>
    requires { round ≤ last_round }
    ensures { OnOk result (out.new.items ≡ out.old.items ++ round_text layout.now round) }
{
    let place = place_word(place_of(u64::from(round)));
    let phase = phase_of(round);
    let owner = layout.config.owner_of(phase);
    add_round_at(out, layout, round, place, phase.number(), owner.number())
}

/// Appends the time before the first round.
fn add_start(out: &mut Vec<u8>, layout: &Layout) -> Result<(), AllocError>
    ensures { OnOk result (out.new.items ≡ out.old.items ++ start_text layout.now) }
{
    let alloc = *out.allocator();
    let x = layout.column_x(0);
    let line = line_down_to(alloc, layout.bottom())?;
    add(out, "<g><title>before round 1</title>")?;
    add_shape(out, "start", x, 4, &line)?;
    add_word(out, x + 4, 42, "start")?;
    add(out, "</g>\n")
}

/// Appends a round, or the time before the first.
fn add_column(out: &mut Vec<u8>, layout: &Layout, round: u32) -> Result<(), AllocError>
    requires { round ≤ last_round }
    ensures { OnOk result (out.new.items ≡ out.old.items ++ column_text layout.now round) }
{
    if round == 0 {
        add_start(out, layout)
    } else {
        add_round(out, layout, round)
    }
}

/// Appends all rounds.
pub(crate) fn add_columns(out: &mut Vec<u8>, layout: &Layout) -> Result<(), AllocError>
    requires { layout.now.last ≤ last_round }
    ensures { OnOk result (out.new.items ≡ out.old.items
        ++ columns_from layout.now layout.now.first (layout.now.last + 1 - layout.now.first)) }
{
    for number in u64::from(layout.first)..u64::from(layout.last) + 1 {
        add_column(out, layout, number as u32)?;
    }
    Ok(())
}
