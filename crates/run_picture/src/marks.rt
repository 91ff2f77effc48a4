//! What replicas do at heights, as marks.
ghost use Rattle.std.specs.Prelude.{◌≡◌, ◌<◌, ◌++◌, None, OnOk};
ghost use Rattle.run_picture.specs.Marks.{fact_class, fact_outline, fact_x, value_words, done_words, fact_words, mark_at, mark_text, marks_from, spot_of, spread};

use crate::layout::{Layout, lane_y};
use crate::shapes::{add_label, add_shape};
use crate::words::add_place;
use crate::xml::{add, add_value};
use crate::{Fact, Mark};
use ledger_model::Batch;
use std::alloc::AllocError;

/// The class of a mark.
fn fact_class(fact: &Fact) -> &'static str
    ensures { result.now ≡ fact_class fact.now }
{
    match fact {
        Fact::Opens(_) => "opens",
        Fact::Holds(_) => "holds",
        Fact::Decides(_) => "decides",
        Fact::Runs => "runs",
        Fact::Retires => "retires",
    }
}

/// The shape of a mark, from its middle.
fn fact_outline(fact: &Fact) -> &'static str
    ensures { result.now ≡ fact_outline fact.now }
{
    match fact {
        Fact::Opens(_) => "m-7 6l7 -13l7 13z",
        Fact::Holds(_) => "m-5 -5h10v10h-10z",
        Fact::Decides(_) => "m0 -9l9 9l-9 9l-9 -9z",
        Fact::Runs => "m-7 -7h14v14h-14z",
        Fact::Retires => "m-6 -6l12 12m0 -12l-12 12",
    }
}

/// Where in its round a mark is.
fn fact_x(fact: &Fact) -> u64
    ensures { result ≡ fact_x fact.now }
{
    match fact {
        Fact::Opens(_) => 18,
        Fact::Holds(_) => 8,
        Fact::Decides(_) => 74,
        Fact::Runs => 58,
        Fact::Retires => 42,
    }
}

/// Appends what is done at a height, and the value.
fn add_value_at(out: &mut Vec<u8>, height: u32, word: &str, value: &Batch) -> Result<(), AllocError>
    ensures { OnOk result (out.new.items ≡ out.old.items ++ value_words height word.now value.now) }
{
    let alloc = *out.allocator();
    let text = format!(in alloc; "height {height} {word} ")?;
    add(out, &text)?;
    add_value(out, value)
}

/// Appends what is done at a height.
fn add_done_at(out: &mut Vec<u8>, height: u32, word: &str) -> Result<(), AllocError>
    ensures { OnOk result (out.new.items ≡ out.old.items ++ done_words height word.now) }
{
    let alloc = *out.allocator();
    let text = format!(in alloc; "height {height} {word}")?;
    add(out, &text)
}

/// Appends what a replica does at a height.
fn add_fact(out: &mut Vec<u8>, fact: &Fact, height: u32) -> Result<(), AllocError>
    ensures { OnOk result (out.new.items ≡ out.old.items ++ fact_words fact.now height) }
{
    match fact {
        Fact::Opens(value) => add_value_at(out, height, "opened with", value),
        Fact::Holds(value) => add_value_at(out, height, "locked on", value),
        Fact::Decides(value) => add_value_at(out, height, "decided:", value),
        Fact::Runs => add_done_at(out, height, "run"),
        Fact::Retires => add_done_at(out, height, "retired"),
    }
}

/// Appends a mark of this height at a point.
fn add_mark_at(
    out: &mut Vec<u8>,
    mark: &Mark,
    height: u32,
    x: u64,
    y: u64,
) -> Result<(), AllocError>
    ensures { OnOk result (out.new.items ≡ out.old.items ++ mark_at mark.now height x y) }
{
    add(out, "<g><title>")?;
    add_fact(out, &mark.fact, height)?;
    add_place(out, &mark.at)?;
    add(out, "</title>")?;
    add_shape(out, fact_class(&mark.fact), x, y, fact_outline(&mark.fact))?;
    add_label(out, x, y, height)?;
    add(out, "</g>\n")
}

/// Appends a mark, which is the number `place` of those at one spot.
fn add_mark(out: &mut Vec<u8>, layout: &Layout, place: u64, mark: &Mark) -> Result<(), AllocError>
    requires { place < 8 }
    ensures { OnOk result (out.new.items ≡ out.old.items ++ mark_text layout.now place mark.now) }
{
    let x = layout.column_x(mark.at.round) + fact_x(&mark.fact) + 11 * place;
    let y = lane_y(mark.at.replica, mark.height);
    add_mark_at(out, mark, mark.height.number(), x, y)
}

/// Where marks may lie on one another.
#[derive(Clone, Copy, PartialEq, Eq)]
struct Spot {
    replica: u8,
    entry: usize,
    height: u32,
}

/// The spot of a mark.
fn spot_of(mark: &Mark) -> Spot
    ensures { result ≡ spot_of mark.now }
{
    Spot {
        replica: mark.at.replica.number(),
        entry: mark.at.entry,
        height: mark.height.number(),
    }
}

/// The number of a mark among those at one spot, after another mark with the number `place`; it counts up to 7.
fn spread(before: Option<Spot>, place: u64, spot: Spot) -> u64
    requires { place < 8 }
    ensures after { result ≡ spread before place spot }
    ensures few { result < 8 }
{
    match before {
        Some(before) if before == spot => (place + 1) % 8,
        _ => 0,
    }
}

/// Appends marks.
pub(crate) fn add_marks(
    out: &mut Vec<u8>,
    layout: &Layout,
    marks: &[Mark],
) -> Result<(), AllocError>
    ensures { OnOk result (out.new.items ≡ out.old.items ++ marks_from layout.now None 0 marks.now) }
{
    let mut before = None;
    let mut place = 0;
    for mark in marks {
        let spot = spot_of(mark);
        place = spread(before, place, spot);
        add_mark(out, layout, place, mark)?;
        before = Some(spot);
    }
    Ok(())
}
