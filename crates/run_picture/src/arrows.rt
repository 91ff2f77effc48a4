//! Sent frames, and the arrows of delivered frames.
ghost use Rattle.std.specs.Prelude.{◌≡◌, ◌++◌, OnOk};
ghost use Rattle.std.specs.Option.{option_copied};
ghost use Rattle.run_picture.specs.Arrows.{kind_class, answer_class, sent_text, arrow_text, stub_from, stub_text, way_text, arrival_text, source_of};

use crate::layout::{Layout, statement_y};
use crate::shapes::{add_shape, line_to};
use crate::words::{add_addressee, add_answer, add_place, add_source, add_statement};
use crate::xml::add;
use crate::{Arrival, Delivery, SentFrame};
use ledger_model::{Ignored, ReplicaId, Statement};
use std::alloc::AllocError;

/// The class of a frame: the kind of its statement.
fn kind_class(statement: Option<&Statement>) -> &'static str
    ensures { result.now ≡ kind_class (option_copied statement.entry) }
{
    match statement {
        None => "bytes",
        Some(Statement::Report(_)) => "report",
        Some(Statement::Lock(_)) => "lock",
        Some(Statement::Ack(_)) => "ack",
    }
}

/// The class of an answer, after that of the frame.
fn answer_class(answer: Result<(), Ignored>) -> &'static str
    ensures { result.now ≡ answer_class answer }
{
    match answer {
        Ok(()) => " accepted",
        Err(_) => " ignored",
    }
}

/// A dot, from its middle.
const DOT: &str = "m-2 0a2 2 0 1 0 4 0a2 2 0 1 0 -4 0";

/// Appends a sent frame: a dot where it begins.
pub(crate) fn add_sent(
    out: &mut Vec<u8>,
    layout: &Layout,
    sent: &SentFrame,
) -> Result<(), AllocError>
    ensures { OnOk result (out.new.items ≡ out.old.items ++ sent_text layout.now sent.now) }
{
    let statement = sent.statement.as_ref();
    add(out, "<g><title>")?;
    add_statement(out, statement)?;
    add(out, "; sent")?;
    add_addressee(out, sent.addressee)?;
    add_place(out, &sent.at)?;
    add(out, "</title>")?;
    let x = layout.start_x(sent);
    let y = statement_y(sent.at.replica, statement);
    add_shape(out, "dot", x, y, DOT)?;
    add(out, "</g>\n")
}

/// Appends the arrow from a sent frame to where it is delivered.
fn add_arrow(
    out: &mut Vec<u8>,
    layout: &Layout,
    sent: &SentFrame,
    delivery: &Delivery,
) -> Result<(), AllocError>
    ensures { OnOk result (out.new.items ≡ out.old.items ++ arrow_text layout.now sent.now delivery.now) }
{
    let alloc = *out.allocator();
    let kind = kind_class(delivery.statement.as_ref());
    let answer = answer_class(delivery.answer);
    let class = format!(in alloc; "arrow {kind}{answer}")?;
    let x = layout.end_x(&delivery.at, sent.at.replica);
    let y = statement_y(delivery.at.replica, delivery.statement.as_ref());
    let line = line_to(alloc, x, y)?;
    let start_y = statement_y(sent.at.replica, sent.statement.as_ref());
    add_shape(out, &class, layout.start_x(sent), start_y, &line)
}

/// The replica that a frame from outside the picture claims to be of.
fn claimed(statement: Option<&Statement>) -> ReplicaId
    ensures { result ≡ stub_from (option_copied statement.entry) }
{
    match statement {
        Some(statement) => statement.signer(),
        None => ReplicaId::new(15),
    }
}

/// Appends the end of an arrow, of a frame from outside the picture.
fn add_stub(out: &mut Vec<u8>, layout: &Layout, delivery: &Delivery) -> Result<(), AllocError>
    ensures { OnOk result (out.new.items ≡ out.old.items ++ stub_text layout.now delivery.now) }
{
    let alloc = *out.allocator();
    let statement = delivery.statement.as_ref();
    let kind = kind_class(statement);
    let answer = answer_class(delivery.answer);
    let class = format!(in alloc; "stub {kind}{answer}")?;
    let x = layout.end_x(&delivery.at, claimed(statement));
    let y = statement_y(delivery.at.replica, statement);
    add_shape(out, &class, x, y, "m-8 -22l8 22")
}

/// Appends the way of a delivered frame: an arrow from where it was sent, or the end of one.
fn add_way(
    out: &mut Vec<u8>,
    layout: &Layout,
    source: Option<&SentFrame>,
    delivery: &Delivery,
) -> Result<(), AllocError>
    ensures { OnOk result (out.new.items ≡ out.old.items ++ way_text layout.now (option_copied source.entry) delivery.now) }
{
    match source {
        Some(sent) => add_arrow(out, layout, sent, delivery),
        None => add_stub(out, layout, delivery),
    }
}

/// The sent frame that a delivery comes from.
fn source_of<'a>(sent: &'a [SentFrame], arrival: &Arrival) -> Option<&'a SentFrame>
    ensures { option_copied result ≡ source_of sent.now arrival.now }
{
    sent.get(arrival.source?)
}

/// Appends a delivered frame: an arrow.
pub(crate) fn add_arrival(
    out: &mut Vec<u8>,
    layout: &Layout,
    sent: &[SentFrame],
    arrival: &Arrival,
) -> Result<(), AllocError>
    ensures { OnOk result (out.new.items ≡ out.old.items ++ arrival_text layout.now sent.now arrival.now) }
{
    let delivery = &arrival.delivery;
    let source = source_of(sent, arrival);
    add(out, "<g><title>")?;
    add_statement(out, delivery.statement.as_ref())?;
    add_source(out, source)?;
    add_answer(out, delivery.answer)?;
    add_place(out, &delivery.at)?;
    add(out, "</title>")?;
    add_way(out, layout, source, delivery)?;
    add(out, "</g>\n")
}
