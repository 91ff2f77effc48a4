//! The whole document: its head, the elements in a fixed order, and its legend.
ghost use Rattle.std.specs.Prelude.{◌≡◌, ◌≤◌, ◌++◌, IfOk, OnOk};
ghost use Rattle.ledger_model.specs.Limits.{last_round};
ghost use Rattle.std.specs.List.{flat_map};
ghost use Rattle.run_picture.specs.Arrows.{sent_text, arrival_text};
ghost use Rattle.run_picture.specs.Documents.{open_text, part_words, version_words, part_names, height_text, corner_text, document_head, shift_text, foot_text, frames_text, elements_text, svg_text, picture_text};

use crate::arrows::{add_arrival, add_sent};
use crate::axes::{add_columns, add_rows};
use crate::layout::Layout;
use crate::marks::add_marks;
use crate::shapes::{add_name, add_word};
use crate::xml::add;
use crate::{Arrival, Picture, SentFrame};
use ledger_model::{Height, Version};
use std::alloc::{AllocError, Global};

/// How classes look: the colours are those of Okabe and Ito, which colour-blind people can tell apart, and no colour stands alone.
/// The white background keeps the text readable on a dark page.
const STYLE: &str = "<style>
text{font:11px sans-serif;text-anchor:middle;fill:#000}
.name{text-anchor:start}
path{fill:none;stroke:#000}
.row{fill:#f4f4f4;stroke:none}.absent{fill:#fff;stroke:#999;stroke-dasharray:6 4}
.owner{fill:#fdf6cf;stroke:none}
.report,.lock,.acknowledge,.release,.start{stroke:#bbb}path.report{stroke:#666;stroke-width:1.5}
.arrow,.stub{stroke-width:1.3}
.arrow.report,.stub.report{stroke:#56b4e9;stroke-width:1.3}
.arrow.lock,.stub.lock{stroke:#e69f00;stroke-width:1.8}
.arrow.ack,.stub.ack{stroke:#009e73;stroke-width:1.8}
.arrow.bytes,.stub.bytes{stroke:#000}
.accepted{marker-end:url(#accepted)}
.arrow.ignored,.stub.ignored{stroke:#d55e00;stroke-dasharray:5 3;marker-end:url(#ignored)}
.stub{marker-start:url(#outside)}
.dot{fill:#000;stroke:none}
.opens{fill:#fff}.holds{fill:#e69f00}.decides{fill:#0072b2}.decides+text{fill:#fff}.runs{fill:#cc79a7}.retires{stroke-width:2}
.holds+text{font-size:8px}.opens+text{font-size:8px}
g:hover>.arrow,g:hover>.stub{stroke-width:4}
</style>
<defs>
<marker id=\"accepted\" viewBox=\"0 0 8 8\" refX=\"7\" refY=\"4\" markerWidth=\"7\" markerHeight=\"7\" markerUnits=\"userSpaceOnUse\" orient=\"auto\"><path d=\"M0 0L8 4L0 8z\" style=\"fill:#333;stroke:none\"/></marker>
<marker id=\"ignored\" viewBox=\"0 0 8 8\" refX=\"4\" refY=\"4\" markerWidth=\"8\" markerHeight=\"8\" markerUnits=\"userSpaceOnUse\" orient=\"auto\"><path d=\"M0 0L8 8M0 8L8 0\" style=\"stroke:#d55e00;stroke-width:2\"/></marker>
<marker id=\"outside\" viewBox=\"0 0 8 8\" refX=\"4\" refY=\"4\" markerWidth=\"6\" markerHeight=\"6\" markerUnits=\"userSpaceOnUse\"><circle cx=\"4\" cy=\"4\" r=\"3\" style=\"fill:#fff;stroke:#000\"/></marker>
</defs>
<rect width=\"100%\" height=\"100%\" fill=\"#fff\"/>
";

/// What each shape means, from the top of the legend.
const LEGEND: &str = "<g class=\"legend\">
<text class=\"name\" x=\"0\" y=\"22\">frames:</text>
<path class=\"dot\" d=\"M60 18m-2 0a2 2 0 1 0 4 0a2 2 0 1 0 -4 0\"/><text class=\"name\" x=\"68\" y=\"22\">sent</text>
<path class=\"arrow report accepted\" d=\"M110 18L140 18\"/><text class=\"name\" x=\"146\" y=\"22\">report</text>
<path class=\"arrow lock accepted\" d=\"M200 18L230 18\"/><text class=\"name\" x=\"236\" y=\"22\">lock</text>
<path class=\"arrow ack accepted\" d=\"M280 18L310 18\"/><text class=\"name\" x=\"316\" y=\"22\">acknowledgement</text>
<path class=\"arrow report ignored\" d=\"M424 18L454 18\"/><text class=\"name\" x=\"464\" y=\"22\">ignored: point at it for the cause</text>
<path class=\"stub report accepted\" d=\"M662 7l8 22\"/><text class=\"name\" x=\"680\" y=\"22\">from outside the picture</text>
<text class=\"name\" x=\"0\" y=\"48\">heights:</text>
<path class=\"opens\" d=\"M64 44m-7 6l7 -13l7 13z\"/><text x=\"64\" y=\"44\" dy=\"4\">H</text><text class=\"name\" x=\"76\" y=\"48\">opened</text>
<path class=\"holds\" d=\"M134 44m-5 -5h10v10h-10z\"/><text x=\"134\" y=\"44\" dy=\"4\">H</text><text class=\"name\" x=\"144\" y=\"48\">lock held</text>
<path class=\"decides\" d=\"M216 44m0 -9l9 9l-9 9l-9 -9z\"/><text x=\"216\" y=\"44\" dy=\"4\">H</text><text class=\"name\" x=\"230\" y=\"48\">decided</text>
<path class=\"runs\" d=\"M296 44m-7 -7h14v14h-14z\"/><text x=\"296\" y=\"44\" dy=\"4\">H</text><text class=\"name\" x=\"308\" y=\"48\">block run</text>
<path class=\"retires\" d=\"M384 44m-6 -6l12 12m0 -12l-12 12\"/><text class=\"name\" x=\"396\" y=\"48\">retired</text>
<path class=\"owner\" d=\"M460 36h20v16h-20z\"/><text class=\"name\" x=\"486\" y=\"48\">the phase's owner</text>
</g>
";

/// Appends the start of the document, with its size.
fn add_open(out: &mut Vec<u8>, width: u64, height: u64) -> Result<(), AllocError>
    ensures { OnOk result (out.new.items ≡ out.old.items ++ open_text width height) }
{
    let alloc = *out.allocator();
    let text = format!(in alloc;
        "<svg xmlns=\"http://www.w3.org/2000/svg\" viewBox=\"0 0 {width} {height}\" width=\"{width}\" height=\"{height}\">\n"
    )?;
    add(out, &text)
}

/// Appends which rounds the picture shows, and of how many.
fn add_part_words(out: &mut Vec<u8>, first: u32, last: u32, opened: u64) -> Result<(), AllocError>
    ensures { OnOk result (out.new.items ≡ out.old.items ++ part_words first last opened) }
{
    let alloc = *out.allocator();
    let text = format!(in alloc; "rounds {first} to {last} of {opened}")?;
    add(out, &text)
}

/// Appends the height that the picture shows.
fn add_height(out: &mut Vec<u8>, height: Option<Height>) -> Result<(), AllocError>
    ensures { OnOk result (out.new.items ≡ out.old.items ++ height_text height) }
{
    match height {
        Some(height) => add_name(out, 8, 56, "height", u64::from(height.number())),
        None => add_word(out, 8, 56, "all heights"),
    }
}

/// Appends which rounds the picture shows, and of how many, as names.
fn add_part_names(out: &mut Vec<u8>, first: u32, last: u32, opened: u64) -> Result<(), AllocError>
    ensures { OnOk result (out.new.items ≡ out.old.items ++ part_names first last opened) }
{
    add_name(out, 8, 14, "rounds", u64::from(first))?;
    add_name(out, 8, 28, "to", u64::from(last))?;
    add_name(out, 8, 42, "of", opened)
}

/// The words about the version of the frames: none about the first, so that its pictures are as they were before there was a second.
fn version_words(version: Version) -> &'static str
    ensures { result.now ≡ version_words version }
{
    match version {
        Version::One => "",
        Version::Two => ", frames of version 2",
    }
}

/// Appends the corner: which part of a run the picture shows, and the version of its frames.
fn add_corner(out: &mut Vec<u8>, layout: &Layout, height: Option<Height>) -> Result<(), AllocError>
    ensures { OnOk result (out.new.items ≡ out.old.items ++ corner_text layout.now height) }
{
    add(out, "<g><title>")?;
    add_part_words(out, layout.first, layout.last, layout.opened)?;
    add(out, version_words(layout.config.frames))?;
    add(out, "</title>")?;
    add_part_names(out, layout.first, layout.last, layout.opened)?;
    add_height(out, height)?;
    add(out, "</g>\n")
}

/// Appends the head of the document.
fn add_head(
    out: &mut Vec<u8>,
    style: &str,
    layout: &Layout,
    height: Option<Height>,
) -> Result<(), AllocError>
    ensures { OnOk result (out.new.items ≡ out.old.items ++ document_head style.now layout.now height) }
{
    add_open(out, layout.width(), layout.height())?;
    add(out, style)?;
    add_corner(out, layout, height)
}

/// Appends the start of the legend, below the last row.
fn add_shift(out: &mut Vec<u8>, bottom: u64) -> Result<(), AllocError>
    ensures { OnOk result (out.new.items ≡ out.old.items ++ shift_text bottom) }
{
    let alloc = *out.allocator();
    let text = format!(in alloc; "<g transform=\"translate(8 {bottom})\">\n")?;
    add(out, &text)
}

/// Appends the legend and the end of the document.
fn add_foot(out: &mut Vec<u8>, legend: &str, bottom: u64) -> Result<(), AllocError>
    ensures { OnOk result (out.new.items ≡ out.old.items ++ foot_text legend.now bottom) }
{
    add_shift(out, bottom)?;
    add(out, legend)?;
    add(out, "</g>\n</svg>\n")
}

/// Appends all sent frames.
fn add_all_sent(out: &mut Vec<u8>, layout: &Layout, sent: &[SentFrame]) -> Result<(), AllocError>
    ensures { OnOk result (out.new.items ≡ out.old.items ++ flat_map (sent_text layout.now) sent.now) }
{
    for frame in sent {
        add_sent(out, layout, frame)?;
    }
    Ok(())
}

/// Appends all delivered frames.
fn add_arrivals(
    out: &mut Vec<u8>,
    layout: &Layout,
    sent: &[SentFrame],
    arrivals: &[Arrival],
) -> Result<(), AllocError>
    ensures { OnOk result (out.new.items ≡ out.old.items ++ flat_map (arrival_text layout.now sent.now) arrivals.now) }
{
    for arrival in arrivals {
        add_arrival(out, layout, sent, arrival)?;
    }
    Ok(())
}

/// Appends the frames of the picture.
fn add_frames(out: &mut Vec<u8>, layout: &Layout, picture: &Picture) -> Result<(), AllocError>
    ensures { OnOk result (out.new.items ≡ out.old.items ++ frames_text layout.now picture.now) }
{
    add_all_sent(out, layout, &picture.sent)?;
    add_arrivals(out, layout, &picture.sent, &picture.arrivals)
}

/// Appends the elements of the picture.
fn add_elements(out: &mut Vec<u8>, layout: &Layout, picture: &Picture) -> Result<(), AllocError>
    requires { layout.now.last ≤ last_round }
    ensures { OnOk result (out.new.items ≡ out.old.items ++ elements_text layout.now picture.now) }
{
    add_rows(out, layout, &picture.rounds)?;
    add_columns(out, layout)?;
    add_frames(out, layout, picture)?;
    add_marks(out, layout, &picture.facts)?;
    add_marks(out, layout, &picture.locks)?;
    add_marks(out, layout, &picture.decisions)?;
    add_marks(out, layout, &picture.retired)
}

/// Appends the picture as a document, in this style and with this legend.
fn add_document(
    out: &mut Vec<u8>,
    style: &str,
    legend: &str,
    picture: &Picture,
) -> Result<(), AllocError>
    ensures { OnOk result (out.new.items ≡ out.old.items ++ svg_text style.now legend.now picture.now) }
{
    let layout = Layout::of(picture);
    add_head(out, style, &layout, picture.part.height)?;
    add_elements(out, &layout, picture)?;
    add_foot(out, legend, layout.bottom())
}

/// The picture as the text of an SVG document. Each element is a group with a title: rows, rounds, sent frames, delivered frames, and
/// marks. The only error is allocation failure.
#[tactic(auto, unfolding(crate::specs::Documents::picture_text))]
pub fn svg_of(alloc: Global, picture: &Picture) -> Result<Vec<u8>, AllocError>
    ensures { IfOk result (λ svg. svg.items ≡ picture_text picture.now) }
{
    let mut svg = Vec::new(alloc);
    add_document(&mut svg, STYLE, LEGEND, picture)?;
    Ok(svg)
}
