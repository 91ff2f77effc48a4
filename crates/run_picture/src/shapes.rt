//! The shapes of a picture: paths and labels.
ghost use Rattle.std.specs.Prelude.{◌≡◌, ◌++◌, IfOk, OnOk, string_bytes};
ghost use Rattle.run_picture.specs.Shapes.{shape_text, path_line, label_text, name_text, word_text, down_text, band_text};

use crate::xml::add;
use std::alloc::{AllocError, Global};

/// Appends a path of this class, which starts at a point.
pub(crate) fn add_shape(
    out: &mut Vec<u8>,
    class: &str,
    x: u64,
    y: u64,
    outline: &str,
) -> Result<(), AllocError>
    ensures { OnOk result (out.new.items ≡ out.old.items ++ shape_text class.now x y outline.now) }
{
    let alloc = *out.allocator();
    let text = format!(in alloc; "<path class=\"{class}\" d=\"M{x} {y}{outline}\"/>")?;
    add(out, &text)
}

/// The rest of a path, which is a line to a point.
pub(crate) fn line_to(alloc: Global, x: u64, y: u64) -> Result<String, AllocError>
    ensures { IfOk result (λ line. string_bytes line ≡ path_line x y) }
{
    format!(in alloc; "L{x} {y}")
}

/// Appends a number that is shown at a point.
pub(crate) fn add_label(out: &mut Vec<u8>, x: u64, y: u64, number: u32) -> Result<(), AllocError>
    ensures { OnOk result (out.new.items ≡ out.old.items ++ label_text x y number) }
{
    let alloc = *out.allocator();
    let text = format!(in alloc; "<text x=\"{x}\" y=\"{y}\" dy=\"4\">{number}</text>")?;
    add(out, &text)
}

/// Appends a name that is shown from a point on: a word, and a number.
pub(crate) fn add_name(
    out: &mut Vec<u8>,
    x: u64,
    y: u64,
    word: &str,
    number: u64,
) -> Result<(), AllocError>
    ensures { OnOk result (out.new.items ≡ out.old.items ++ name_text x y word.now number) }
{
    let alloc = *out.allocator();
    let text = format!(in alloc;
        "<text class=\"name\" x=\"{x}\" y=\"{y}\">{word} {number}</text>"
    )?;
    add(out, &text)
}

/// Appends a word that is shown from a point on.
pub(crate) fn add_word(out: &mut Vec<u8>, x: u64, y: u64, word: &str) -> Result<(), AllocError>
    ensures { OnOk result (out.new.items ≡ out.old.items ++ word_text x y word.now) }
{
    let alloc = *out.allocator();
    let text = format!(in alloc; "<text class=\"name\" x=\"{x}\" y=\"{y}\">{word}</text>")?;
    add(out, &text)
}

/// The rest of a path, which is a line down or up.
pub(crate) fn line_down_to(alloc: Global, y: u64) -> Result<String, AllocError>
    ensures { IfOk result (λ line. string_bytes line ≡ down_text y) }
{
    format!(in alloc; "V{y}")
}

/// The rest of a path, which is a rectangle of this width.
pub(crate) fn band_of(alloc: Global, width: u64) -> Result<String, AllocError>
    ensures { IfOk result (λ band. string_bytes band ≡ band_text width) }
{
    format!(in alloc; "h{width}v112h-{width}z")
}
