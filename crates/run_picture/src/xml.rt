//! Pieces of an SVG text: texts, values, and groups with titles.
ghost use Rattle.std.specs.Prelude.{◌≡◌, ◌++◌, ◌∷◌, [], OnOk, codes};
ghost use Rattle.std.specs.List.{flat_map};
ghost use Rattle.plain_text.specs.Transactions.{bytes_text};
ghost use Rattle.run_picture.specs.Xml.{xml_byte, xml_text, tx_xml, value_xml, values_text};

use ledger_model::{Batch, Tx};
use plain_text::Escaped;
use std::alloc::AllocError;

/// Appends a text.
pub(crate) fn add(out: &mut Vec<u8>, text: &str) -> Result<(), AllocError>
    ensures { OnOk result (out.new.items ≡ out.old.items ++ text.now) }
{
    out.extend_from_slice(text.as_bytes())
}

/// Appends a byte of a text, so that XML reads that byte: `<` and `&` have names.
fn add_xml_byte(out: &mut Vec<u8>, byte: u8) -> Result<(), AllocError>
    ensures { OnOk result (out.new.items ≡ out.old.items ++ xml_byte byte) }
{
    match byte {
        b'<' => add(out, "&lt;"),
        b'&' => add(out, "&amp;"),
        _ => {
            out.push(byte)?;
            Ok(())
        }
    }
}

/// Appends a text, so that XML reads that text.
fn add_xml(out: &mut Vec<u8>, text: &[u8]) -> Result<(), AllocError>
    ensures { OnOk result (out.new.items ≡ out.old.items ++ xml_text text.now) }
{
    for byte in text {
        add_xml_byte(out, *byte)?;
    }
    Ok(())
}

/// Appends a transaction in its printed form.
fn add_tx(out: &mut Vec<u8>, transaction: &Tx) -> Result<(), AllocError>
    ensures { OnOk result (out.new.items ≡ out.old.items ++ tx_xml transaction.now) }
{
    let alloc = *out.allocator();
    let escaped = Escaped(transaction.as_bytes());
    let text = format!(in alloc; "{escaped}")?;
    add_xml(out, text.as_bytes())
}

/// Appends transactions, each preceded by a comma.
fn add_more(out: &mut Vec<u8>, transactions: &[Tx]) -> Result<(), AllocError>
    ensures { OnOk result (out.new.items ≡ out.old.items ++ flat_map (λ t. codes "," ++ tx_xml t) transactions.now) }
{
    for transaction in transactions {
        add(out, ",")?;
        add_tx(out, transaction)?;
    }
    Ok(())
}

/// Appends a value: its transactions in brackets, separated by commas.
pub(crate) fn add_value(out: &mut Vec<u8>, value: &Batch) -> Result<(), AllocError>
    ensures { OnOk result (out.new.items ≡ out.old.items ++ value_xml value.now) }
{
    match value.transactions() {
        [] => add(out, "[]"),
        [first, rest @ ..] => {
            add(out, "[")?;
            add_tx(out, first)?;
            add_more(out, rest)?;
            add(out, "]")
        }
    }
}

/// Appends values, each preceded by a space.
pub(crate) fn add_values(out: &mut Vec<u8>, values: &[Batch]) -> Result<(), AllocError>
    ensures { OnOk result (out.new.items ≡ out.old.items ++ values_text values.now) }
{
    for value in values {
        add(out, " ")?;
        add_value(out, value)?;
    }
    Ok(())
}
