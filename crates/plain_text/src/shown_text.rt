//! Shows a text to a person: a terminal obeys no character of it.
ghost use Rattle.std.specs.Prelude.{Some};
ghost use Rattle.std.specs.Fmt.{WritesOnOk};
ghost use Rattle.plain_text.specs.ShownTexts.{shown_character, shown_text};

use std::fmt;

/// A character in its shown form.
#[derive(Clone, Copy)]
struct ShownCharacter(char);

#[tactic(auto, unfolding(crate::specs::ShownTexts::shown_character))]
impl fmt::Display for ShownCharacter {
    ghost output = { λ character. Some (shown_character character.0) };

    fn fmt<W: fmt::Write>(&self, f: &mut fmt::Formatter<W>) -> fmt::Result {
        let character = self.0;
        match character {
            '\t' => write!(f, "\\t"),
            '\n' => write!(f, "\\n"),
            '\r' => write!(f, "\\r"),
            _ if character.is_control() => {
                let code = u32::from(character);
                write!(f, "\\u{{{code:x}}}")
            }
            _ => write!(f, "{character}"),
        }
    }
}

/// Writes the characters of a text, each in its shown form.
#[tactic(auto, unfolding(crate::specs::ShownTexts::shown_text))]
fn write_shown<W: fmt::Write>(f: &mut fmt::Formatter<W>, text: &str) -> fmt::Result
    ensures { WritesOnOk W.write_str_gives f.old result (shown_text text.now) f.new }
{
    for character in text.chars() {
        let character = ShownCharacter(character);
        write!(f, "{character}")?;
    }
    Ok(())
}

/// A text as persons are shown it: each control character is escaped (`\n`, `\u{1b}`), since a terminal would obey it.
#[derive(Clone, Copy, Debug)]
pub struct ShownText<'a>(pub &'a str);

impl fmt::Display for ShownText<'_> {
    ghost output = { λ shown. Some (shown_text shown.0.now) };

    fn fmt<W: fmt::Write>(&self, f: &mut fmt::Formatter<W>) -> fmt::Result {
        write_shown(f, self.0)
    }
}
