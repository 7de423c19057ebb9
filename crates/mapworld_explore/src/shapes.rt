//! Shapes of a picture, as they are written in SVG.

use std::alloc::AllocError;

/// What is written.
pub type Written = Result<(), AllocError>;

/// How wide a letter is, in tenths of a pixel.
const LETTER: u64 = 72;

/// The signs for a sleep and for a wake, for all pictures of a page.
pub const DEFINITIONS: &str =
    "<svg width=\"0\" height=\"0\" style=\"position:absolute\"><defs><pattern id=\"hatch\" width=\"6\" height=\"6\" \
patternUnits=\"userSpaceOnUse\" patternTransform=\"rotate(45)\"><rect width=\"6\" height=\"6\" fill=\"white\"/>\
<line x1=\"0\" y1=\"0\" x2=\"0\" y2=\"6\" stroke=\"#777\" stroke-width=\"2\"/></pattern>\
<marker id=\"head\" viewBox=\"0 0 8 8\" refX=\"7\" refY=\"4\" markerWidth=\"7\" markerHeight=\"7\" orient=\"auto\">\
<path d=\"M0 0L8 4L0 8z\"/></marker></defs></svg>\n";

/// How a sleep is filled and bordered.
pub const HATCHED: &str = "fill=\"url(#hatch)\" stroke=\"#555\"";

/// Writes numbers of a shape under their names.
fn write_numbers(numbers: &[(&str, u64)], out: &mut String) -> Written {
    for (name, number) in numbers {
        write!(out, " {name}=\"{number}\"")?;
    }
    Ok(())
}

/// The head of a picture of that size.
pub fn write_head(width: u64, height: u64, out: &mut String) -> Written {
    out.push_str("<svg xmlns=\"http://www.w3.org/2000/svg\" role=\"img\"")?;
    write!(out, " viewBox=\"0 0 {width} {height}\"")?;
    write_numbers(&[("width", width), ("height", height)], out)?;
    out.push_str(">\n")
}

/// Where a text begins or ends.
#[derive(Clone, Copy)]
pub enum Anchor {
    Start,
    Middle,
    End,
}

/// How wide a text is.
pub fn width_of(text: &str) -> u64 {
    let letters = text.chars().fold(0_u64, |sum, _| sum.saturating_add(1));
    letters.saturating_mul(LETTER).checked_div(10).unwrap_or(0)
}

/// A colour for a thread.
pub fn colour_of(thread: usize) -> &'static str {
    match thread.checked_rem(6) {
        Some(0) => "#0b6a8f",
        Some(1) => "#a33c3c",
        Some(2) => "#55772a",
        Some(3) => "#7b4fa3",
        Some(4) => "#a86200",
        _ => "#444444",
    }
}

/// Writes a text with the signs of HTML replaced.
pub fn write_plain(text: &str, out: &mut String) -> Written {
    for letter in text.chars() {
        match letter {
            '<' => out.push_str("&lt;")?,
            '>' => out.push_str("&gt;")?,
            '&' => out.push_str("&amp;")?,
            '"' => out.push_str("&quot;")?,
            _ => out.push(letter)?,
        }
    }
    Ok(())
}

/// The head of a text of a class at a place.
fn write_text_head(at: (u64, u64), anchor: Anchor, class: &str, out: &mut String) -> Written {
    let anchor = match anchor {
        Anchor::Start => "start",
        Anchor::Middle => "middle",
        Anchor::End => "end",
    };
    out.push_str("<text")?;
    write_numbers(&[("x", at.0), ("y", at.1)], out)?;
    write!(out, " text-anchor=\"{anchor}\" class=\"{class}\">")
}

/// A text of a class at a place.
pub fn write_text(
    at: (u64, u64),
    anchor: Anchor,
    class: &str,
    text: &str,
    out: &mut String,
) -> Written {
    write_text_head(at, anchor, class, out)?;
    write_plain(text, out)?;
    out.push_str("</text>\n")
}

/// A number of a class at a place, behind a word.
pub fn write_number(
    at: (u64, u64),
    anchor: Anchor,
    class: &str,
    word: &str,
    number: u64,
    out: &mut String,
) -> Written {
    write_text_head(at, anchor, class, out)?;
    write!(out, "{word}{number}</text>\n")
}

/// A text of a class at a place, without an anchor; of that length where one is told.
fn write_fitted_head(at: (u64, u64), class: &str, room: Option<u64>, out: &mut String) -> Written {
    out.push_str("<text")?;
    write_numbers(&[("x", at.0), ("y", at.1)], out)?;
    write!(out, " class=\"{class}\"")?;
    if let Some(room) = room {
        write_numbers(&[("textLength", room)], out)?;
        out.push_str(" lengthAdjust=\"spacingAndGlyphs\"")?;
    }
    out.push_str(">")
}

/// A text that is no wider than that.
pub fn write_fitted(
    at: (u64, u64),
    room: u64,
    class: &str,
    text: &str,
    out: &mut String,
) -> Written {
    let length = if width_of(text) > room {
        Some(room)
    } else {
        None
    };
    write_fitted_head(at, class, length, out)?;
    write_plain(text, out)?;
    out.push_str("</text>\n")
}

/// The word of a lock at a place.
pub fn write_word(at: (u64, u64), word: u64, out: &mut String) -> Written {
    write_fitted_head(at, "tiny", None, out)?;
    write!(out, "{word}</text>\n")
}

/// A line of a class from one place to another.
pub fn write_line(from: (u64, u64), to: (u64, u64), class: &str, out: &mut String) -> Written {
    out.push_str("<line")?;
    write_numbers(
        &[("x1", from.0), ("y1", from.1), ("x2", to.0), ("y2", to.1)],
        out,
    )?;
    write!(out, " class=\"{class}\"/>\n")
}

/// The head of a box: where it begins, how wide and high it is.
fn write_box_head(at: (u64, u64), size: (u64, u64), out: &mut String) -> Written {
    out.push_str("<rect")?;
    write_numbers(
        &[
            ("x", at.0),
            ("y", at.1),
            ("width", size.0),
            ("height", size.1),
        ],
        out,
    )
}

/// A box of a thread's colour: where it begins, how wide and high it is.
pub fn write_box(
    at: (u64, u64),
    size: (u64, u64),
    thread: usize,
    class: &str,
    out: &mut String,
) -> Written {
    write_box_head(at, size, out)?;
    write!(out, " rx=\"3\" class=\"{class}\"")?;
    let colour = colour_of(thread);
    write!(out, " fill=\"{colour}\" stroke=\"{colour}\"/>\n")
}

/// A box that is painted so.
pub fn write_painted(at: (u64, u64), size: (u64, u64), paint: &str, out: &mut String) -> Written {
    write_box_head(at, size, out)?;
    write!(out, " {paint}/>\n")
}

/// A dot of a thread's colour.
pub fn write_dot(at: (u64, u64), thread: usize, out: &mut String) -> Written {
    out.push_str("<circle")?;
    write_numbers(&[("cx", at.0), ("cy", at.1)], out)?;
    let colour = colour_of(thread);
    write!(out, " r=\"6\" fill=\"{colour}\" stroke=\"white\"/>\n")
}
