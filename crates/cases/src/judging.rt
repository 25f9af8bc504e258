//! A text is judged.

use crate::asked::Asked;
use crate::line::{Line, Piece, line_of};
use crate::named::{Named, push_piece};
use crate::sheet::{Open, Sheet};
use std::alloc::{AllocError, Global};

// Asks what stands open.
fn close<'a, A: Asked>(sheet: &mut Sheet<'a>, asked: &mut A) -> Result<(), AllocError> {
    let Some(open) = sheet.open.take() else {
        return Ok(());
    };
    if let Some(name) = open.ask.strip_prefix("bytes ") {
        sheet.named.push(Named {
            name,
            bytes: open.given,
        })?;
        return Ok(());
    }
    let mut answer = Vec::new(sheet.alloc);
    asked.answer(open.ask, &open.given, &mut answer)?;
    sheet.compare(&open, &answer)
}

// Adds a piece to what is given to the open ask, or wanted of it.
fn add(
    sheet: &mut Sheet<'_>,
    number: usize,
    piece: Piece<'_>,
    is_wanted: bool,
) -> Result<(), AllocError> {
    let Some(open) = &mut sheet.open else {
        return sheet.tell(number, "there is no ask above");
    };
    let to = if is_wanted {
        &mut open.wanted
    } else {
        &mut open.given
    };
    if push_piece(sheet.alloc, &sheet.named, to, piece)? {
        return Ok(());
    }
    sheet.tell(number, "these aren't bytes")
}

fn take_line<'a, A: Asked>(
    sheet: &mut Sheet<'a>,
    asked: &mut A,
    number: usize,
    line: &'a str,
) -> Result<(), AllocError> {
    match line_of(line) {
        Line::Nothing => Ok(()),
        Line::Case(name) => {
            close(sheet, asked)?;
            sheet.begin(name);
            asked.begin();
            Ok(())
        }
        Line::Given(piece) => add(sheet, number, piece, false),
        Line::Wanted(piece) => add(sheet, number, piece, true),
        Line::Ask(ask) => {
            close(sheet, asked)?;
            sheet.open = Some(Open {
                number,
                ask,
                given: Vec::new(sheet.alloc),
                wanted: Vec::new(sheet.alloc),
            });
            Ok(())
        }
    }
}

fn take_lines<'a, A: Asked>(
    sheet: &mut Sheet<'a>,
    asked: &mut A,
    text: &'a str,
) -> Result<(), AllocError> {
    for (at, line) in text.lines().enumerate() {
        take_line(sheet, asked, at.saturating_add(1), line)?;
    }
    close(sheet, asked)
}

/// Puts what a text asks to `asked`, and tells each answer that isn't the wanted one, by the name of the text, the line, the case and
/// the ask, with what was wanted behind `-` and what came behind `+`. The last line tells how many cases the text has, and how many
/// answers were right and wrong; a line that can't be read is wrong too.
pub fn judge<A: Asked>(
    alloc: Global,
    name: &str,
    text: &str,
    asked: &mut A,
) -> Result<String, AllocError> {
    let mut sheet = Sheet::new(alloc, name);
    take_lines(&mut sheet, asked, text)?;
    format!(in alloc;
        "{}{name}: {} cases, {} right, {} wrong\n",
        sheet.told, sheet.cases, sheet.right, sheet.wrong
    )
}
