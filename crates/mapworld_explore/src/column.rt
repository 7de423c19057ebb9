//! The same picture for narrow pages: time downwards, a column a thread.

use crate::shapes::{
    Anchor, HATCHED, Written, write_box, write_dot, write_fitted, write_head, write_line,
    write_number, write_painted, write_text,
};
use mapworld_explorer::{Bar, Course, Held, Sleep, Waking};
use mapworld_text::Case;

/// How wide all of it is, and where the first column begins.
const WIDTH: u64 = 352;

const LEFT: u64 = 26;

/// How wide the contents are.
const CONTENTS: u64 = 76;

/// Where the first step is, and how high each is.
const TOP: u64 = 24;

const STEP_HEIGHT: u64 = 17;

/// Where what is drawn stands.
#[derive(Clone, Copy)]
struct Columns {
    /// How wide a column is.
    column: u64,
    steps: u64,
    threads: usize,
}

impl Columns {
    fn of(course: &Course, threads: usize) -> Columns {
        let room = WIDTH.saturating_sub(LEFT).saturating_sub(CONTENTS);
        let column = room.checked_div(threads as u64).unwrap_or(room).max(48);
        Columns {
            column,
            steps: course.steps,
            threads,
        }
    }

    fn x(&self, thread: usize) -> u64 {
        LEFT.saturating_add(self.column.saturating_mul(thread as u64))
    }

    fn y(&self, step: u64) -> u64 {
        TOP.saturating_add(STEP_HEIGHT.saturating_mul(step.min(self.steps)))
    }

    /// How wide a bar is: beside it stand the holds.
    fn bar(&self) -> u64 {
        self.column.saturating_sub(20)
    }

    /// The middle of a thread's bars.
    fn middle(&self, thread: usize) -> u64 {
        self.x(thread)
            .saturating_add(self.bar().checked_div(2).unwrap_or(0))
    }
}

/// A call, and what it is answered.
fn write_bar(columns: Columns, case: &Case<'_>, bar: &Bar, out: &mut String) -> Written {
    let x = columns.x(bar.thread);
    let y = columns.y(bar.start.saturating_sub(1));
    let end = columns.y(bar.end);
    let width = columns.bar();
    write_box(
        (x, y),
        (width, end.saturating_sub(y)),
        bar.thread,
        "bar",
        out,
    )?;
    let call = case.call_of(bar.thread, bar.call);
    let room = width.saturating_sub(6);
    let x = x.saturating_add(3);
    write_fitted((x, y.saturating_add(12)), room, "small", call, out)?;
    write_fitted(
        (x, end.saturating_sub(4)),
        room,
        "answer",
        bar.answer.as_str(),
        out,
    )
}

/// A sleep.
fn write_sleep(columns: Columns, sleep: &Sleep, out: &mut String) -> Written {
    let x = columns.x(sleep.thread);
    let y = columns.y(sleep.start);
    let height = columns.y(sleep.end).saturating_sub(y);
    write_painted((x, y), (columns.bar(), height), HATCHED, out)
}

/// Who wakes whom.
fn write_waking(columns: Columns, waking: &Waking, out: &mut String) -> Written {
    let y = columns.y(waking.step);
    let from = columns.x(waking.by);
    let to = columns.x(waking.thread);
    let bar = columns.bar();
    if from < to {
        write_line((from.saturating_add(bar), y), (to, y), "wake", out)
    } else {
        write_line((from, y), (to.saturating_add(bar), y), "wake", out)
    }
}

/// A hold, beside its thread's bars.
fn write_hold(columns: Columns, held: &Held, out: &mut String) -> Written {
    let x = columns
        .x(held.thread)
        .saturating_add(columns.bar())
        .saturating_add(4);
    let y = columns.y(held.start.saturating_sub(1));
    let height = columns.y(held.end).saturating_sub(y);
    let class = if held.is_alone { "band" } else { "shared" };
    write_box((x, y), (10, height), held.thread, class, out)
}

/// The line of a step, and its number.
fn write_step(columns: Columns, step: u64, out: &mut String) -> Written {
    let y = columns.y(step);
    write_line((LEFT, y), (WIDTH, y), "grid", out)?;
    let at = (20, y.saturating_add(4));
    write_number(at, Anchor::End, "faint", "", step, out)
}

/// The steps' numbers.
fn write_steps(columns: Columns, out: &mut String) -> Written {
    for step in 0..=columns.steps {
        if step.checked_rem(5) == Some(0) {
            write_step(columns, step, out)?;
        }
    }
    Ok(())
}

/// The threads' names.
fn write_names(columns: Columns, case: &Case<'_>, out: &mut String) -> Written {
    for thread in 0..columns.threads {
        let at = (columns.middle(thread), 14);
        write_text(at, Anchor::Middle, "name", case.name_of(thread), out)?;
    }
    Ok(())
}

/// The contents, from where on they are so.
fn write_contents(columns: Columns, course: &Course, out: &mut String) -> Written {
    let x = columns.x(columns.threads);
    for (step, pairs) in &course.contents {
        let y = columns.y(*step);
        write_line((x, y), (x.saturating_add(CONTENTS), y), "axis", out)?;
        let room = CONTENTS.saturating_sub(4);
        write_fitted(
            (x.saturating_add(2), y.saturating_add(13)),
            room,
            "mono",
            pairs.as_str(),
            out,
        )?;
    }
    Ok(())
}

/// The calls and the sleeps.
fn write_bars(columns: Columns, case: &Case<'_>, course: &Course, out: &mut String) -> Written {
    for bar in &course.bars {
        write_bar(columns, case, bar, out)?;
    }
    for sleep in &course.sleeps {
        write_sleep(columns, sleep, out)?;
    }
    Ok(())
}

/// The holds, and where calls count as done.
fn write_holds(columns: Columns, course: &Course, out: &mut String) -> Written {
    for held in &course.holds {
        write_hold(columns, held, out)?;
    }
    for point in &course.points {
        let at = (columns.middle(point.thread), columns.y(point.step));
        write_dot(at, point.thread, out)?;
    }
    Ok(())
}

/// What is drawn of a course.
pub fn write_columns(case: &Case<'_>, course: &Course, out: &mut String) -> Written {
    let columns = Columns::of(course, case.programs.len());
    let width = columns.x(columns.threads).saturating_add(CONTENTS);
    let height = columns.y(columns.steps).saturating_add(12);
    write_head(width, height, out)?;
    write_steps(columns, out)?;
    write_names(columns, case, out)?;
    write_bars(columns, case, course, out)?;
    write_holds(columns, course, out)?;
    for waking in &course.wakings {
        write_waking(columns, waking, out)?;
    }
    write_contents(columns, course, out)?;
    out.push_str("</svg>\n")
}
