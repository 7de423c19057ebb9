//! A schedule as a page of HTML with a picture in it: a lane a thread, time to the right.

use crate::column::write_columns;
use crate::shapes::{
    Anchor, DEFINITIONS, HATCHED, Written, width_of, write_box, write_dot, write_fitted,
    write_head, write_line, write_number, write_painted, write_plain, write_text, write_word,
};
use mapworld_explorer::{Bar, Course, Held, Sleep, Waking};
use mapworld_text::Case;
use std::alloc::{AllocError, Global};

/// Where the first step is, and how far the steps go.
const LEFT: u64 = 84;

const ROOM: u64 = 1040;

/// Where the first lane begins, and how high each is.
const TOP: u64 = 44;

const LANE_HEIGHT: u64 = 62;

/// How high a bar is.
const BAR_HEIGHT: u64 = 26;

const STYLE: &str = "body{font-family:system-ui,sans-serif;margin:24px;color:#111}
h1{font-size:20px;margin:0 0 4px}p{margin:4px 0 12px}.wide{overflow-x:auto}
svg text{font-size:12px;fill:#111}svg .small{font-size:11px}svg .faint{font-size:11px;fill:#666}
svg .name{font-size:13px;font-weight:bold}svg .mono{font-family:monospace;font-size:12px}
svg .tiny{font-family:monospace;font-size:10px}
svg .answer{font-size:12px;font-style:italic;paint-order:stroke;stroke:white;stroke-width:3px}
.bar{fill-opacity:.14}.band{fill-opacity:.28}.shared{fill-opacity:.1;stroke-dasharray:4 2}
.lane{stroke:#ccc}.grid{stroke:#eee}.axis{stroke:#333}.drop{stroke:#333;stroke-dasharray:2 3}
.wake{stroke:#111;stroke-width:1.5;marker-end:url(#head)}.tick{stroke:#888}
ol{font-size:14px;line-height:1.5;padding-left:2.5em}
.narrow{display:none}@media screen and (max-width:600px){.wide{display:none}.narrow{display:block}body{margin:16px}}
@media print{svg{width:100%;height:auto}.wide{overflow:visible}}
";

/// What is told below a picture.
const KEY: &str =
    "</div>\n<p>A bar is a call; a dot is where it counts as done, on the one plain map; \
hatched, the thread sleeps; an arrow is a wake. Bands show who holds a shard, alone or \
shared (dashed); below them stands the word of its lock.</p>\n";

/// Where what is drawn stands.
#[derive(Clone, Copy)]
struct Plan {
    /// How wide a step is.
    step: u64,
    steps: u64,
    threads: usize,
}

impl Plan {
    fn of(course: &Course, threads: usize) -> Plan {
        let step = ROOM.checked_div(course.steps).unwrap_or(ROOM).max(11);
        Plan {
            step,
            steps: course.steps,
            threads,
        }
    }

    fn x(&self, step: u64) -> u64 {
        LEFT.saturating_add(self.step.saturating_mul(step.min(self.steps)))
    }

    fn width(&self) -> u64 {
        self.x(self.steps).saturating_add(24)
    }

    /// The top of a thread's bars.
    fn lane(&self, thread: usize) -> u64 {
        TOP.saturating_add(LANE_HEIGHT.saturating_mul(thread as u64))
            .saturating_add(16)
    }

    /// The line of the contents, below the lanes.
    fn contents(&self) -> u64 {
        self.lane(self.threads).saturating_add(4)
    }
}

/// The line of a step, and its number.
fn write_step(plan: Plan, step: u64, height: u64, out: &mut String) -> Written {
    let x = plan.x(step);
    write_line((x, 32), (x, height), "grid", out)?;
    write_number((x, 24), Anchor::Middle, "faint", "", step, out)
}

/// The numbers of the steps.
fn write_axis(plan: Plan, height: u64, out: &mut String) -> Written {
    let at = (LEFT.saturating_sub(12), 24);
    write_text(at, Anchor::End, "faint", "step", out)?;
    for step in 0..=plan.steps {
        if step.checked_rem(5) == Some(0) {
            write_step(plan, step, height, out)?;
        }
    }
    Ok(())
}

/// The lanes of the threads, and their names.
fn write_lanes(plan: Plan, case: &Case<'_>, out: &mut String) -> Written {
    for thread in 0..plan.threads {
        let y = plan.lane(thread).saturating_add(13);
        write_line((LEFT, y), (plan.x(plan.steps), y), "lane", out)?;
        let name = case.name_of(thread);
        write_text(
            (LEFT.saturating_sub(12), y.saturating_add(4)),
            Anchor::End,
            "name",
            name,
            out,
        )?;
    }
    Ok(())
}

/// A call, and what it is answered.
fn write_bar(plan: Plan, case: &Case<'_>, bar: &Bar, out: &mut String) -> Written {
    let x = plan.x(bar.start.saturating_sub(1));
    let end = plan.x(bar.end);
    let y = plan.lane(bar.thread);
    let width = end.saturating_sub(x);
    write_box((x, y), (width, BAR_HEIGHT), bar.thread, "bar", out)?;
    let call = case.call_of(bar.thread, bar.call);
    write_fitted(
        (x.saturating_add(4), y.saturating_sub(4)),
        width.saturating_sub(6),
        "small",
        call,
        out,
    )?;
    write_text(
        (end, y.saturating_add(39)),
        Anchor::End,
        "answer",
        bar.answer.as_str(),
        out,
    )
}

/// A sleep.
fn write_sleep(plan: Plan, sleep: &Sleep, out: &mut String) -> Written {
    let x = plan.x(sleep.start);
    let width = plan.x(sleep.end).saturating_sub(x);
    let y = plan.lane(sleep.thread);
    write_painted((x, y), (width, BAR_HEIGHT), HATCHED, out)?;
    let middle = x.saturating_add(width.checked_div(2).unwrap_or(0));
    if width > 52 {
        write_asleep(middle, y, out)
    } else {
        Ok(())
    }
}

/// The word in a sleep.
fn write_asleep(middle: u64, y: u64, out: &mut String) -> Written {
    let at = (middle.saturating_sub(23), y.saturating_add(5));
    write_painted(at, (46, 16), "fill=\"white\"", out)?;
    let at = (middle, y.saturating_add(17));
    write_text(at, Anchor::Middle, "small", "asleep", out)
}

/// Who wakes whom.
fn write_waking(plan: Plan, waking: &Waking, out: &mut String) -> Written {
    let x = plan.x(waking.step);
    let from = plan.lane(waking.by);
    let to = plan.lane(waking.thread);
    if from < to {
        write_line((x, from.saturating_add(BAR_HEIGHT)), (x, to), "wake", out)
    } else {
        write_line((x, from), (x, to.saturating_add(BAR_HEIGHT)), "wake", out)
    }
}

/// Where calls count as done.
fn write_points(plan: Plan, course: &Course, out: &mut String) -> Written {
    let line = plan.contents();
    for point in &course.points {
        let x = plan.x(point.step);
        let y = plan.lane(point.thread).saturating_add(13);
        write_line((x, y), (x, line), "drop", out)?;
        write_dot((x, y), point.thread, out)?;
    }
    write_line((LEFT, line), (plan.x(plan.steps), line), "axis", out)?;
    let at = (LEFT.saturating_sub(12), line.saturating_add(16));
    write_text(at, Anchor::End, "small", "contents", out)
}

/// The contents from a place on, and a tick above them.
fn write_pairs(at: (u64, u64), line: u64, pairs: &str, out: &mut String) -> Written {
    let (x, y) = at;
    write_line((x, line), (x, y.saturating_sub(8)), "tick", out)?;
    let at = (x.saturating_add(3), y);
    write_text(at, Anchor::Start, "mono", pairs, out)
}

/// The contents, from where on they are so; each second one lower where there is no room.
fn write_contents(plan: Plan, course: &Course, out: &mut String) -> Written {
    let line = plan.contents();
    let mut free = 0;
    let mut below = 0;
    for (step, pairs) in &course.contents {
        let x = plan.x(*step);
        below = if x < free && below == 0 { 14 } else { 0 };
        let y = line.saturating_add(16).saturating_add(below);
        write_pairs((x, y), line, pairs.as_str(), out)?;
        free = x.saturating_add(width_of(pairs.as_str())).saturating_add(8);
    }
    Ok(())
}

/// Whether a shard was ever held.
fn is_used(course: &Course, shard: usize) -> bool {
    course.holds.iter().any(|held| held.shard == shard)
}

/// Who holds a shard, and how.
fn holder(alloc: Global, case: &Case<'_>, held: &Held) -> Result<String, AllocError> {
    let mut text = String::from_str(alloc, case.name_of(held.thread))?;
    text.push_str(if held.is_alone { " alone" } else { " shares" })?;
    Ok(text)
}

/// A hold of a shard.
fn write_hold(
    alloc: Global,
    plan: Plan,
    case: &Case<'_>,
    held: &Held,
    y: u64,
    out: &mut String,
) -> Written {
    let x = plan.x(held.start.saturating_sub(1));
    let width = plan.x(held.end).saturating_sub(x);
    let y = y.saturating_add(20_u64.saturating_mul(held.thread as u64));
    let class = if held.is_alone { "band" } else { "shared" };
    write_box((x, y), (width, 16), held.thread, class, out)?;
    let at = (x.saturating_add(3), y.saturating_add(12));
    let text = holder(alloc, case, held)?;
    write_fitted(at, width.saturating_sub(5), "small", text.as_str(), out)
}

/// The holds of a shard.
fn write_holds(
    alloc: Global,
    plan: Plan,
    case: &Case<'_>,
    course: &Course,
    (shard, y): (usize, u64),
    out: &mut String,
) -> Written {
    for held in &course.holds {
        if held.shard == shard {
            write_hold(alloc, plan, case, held, y, out)?;
        }
    }
    Ok(())
}

/// The word of a lock from a place on, and a tick beside it.
fn write_word_at(x: u64, y: u64, word: u64, out: &mut String) -> Written {
    write_line(
        (x, y.saturating_sub(10)),
        (x, y.saturating_add(3)),
        "tick",
        out,
    )?;
    write_word((x.saturating_add(2), y), word, out)
}

/// The word of a shard's lock.
fn write_words(plan: Plan, course: &Course, shard: usize, y: u64, out: &mut String) -> Written {
    let at = (LEFT.saturating_sub(12), y);
    write_text(at, Anchor::End, "faint", "word", out)?;
    for (of, step, word) in &course.words {
        if *of == shard {
            write_word_at(plan.x(step.saturating_sub(1)), y, *word, out)?;
        }
    }
    Ok(())
}

/// A shard from that height on: who held it, and the word of its lock. Answers where that ends.
fn write_shard(
    alloc: Global,
    plan: Plan,
    case: &Case<'_>,
    course: &Course,
    (shard, y): (usize, u64),
    out: &mut String,
) -> Result<u64, AllocError> {
    let at = (LEFT.saturating_sub(12), y.saturating_add(12));
    write_number(at, Anchor::End, "small", "shard ", shard as u64, out)?;
    write_holds(alloc, plan, case, course, (shard, y), out)?;
    let y = y.saturating_add(20_u64.saturating_mul(plan.threads as u64));
    write_words(plan, course, shard, y.saturating_add(12), out)?;
    Ok(y.saturating_add(34))
}

/// The shards that were held. Answers where the picture ends.
fn write_shards(
    alloc: Global,
    plan: Plan,
    case: &Case<'_>,
    course: &Course,
    out: &mut String,
) -> Result<u64, AllocError> {
    let mut y = plan.contents().saturating_add(44);
    for shard in 0..case.shards {
        if is_used(course, shard) {
            y = write_shard(alloc, plan, case, course, (shard, y), out)?;
        }
    }
    Ok(y)
}

/// The calls and the sleeps.
fn write_bars(plan: Plan, case: &Case<'_>, course: &Course, out: &mut String) -> Written {
    for bar in &course.bars {
        write_bar(plan, case, bar, out)?;
    }
    for sleep in &course.sleeps {
        write_sleep(plan, sleep, out)?;
    }
    Ok(())
}

/// What is drawn of a course, above the shards: the picture is so high.
fn write_course(
    plan: Plan,
    case: &Case<'_>,
    course: &Course,
    height: u64,
    out: &mut String,
) -> Written {
    write_head(plan.width(), height, out)?;
    write_axis(plan, height.saturating_sub(8), out)?;
    write_lanes(plan, case, out)?;
    write_bars(plan, case, course, out)?;
    write_points(plan, course, out)?;
    write_contents(plan, course, out)?;
    for waking in &course.wakings {
        write_waking(plan, waking, out)?;
    }
    Ok(())
}

/// What is drawn of a course.
fn write_picture(alloc: Global, case: &Case<'_>, course: &Course, out: &mut String) -> Written {
    let plan = Plan::of(course, case.programs.len());
    let mut shards = String::new(alloc);
    let height = write_shards(alloc, plan, case, course, &mut shards)?;
    write_course(plan, case, course, height, out)?;
    out.push_str(shards.as_str())?;
    out.push_str("</svg>\n")
}

/// The steps in words.
fn write_told(course: &Course, out: &mut String) -> Written {
    out.push_str("<ol>\n")?;
    for told in &course.told {
        out.push_str("<li>")?;
        write_plain(told.text.as_str(), out)?;
        out.push_str("</li>\n")?;
    }
    out.push_str("</ol>\n")
}

/// The head of a page.
fn write_page_head(case: &Case<'_>, heading: &str, out: &mut String) -> Written {
    out.push_str("<!DOCTYPE html>\n<html lang=\"en\"><head><meta charset=\"utf-8\">")?;
    out.push_str("<meta name=\"viewport\" content=\"width=device-width\"><title>")?;
    write_plain(case.name, out)?;
    out.push_str("</title><style>")?;
    out.push_str(STYLE)?;
    out.push_str("</style></head><body>\n<h1>")?;
    write_plain(case.name, out)?;
    out.push_str("</h1>\n<p>")?;
    write_plain(heading, out)?;
    out.push_str("</p>\n")?;
    out.push_str(DEFINITIONS)
}

/// Writes a page that shows a schedule of a case, with that heading.
fn write_page(
    alloc: Global,
    case: &Case<'_>,
    heading: &str,
    course: &Course,
    out: &mut String,
) -> Written {
    write_page_head(case, heading, out)?;
    out.push_str("<div class=\"wide\">\n")?;
    write_picture(alloc, case, course, out)?;
    out.push_str("</div>\n<div class=\"narrow\">\n")?;
    write_columns(case, course, out)?;
    out.push_str(KEY)?;
    write_told(course, out)?;
    out.push_str("</body></html>\n")
}

/// A page that shows a schedule of a case, with that heading.
pub fn page(
    alloc: Global,
    case: &Case<'_>,
    heading: &str,
    course: &Course,
) -> Result<String, AllocError> {
    let mut out = String::new(alloc);
    write_page(alloc, case, heading, course, &mut out)?;
    Ok(out)
}
