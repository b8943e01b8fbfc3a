// The listing of a log as text, from what judging it came to and the bytes of its report.
use crate::bytes::{CORE_BYTES, HEADER_BYTES, ROOM, rest_of};
use crate::judging::{Accepted, Judgement};
use crate::limits::MAX_BADGES;
use arrayvec::ArrayString;
use std::fmt;
use std::fmt::Write;

// A text, for which there is as much room as for its report.
pub type Text = ArrayString<ROOM>;

// Whether badge v is among members in bytes, eight badges to a byte.
fn is_member(members: &[u8], v: usize) -> bool {
    members
        .get(v / 8)
        .is_some_and(|byte| (*byte >> (v % 8)) & 1 == 1)
}

// Puts the badges of a group at the end of its line.
fn put_members(text: &mut Text, members: &[u8]) -> fmt::Result {
    for v in (0..MAX_BADGES).filter(|v| is_member(members, *v)) {
        write!(text, " {v}")?;
    }
    writeln!(text)
}

// Puts the line of a group.
fn put_group(text: &mut Text, group: &[u8]) -> fmt::Result {
    match group {
        [b'G', b'R', order, first, last, members @ ..] => {
            write!(text, "order {order} ticks {first} to {last} badges")?;
            put_members(text, members)
        }
        _ => Ok(()),
    }
}

// Puts the lines of a report: its groups follow its header.
fn put_report(text: &mut Text, day: Accepted, report: &[u8]) -> fmt::Result {
    let groups = rest_of(report, HEADER_BYTES).chunks_exact(CORE_BYTES);
    writeln!(
        text,
        "badges {} ticks {} groups {}",
        day.badges,
        day.ticks,
        groups.len()
    )?;
    for group in groups {
        put_group(text, group)?;
    }
    Ok(())
}

// The listing of a log, with the report of its day. What finds no room is left out.
pub fn listing(judged: Judgement, report: &[u8]) -> Text {
    let mut text = Text::new();
    let _ = match judged {
        Ok(day) => put_report(&mut text, day, report),
        Err(refusal) => writeln!(text, "refused {} at {}", refusal.number(), refusal.offset),
    };
    text
}
