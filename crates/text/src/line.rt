// The lines of a listing, each made in memory of its own.
ghost use Rattle.std.specs.Prelude.{◌≡◌, ℕ, ◌+◌, ◌≤◌, List, [], ◌++◌, length, take};
ghost use Rattle.sets.specs.Members.{capacity, members};
ghost use Rattle.text.specs.Listing.{field, head_line, member_list, group_line, refusal_line};
ghost use Rattle.text.specs.Making.{digit_room, member_room, core_of};
ghost use Rattle.text.specs.declared.line.TheConstants.{LINE_ROOM};

use itoa::Buffer;
use logs::put;
use sets::BadgeSet;
use std::marker::Model;

// How many bytes there is room for: more than the longest line has.
pub(crate) const LINE_ROOM: usize = 512;

// The bytes of a line, appended one part after the other; a clause sees the list of them. An `ArrayVec` is no plainer here: its
// `try_extend_from_slice` answers whether there was room, which each call would have to drop.
#[derive(Drop)]
pub(crate) struct Line {
    bytes: [u8; LINE_ROOM],
    len: usize,
}

impl Model for Line {
    ghost Value = { List ℕ };

    ghost view = { λ l. take l.len l.bytes };

    ghost invariant = { λ l. l.len ≤ LINE_ROOM };
}

impl Line {
    // No bytes.
    fn new() -> Line
        ensures { result ≡ [] }
    {
        Line {
            bytes: [0; LINE_ROOM],
            len: 0,
        }
    }

    // The bytes so far.
    pub(crate) fn as_slice(&self) -> &[u8]
        ensures { result.now ≡ self.now }
    {
        &self.bytes[..self.len]
    }

    // Appends bytes for which there is room.
    fn append(&mut self, bytes: &[u8])
        requires { length self.old + length bytes.now ≤ LINE_ROOM }
        ensures { self.new ≡ self.old ++ bytes.now }
    {
        put(&mut self.bytes, self.len, bytes);
        self.len += bytes.len();
    }

    // Appends a label and a number in decimal digits. A `write!` cannot be used here: it promises its text only where it answers Ok, and nothing
    // says that it does.
    fn append_field(&mut self, label: &[u8], n: usize)
        requires { length self.old + length label.now + digit_room ≤ LINE_ROOM }
        ensures appends { self.new ≡ self.old ++ field label.now n }
        ensures upper_bound { length self.new ≤ length self.old + length label.now + digit_room }
    {
        let mut digits = Buffer::new();
        self.append(label);
        self.append(digits.format(n).as_bytes());
    }

    // Appends the members of a set, rising, each after a space.
    fn append_members(&mut self, set: BadgeSet)
        requires { length self.old + member_room capacity + digit_room + 1 ≤ LINE_ROOM }
        ensures appends { self.new ≡ self.old ++ member_list (members set) }
        ensures upper_bound { length self.new ≤ length self.old + member_room capacity }
    {
        for u in set.badges() {
            self.append_field(b" ", u);
        }
    }
}

// A group: its order, its first and last tick, and its members.
#[derive(Clone, Copy)]
pub(crate) struct Group {
    pub(crate) order: u8,
    pub(crate) first: u8,
    pub(crate) last: u8,
    pub(crate) members: BadgeSet,
}

// The first line of a report.
pub(crate) fn head_line(badges: u8, ticks: u8, groups: usize) -> Line
    ensures { result ≡ head_line badges ticks groups }
{
    let mut line = Line::new();
    line.append_field(b"badges ", usize::from(badges));
    line.append_field(b" ticks ", usize::from(ticks));
    line.append_field(b" groups ", groups);
    line.append(b"\n");
    line
}

// The line of a group.
pub(crate) fn group_line(group: Group) -> Line
    ensures { result ≡ group_line (core_of group) }
{
    let mut line = Line::new();
    line.append_field(b"order ", usize::from(group.order));
    line.append_field(b" ticks ", usize::from(group.first));
    line.append_field(b" to ", usize::from(group.last));
    line.append(b" badges");
    line.append_members(group.members);
    line.append(b"\n");
    line
}

// The line of a refusal.
pub(crate) fn refusal_line(number: u8, offset: usize) -> Line
    ensures { result ≡ refusal_line number offset }
{
    let mut line = Line::new();
    line.append_field(b"refused ", usize::from(number));
    line.append_field(b" at ", offset);
    line.append(b"\n");
    line
}
