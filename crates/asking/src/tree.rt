// A reading drawn as a tree: a record a line, below the one whose child it is; absent ones are left out.
use crate::labels::Label;
use crate::parts::Part;
use kinds::node;
use reading::WIDTH;
use std::fmt;

// As many records as the longest table holds.
const RECORDS: usize = 16384;

const DEEP: u32 = 64;

// Where a record stands in the tree.
#[derive(Clone, Copy)]
struct Seat {
    depth: u32,
    part: Part,
}

const ROOT: Seat = Seat {
    depth: 0,
    part: Part::Plain,
};

// Records, the seat of each, and which of them is on each line. Arrays and places in them, not boxes: fixed memory.
#[derive(Drop)]
struct Tree<'a> {
    records: &'a [[u32; WIDTH]],
    seats: [Seat; RECORDS],
    lines: [usize; RECORDS],
}

impl Tree<'_> {
    // A record: its code, its detail, and how many children and how many records below and with it there are.
    fn record(&self, record: usize) -> [u32; WIDTH] {
        self.records.get(record).copied().unwrap_or([0; WIDTH])
    }

    // In the table a record stands behind those below it, in the tree behind those above it. What else is before
    // it is the same in both.
    fn seat(&mut self, record: usize) {
        let [code, _, children, size] = self.record(record);
        let depth = self.seats.get(record).map_or(0, |seat| seat.depth);
        let others = record.wrapping_sub(size.wrapping_sub(1) as usize);
        if let Some(line) = self.lines.get_mut(others.wrapping_add(depth as usize)) {
            *line = record;
        }
        self.seat_children(record, code, children, depth.wrapping_add(1));
    }

    // The last child stands just before its parent, each other one just before the next one's subtree.
    fn seat_children(&mut self, parent: usize, code: u32, children: u32, depth: u32) {
        let mut end = parent;
        for before in (0..children).rev() {
            let child = end.wrapping_sub(1);
            if let Some(seat) = self.seats.get_mut(child) {
                *seat = Seat {
                    depth,
                    part: Part::of(code, before, children),
                };
            }
            let [_, _, _, size] = self.record(child);
            end = end.wrapping_sub(size as usize);
        }
    }

    // A line of the tree.
    fn draw_line<W: fmt::Write>(&self, out: &mut W, record: usize) -> fmt::Result {
        let [code, detail, _, _] = self.record(record);
        if code == node::ABSENT {
            return Ok(());
        }
        let seat = self.seats.get(record).copied().unwrap_or(ROOT);
        let indent = Indent(seat.depth.wrapping_add(1));
        writeln!(out, "{indent}{}{}", seat.part, Label { code, detail })
    }
}

// Left operands may stand in each other a thousand deep. From DEEP on the depth is told by its number, lest a
// line grow with it.
#[derive(Clone, Copy)]
struct Indent(u32);

// Two for each level, up to DEEP: written one by one, those of deep trees took over a third of the time.
const BLANKS: &str =
    "                                                                                                                                ";

const _: () = prove!(BLANKS.len() == 2 * DEEP as usize);

impl fmt::Display for Indent {
    fn fmt<W: fmt::Write>(&self, f: &mut fmt::Formatter<W>) -> fmt::Result {
        let depth = self.0;
        let blanks = depth.min(DEEP) as usize * 2;
        f.write_str(BLANKS.get(..blanks).unwrap_or(BLANKS))?;
        if depth < DEEP {
            return Ok(());
        }
        write!(f, "({depth}) ")
    }
}

// The first `count` records of a table.
pub fn draw<W: fmt::Write>(out: &mut W, nodes: &[u32], count: usize) -> fmt::Result {
    let (records, _) = nodes.as_chunks();
    let mut tree = Tree {
        records,
        seats: [ROOT; RECORDS],
        lines: [0; RECORDS],
    };
    let count = count.min(RECORDS);
    for record in (0..count).rev() {
        tree.seat(record);
    }
    for line in 0..count {
        tree.draw_line(out, tree.lines[line])?;
    }
    Ok(())
}
