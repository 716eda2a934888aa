// The report in parts: from a cursor on, as many whole lines of a user as a buffer has room for.
ghost use Rattle.std.specs.Prelude.{◌≤◌, length};
ghost use Rattle.access.specs.Rights.{rights_of};
ghost use Rattle.hierarchy.specs.Below.{Tabled};
ghost use Rattle.image.specs.Check.{IsAccepted};
ghost use Rattle.lines.specs.Parts.{AtOpening, FilledFrom, NextPart, FirstPart};

use crate::line::line;
use crate::refused::refusal_line;
use access::rights::View;
use header::layout;
use hierarchy::table::Table;
use image::check_table;
use sessions::given::opened_rights;

// The line to go on with: the places of its user and its label record.
#[derive(Clone, Copy)]
pub struct Cursor {
    pub user: usize,
    pub label: usize,
}

// How many bytes of the buffer are written, and the line to go on with: None after the last part.
#[derive(Clone, Copy)]
pub struct Part {
    pub length: usize,
    pub next: Option<Cursor>,
}

// The label record to go on with, and how many bytes of the buffer are written.
#[derive(Clone, Copy)]
pub struct Filled {
    pub next: usize,
    pub length: usize,
}

// Writes the user's lines from the k-th label record on to the buffer's front, while another line surely has room: 43 bytes, for a
// name of 30, a tag of 8 digits, two blanks, two letters and the line's end. The view is what the user's opened session gives.
fn user_lines(image: &[u8], view: View, u: usize, k: usize, buffer: &mut [u8]) -> Filled
    requires { AtOpening image.now u (rights_of view) }
    ensures { FilledFrom image.now u k buffer.old buffer.new result.next result.length }
{
    let count = layout::labels(image);
    let mut length = 0;
    for next in k..count {
        if buffer.len() - length < 43 {
            return Filled { next, length };
        }
        length = line(image, view, u, next, buffer, length);
    }
    Filled {
        next: count.max(k),
        length,
    }
}

// Writes the next part of an accepted image's report to the buffer's front.
pub fn next_part(image: &[u8], table: &Table, from: Cursor, buffer: &mut [u8]) -> Part
    requires { IsAccepted image.now × Tabled image.now table.now }
    ensures { NextPart image.now from buffer.old buffer.new result }
{
    let count = layout::users(image);
    let user = from.user;
    if user >= count {
        return Part {
            length: 0,
            next: None,
        };
    }
    let view = opened_rights(image, table, user);
    let filled = user_lines(image, view, user, from.label, buffer);
    let after = user + 1;
    let next = if filled.next < layout::labels(image) {
        Some(Cursor {
            user,
            label: filled.next,
        })
    } else if after < count {
        Some(Cursor {
            user: after,
            label: 0,
        })
    } else {
        None
    };
    Part {
        length: filled.length,
        next,
    }
}

// Checks the image and begins its output: with an empty part before the report's first line, for which the table is filled, or with
// the refusal's line at the buffer's front, which is all.
pub fn first_part(image: &[u8], table: &mut Table, buffer: &mut [u8]) -> Part
    requires { 64 ≤ length buffer.old }
    ensures { FirstPart image.now table.new buffer.new result }
{
    match check_table(image, table) {
        Ok(()) => Part {
            length: 0,
            next: Some(Cursor { user: 0, label: 0 }),
        },
        Err(refusal) => Part {
            length: refusal_line(refusal, buffer),
            next: None,
        },
    }
}
