//! A picture in characters.

use crate::cells::{blanks, fill, push_row, put, put_text};
use crate::columns::{Columns, Span};
use crate::labels::{ArrowLabel, RefusalLabel};
use crate::picture::{Arrow, Change, CycleWait, Delivery, Note, Picture, Row, Tone};
use crate::waits::LEGEND;
use std::alloc::{AllocError, Global};

/// The mark of a failure.
const FAILED: char = '✗';

/// The rows of a picture that are written so far.
#[derive(Drop)]
struct Writer {
    alloc: Global,
    columns: Columns,
    /// What each line of life looks like: that of a rank that is there, is blocked, or has ended.
    lives: Vec<char>,
    out: String,
}

/// Whether a datagram comes in the row behind the one in which it was emitted, and is taken: both are one arrow then.
fn is_direct(arrow: &Arrow) -> bool {
    match arrow.arrivals.first() {
        Some(arrival) => arrival.is_taken && arrival.row == arrow.row.saturating_add(1),
        None => false,
    }
}

/// A text, or its beginning and `..` where it is longer than that.
fn put_shortened(row: &mut Vec<char>, place: usize, text: &[u8], most: usize) {
    if text.len() <= most {
        put_text(row, place, text);
        return;
    }
    let (first, _) = text.split_at(most.saturating_sub(2).min(text.len()));
    put_text(row, place, first);
    put_text(row, place.saturating_add(first.len()), b"..");
}

/// How much of a text stands in the first of several rows of so many characters: whole words, where one has room.
fn first_part(text: &[u8], most: usize) -> usize {
    if text.len() <= most {
        return text.len();
    }
    let (front, _) = text.split_at(most.saturating_add(1).min(text.len()));
    match front.iter().rposition(|byte| *byte == b' ') {
        Some(place) => place,
        None => most,
    }
}

/// The line of an arrow with its head.
fn put_arrow(row: &mut Vec<char>, span: Span, is_right: bool, line: char, head: char) {
    fill(row, span.first, span.end, line);
    if span.len() > 0 {
        put(row, span.tip(is_right), head);
    }
}

/// Writes what an arrow stands for: on it where that leaves some of its line, else behind its right end, or before its
/// left one.
fn put_label(columns: Columns, row: &mut Vec<char>, span: Span, is_right: bool, text: &[u8]) {
    let length = text.len();
    if length.saturating_add(6) <= span.len() {
        let place = if is_right {
            span.first.saturating_add(3)
        } else {
            span.end.saturating_sub(length.saturating_add(3))
        };
        put(row, place.saturating_sub(1), ' ');
        put_text(row, place, text);
        put(row, place.saturating_add(length), ' ');
    } else if span.end.saturating_add(length.saturating_add(2)) <= columns.width {
        put_text(row, span.end.saturating_add(2), text);
    } else {
        put_text(
            row,
            span.first.saturating_sub(length.saturating_add(2)),
            text,
        );
    }
}

/// Where words stand that tell for what a rank waits: on its arrow, if it has but one and that leaves some of its line,
/// else behind the right end of its arrows, or before their left one; nowhere where they have no room.
fn place_of_words(columns: Columns, span: Span, is_one: bool, length: usize) -> Option<usize> {
    if is_one && length.saturating_add(6) <= span.len() {
        Some(span.first.saturating_add(3))
    } else if span.end.saturating_add(length.saturating_add(2)) <= columns.width {
        Some(span.end.saturating_add(2))
    } else if length.saturating_add(2) <= span.first {
        Some(span.first.saturating_sub(length.saturating_add(2)))
    } else {
        None
    }
}

/// The mark of a note on the line of life, where it has one of its own.
fn own_mark(note: &Note) -> Option<char> {
    match (note.change, note.tone) {
        (Change::StartsAnew(_), _) => Some('╳'),
        (_, Tone::Fails) => Some(FAILED),
        (Change::Ends, _) => Some('■'),
        _ => None,
    }
}

/// A call and what it answered.
fn note_text(alloc: Global, call: &[u8], answer: &[u8]) -> Result<Vec<u8>, AllocError> {
    let mut text = Vec::from_slice(alloc, call)?;
    if answer.is_empty() {
        return Ok(text);
    }
    if !call.is_empty() {
        text.extend_from_slice(b" ")?;
    }
    text.extend_from_slice(b"=> ")?;
    text.extend_from_slice(answer)?;
    Ok(text)
}

impl Writer {
    fn new(alloc: Global, size: u16, width: usize) -> Result<Writer, AllocError> {
        Ok(Writer {
            alloc,
            columns: Columns::of(size, width),
            lives: vec![in alloc; '│'; usize::from(size)]?,
            out: String::new(alloc),
        })
    }

    /// A row with nothing in it but the lines of life.
    fn blank_row(&self) -> Result<Vec<char>, AllocError> {
        let mut row = blanks(self.alloc, self.columns.width)?;
        for (rank, line) in self.lives.iter().enumerate() {
            put(&mut row, rank.saturating_mul(self.columns.column), *line);
        }
        Ok(row)
    }

    fn push(&mut self, row: &[char]) -> Result<(), AllocError> {
        push_row(&mut self.out, row)
    }

    /// The names of the ranks.
    fn write_names(&mut self, size: u16) -> Result<(), AllocError> {
        let mut row = blanks(self.alloc, self.columns.width)?;
        for rank in 0..size {
            let name = format!(in self.alloc; "rank {rank}")?;
            put_text(&mut row, self.columns.place_of(rank), name.as_bytes());
        }
        self.push(&row)
    }

    /// What a rank's line of life looks like is this now.
    fn change(&mut self, note: &Note) {
        if let Some(cell) = self.lives.get_mut(usize::from(note.rank)) {
            match note.change {
                Change::Stays | Change::WaitsForEver => {}
                Change::Blocks => *cell = '┃',
                Change::Resumes | Change::StartsAnew(_) => *cell = '│',
                Change::Ends => *cell = '┊',
            }
        }
    }

    /// Writes a text that has no room in one row beside a rank's line of life, over several.
    fn write_over_rows(&mut self, rank: u16, span: Span, text: &[u8]) -> Result<(), AllocError> {
        let mut rest = text;
        for step in 0..text.len() {
            let part = first_part(rest, span.len()).max(1).min(rest.len());
            let (first, behind) = rest.split_at(part);
            let mut row = self.blank_row()?;
            if step == 0 {
                put(&mut row, self.columns.place_of(rank), FAILED);
            }
            put_text(&mut row, span.first, first);
            self.push(&row)?;
            rest = behind.trim_ascii_start();
            if rest.is_empty() {
                return Ok(());
            }
        }
        Ok(())
    }

    /// Writes a text beside a rank's line of life, with a mark on the line where there is a mark of its own. What
    /// failed is never shortened.
    fn write_beside(
        &mut self,
        rank: u16,
        text: &[u8],
        own: Option<char>,
    ) -> Result<(), AllocError> {
        let span = self.columns.beside(rank, text.len());
        if own == Some(FAILED) && span.len() < text.len() {
            return self.write_over_rows(rank, span, text);
        }
        let mut row = self.blank_row()?;
        let place = self.columns.place_of(rank);
        let side = if place < span.first { '├' } else { '┤' };
        put(&mut row, place, own.unwrap_or(side));
        put_shortened(&mut row, span.first, text, span.len());
        self.push(&row)
    }

    /// Writes a note in one row, or in two where its call would fit to the right of the line, and its answer not behind
    /// it.
    fn write_note(&mut self, note: &Note) -> Result<(), AllocError> {
        self.change(note);
        let own = own_mark(note);
        let whole = note_text(self.alloc, &note.call, &note.answer)?;
        let room = self.columns.right_of(note.rank).len();
        if whole.len() <= room || note.call.is_empty() || note.call.len() > room {
            return self.write_beside(note.rank, &whole, own);
        }
        self.write_beside(note.rank, &note.call, None)?;
        let answer = note_text(self.alloc, b"", &note.answer)?;
        self.write_beside(note.rank, &answer, own)
    }

    fn write_emitted(&mut self, number: usize, arrow: &Arrow) -> Result<(), AllocError> {
        let mut row = self.blank_row()?;
        let (from, to) = (arrow.source.rank, arrow.target.rank);
        let is_right = from < to;
        let span = if arrow.arrivals.is_empty() {
            self.columns.lost(from, to)
        } else {
            self.columns.departure(from, to, is_direct(arrow))
        };
        let head = match (arrow.arrivals.is_empty(), is_right) {
            (true, _) => '×',
            (false, true) => '►',
            (false, false) => '◄',
        };
        put_arrow(&mut row, span, is_right, '─', head);
        let label = ArrowLabel {
            number,
            load: arrow.load,
            words: &arrow.words,
            is_resent: arrow.is_resent,
        };
        let text = format!(in self.alloc; "{label}")?;
        put_label(self.columns, &mut row, span, is_right, text.as_bytes());
        self.push(&row)
    }

    fn write_delivered(&mut self, delivery: &Delivery, arrow: &Arrow) -> Result<(), AllocError> {
        let mut row = self.blank_row()?;
        let (from, to) = (arrow.source.rank, arrow.target.rank);
        let is_right = from < to;
        let span = if arrow.words.is_empty() {
            self.columns.arrival(from, to)
        } else {
            self.columns.approach(from, to)
        };
        let head = if is_right { '►' } else { '◄' };
        put_arrow(&mut row, span, is_right, '┄', head);
        let label = RefusalLabel {
            number: delivery.datagram,
            words: &arrow.words,
            answer: &delivery.answer,
        };
        let text = format!(in self.alloc; "{label}")?;
        put_label(self.columns, &mut row, span, is_right, text.as_bytes());
        self.push(&row)
    }

    fn write_outside(&mut self, text: &[u8]) -> Result<(), AllocError> {
        let mut row = self.blank_row()?;
        let span = Span {
            first: 2,
            end: self.columns.width,
        };
        put_shortened(&mut row, span.first, text, span.len());
        self.push(&row)
    }

    /// The places of all arrows of a rank that waits.
    fn all_of(&self, wait: &CycleWait) -> Span {
        let own = self.columns.place_of(wait.rank);
        let mut all = Span {
            first: own.saturating_add(1),
            end: own,
        };
        for other in &wait.whom {
            let span = self.columns.wait(wait.rank, *other);
            all.first = all.first.min(span.first);
            all.end = all.end.max(span.end);
        }
        all
    }

    /// The arrows of a rank that waits, and the lines of life to which they go.
    fn put_waits(&self, row: &mut Vec<char>, wait: &CycleWait) {
        for other in &wait.whom {
            let span = self.columns.wait(wait.rank, *other);
            fill(row, span.first, span.end, '═');
        }
        for other in &wait.whom {
            let is_right = wait.rank < *other;
            let span = self.columns.wait(wait.rank, *other);
            put(row, span.tip(is_right), if is_right { '►' } else { '◄' });
            if let Some(line) = self.lives.get(usize::from(*other)) {
                put(row, self.columns.place_of(*other), *line);
            }
        }
    }

    /// Writes for whom a rank of a cycle waits, and for what, if that has room.
    fn write_wait(&mut self, wait: &CycleWait) -> Result<(), AllocError> {
        let mut row = self.blank_row()?;
        self.put_waits(&mut row, wait);
        let span = self.all_of(wait);
        let (is_one, length) = (wait.whom.len() == 1, wait.words.len());
        if let Some(place) = place_of_words(self.columns, span, is_one, length) {
            put(&mut row, place.saturating_sub(1), ' ');
            put_text(&mut row, place, &wait.words);
            put(&mut row, place.saturating_add(length), ' ');
        }
        self.push(&row)
    }

    /// Writes what the arrows of a cycle mean.
    fn write_legend(&mut self) -> Result<(), AllocError> {
        let mut row = self.blank_row()?;
        fill(&mut row, 2, 4, '═');
        put(&mut row, 4, '►');
        put_shortened(
            &mut row,
            6,
            LEGEND.as_bytes(),
            self.columns.width.saturating_sub(6),
        );
        self.push(&row)
    }

    /// Writes the row at a place, but for the arrival that stands in the row before it.
    fn write_row(&mut self, picture: &Picture, place: usize, row: &Row) -> Result<(), AllocError> {
        match row {
            Row::Told(note) => self.write_note(note),
            Row::Emitted(number) => match picture.arrows.get(*number) {
                Some(arrow) => self.write_emitted(*number, arrow),
                None => Ok(()),
            },
            Row::Delivered(delivery) => match picture.arrows.get(delivery.datagram) {
                Some(arrow) if is_direct(arrow) && place == arrow.row.saturating_add(1) => Ok(()),
                Some(arrow) => self.write_delivered(delivery, arrow),
                None => Ok(()),
            },
            Row::Outside(text) => self.write_outside(text),
            Row::Cycle => self.write_legend(),
            Row::Waits(wait) => self.write_wait(wait),
        }
    }
}

/// A picture in rows of at most so many characters, as far as the ranks fit; a column has at least 10.
pub fn text_of(alloc: Global, picture: &Picture, width: usize) -> Result<String, AllocError> {
    let mut writer = Writer::new(alloc, picture.size, width)?;
    writer.write_names(picture.size)?;
    for (place, row) in picture.rows.iter().enumerate() {
        writer.write_row(picture, place, row)?;
    }
    Ok(writer.out)
}
