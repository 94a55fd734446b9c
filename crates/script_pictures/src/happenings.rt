//! What happens in a play, as it is drawn.

use run_drawings::{Change, CycleWait, Delivery, Emission, Note, Picture, Tone};
use std::alloc::{AllocError, Global};

/// Something that is drawn.
#[derive(Drop)]
enum Happening {
    /// A rank did something, or something happened to it.
    Told(Note),
    /// A datagram goes out.
    Emitted(Emission),
    /// A datagram comes.
    Delivered(Delivery),
    /// Ranks wait for one another, as is told behind this.
    Cycle,
    /// A rank of a cycle waits.
    Waits(CycleWait),
}

/// What has happened so far, in order.
#[derive(Drop)]
pub(crate) struct Happenings {
    alloc: Global,
    list: Vec<Happening>,
}

impl Happenings {
    /// Nothing.
    pub(crate) fn new(alloc: Global) -> Happenings {
        Happenings {
            alloc,
            list: Vec::new(alloc),
        }
    }

    /// Adds what a rank did. Answers its place.
    pub(crate) fn tell(&mut self, note: Note) -> Result<usize, AllocError> {
        let place = self.list.len();
        self.list.push(Happening::Told(note))?;
        Ok(place)
    }

    /// Adds that a datagram goes out.
    pub(crate) fn emit(&mut self, emission: Emission) -> Result<(), AllocError> {
        self.list.push(Happening::Emitted(emission))?;
        Ok(())
    }

    /// Adds that a datagram comes.
    pub(crate) fn deliver(&mut self, delivery: Delivery) -> Result<(), AllocError> {
        self.list.push(Happening::Delivered(delivery))?;
        Ok(())
    }

    /// Adds that the waits behind this are a cycle.
    pub(crate) fn begin_cycle(&mut self) -> Result<(), AllocError> {
        self.list.push(Happening::Cycle)?;
        Ok(())
    }

    /// Adds that a rank of a cycle waits.
    pub(crate) fn wait(&mut self, wait: CycleWait) -> Result<(), AllocError> {
        self.list.push(Happening::Waits(wait))?;
        Ok(())
    }

    fn note(&mut self, place: usize) -> Option<&mut Note> {
        match self.list.get_mut(place) {
            Some(Happening::Told(note)) => Some(note),
            _ => None,
        }
    }

    /// Whether what a rank did at this place has no answer yet.
    pub(crate) fn is_unanswered(&self, place: usize) -> bool {
        match self.list.get(place) {
            Some(Happening::Told(note)) => note.answer.is_empty(),
            _ => false,
        }
    }

    /// What a rank did at this place was answered so.
    pub(crate) fn answer(&mut self, place: usize, words: Vec<u8>, tone: Tone) {
        match self.note(place) {
            Some(note) => {
                note.answer = words;
                note.tone = tone;
            }
            None => drop(words),
        }
    }

    /// What a rank did at this place changes its line of life so.
    pub(crate) fn change(&mut self, place: usize, change: Change) {
        if let Some(note) = self.note(place) {
            note.change = change;
        }
    }

    /// The picture of what happened to so many ranks.
    pub(crate) fn into_picture(self, size: u16) -> Result<Picture, AllocError> {
        let Happenings { alloc, list } = self;
        let mut picture = Picture::new(alloc, size);
        for happening in list {
            match happening {
                Happening::Told(note) => picture.tell(note)?,
                Happening::Emitted(emission) => picture.emit(alloc, emission)?,
                Happening::Delivered(delivery) => picture.deliver(delivery)?,
                Happening::Cycle => picture.tell_cycle()?,
                Happening::Waits(wait) => picture.tell_wait(wait)?,
            }
        }
        Ok(picture)
    }
}
