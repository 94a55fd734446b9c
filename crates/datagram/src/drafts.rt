//! The bytes of a datagram, as they are kept.

ghost use Rattle.std.specs.Prelude.{◌≡◌, IfOk, IsOkUnless};
ghost use Rattle.datagram.specs.Spellings.{content_text, datagram_text, spelling, BodyFits, SequenceFits};

use crate::bytes::{Bytes, Storage};
use crate::datagram::{Content, Datagram};
use crate::refusal::DatagramRefusal;
use crate::wire_format::LONGEST_DATAGRAM;
use crate::writing::write;
use std::alloc::Global;
use std::marker::Model;
use std::rc::Rc;

/// A body of at most so many bytes stands with its header in a `Bytes` itself.
const SHORT_BODY: usize = 32;

/// The memory of at most so many datagrams is kept for those to come: as many as the largest message has.
const MOST_SPARE: usize = 1024;

/// And of no more than so many bytes, were all as long as the last one: as many as 1,024 of a script's have.
const MOST_BYTES: usize = MOST_SPARE * LONGEST_DATAGRAM;

/// Where datagrams are spelled, and the memory of those that are gone, for those to come. It saves asking for memory,
/// and nothing else: contracts see nothing of it.
#[derive(Drop)]
pub struct Drafts {
    /// Where all memory of datagrams comes from.
    alloc: Global,
    /// Where short datagrams are spelled before they are copied. What it holds says nothing.
    short: Vec<u8>,
    /// Memory in which long datagrams stood, and where later ones may stand once it has no other owner.
    spare: Vec<Rc<Vec<u8>>>,
}

impl Model for Drafts {
    ghost Value = { Unit {0} };

    ghost view = { λ _. tt };
}

/// Whether the bytes need no memory of their own.
fn is_short(content: Content) -> bool
    requires { BodyFits (content_text content) }
{
    match content {
        Content::Frame(frame) => frame.len() <= SHORT_BODY,
        Content::Ack(_) => true,
        Content::Reset => true,
    }
}

/// The bytes that spell a datagram, in new memory.
fn spell_anew(alloc: Global, datagram: &Datagram) -> Result<Bytes, DatagramRefusal>
    requires body { BodyFits (content_text datagram.now.content) }
    requires sequence { SequenceFits datagram.now.header.sequence (content_text datagram.now.content) }
    ensures ok { IfOk result (λ bytes. bytes ≡ spelling (datagram_text datagram.now)) }
    ensures memory { IsOkUnless result DatagramRefusal.OutOfMemory }
{
    let mut bytes = Vec::new(alloc);
    write(datagram, &mut bytes)?;
    match Bytes::from_vec(bytes) {
        Ok(bytes) => Ok(bytes),
        Err(_) => Err(DatagramRefusal::OutOfMemory),
    }
}

impl Drafts {
    /// No memory that is kept. It takes none.
    pub fn new(alloc: Global) -> Self {
        Drafts {
            alloc,
            short: Vec::new(alloc),
            spare: Vec::new(alloc),
        }
    }

    /// Spells a short datagram: on the draft, from which it is copied.
    #[inline(always)]
    fn spell_short(&mut self, datagram: &Datagram) -> Result<Bytes, DatagramRefusal>
        requires body { BodyFits (content_text datagram.now.content) }
        requires sequence { SequenceFits datagram.now.header.sequence (content_text datagram.now.content) }
        ensures ok { IfOk result (λ bytes. bytes ≡ spelling (datagram_text datagram.now)) }
        ensures memory { IsOkUnless result DatagramRefusal.OutOfMemory }
    {
        self.short.clear();
        write(datagram, &mut self.short)?;
        match Bytes::from_slice(self.alloc, &self.short) {
            Ok(bytes) => Ok(bytes),
            Err(_) => Err(DatagramRefusal::OutOfMemory),
        }
    }

    /// Spells a long datagram where it stays.
    fn spell_long(&mut self, datagram: &Datagram) -> Result<Bytes, DatagramRefusal>
        requires body { BodyFits (content_text datagram.now.content) }
        requires sequence { SequenceFits datagram.now.header.sequence (content_text datagram.now.content) }
        ensures ok { IfOk result (λ bytes. bytes ≡ spelling (datagram_text datagram.now)) }
        ensures memory { IsOkUnless result DatagramRefusal.OutOfMemory }
    {
        let Some(mut spare) = self.spare.pop() else {
            return spell_anew(self.alloc, datagram);
        };
        let Some(bytes) = Rc::get_mut(&mut spare) else {
            return spell_anew(self.alloc, datagram);
        };
        bytes.clear();
        write(datagram, bytes)?;
        Ok(Bytes {
            storage: Storage::Shared(spare),
        })
    }

    /// The bytes that spell a datagram, for which `write` asks the same. The only refusal is want of memory. A short
    /// one, which is an acknowledgement, a reset, or a frame of at most 32 bytes, takes no memory once the first one
    /// was spelled; a long one takes none where that of one as long was kept and has no other owner any more.
    #[inline(always)]
    pub fn spell(&mut self, datagram: &Datagram) -> Result<Bytes, DatagramRefusal>
        requires body { BodyFits (content_text datagram.now.content) }
        requires sequence { SequenceFits datagram.now.header.sequence (content_text datagram.now.content) }
        ensures ok { IfOk result (λ bytes. bytes ≡ spelling (datagram_text datagram.now)) }
        ensures memory { IsOkUnless result DatagramRefusal.OutOfMemory }
    {
        if is_short(datagram.content) {
            self.spell_short(datagram)
        } else {
            self.spell_long(datagram)
        }
    }

    /// Keeps the memory of bytes whose other owners are about to go, for a datagram to come. Bytes that stand in the
    /// value itself have none, and no more than that of 1,024 is kept.
    pub fn keep(&mut self, bytes: &Bytes)
        ensures { self.new ≡ self.old }
    {
        let Storage::Shared(items) = &bytes.storage else {
            return;
        };
        if self.spare.len() < MOST_SPARE && items.len() <= MOST_BYTES / (self.spare.len() + 1) {
            if let Ok(items) = items.clone() {
                let _ = self.spare.push(items);
            }
        }
    }
}
