//! The place of a thread's transaction.
ghost use Rattle.std.specs.Prelude.{◌≡◌, ◌+◌, ◌%◌, ◌<◌, ◌≤◌, ◌&&◌, ◌||◌, ◌*◌, ◌^◌, not, true, None, Some, IfOk, IfSome, is_some};
ghost use Rattle.ir_layout.specs.Memory.{is_valid};
ghost use Rattle.line_sets.specs.Sets.{takes, place_in};
ghost use Rattle.mem_image.specs.Accesses.{bytes};
ghost use Rattle.mem_image.specs.Bytes.{IsWhole, read_of};
ghost use Rattle.mem_image.specs.Lines.{line_of, line_size, lines_after, opened, written_in};
ghost use Rattle.mem_image.specs.Views.{view};
ghost use Rattle.rtm_core.specs.Calls.{touch_of, store_of, touched_in};
ghost use Rattle.rtm_core.specs.Footprint.{read_limit, write_limit, nothing_touched, read_after};
ghost use Rattle.rtm_core.specs.Transactions.{seen_in, kept_of, meets, has_room_in};
ghost use Rattle.rtm_core.specs.code.Slots.{HasBuffers, lines_of};

use crate::Access;
use crate::buffers::Buffer;
use line_sets::LineSet;
use mem_image::{Image, LINE_SIZE, Size};
use std::alloc::{AllocError, Global};
use std::marker::Model;

const LINES: usize = 512;

/// The place of a thread's transaction. Contracts see the transaction, if one is open.
#[derive(Drop)]
pub(crate) struct Slot<C> {
    keep: Option<C>,
    reads: LineSet<8192>,
    writes: LineSet<512>,
    buffers: Vec<Buffer>,
}

impl<C> Model for Slot<C> {
    ghost use Rattle.std.specs.Prelude.{Option};
    ghost use Rattle.std.specs.Coded.{codes, coded_option};
    ghost use Rattle.rtm_core.specs.Calls.{transaction_code};
    ghost use Rattle.rtm_core.specs.Transactions.{Transaction};
    ghost use Rattle.rtm_core.specs.code.Slots.{transaction_of, HasBuffers};

    ghost Value = { Option (Transaction C) };

    ghost coded = { coded_option (transaction_code (Prim.hlevel codes) C.code) };

    ghost view = { λ s. transaction_of s.keep s.reads s.writes s.buffers.items };

    ghost invariant = { λ s. HasBuffers s.writes s.buffers.items };
}

// Whether an access conflicts, by whether its line was read and whether it was written.
fn is_conflict(access: &Access, read: bool, written: bool) -> bool
    ensures { result ≡ ((access.now.reads && written) || (access.now.writes && (read || written))) }
{
    (access.reads && written) || (access.writes && (read || written))
}

// Whether each list that must take a line does so.
fn all_take(access: &Access, reads: bool, writes: bool) -> bool
    ensures { result ≡ ((not access.now.reads || reads) && (not access.now.writes || writes)) }
{
    (!access.reads || reads) && (!access.writes || writes)
}

impl<C: Drop> Slot<C> {
    /// A place with no transaction. It takes all memory that one ever needs.
    pub(crate) fn new(alloc: Global) -> Result<Self, AllocError>
        ensures { IfOk result (λ slot. slot ≡ None) }
    {
        let reads = LineSet::new(alloc)?;
        let writes = LineSet::new(alloc)?;
        let mut buffers = Vec::with_capacity(alloc, LINES)?;
        for _turn in 0..LINES {
            buffers.push(Buffer::new())?;
        }
        Ok(Slot {
            keep: None,
            reads,
            writes,
            buffers,
        })
    }

    /// Whether a transaction is open.
    pub(crate) fn is_open(&self) -> bool
        ensures { result ≡ is_some self.now }
    {
        self.keep.is_some()
    }

    /// Begins a transaction.
    pub(crate) fn begin(&mut self, keep: C)
        ensures { self.new ≡ Some (record { kept = keep; footprint = nothing_touched }) }
    {
        self.reads.clear();
        self.writes.clear();
        self.keep = Some(keep);
    }

    /// Drops the transaction, and gives what its beginning kept.
    pub(crate) fn abort(&mut self) -> Option<C>
        ensures kept { result ≡ kept_of self.old }
        ensures none { self.new ≡ None }
    {
        self.keep.take()
    }

    /// Whether another thread's access conflicts with the transaction.
    pub(crate) fn meets(&self, access: &Access) -> bool
        ensures { result ≡ meets (touch_of access.now) self.now }
    {
        if self.keep.is_none() {
            return false;
        }
        let line = access.addr / LINE_SIZE;
        is_conflict(access, self.reads.has(line), self.writes.has(line))
    }

    /// Whether the transaction's sets take the line of an access.
    pub(crate) fn has_room(&self, access: &Access) -> bool
        ensures { result ≡ has_room_in (touch_of access.now) self.now }
    {
        if self.keep.is_none() {
            return true;
        }
        let line = access.addr / LINE_SIZE;
        all_take(access, self.reads.takes(line), self.writes.takes(line))
    }

    /// The word of an access, as the transaction sees it.
    pub(crate) fn read(&self, image: &Image, addr: u64, size: Size) -> Option<u64>
        ensures word { result ≡ read_of (seen_in self.now image.now) addr (bytes size) }
        ensures below { IfSome result (λ word. word < 2 ^ (8 * bytes size)) }
    {
        if self.keep.is_none() || !image.valid(addr, size) {
            return image.read(addr, size);
        }
        match self.writes.place(addr / LINE_SIZE) {
            None => image.read(addr, size),
            Some(place) => {
                let old = image.bytes(addr, size)?;
                Some(self.buffers[place].word((addr % LINE_SIZE) as usize, old))
            }
        }
    }

    /// Adds an access to what the transaction touched, and puts its word, if it has one, into the buffer of its line.
    pub(crate) fn touch(&mut self, access: &Access, word: Option<u64>)
        requires room { has_room_in (touch_of access.now) self.old ≡ true }
        requires within { access.now.addr % line_size + bytes access.now.size ≤ line_size }
        requires writes { IfSome word (λ _. access.now.writes ≡ true) }
        ensures { self.new ≡ touched_in (touch_of access.now) (store_of access.now word) self.old }
    {
        if self.keep.is_none() {
            return;
        }
        note(&mut self.reads, access);
        put_word(&mut self.writes, &mut self.buffers, access, word);
    }

    /// Ends the transaction: its bytes go to memory. Gives what its beginning kept.
    pub(crate) fn commit(&mut self, image: &mut Image) -> Option<C>
        ensures memory { image.new ≡ seen_in self.old image.old }
        ensures kept { result ≡ kept_of self.old }
        ensures none { self.new ≡ None }
    {
        if self.keep.is_some() {
            put_lines(&self.writes, &self.buffers, image);
        }
        self.keep.take()
    }
}

// Adds the line of an access to those that were read, if it reads.
fn note(reads: &mut LineSet<8192>, access: &Access)
    requires { (not access.now.reads || takes read_limit reads.old (line_of access.now.addr)) ≡ true }
    ensures { reads.new ≡ read_after access.now.reads reads.old (line_of access.now.addr) }
{
    if access.reads {
        reads.add(access.addr / LINE_SIZE).unwrap();
    }
}

// Opens the line of an access, if it writes, and puts its word there, if it has one.
fn put_word(
    writes: &mut LineSet<512>,
    buffers: &mut Vec<Buffer>,
    access: &Access,
    word: Option<u64>,
)
    requires buffers { HasBuffers writes.old buffers.old.items }
    requires room { (not access.now.writes || takes write_limit writes.old (line_of access.now.addr)) ≡ true }
    requires within { access.now.addr % line_size + bytes access.now.size ≤ line_size }
    requires writes { IfSome word (λ _. access.now.writes ≡ true) }
    ensures lines { lines_of writes.new buffers.new.items ≡ lines_after (touch_of access.now) (store_of access.now word) (lines_of writes.old buffers.old.items) }
    ensures buffers { HasBuffers writes.new buffers.new.items }
{
    if !access.writes {
        return;
    }
    let place = open_line(writes, buffers, access.addr / LINE_SIZE);
    if let Some(word) = word {
        let at = (access.addr % LINE_SIZE) as usize;
        buffers[place].store(at, access.size, word);
    }
}

// The place of a line among those that were written. One that isn't among them gets a blank buffer.
fn open_line(writes: &mut LineSet<512>, buffers: &mut Vec<Buffer>, line: u64) -> usize
    requires buffers { HasBuffers writes.old buffers.old.items }
    requires room { takes write_limit writes.old line ≡ true }
    ensures lines { lines_of writes.new buffers.new.items ≡ opened (lines_of writes.old buffers.old.items) line }
    ensures place { place_in writes.new line ≡ Some result }
    ensures buffers { HasBuffers writes.new buffers.new.items }
{
    if let Some(place) = writes.place(line) {
        return place;
    }
    let place = writes.len();
    writes.add(line).unwrap();
    buffers[place].clear();
    place
}

// Puts the bytes of each line into memory.
fn put_lines(writes: &LineSet<512>, buffers: &Vec<Buffer>, image: &mut Image)
    requires { HasBuffers writes.now buffers.now.items }
    ensures { image.new ≡ view image.old (written_in (lines_of writes.now buffers.now.items)) }
{
    let lines = writes.lines();
    for i in 0..lines.len() {
        buffers[i].commit(image, lines[i]);
    }
}
