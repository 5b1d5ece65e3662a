//! A frame, and the iterator over its datagrams.

ghost use Rattle.std.specs.Prelude.{◌≡◌, ◌+◌, ◌<◌, ◌≤◌, ◌↔◌, ℕ, List, [], ◌∷◌, ◌++◌, length, take, drop, slice_get, true, false, IsOk, IfOk, IfErr, OnOk, OnErr, IsOkAnd};
ghost use Rattle.std.specs.Option.{ForSome};

use crate::bytes::{MAX_LEN, OVERHEAD, overwrite, promise_more, put, put_datagram, state_length};
use crate::command::Command;
use crate::datagram::Datagram;
use crate::fault::FrameFault;
use crate::reading::{fault_at, first_datagram, inside_of};
use arrayvec::ArrayVec;
use std::marker::Model;

/// An EtherCAT frame (ETG.1000.4): a header and datagrams, 1,500 bytes at most.
///
/// It holds the datagrams in one canonical encoding: reserved bits, the circulating bit and the IRQ word are zero, and there is no
/// padding. `parse` turns what it reads into that encoding.
#[derive(Drop)]
pub struct Frame {
    bytes: ArrayVec<u8, MAX_LEN>,
    count: usize,
    // where the last datagram begins, in bytes from the frame's start
    last: usize,
}

impl Model for Frame {
    ghost use Rattle.std.specs.Prelude.{List, drop};
    ghost use Rattle.ecat_frame.specs.Frame.{Pdu};
    ghost use Rattle.ecat_frame.specs.Retained.{Keeps, pdus};

    ghost Value = { List Pdu };

    ghost view = { λ frame. pdus frame.count (drop 2 frame.bytes.items) };

    ghost invariant = { λ frame. Keeps frame.bytes.items frame.count frame.last
        (pdus frame.count (drop 2 frame.bytes.items)) };
}

/// An iterator over the datagrams of a frame (ETG.1000.4), in order.
#[derive(Drop)]
pub struct Datagrams<'a> {
    rest: &'a [u8],
    // how many datagrams are left
    left: usize,
}

impl<'a> Model for Datagrams<'a> {
    ghost use Rattle.std.specs.Prelude.{List};
    ghost use Rattle.ecat_frame.specs.Frame.{Pdu};
    ghost use Rattle.ecat_frame.specs.Retained.{IsRest, pdus};

    ghost Value = { List Pdu };

    ghost view = { λ datagrams. pdus datagrams.left datagrams.rest.now };

    ghost invariant = { λ datagrams. IsRest datagrams.rest.now datagrams.left
        (pdus datagrams.left datagrams.rest.now) };
}

impl<'a> Iterator for Datagrams<'a> {
    ghost use Rattle.std.specs.Iterator.{YieldsFirstBy, item_count};
    ghost use Rattle.ecat_frame.specs.Frame.{pdu};

    type Item = Datagram<'a>;

    ghost next_gives = { YieldsFirstBy pdu (λ rest. rest) };

    ghost remaining = { item_count (λ rest. rest) };

    fn next(&mut self) -> Option<Datagram<'a>> {
        let (datagram, _, rest) = first_datagram(self.rest)?;
        self.rest = rest;
        self.left -= 1;
        Some(datagram)
    }
}

impl Frame {
    ghost use Rattle.ecat_frame.specs.Frame.{Pdu, pdu, sent, IsFrame, AreDatagrams, spelled, spelling};
    ghost use Rattle.ecat_frame.specs.Fault.{IsFaultOf, BreaksOff, IsFaultInside, IsBadAt};
    ghost use Rattle.ecat_frame.specs.Answer.{answered};

    /// Makes a frame without datagrams.
    pub fn new() -> Frame
        ensures { result ≡ [] }
    {
        let mut bytes = ArrayVec::new();
        put(&mut bytes, &[0x00, 0x10]);
        Frame {
            bytes,
            count: 0,
            last: 2,
        }
    }

    /// Removes all datagrams.
    pub fn clear(&mut self)
        ensures { self.new ≡ [] }
    {
        self.bytes.clear();
        put(&mut self.bytes, &[0x00, 0x10]);
        self.count = 0;
        self.last = 2;
    }

    /// Appends a datagram with a working counter of 0.
    ///
    /// # Errors
    ///
    /// `FrameFull` if the frame would be longer than 1,500 bytes. It is unchanged then.
    pub fn push(
        &mut self,
        command: Command,
        index: u8,
        address: u32,
        content: &[u8],
    ) -> Result<(), FrameFault>
        ensures ok { OnOk result (self.new ≡ self.old ++ sent command index address content.now ∷ []) }
        ensures full { IfErr result (λ fault. fault ≡ FrameFault.FrameFull) }
        ensures err { OnErr result (self.new ≡ self.old) }

        // It succeeds exactly if the new frame has at most 1,500 bytes. A datagram takes 12 bytes besides its content.
        ensures room { let new = self.old ++ sent command index address content.now ∷ []
            in IsOk result ↔ (length (spelling new) ≤ MAX_LEN) }
        ensures grows { let new = self.old ++ sent command index address content.now ∷ []
            in length (spelling new) ≡ length (spelling self.old) + 12 + length content.now }
    {
        if self.bytes.len() + OVERHEAD + content.len() > MAX_LEN {
            return Err(FrameFault::FrameFull);
        }
        self.append(Datagram {
            command: Command::from(command.code()),
            index,
            address,
            content,
            counter: 0,
        });
        Ok(())
    }

    /// Appends a datagram, for which there must be room.
    fn append(&mut self, datagram: Datagram<'_>)
        requires { length (spelling self.old) + 12 + length datagram.content.now ≤ MAX_LEN }
        ensures { self.new ≡ self.old ++ pdu datagram.entry ∷ [] }
    {
        promise_more(&mut self.bytes, self.last);
        self.last = self.bytes.len();
        self.count += 1;
        put_datagram(&mut self.bytes, datagram);
        state_length(&mut self.bytes);
    }

    /// The frame's bytes, 1,500 at most.
    pub fn as_bytes(&self) -> &[u8]
        ensures spelling { result.now ≡ spelling self.now }
        ensures frame { IsFrame result.now self.now }
        ensures fits { length result.now ≤ MAX_LEN }
    {
        self.bytes.as_slice()
    }

    /// The number of datagrams in the frame.
    pub fn count(&self) -> usize
        ensures { result ≡ length self.now }
    {
        self.count
    }

    /// The datagrams, in order.
    pub fn datagrams(&self) -> Datagrams<'_>
        ensures { result ≡ self.now }
    {
        Datagrams {
            rest: &self.bytes.as_slice()[2..],
            left: self.count,
        }
    }

    /// The datagrams from index `k` on.
    fn datagrams_from(&self, k: usize) -> Datagrams<'_>
        requires { k ≤ length self.now }
        ensures { result ≡ drop k self.now }
    {
        let mut datagrams = self.datagrams();
        for _ in 0..k {
            let _ = datagrams.next();
        }
        datagrams
    }

    /// The datagram at index `k`, which must be below `count`.
    pub fn datagram(&self, k: usize) -> Datagram<'_>
        requires { k < length self.now }
        ensures { slice_get self.now k ≡ Some (pdu result) }
    {
        match self.datagrams_from(k).next() {
            Some(datagram) => datagram,
            None => unreachable!(),
        }
    }

    /// The byte offset of the content of the datagram at index `k`.
    fn content_at(&self, k: usize) -> usize
        requires { k < length self.now }
        ensures place { result ≡ 12 + length (spelled (take k self.now) true) }
        ensures fits { result ≤ MAX_LEN }
    {
        self.bytes.len() - self.datagrams_from(k).rest.len() + 10
    }

    /// Answers the datagram at index `k`: replaces its content and its working counter. `k` must be below `count`, and the new content
    /// as long as the old.
    pub fn answer(&mut self, k: usize, content: &[u8], counter: u16)
        requires inside { k < length self.old }
        requires equal { ForSome (slice_get self.old k) (λ d. length content.now ≡ length d.content) }
        ensures { self.new ≡ answered self.old k content.now counter }
    {
        let at = self.content_at(k);
        overwrite(&mut self.bytes, at, content);
        overwrite(&mut self.bytes, at + content.len(), &counter.to_le_bytes());
    }

    /// Reads a frame. Ignores reserved bits, circulating bits and IRQ words, accepts any command, and drops the padding after the
    /// stated length.
    ///
    /// # Errors
    ///
    /// `BadFrame` with the place of the first fault, judged in this order: 0 if the header is cut off; 1 if the type isn't 1; 0 if the
    /// stated length is above 1,498 or above the number of bytes that follow; then the place of the first datagram that is cut off, or
    /// of the first byte between the last datagram and the stated length.
    pub fn parse(bytes: &[u8]) -> Result<Frame, FrameFault>
        // Only frames are read, and every frame is.
        ensures found { IfOk result (IsFrame bytes.now) }
        ensures only { (ds : List Pdu) → IsFrame bytes.now ds → IsOkAnd result (λ frame. frame ≡ ds) }

        // Only bad bytes are refused, at the place of their first fault, and all bad bytes are.
        ensures fault { IfErr result (IsFaultOf bytes.now) }
        ensures place { (at : ℕ) → IsBadAt bytes.now at → result ≡ Err (FrameFault.BadFrame at) }
    {
        Frame::read(inside_of(bytes)?)
    }

    /// Reads the datagrams inside the stated length.
    fn read(inside: &[u8]) -> Result<Frame, FrameFault>
        requires { length inside.now ≤ 1498 }
        ensures ok { IfOk result (λ frame. AreDatagrams inside.now frame false) }
        ensures err { IfErr result (IsFaultInside inside.now) }
    {
        let mut frame = Frame::new();
        if inside.is_empty() {
            return Ok(frame);
        }
        let mut rest = inside;
        let mut more = true;
        while more {
            let Some((datagram, follows, after)) = first_datagram(rest) else {
                return Err(fault_at(inside, rest));
            };
            frame.append(datagram);
            rest = after;
            more = follows;
        }
        if !rest.is_empty() {
            return Err(fault_at(inside, rest));
        }
        Ok(frame)
    }
}
