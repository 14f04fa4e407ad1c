//! Lines out of a source.

ghost use Rattle.cm_io.specs.Counts.{one_more};
ghost use Rattle.cm_io.specs.Lines.{Moves};
ghost use Rattle.cm_io.specs.LinesInside.{EndsOnce, Fills, GaveBytes, LineGrows, TakesLine};
ghost use Rattle.cm_io.specs.LinesInside.{TakesPart, TellsLine};
ghost use Rattle.cm_io.specs.Orders.{MovesCame, gave as gave_move};
ghost use Rattle.cm_io.specs.OrdersInside.{Pulled};
ghost use Rattle.cm_io.specs.Outside.{AsSource, ReadCause, Rose};
ghost use Rattle.std.specs.Io.KnownBytes.{prepend_known};
ghost use Rattle.std.specs.List.{position};
ghost use Rattle.std.specs.Prelude.{◌≡◌, ◌≢◌, ◌==◌, ◌<◌, ◌≤◌, ◌++◌, ◌∷◌, ℕ, List as Seq, [], length, false};
ghost use Rattle.std.specs.Prelude.{true, Contains, IfOk, OnOk};

use crate::input::make_piece;
use crate::{Got, Source};
use cm_names::{Bytes, List, Memory};
use std::alloc::{AllocError, Global};
use std::marker::Model;
use std::sync::Wait;
use std::thread::Threads;

/// The byte that ends a line.
const LINE_END: u8 = 0x0A;

/// The length of the longest line, its end not counted.
const LONGEST: usize = 65_536;

/// What comes next out of a source of lines.
#[derive(Debug, Drop, PartialEq, Eq)]
pub enum Next {
    /// The next line, without the byte that ends it. It has at most 65,536 bytes.
    Line(Bytes),
    /// No line is left, and the source is at its end.
    End,
    /// The next line has more than 65,536 bytes. It was passed over.
    TooLong,
    /// The source failed; its count of faults rose. No whole line is left of the bytes that it gave before.
    ReadFault,
    /// Memory ran out.
    Memory,
}

/// Takes one line after another out of a source, however the source cuts its bytes into pieces.
///
/// Contracts see the bytes that it holds: the source gave them, and they belong to no line told so
/// far. They are those of `piece` from `start` up to `end`. And they see whether the source came to
/// its end: after that it isn't read again. Each byte is looked at once and copied once, so the
/// time grows with the number of bytes and reads alone.
#[derive(Drop)]
pub struct LineReader {
    alloc: Global,
    piece: Vec<u8>,
    start: usize,
    end: usize,
    over: bool,
}

impl Model for LineReader {
    ghost use Rattle.std.specs.Prelude.{◌≡◌, ◌-◌, ◌≤◌, take, drop, length};
    ghost use Rattle.cm_io.specs.LinesInside.{Reader};

    ghost Value = { Reader };

    ghost view = { λ r. record {
      held = take (r.end - r.start) (drop r.start r.piece.items);
      over = r.over;
    } };

    ghost invariant = { λ r. (r.start ≤ r.end) × (r.end ≤ length r.piece.items) ×
        (length r.piece.items ≡ 65536) };
}

impl LineReader {
    /// A reader that holds nothing. It takes 65,536 bytes; `Memory` where memory ran out.
    pub fn new(alloc: Global) -> Result<LineReader, Memory>
        ensures { IfOk result (λ reader. reader ≡ record { held = []; over = false }) }
    {
        let piece = make_piece(alloc)?;
        Ok(LineReader {
            alloc,
            piece,
            start: 0,
            end: 0,
            over: false,
        })
    }

    /// Takes the next line. The byte 0x0A ends each line; a last line without it counts where it isn't empty.
    /// A whole line that is held is told without a read, and so is what is held after the source's end.
    /// It reads only while no line ends in what it has, so never further than the read that holds the line's
    /// end, and a read that fails is told.
    ///
    /// It is `TooLong` exactly where the next line has more than 65,536 bytes, and the next call
    /// goes on after that line. It is `End` exactly where no byte is left. `ReadFault` comes only
    /// where the source's count of faults rose in this call, and no line end is among the bytes
    /// taken so far, and never from a quiet source; `Memory` only where memory ran out. After these
    /// two a part of a line is lost, so make no further call.
    pub fn next<R: Threads + Wait + Sync, S: Source>(&mut self, rt: &R, source: &mut S) -> Next
        ensures told { let old : AsSource = record {
          left = S.left source.old;
          given = S.given source.old;
          faults = S.faults source.old;
        } in
            let new : AsSource = record {
              left = S.left source.new;
              given = S.given source.new;
              faults = S.faults source.new;
            } in
            (given : Seq ℕ) × Moves old new given × EndsOnce self.old self.new old new given
            × TellsLine (self.old.held ++ given) self.new result
            × Pulled (S.order source.old) (S.order source.new) self.old.held given }
        ensures lines { self.old.over ≡ false → TakesLine (prepend_known self.old.held (S.left source.old))
            (prepend_known self.new.held (S.left source.new)) result }
        ensures ready { Contains self.old.held 10 → source.new ≡ source.old }
        ensures over { self.old.over ≡ true → source.new ≡ source.old }
        ensures beside { S.beside source.new ≡ S.beside source.old }
        ensures later { S.faults source.old ≤ S.faults source.new }
        ensures fault { result ≡ Next.ReadFault → Rose (S.faults source.old) (S.faults source.new) }
        ensures once { result ≡ Next.ReadFault → S.faults source.new ≡ one_more (S.faults source.old) }
        ensures told_fault { result ≢ Next.ReadFault → S.faults source.new ≡ S.faults source.old }
        ensures quiet { S.quiet source.old →
            S.quiet source.new × (S.faults source.new ≡ S.faults source.old) }
        ensures unfailing { S.quiet source.old → result ≢ Next.ReadFault }
    {
        let mut line = Vec::new(self.alloc);
        'parts: for _ in rt.forever() {
            match self.take_part(&mut line) {
                Ok(true) => return whole_line(line),
                Ok(false) => {}
                Err(_) => return Next::Memory,
            }
            if self.over {
                return last_line(line);
            }
            match self.fill(rt, source) {
                Got::Bytes(_) => {}
                Got::End => return last_line(line),
                Got::Failed => return Next::ReadFault,
            }
        }
        unreachable!()
    }

    /// Reads the next piece, where nothing is held and the source isn't over.
    fn fill<R: Threads + Wait + Sync, S: Source>(&mut self, rt: &R, source: &mut S) -> Got
        requires { self.old.held ≡ [] }
        ensures bytes { Fills (S.left source.old) (S.left source.new) self.new.held result }
        ensures gave { GaveBytes (S.given source.old) (S.given source.new) self.new.held result }
        ensures order { MovesCame (S.order source.old) (S.order source.new) (gave_move self.new.held ∷ []) }
        ensures over { result ≢ Got.End → self.new.over ≡ self.old.over }
        ensures ended { result ≡ Got.End → self.new.over ≡ true }
        ensures beside { S.beside source.new ≡ S.beside source.old }
        ensures cause { ReadCause (S.faults source.old) (S.faults source.new) result }
        ensures quiet { S.quiet source.old → S.quiet source.new × (result ≢ Got.Failed) }
    {
        let got = source.read(rt, self.piece.as_mut_slice());
        if let Got::Bytes(count) = got {
            self.start = 0;
            self.end = count;
        }
        if let Got::End = got {
            self.over = true;
        }
        got
    }

    /// Moves what is held to the end of `line`, up to the next line end, and passes over that.
    /// Tells whether there is one.
    fn take_part(&mut self, line: &mut Vec<u8>) -> Result<bool, AllocError>
        ensures part { IfOk result (λ ended.
            TakesPart self.old.held self.new.held line.old.items line.new.items ended) }
        ensures over { self.new.over ≡ self.old.over }
    {
        let held = &self.piece[self.start..self.end];
        match first_line_end(held) {
            Some(count) => {
                grow(line, &held[..count])?;
                self.start += count + 1;
                Ok(true)
            }
            None => {
                grow(line, held)?;
                self.start = self.end;
                Ok(false)
            }
        }
    }
}

/// The place of the first byte that ends a line, if there is one.
fn first_line_end(bytes: &[u8]) -> Option<usize>
    ensures { result ≡ position (λ byte. byte == LINE_END) bytes.now }
{
    bytes.iter().position(|byte| *byte == LINE_END)
}

/// Puts `part` after `line`, unless that is too long already.
fn grow(line: &mut Vec<u8>, part: &[u8]) -> Result<(), AllocError>
    ensures { OnOk result (LineGrows line.old.items line.new.items part.now) }
{
    if line.len() <= LONGEST {
        line.extend_from_slice(part)?;
    }
    Ok(())
}

/// The answer where the line `line` was taken, or the prefix of one that is too long.
fn whole_line(line: Vec<u8>) -> Next
    ensures short { length line.items ≤ LONGEST → result ≡ Next.Line line.items }
    ensures long { LONGEST < length line.items → result ≡ Next.TooLong }
{
    if line.len() > LONGEST {
        return Next::TooLong;
    }
    Next::Line(List::from_vec(line))
}

/// The answer where `line` is all that was left.
fn last_line(line: Vec<u8>) -> Next
    ensures none { length line.items ≡ 0 → result ≡ Next.End }
    ensures short { 0 < length line.items → length line.items ≤ LONGEST → result ≡ Next.Line line.items }
    ensures long { LONGEST < length line.items → result ≡ Next.TooLong }
{
    if line.is_empty() {
        return Next::End;
    }
    whole_line(line)
}
