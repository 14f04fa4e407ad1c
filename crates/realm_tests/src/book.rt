//! A book, as it fills.

use cm_book::{Book, BookFault};
use cm_world::{Entry, Event, Reply};
use std::alloc::Global;

/// An entry of this caller.
fn entry(caller: u32) -> Entry {
    Entry {
        caller,
        event: Event::Show(0),
        reply: Reply::Gone(0),
    }
}

/// Reserves room for two entries in an empty book, and puts down one: whether there was room.
fn put_first(book: &mut Book) -> bool {
    if book.reserve(2) == Ok(()) && book.reserved() == 2 {
        book.push_reserved(entry(7));
        return true;
    }
    false
}

/// Gives up room for two entries: whether so much was reserved.
fn give_up(book: &mut Book) -> bool {
    if book.reserved() == 2 {
        book.release(2);
        return true;
    }
    false
}

/// Whether an empty book of three entries tells its room as it fills.
fn fills(book: &mut Book) -> [bool; 6] {
    [
        put_first(book) && book.entries().len() == 1,
        book.fits(1) && !book.fits(2),
        book.reserve(2) == Err(BookFault::HistoryFull),
        book.reserve(1) == Ok(()),
        give_up(book),
        book.fits(2),
    ]
}

/// What comes of filling a book up to its limit of three entries.
fn filled(alloc: Global) -> [bool; 6] {
    let mut book = Book::new(alloc, 3);
    let told = fills(&mut book);
    drop(book);
    told
}

/// A book takes entries up to its limit, and keeps them in order.
#[test]
fn keeps_a_history(rt: HostRuntime) {
    let told = filled(rt.alloc());
    assert!(rt; told == [true; 6], "{told:?}");
}
