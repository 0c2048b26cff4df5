//! Books that begin with some records.
use crate::records::{ONE_PLATE, entry_of};
use plate_book::Book;
use std::alloc::Global;

/// Books the entries of these records. The first record that isn't one, or whose entry is refused, is the error, and
/// ends it.
pub fn book_all<'a>(book: &mut Book, records: &[&'a str]) -> Result<(), &'a str> {
    for record in records {
        let entry = entry_of(record).ok_or(*record)?;
        book.apply(entry).or(Err(*record))?;
    }
    Ok(())
}

/// A book that takes so many entries of so many plates, with the first entries of the journal of one plate. The error
/// is a record that is refused, or tells that there is no such book.
pub fn begun(
    alloc: Global,
    limit: u32,
    max_plates: u32,
    count: usize,
) -> Result<Book, &'static str> {
    let mut book = Book::new(alloc, limit, max_plates).or(Err("no book has these limits"))?;
    let records = &ONE_PLATE[..count.min(62)];
    book_all(&mut book, records)?;
    Ok(book)
}
